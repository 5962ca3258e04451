// 19 PREEMPT f and 20 RETURN f (document 02, item 11).

#![tactic(auto)]

ghost use Rattle.std.specs.Prelude.{ℕ, ◌≡◌, ◌<◌};
ghost use Rattle.layout.specs.All.{program_size};
ghost use Rattle.rows_laws.specs.All.{Room, IsRow};
ghost use Rattle.moves.specs.Motion.{moved};
ghost use Rattle.state.specs.All.{rows_of};
ghost use Rattle.state.specs.Notes.{number_of_no};
ghost use Rattle.preempt_laws.specs.Preempting.{seized, interrupt_on, take_over, preempt_seized, preempt_rows, ask_resume, ask_give_back, resume_on, resume_rows, give_back_now, give_back_rows};

use constants::End;
use flow::{ask_time, to_future};
use layout::FIRST;
use moves::{stop, with_outcome};
use rows::cells::{priority, read, set_time, time};
use rows::future::{cancel, find_loser};
use rows::lists::{first, put, take_first};
use rows::{Chain, NUMBER, Row, Server};
use servers::freeing::free_one;
use servers::taking::{SELDOM, hold_units, take_units};
use servers::units::{capacity, holder, in_use, preempted, server_at};
use state::{Moving, Note, Noting, Scalars};

// In use, and not by PREEMPT.
fn seized(tally: &[u64], v: Server) -> bool
    ensures { result ≡ seized tally.now v }
{
    preempted(tally, v) == 0 && in_use(tally, v) > 0
}

// Row j of the FEL goes to the interrupted one's list of a facility, with its remaining ticks kept.
fn interrupt_on(work: &mut [u32], clock: u64, v: Server, j: Row)
    requires room { Room work.old }
    ensures { work.new ≡ interrupt_on work.old clock v j }
{
    let left = time(work, j).saturating_sub(clock);
    cancel(work, j);
    set_time(work, j, left);
    put(work, Chain::interrupted(v), j);
}

fn take_over(
    tables: &[u32],
    work: &mut [u32],
    tally: &mut [u64],
    x: Moving,
    v: Server,
    j: Row,
    number: u64,
) -> Scalars
    requires room { Room work.old }
    ensures { rows_of result work.new tally.new
        ≡ take_over tables.now work.old tally.old x v j number }
{
    let units = in_use(tally, v);
    let all = capacity(tables, v);
    let s = x.scalars();
    let k = x.row();
    interrupt_on(work, s.clock, v, j);
    hold_units::<SELDOM>(
        work,
        tally,
        k,
        s.clock,
        v,
        units,
        number,
        k.number(),
        1,
        all,
    );
    with_outcome(s, Noting::of(Note::Entered))
}

// Of a seized facility: "a holder of lower priority that stands on the FEL" loses it, or PREEMPT waits.
fn preempt_seized(
    tables: &[u32],
    work: &mut [u32],
    tally: &mut [u64],
    x: Moving,
    v: Server,
    number: u64,
) -> Scalars
    requires room { Room work.old }
    ensures { rows_of result work.new tally.new
        ≡ preempt_seized tables.now work.old tally.old x v number }
{
    let who = holder(tally, v);
    let k = x.row();
    let below = priority(work, k);
    if let Some(j) = find_loser(work, who, below, k.number(), v) {
        return take_over(tables, work, tally, x, v, j, number);
    }
    let s = x.scalars();
    let outcome = take_units::<SELDOM>(tables, work, tally, k, s.serial, s.clock, v, 1, number, 1);
    with_outcome(s, Noting::of(outcome))
}

pub fn preempt(tables: &[u32], work: &mut [u32], tally: &mut [u64], x: Moving, at: usize) -> Scalars
    requires room { Room work.old }
    requires at_lt_program_size { at < program_size }
    ensures { rows_of result work.new tally.new
        ≡ preempt_rows tables.now work.old tally.old x at }
{
    let v = server_at(tables, at + FIRST);
    let k = x.row();
    let number = read(work, NUMBER, k) as u64;
    if seized(tally, v) {
        return preempt_seized(tables, work, tally, x, v, number);
    }
    let s = x.scalars();
    let outcome = take_units::<SELDOM>(tables, work, tally, k, s.serial, s.clock, v, 1, number, 1);
    with_outcome(s, Noting::of(outcome))
}

// May the interrupted one, if there is one, go on at the clock plus its remaining ticks?
fn ask_resume(work: &[u32], x: Scalars, interrupted: Option<Row>) -> Result<(), End>
    requires room { Room work.now }
    ensures { (j : ℕ) → IsRow j interrupted → number_of_no result ≡ ask_resume work.now x j }
{
    match interrupted {
        Some(j) => ask_time(x, time(work, j)),
        None => Ok(()),
    }
}

// May the transaction of that number give a facility back? 24, then 27, then 22.
fn ask_give_back(work: &[u32], tally: &[u64], x: Scalars, v: Server, number: u64) -> Result<(), End>
    requires room { Room work.now }
    ensures { number_of_no result ≡ ask_give_back work.now tally.now x v number }
{
    if in_use(tally, v) < 1 {
        return Err(End::NotInUse);
    }
    if preempted(tally, v) == 0 {
        return Err(End::NotHolder);
    }
    if holder(tally, v) != number {
        return Err(End::NotHolder);
    }
    ask_resume(work, x, first(work, Chain::interrupted(v)))
}

// Row j, the interrupted one, goes to the FEL.
fn resume_on(work: &mut [u32], x: Scalars, v: Server, j: Row) -> Scalars
    requires room { Room work.old }
    ensures { moved result work.new ≡ resume_on work.old x v j }
{
    let due = x.clock.saturating_add(time(work, j));
    take_first(work, Chain::interrupted(v));
    to_future(work, x, j, due)
}

fn resume(
    tables: &[u32],
    work: &mut [u32],
    tally: &mut [u64],
    x: Moving,
    v: Server,
    j: Row,
) -> Scalars
    requires room { Room work.old }
    ensures { rows_of result work.new tally.new
        ≡ resume_rows tables.now work.old tally.old x v j }
{
    let units = in_use(tally, v);
    let all = capacity(tables, v);
    let who = read(work, NUMBER, j) as u64;
    let k = x.row();
    let y = resume_on(work, x.scalars(), v, j);
    hold_units::<SELDOM>(work, tally, k, y.clock, v, units, who, j.number(), 0, all);
    with_outcome(y, Noting::of(Note::Entered))
}

// The interrupted one has the facility again; "if there is none, it acts as RELEASE".
fn give_back_now(
    tables: &[u32],
    work: &mut [u32],
    tally: &mut [u64],
    x: Moving,
    v: Server,
) -> Scalars
    requires room { Room work.old }
    ensures { rows_of result work.new tally.new
        ≡ give_back_now tables.now work.old tally.old x v }
{
    if let Some(j) = first(work, Chain::interrupted(v)) {
        return resume(tables, work, tally, x, v, j);
    }
    let s = x.scalars();
    let left = in_use(tally, v).saturating_sub(1);
    free_one::<SELDOM>(tables, work, tally, x.row(), s.clock, v, left);
    with_outcome(s, Noting::of(Note::Entered))
}

pub fn give_back(
    tables: &[u32],
    work: &mut [u32],
    tally: &mut [u64],
    x: Moving,
    at: usize,
) -> Scalars
    requires room { Room work.old }
    requires at_lt_program_size { at < program_size }
    ensures { rows_of result work.new tally.new
        ≡ give_back_rows tables.now work.old tally.old x at }
{
    let v = server_at(tables, at + FIRST);
    let number = read(work, NUMBER, x.row()) as u64;
    if let Err(end) = ask_give_back(work, tally, x.scalars(), v, number) {
        return stop(x.scalars(), end);
    }
    give_back_now(tables, work, tally, x, v)
}
