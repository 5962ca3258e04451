// 4 SEIZE f and 6 ENTER s, b: a SEIZE takes one unit, and its transaction holds the facility.
ghost use Rattle.std.specs.Prelude.{◌≡◌, ◌<◌};
ghost use Rattle.rows_laws.specs.All.{Room};
ghost use Rattle.layout.specs.All.{program_size};
ghost use Rattle.state.specs.All.{rows_of};
ghost use Rattle.state.specs.Notes.{note_number};
ghost use Rattle.moves.specs.Motion.{with_outcome};
ghost use Rattle.servers_laws.specs.Taking.{hold_units, queue_up, take_units, seize_rows, enter_rows};

use crate::units::{capacity, change_use, in_use, server_at};
use crate::waking::check_wels;
use layout::{EDITION, FIRST, QL_LENGTH, SECOND, count, number, set_count};
use moves::{row_goes_on, row_waits, with_outcome};
use rows::cells::read;
use rows::future::keep_holder;
use rows::{Chain, NUMBER, Row, Server};
use state::{Moving, Note, Noting, Scalars, update_server};

// What takes or frees units has an instance for SEIZE and RELEASE, which come often, and one for the other kinds: with one caller it is built
// into the turn, where tests of indices fall away. With one for each kind the turn is longer and slower (ql1000: 24.3 and 23.4 million
// turns a second).
pub const OFTEN: usize = 0;

pub const SELDOM: usize = 1;

// Row `moving` enters; so many units are in use, and `who`, whose row is k, holds the server, 0 for nobody; 1 for by PREEMPT.
pub fn hold_units<const INSTANCE: usize>(
    work: &mut [u32],
    tally: &mut [u64],
    moving: Row,
    clock: u64,
    v: Server,
    units: u64,
    who: u64,
    k: u32,
    preempts: u64,
    capacity: u64,
)
    requires room { Room work.old }
    ensures { (x : Scalars) → x.moving ≡ moving → x.clock ≡ clock
        → rows_of (with_outcome x 0) work.new tally.new
        ≡ hold_units work.old tally.old x v units who k preempts capacity }
{
    change_use(tally, v, clock, units, who, preempts);
    keep_holder(work, v, k);
    check_wels(work, v, units, capacity);
    row_goes_on(work, moving);
}

// Row k waits on the QL.
fn queue_up(
    work: &mut [u32],
    tally: &mut [u64],
    k: Row,
    serial: u32,
    clock: u64,
    v: Server,
    edition: u32,
) -> Note
    requires room { Room work.old }
    ensures { (x : Scalars) → x.moving ≡ k → x.serial ≡ serial → x.clock ≡ clock
        → rows_of (with_outcome x (note_number result)) work.new tally.new
        ≡ queue_up work.old tally.old x v edition }
{
    update_server(tally, v.index(), clock);
    let at = QL_LENGTH + v.index();
    let n = count(tally, at).saturating_add(1);
    set_count(tally, at, n);
    row_waits(work, k, serial, Chain::queue(v), edition)
}

// Row k enters with b units, or waits.
pub fn take_units<const INSTANCE: usize>(
    tables: &[u32],
    work: &mut [u32],
    tally: &mut [u64],
    k: Row,
    serial: u32,
    clock: u64,
    v: Server,
    b: u64,
    who: u64,
    preempts: u64,
) -> Note
    requires room { Room work.old }
    ensures { (x : Scalars) → x.moving ≡ k → x.serial ≡ serial → x.clock ≡ clock
        → rows_of (with_outcome x (note_number result)) work.new tally.new
        ≡ take_units tables.now work.old tally.old x v b who preempts }
{
    let units = in_use(tally, v);
    let all = capacity(tables, v);
    if b <= all.saturating_sub(units) {
        hold_units::<INSTANCE>(
            work,
            tally,
            k,
            clock,
            v,
            units + b,
            who,
            k.number(),
            preempts,
            all,
        );
        return Note::Entered;
    }
    queue_up(work, tally, k, serial, clock, v, number(tables, EDITION))
}

pub fn seize(tables: &[u32], work: &mut [u32], tally: &mut [u64], x: Moving, at: usize) -> Scalars
    requires room { Room work.old }
    requires at_lt_program_size { at < program_size }
    ensures { rows_of result work.new tally.new
        ≡ seize_rows tables.now work.old tally.old x at }
{
    let v = server_at(tables, at + FIRST);
    let s = x.scalars();
    let k = x.row();
    let number = read(work, NUMBER, k) as u64;
    let outcome = take_units::<OFTEN>(tables, work, tally, k, s.serial, s.clock, v, 1, number, 0);
    with_outcome(s, Noting::of(outcome))
}

pub fn enter(tables: &[u32], work: &mut [u32], tally: &mut [u64], x: Moving, at: usize) -> Scalars
    requires room { Room work.old }
    requires at_lt_program_size { at < program_size }
    ensures { rows_of result work.new tally.new
        ≡ enter_rows tables.now work.old tally.old x at }
{
    let v = server_at(tables, at + FIRST);
    let b = number(tables, at + SECOND) as u64;
    let s = x.scalars();
    let outcome = take_units::<SELDOM>(tables, work, tally, x.row(), s.serial, s.clock, v, b, 0, 0);
    with_outcome(s, Noting::of(outcome))
}
