// 5 RELEASE f and 7 LEAVE s, b, which ask first whether the units are in use; a RELEASE then asks for the holder.
ghost use Rattle.std.specs.Prelude.{◌≡◌, ◌<◌};
ghost use Rattle.rows_laws.specs.All.{Room};
ghost use Rattle.layout.specs.All.{program_size};
ghost use Rattle.moves.specs.Motion.{moved, with_outcome};
ghost use Rattle.state.specs.All.{rows_of};
ghost use Rattle.state.specs.Notes.{number_of_no};
ghost use Rattle.servers_laws.specs.Freeing.{enter_freed, free_one, free_some, ask_release, release_rows, leave_rows};

use crate::taking::OFTEN;
use crate::units::{capacity, change_use, holder, in_use, preempted, server_at};
use crate::waking::{check_wels, leave_with, wake_first_ql, wake_some};
use constants::End;
use layout::{EDITION, FIRST, QL_LENGTH, SECOND, count, number, set_count};
use moves::{row_goes_on, stop, with_outcome};
use rows::cells::read;
use rows::{NUMBER, Row, Server};
use state::{Moving, Note, Noting, Scalars};

// Row k enters, and so many units are in use.
fn enter_freed(work: &mut [u32], k: Row, v: Server, units: u64, capacity: u64)
    requires room { Room work.old }
    ensures { (x : Scalars) → x.moving ≡ k
        → moved (with_outcome x 0) work.new ≡ enter_freed work.old x v units capacity }
{
    check_wels(work, v, units, capacity);
    row_goes_on(work, k);
}

// One unit is given back, and so many are in use then.
pub fn free_one<const INSTANCE: usize>(
    tables: &[u32],
    work: &mut [u32],
    tally: &mut [u64],
    k: Row,
    clock: u64,
    v: Server,
    left: u64,
)
    requires room { Room work.old }
    ensures { (x : Scalars) → x.moving ≡ k → x.clock ≡ clock
        → rows_of (with_outcome x 0) work.new tally.new
        ≡ free_one tables.now work.old tally.old x v left }
{
    let all = capacity(tables, v);
    change_use(tally, v, clock, left, 0, 0);
    wake_first_ql(work, tally, v);
    enter_freed(work, k, v, left, all);
}

// So many units are in use then, b of them just given back.
fn free_some(
    tables: &[u32],
    work: &mut [u32],
    tally: &mut [u64],
    k: Row,
    clock: u64,
    v: Server,
    units: u64,
    b: u64,
)
    requires room { Room work.old }
    ensures { (x : Scalars) → x.moving ≡ k → x.clock ≡ clock
        → rows_of (with_outcome x 0) work.new tally.new
        ≡ free_some tables.now work.old tally.old x v units b }
{
    let all = capacity(tables, v);
    change_use(tally, v, clock, units, 0, 0);
    let edition = number(tables, EDITION);
    let left = leave_with(edition, all.saturating_sub(units), b);
    let at = QL_LENGTH + v.index();
    let stay = wake_some(tables, work, v, edition, left, count(tally, at));
    set_count(tally, at, stay);
    enter_freed(work, k, v, units, all);
}

// May the transaction of that number release a facility? "Is f in use? 24", then "of a preempted facility" 27, "by another than
// the holder" 27.
fn ask_release(units: u64, taken: u64, who: u64, number: u64) -> Result<(), End>
    ensures { number_of_no result ≡ ask_release units taken who number }
{
    if units < 1 {
        return Err(End::NotInUse);
    }
    if taken != 0 {
        return Err(End::NotHolder);
    }
    if who != number {
        return Err(End::NotHolder);
    }
    Ok(())
}

pub fn release(tables: &[u32], work: &mut [u32], tally: &mut [u64], x: Moving, at: usize) -> Scalars
    requires room { Room work.old }
    requires at_lt_program_size { at < program_size }
    ensures { rows_of result work.new tally.new
        ≡ release_rows tables.now work.old tally.old x at }
{
    let v = server_at(tables, at + FIRST);
    let units = in_use(tally, v);
    let s = x.scalars();
    let k = x.row();
    let number = read(work, NUMBER, k) as u64;
    if let Err(end) = ask_release(units, preempted(tally, v), holder(tally, v), number) {
        return stop(s, end);
    }
    free_one::<OFTEN>(tables, work, tally, k, s.clock, v, units.saturating_sub(1));
    with_outcome(s, Noting::of(Note::Entered))
}

pub fn leave(tables: &[u32], work: &mut [u32], tally: &mut [u64], x: Moving, at: usize) -> Scalars
    requires room { Room work.old }
    requires at_lt_program_size { at < program_size }
    ensures { rows_of result work.new tally.new
        ≡ leave_rows tables.now work.old tally.old x at }
{
    let v = server_at(tables, at + FIRST);
    let b = number(tables, at + SECOND) as u64;
    let units = in_use(tally, v);
    let s = x.scalars();
    if units < b {
        return stop(s, End::NotInUse);
    }
    free_some(tables, work, tally, x.row(), s.clock, v, units - b, b);
    with_outcome(s, Noting::of(Note::Entered))
}
