// Rows on no list go to the FEL or to REL with a fresh serial; new rows for both.
ghost use Rattle.std.specs.Prelude.{◌≡◌};
ghost use Rattle.rows_laws.specs.All.{Room};
ghost use Rattle.machine.specs.All.{true};
ghost use Rattle.moves.specs.Motion.{moved, next32};
ghost use Rattle.state.specs.All.{put_serial, rows_of};
ghost use Rattle.flow_laws.specs.Sending.{to_future, to_ready, born_at, born, one_made, arrives, copy_to, copy_one};

use crate::samples::use_time;
use constants::Model;
use flow_laws::Sample;
use rows::cells::{set_time, write};
use rows::future::schedule;
use rows::lists::put;
use rows::make::{copy, make_row, newborn};
use rows::{Chain, Row, SERIAL};
use state::{Scalars, by_fields};

// A priority is below this number.
pub const PRIORITIES: u32 = Model::MAX_PRIORITY as u32 + 1;

// Row k comes onto the FEL at a time, with the serial after this one.
fn row_to_future(work: &mut [u32], serial: u32, k: Row, time: u64)
    requires room { Room work.old }
    ensures { (x : Scalars) → x.serial ≡ serial
        → moved (put_serial (next32 x.serial) x) work.new ≡ to_future work.old x k time }
{
    write(work, SERIAL, k, serial.saturating_add(1));
    set_time(work, k, time);
    schedule(work, k);
}

pub fn to_future(work: &mut [u32], x: Scalars, k: Row, time: u64) -> Scalars
    requires room { Room work.old }
    ensures { moved result work.new ≡ to_future work.old x k time }
{
    let serial = x.serial;
    let mut y = by_fields(x);
    row_to_future(work, serial, k, time);
    y.serial = serial.saturating_add(1);
    y
}

pub fn to_ready(work: &mut [u32], x: Scalars, k: Row) -> Scalars
    requires room { Room work.old }
    ensures { moved result work.new ≡ to_ready work.old x k }
{
    let serial = x.serial.saturating_add(1);
    write(work, SERIAL, k, serial);
    put(work, Chain::REL, k);
    let mut y = x;
    y.serial = serial;
    y
}

// Row k becomes a new transaction at a block, on the FEL at a time: the next number and serial.
fn born_at(work: &mut [u32], made: u32, serial: u32, k: Row, time: u64, priority: u32, block: u32)
    requires room { Room work.old }
    ensures { (x : Scalars) → x.made ≡ made → x.serial ≡ serial
        → moved (one_made x true) work.new ≡ born_at work.old x k time priority block }
{
    newborn(
        work,
        k,
        made.saturating_add(1),
        priority % PRIORITIES,
        block,
    );
    row_to_future(work, serial, k, time);
}

// Answers whether there was a free row.
fn born(work: &mut [u32], made: u32, serial: u32, time: u64, priority: u32, block: u32) -> bool
    requires room { Room work.old }
    ensures { (x : Scalars) → x.made ≡ made → x.serial ≡ serial
        → moved (one_made x result) work.new ≡ born work.old x time priority block }
{
    let Some(k) = make_row(work) else {
        return false;
    };
    born_at(work, made, serial, k, time, priority, block);
    true
}

// The scalars where a transaction was made, if one was.
pub fn one_made(x: Scalars, made: bool) -> Scalars
    ensures { result ≡ one_made x made }
{
    if made {
        let number = x.made.saturating_add(1);
        let serial = x.serial.saturating_add(1);
        let mut y = by_fields(x);
        y.made = number;
        y.serial = serial;
        return y;
    }
    x
}

// A new transaction comes onto the FEL at the clock plus a sample, which is used. Answers whether there was a free row.
pub fn arrives(
    work: &mut [u32],
    tally: &mut [u64],
    made: u32,
    serial: u32,
    clock: u64,
    sample: Sample,
    list: u32,
    priority: u32,
    block: u32,
) -> bool
    requires room { Room work.old }
    ensures { (x : Scalars) → x.made ≡ made → x.serial ≡ serial → x.clock ≡ clock
        → rows_of (one_made x result) work.new tally.new
        ≡ arrives work.old tally.old x sample list priority block }
{
    let next = sample.next;
    use_time(tally, list, next);
    let time = clock.saturating_add(sample.time);
    born(work, made, serial, time, priority, block)
}

// Row k becomes a copy of the moving one at a block, on REL.
fn copy_to(work: &mut [u32], x: Scalars, moving: Row, k: Row, target: u32) -> Scalars
    requires room { Room work.old }
    ensures { x.moving ≡ moving → moved result work.new ≡ copy_to work.old x k target }
{
    let number = x.made.saturating_add(1);
    copy(work, moving, k, number, target);
    let mut y = x;
    y.made = number;
    to_ready(work, y, k)
}

// The moving one, whose row is given too, gets a copy, where a row is free.
pub fn copy_one(work: &mut [u32], x: Scalars, moving: Row, target: u32) -> Scalars
    requires room { Room work.old }
    ensures { x.moving ≡ moving → moved result work.new ≡ copy_one work.old x target }
{
    match make_row(work) {
        Some(k) => copy_to(work, x, moving, k, target),
        None => x,
    }
}
