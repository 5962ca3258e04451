// How the moving transaction goes on or comes to wait: its row of the work buffer and the scalars. What is done to the row stands apart
// and takes plain numbers, since a call that hands scalars over copies them through memory; its contract is of any scalars with these
// numbers.

#![tactic(auto)]

ghost use Rattle.std.specs.Prelude.{◌≡◌};
ghost use Rattle.rows_laws.specs.All.{Room};
ghost use Rattle.constants.specs.Numbers.{end_number};
ghost use Rattle.state.specs.Notes.{note_number};
ghost use Rattle.moves.specs.Motion.{moved, with_outcome, go_to, go_on_lem, go_back, begin_wait, wait_on, stopped};

use constants::End;
use rows::cells::{read, set_returning, write};
use rows::lines::line_up;
use rows::{Chain, NEXT, Row, SERIAL, STANDING};
use state::{Mover, Moving, Note, Noting, Scalars, Stopped, by_fields};

// The WSL and the lists of gatherers are in the order of edition 1 under either edition.
pub const IN_ORDER: u32 = 1;

// The scalars where it entered, where it began to wait with the next serial, or where it came back to wait and writes no record.
pub fn with_outcome(x: Scalars, outcome: Noting) -> Scalars
    ensures { result ≡ with_outcome x outcome }
{
    let serial = x.serial;
    let mut y = by_fields(x);
    y.note = outcome;
    match outcome.note() {
        Note::Entered => {}
        Note::Waits => {
            y.moving = Mover::NOBODY;
            y.serial = serial.saturating_add(1);
        }
        Note::NoRecord => y.moving = Mover::NOBODY,
    }
    y
}

// Row k stands before a block, not returning.
fn row_goes_to(work: &mut [u32], k: Row, block: u32)
    requires room { Room work.old }
    ensures { (x : Scalars) → x.moving ≡ k → moved (with_outcome x 0) work.new ≡ go_to work.old x block }
{
    write(work, NEXT, k, block);
    set_returning(work, k, 0);
}

// The transaction stands before a block, still moving; it entered.
pub fn go_to(work: &mut [u32], x: Moving, block: u32) -> Scalars
    requires room { Room work.old }
    ensures { moved result work.new ≡ go_to work.old x block }
{
    row_goes_to(work, x.row(), block);
    with_outcome(x.scalars(), Noting::of(Note::Entered))
}

// Row k stands before the next block plus one.
pub fn row_goes_on(work: &mut [u32], k: Row)
    requires room { Room work.old }
    ensures { (x : Scalars) → x.moving ≡ k → moved (with_outcome x 0) work.new ≡ go_on_lem work.old x }
{
    let next = read(work, NEXT, k).saturating_add(1);
    row_goes_to(work, k, next);
}

// "Go on": the next block plus one.
pub fn go_on(work: &mut [u32], x: Moving) -> Scalars
    requires room { Room work.old }
    ensures { moved result work.new ≡ go_on_lem work.old x }
{
    row_goes_on(work, x.row());
    with_outcome(x.scalars(), Noting::of(Note::Entered))
}

// Back by so many blocks, still moving; no record is written.
pub fn go_back(work: &mut [u32], x: Moving, blocks: u32) -> Scalars
    requires room { Room work.old }
    ensures { moved result work.new ≡ go_back work.old x blocks }
{
    let row = x.row();
    let next = read(work, NEXT, row).saturating_sub(blocks);
    write(work, NEXT, row, next);
    set_returning(work, row, 0);
    let mut y = x.scalars();
    y.note = Noting::of(Note::NoRecord);
    y
}

// Row k begins to wait on list p with the serial after this one.
fn row_begins_wait(work: &mut [u32], k: Row, serial: u32, p: Chain, edition: u32)
    requires room { Room work.old }
    ensures { (x : Scalars) → x.moving ≡ k → x.serial ≡ serial
        → moved (with_outcome x 1) work.new ≡ begin_wait work.old x p edition }
{
    write(work, SERIAL, k, serial.saturating_add(1));
    line_up(work, p, k, edition);
}

// The transaction begins to wait on list p with a fresh serial.
pub fn begin_wait(work: &mut [u32], x: Moving, p: Chain, edition: u32) -> Scalars
    requires room { Room work.old }
    ensures { moved result work.new ≡ begin_wait work.old x p edition }
{
    let s = x.scalars();
    row_begins_wait(work, x.row(), s.serial, p, edition);
    with_outcome(s, Noting::of(Note::Waits))
}

// Row k comes onto list p, where the edition places it: a returning one with its own serial, another begins to wait. Answers which
// record that writes.
pub fn row_waits(work: &mut [u32], k: Row, serial: u32, p: Chain, edition: u32) -> Note
    requires room { Room work.old }
    ensures { (x : Scalars) → x.moving ≡ k → x.serial ≡ serial
        → moved (with_outcome x (note_number result)) work.new ≡ wait_on work.old x p edition }
{
    if read(work, STANDING, k) % 2 == 1 {
        line_up(work, p, k, edition);
        return Note::NoRecord;
    }
    row_begins_wait(work, k, serial, p, edition);
    Note::Waits
}

// The transaction must wait on list p, where the edition places it.
pub fn wait_on(work: &mut [u32], x: Moving, p: Chain, edition: u32) -> Scalars
    requires room { Room work.old }
    ensures { moved result work.new ≡ wait_on work.old x p edition }
{
    let s = x.scalars();
    let outcome = row_waits(work, x.row(), s.serial, p, edition);
    with_outcome(s, Noting::of(outcome))
}

// A question stops the turn with an end; no record is written.
pub fn stop(x: Scalars, end: End) -> Scalars
    ensures { result ≡ stopped x (end_number end) }
{
    let mut y = x;
    y.end = Stopped::at(end);
    y.note = Noting::of(Note::NoRecord);
    y
}
