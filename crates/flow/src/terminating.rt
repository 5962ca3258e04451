// 3 TERMINATE a.
ghost use Rattle.std.specs.Prelude.{◌≡◌, ◌+◌, ◌<◌, ◌≤◌};
ghost use Rattle.rows_laws.specs.All.{Room};
ghost use Rattle.machine.specs.All.{cond, leb, max_facilities};
ghost use Rattle.layout.specs.All.{program_size};
ghost use Rattle.moves.specs.Motion.{moved};
ghost use Rattle.flow_laws.specs.Kinds.{end_one, terminate_rows};

use crate::questions::ask_holding;
use constants::End;
use layout::{FIRST, number};
use moves::stop;
use rows::NUMBER;
use rows::cells::read;
use rows::make::free_row;
use state::{Mover, Moving, Note, Noting, Scalars, Stopped, by_fields};

// "At or below 0, end 2."
fn end_after(counter: u32, a: u32) -> Stopped
    ensures { result ≡ cond (leb counter a) 2 0 }
{
    if counter <= a {
        Stopped::at(End::Counted)
    } else {
        Stopped::none()
    }
}

fn end_one(x: Scalars, a: u32) -> Scalars
    ensures { result ≡ end_one x a }
{
    let counter = x.counter;
    let ended = x.ended;
    let mut y = by_fields(x);
    y.moving = Mover::NOBODY;
    y.ended = ended.saturating_add(1);
    y.counter = counter.saturating_sub(a);
    y.end = end_after(counter, a);
    y.note = Noting::of(Note::Entered);
    y
}

pub fn terminate(
    tables: &[u32],
    facilities: usize,
    work: &mut [u32],
    tally: &[u64],
    x: Moving,
    at: usize,
) -> Scalars
    requires room { Room work.old }
    requires facilities_le_max_facilities { facilities ≤ max_facilities }
    requires at_lt_program_size { at < program_size }
    ensures { moved result work.new
        ≡ terminate_rows tables.now facilities work.old tally.now x at }
{
    let a = number(tables, at + FIRST);
    let k = x.row();
    if let Err(end) = ask_holding(tally, facilities, read(work, NUMBER, k) as u64) {
        return stop(x.scalars(), end);
    }
    free_row(work, k);
    end_one(x.scalars(), a)
}
