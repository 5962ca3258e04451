// 1 GENERATE list, priority.
ghost use Rattle.std.specs.Prelude.{◌≡◌, ◌+◌, ◌<◌};
ghost use Rattle.rows_laws.specs.All.{Room};
ghost use Rattle.layout.specs.All.{program_size};
ghost use Rattle.state.specs.All.{rows_of};
ghost use Rattle.flow_laws.specs.Kinds.{arrive_on, generate_next, generate_rows};

use crate::questions::ask_arrival;
use crate::samples::{next_sample, times_left};
use crate::sending::{arrives, one_made};
use flow_laws::Sample;
use layout::{FIRST, SECOND, number};
use moves::{go_on, stop};
use rows::NEXT;
use rows::cells::read;
use state::{Moving, Scalars};

// The transaction goes on, and a new one comes.
fn arrive_on(
    work: &mut [u32],
    tally: &mut [u64],
    x: Moving,
    sample: Sample,
    list: u32,
    priority: u32,
) -> Scalars
    requires room { Room work.old }
    ensures { rows_of result work.new tally.new
        ≡ arrive_on work.old tally.old x sample list priority }
{
    let block = read(work, NEXT, x.row());
    let y = go_on(work, x);
    let made = arrives(
        work, tally, y.made, y.serial, y.clock, sample, list, priority, block,
    );
    one_made(y, made)
}

fn generate_next(
    tape: &[u8],
    work: &mut [u32],
    tally: &mut [u64],
    x: Moving,
    list: u32,
    priority: u32,
) -> Scalars
    requires room { Room work.old }
    ensures { rows_of result work.new tally.new
        ≡ generate_next tape.now work.old tally.old x list priority }
{
    let sample = next_sample(tape, tally, list);
    if let Err(end) = ask_arrival(x.scalars(), sample.time) {
        return stop(x.scalars(), end);
    }
    arrive_on(work, tally, x, sample, list, priority)
}

pub fn generate(
    tables: &[u32],
    tape: &[u8],
    work: &mut [u32],
    tally: &mut [u64],
    x: Moving,
    at: usize,
) -> Scalars
    requires room { Room work.old }
    requires at_lt_program_size { at < program_size }
    ensures { rows_of result work.new tally.new
        ≡ generate_rows tables.now tape.now work.old tally.old x at }
{
    let list = number(tables, at + FIRST);
    if times_left(tally, list) == 0 {
        return go_on(work, x);
    }
    let priority = number(tables, at + SECOND);
    generate_next(tape, work, tally, x, list, priority)
}
