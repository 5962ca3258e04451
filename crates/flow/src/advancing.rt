// 2 ADVANCE list.
ghost use Rattle.std.specs.Prelude.{◌≡◌, ◌+◌, ◌<◌};
ghost use Rattle.rows_laws.specs.All.{Room};
ghost use Rattle.layout.specs.All.{program_size};
ghost use Rattle.moves.specs.Motion.{moved};
ghost use Rattle.state.specs.All.{rows_of};
ghost use Rattle.flow_laws.specs.Kinds.{send_on, delay_rows, advance_next, advance_rows};

use crate::questions::ask_time;
use crate::samples::{next_sample, times_left, use_time};
use crate::sending::to_future;
use constants::End;
use flow_laws::Sample;
use layout::{FIRST, number};
use moves::{go_on, stop};
use state::{Mover, Moving, Scalars};

// The moving one goes to the FEL at a time, its next block plus one.
fn send_on(work: &mut [u32], x: Moving, time: u64) -> Scalars
    requires room { Room work.old }
    ensures { moved result work.new ≡ send_on work.old x time }
{
    let k = x.row();
    let y = go_on(work, x);
    let mut z = to_future(work, y, k, time);
    z.moving = Mover::NOBODY;
    z
}

fn delay(work: &mut [u32], tally: &mut [u64], x: Moving, sample: Sample, list: u32) -> Scalars
    requires room { Room work.old }
    ensures { rows_of result work.new tally.new ≡ delay_rows work.old tally.old x sample list }
{
    let next = sample.next;
    use_time(tally, list, next);
    let time = x.scalars().clock.saturating_add(sample.time);
    send_on(work, x, time)
}

fn advance_next(tape: &[u8], work: &mut [u32], tally: &mut [u64], x: Moving, list: u32) -> Scalars
    requires room { Room work.old }
    ensures { rows_of result work.new tally.new
        ≡ advance_next tape.now work.old tally.old x list }
{
    let sample = next_sample(tape, tally, list);
    if let Err(end) = ask_time(x.scalars(), sample.time) {
        return stop(x.scalars(), end);
    }
    delay(work, tally, x, sample, list)
}

pub fn advance(
    tables: &[u32],
    tape: &[u8],
    work: &mut [u32],
    tally: &mut [u64],
    x: Moving,
    at: usize,
) -> Scalars
    requires room { Room work.old }
    requires at_lt_program_size { at < program_size }
    ensures { rows_of result work.new tally.new
        ≡ advance_rows tables.now tape.now work.old tally.old x at }
{
    let list = number(tables, at + FIRST);
    if times_left(tally, list) == 0 {
        return stop(x.scalars(), End::NoTime);
    }
    advance_next(tape, work, tally, x, list)
}
