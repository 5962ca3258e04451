// Who moves in a turn.
ghost use Rattle.std.specs.Prelude.{◌≡◌, ◌<◌};
ghost use Rattle.rows_laws.specs.All.{Room, serial_end};
ghost use Rattle.state.specs.All.{rows_of};
ghost use Rattle.clock.specs.Taking.{count_move, move_clock, next_events, ready_scalars, ready_work, take};

use layout::{CLOCK_MOVES, count, set_count};
use rows::cells::time;
use rows::clock::arrive;
use rows::lists::{first, take_first};
use rows::{Chain, SERIAL_END};
use state::{Mover, Scalars, by_fields};

// One clock move more.
fn count_move(tally: &mut [u64])
    ensures { tally.new ≡ count_move tally.old }
{
    let moves = count(tally, CLOCK_MOVES).saturating_add(1);
    set_count(tally, CLOCK_MOVES, moves);
}

// The clock moves to a time: the move is counted, and all of that time come from the FEL to REL.
fn move_clock(work: &mut [u32], tally: &mut [u64], x: Scalars, time: u64) -> Scalars
    requires room { Room work.old }
    requires serial_lt_serial_end { x.serial < serial_end }
    ensures { rows_of result work.new tally.new ≡ move_clock work.old tally.old x time }
{
    let last = x.serial;
    let mut y = by_fields(x);
    count_move(tally);
    let serial = arrive(work, time, last);
    y.clock = time;
    y.serial = serial;
    y
}

// A clock move to the first time of the FEL, where it has one.
fn next_events(work: &mut [u32], tally: &mut [u64], x: Scalars) -> Scalars
    requires room { Room work.old }
    ensures { rows_of result work.new tally.new ≡ next_events work.old tally.old x }
{
    let Some(k) = first(work, Chain::FEL) else {
        return x;
    };
    if x.serial >= SERIAL_END {
        return x;
    }
    let due = time(work, k);
    move_clock(work, tally, x, due)
}

// The first of REL moves, where there is one.
fn take_ready(work: &mut [u32], x: Scalars) -> Scalars
    requires room { Room work.old }
    ensures scalars { result ≡ ready_scalars work.old x }
    ensures rows { work.new ≡ ready_work work.old }
{
    let Some(k) = take_first(work, Chain::REL) else {
        return x;
    };
    let mut y = by_fields(x);
    y.moving = Mover::of(k);
    y
}

// The taking of a turn, which counts.
pub fn take(work: &mut [u32], tally: &mut [u64], x: Scalars) -> Scalars
    requires room { Room work.old }
    ensures { rows_of result work.new tally.new ≡ take work.old tally.old x }
{
    let mut y = x;
    y.turns = x.turns.saturating_add(1);
    if let Some(_) = x.moving.row() {
        return y;
    }
    if let Some(_) = first(work, Chain::REL) {
        return take_ready(work, y);
    }
    let z = next_events(work, tally, y);
    take_ready(work, z)
}
