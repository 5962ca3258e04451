// "Before each turn, in this order: .." the end of the turn before, dry, the limits on serials and turns, the budget, the room
// for a record.
ghost use Rattle.constants.specs.Numbers.{end_number};
ghost use Rattle.state.specs.All.{put_turns, put_end};
ghost use Rattle.std.specs.Prelude.{◌≡◌};
ghost use Rattle.rows_laws.specs.All.{Room};
ghost use Rattle.engine_laws.specs.Ends.{nobody_rows, worn_rows, full_rows, limit_rows, end_rows};

use constants::{End, Model};
use rows::Chain;
use rows::lists::first;
use state::{Mover, Scalars, Stopped};

// Nobody moves, and REL and FEL are empty.
fn nobody_left(work: &[u32], moving: Mover) -> bool
    requires room { Room work.now }
    ensures { result ≡ nobody_rows work.now moving }
{
    if let Some(_) = moving.row() {
        return false;
    }
    if let Some(_) = first(work, Chain::REL) {
        return false;
    }
    match first(work, Chain::FEL) {
        Some(_) => false,
        None => true,
    }
}

// "Last serial given above 99,997,952, or 100,000,000 turns done"
fn worn_out(x: &Scalars) -> bool
    ensures { result ≡ worn_rows x.now }
{
    Model::MAX_SERIAL < x.serial || Model::MAX_TURNS <= x.turns
}

// "Fewer than 12 bytes left in the trace"
fn trace_full(used: usize, room: usize) -> bool
    ensures { result ≡ full_rows used room }
{
    room < Model::RECORD_ROOM || room - Model::RECORD_ROOM < used
}

fn limit(x: &Scalars, budget: u64, room: usize) -> Stopped
    ensures { result ≡ limit_rows x.now budget room }
{
    if worn_out(x) {
        return Stopped::at(End::WornOut);
    }
    if budget <= x.turns as u64 {
        return Stopped::at(End::Budget);
    }
    if trace_full(x.used, room) {
        return Stopped::at(End::TraceFull);
    }
    Stopped::none()
}

// The end before the next turn, if there is one.
pub fn end_before(work: &[u32], x: &Scalars, budget: u64, room: usize) -> Stopped
    requires room { Room work.now }
    ensures { result ≡ end_rows work.now x.now budget room }
{
    if x.end.ended() {
        return x.end;
    }
    if nobody_left(work, x.moving) {
        return Stopped::at(End::Dry);
    }
    limit(x, budget, room)
}

// The scalars with so many turns done.
pub fn after(x: Scalars, turns: u32) -> Scalars
    ensures { result ≡ put_turns turns x }
{
    let mut y = x;
    y.turns = turns;
    y
}

// The scalars with an end.
pub fn close(x: Scalars, end: Stopped) -> Scalars
    ensures { result ≡ put_end end x }
{
    let mut y = x;
    y.end = end;
    y
}
