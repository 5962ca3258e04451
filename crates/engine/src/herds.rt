// A herd: those who come back one after the other and wait again, to a WAITIF or an ENTER. Their turns change nothing that a WAITIF reads,
// so that it is asked once for all of them.
ghost use Rattle.std.specs.Prelude.{◌≡◌, ◌+◌, ◌≤◌};
ghost use Rattle.machine.specs.All.{min, List, ℕ};
ghost use Rattle.rows_laws.specs.All.{Room};
ghost use Rattle.engine_laws.specs.Turns.{turns_left, Onward, WhereAllWait, WhereEnter};

use crate::ends::{after, end_before};
use constants::{Kind, Model};
use layout::{TABLES, TALLY};
use state::{Mover, Note, Scalars};
use turn::{all_wait, back_to, crowded, lengthen, line_all, quiet, stay};

// Their turns, at most `left`, to a block where everybody waits; answers how many turns are done then.
fn stay_all(work: &mut [u32], budget: u64, room: usize, x: &Scalars, block: u32, left: u32) -> u32
    requires room { Room work.old }
    ensures where_all_wait { WhereAllWait block x.now
        (λ model tables tape tally trace. Onward model tables tape trace budget room x.now left work.old tally result
        work.new tally) }
    ensures least { x.now.turns ≤ result }
    ensures most { result ≤ x.now.turns + left }
{
    let mut y = *x;
    for _ in 0..left {
        if end_before(work, &y, budget, room).ended() {
            return y.turns;
        }
        if back_to(work) != block {
            return y.turns;
        }
        stay(work);
        let turns = y.turns + 1;
        y = after(y, turns);
    }
    y.turns
}

// How many more turns there may be.
fn turns_left(turns: u32, budget: u64, left: u32) -> u32
    ensures { result ≡ turns_left turns budget left }
{
    let most = left.min(Model::MAX_TURNS.saturating_sub(turns));
    let bought = budget.saturating_sub(turns as u64);
    if bought < most as u64 {
        bought as u32
    } else {
        most
    }
}

// The same to an ENTER, if fewer units are free than it takes. They go back as they stand on REL, with one walk along their links.
fn queue_all(
    tables: &[u32; TABLES],
    work: &mut [u32],
    tally: &mut [u64; TALLY],
    budget: u64,
    room: usize,
    x: &Scalars,
    block: u32,
    left: u32,
) -> u32
    requires room { Room work.old }
    ensures where_enter { WhereEnter tables.now block x.now
        (λ model tape trace. Onward model tables.now tape trace budget room x.now left work.old tally.old result
        work.new tally.new) }
    ensures least { x.now.turns ≤ result }
    ensures most { result ≤ x.now.turns + left }
{
    if end_before(work, x, budget, room).ended() {
        return x.turns;
    }
    if !crowded(tables, tally, block) {
        return x.turns;
    }
    let most = turns_left(x.turns, budget, left);
    let n = line_all(tables, work, block, most);
    if n == 0 {
        return x.turns;
    }
    lengthen(tables, tally, block, n);
    x.turns + n
}

// The turns of a herd, if the last turn was of one that came back to wait; answers how many turns are done then.
pub fn herd(
    model: Model,
    tables: &[u32; TABLES],
    budget: u64,
    work: &mut [u32],
    tally: &mut [u64; TALLY],
    room: usize,
    x: &Scalars,
    left: u32,
) -> u32
    requires room { Room work.old }
    ensures by_index { (tape trace : List ℕ) → Onward model tables.now tape trace budget room x.now left work.old tally.old result
        work.new tally.new }
    ensures least { x.now.turns ≤ result }
    ensures most { result ≤ x.now.turns + left }
{
    if x.note.number() != Note::NoRecord as u32 {
        return x.turns;
    }
    if x.moving.number() != Mover::NOBODY.number() {
        return x.turns;
    }
    let block = back_to(work);
    if quiet(tables, Kind::Enter, block) {
        return queue_all(tables, work, tally, budget, room, x, block, left);
    }
    if !all_wait(tables, model.values, tally, x.clock, block) {
        return x.turns;
    }
    stay_all(work, budget, room, x, block, left)
}
