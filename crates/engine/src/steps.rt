// The turns of a run, until an end.
ghost use Rattle.std.specs.Prelude.{◌≡◌, ◌≤◌};
ghost use Rattle.machine.specs.All.{eqb, length, max_blocks, max_facilities};
ghost use Rattle.rows_laws.specs.All.{Room};
ghost use Rattle.state.specs.All.{rows_of};
ghost use Rattle.turn_laws.specs.Turn.{traced};
ghost use Rattle.engine_laws.specs.Turns.{turns_rows};

use crate::ends::{after, close, end_before};
use crate::herds::herd;
use constants::Model;
use layout::{TABLES, TALLY};
use state::{Note, Scalars};
use turn::turn;

// Each step asks for the end before the turn, so one step more than the most turns is never used up.
const STEPS: u32 = Model::MAX_TURNS + 1;

// Did the last turn write no record, since who moved came back and waits again?
fn unrecorded(x: &Scalars) -> bool
    ensures { result ≡ eqb x.now.note 2 }
{
    x.note.number() == Note::NoRecord as u32
}

// Turns one by one as long as nobody came back to wait, in a loop of their own; then those of a herd.
pub fn turns(
    model: Model,
    tables: &[u32; TABLES],
    tape: &[u8],
    budget: u64,
    work: &mut [u32],
    tally: &mut [u64; TALLY],
    trace: &mut [u8],
    x: Scalars,
) -> Scalars
    requires room { Room work.old }
    requires facilities_le_max_facilities { model.facilities ≤ max_facilities }
    requires blocks_le_max_blocks { model.blocks ≤ max_blocks }
    ensures { traced (rows_of result work.new tally.new) trace.new
        ≡ turns_rows model tables.now tape.now budget (length trace.old)
        (traced (rows_of x work.old tally.old) trace.old) }
{
    let mut y = x;
    let mut left = STEPS;
    while 0 < left {
        let mut plain = true;
        while plain {
            if left == 0 {
                return y;
            }
            let end = end_before(work, &y, budget, trace.len());
            if end.ended() {
                return close(y, end);
            }
            y = turn(model, tables, tape, work, tally, trace, y);
            left -= 1;
            plain = !unrecorded(&y);
        }
        let done = herd(model, tables, budget, work, tally, trace.len(), &y, left);
        left -= done - y.turns;
        y = after(y, done);
    }
    y
}
