// A block that only leads elsewhere: GOTO.
ghost use Rattle.std.specs.Prelude.{◌≡◌, ◌<◌};
ghost use Rattle.rows_laws.specs.All.{Room};
ghost use Rattle.layout.specs.All.{program_size};
ghost use Rattle.moves.specs.Motion.{moved};
ghost use Rattle.values_queues_laws.specs.Jumps.{goto_rows};

use layout::{FIRST, number};
use moves::go_to;
use state::{Moving, Scalars};

// 11 GOTO target: the next block is the target, still moving.
pub fn goto(tables: &[u32], work: &mut [u32], x: Moving, at: usize) -> Scalars
    requires room { Room work.old }
    requires at_lt_program_size { at < program_size }
    ensures { moved result work.new ≡ goto_rows tables.now work.old x at }
{
    go_to(work, x, number(tables, at + FIRST))
}
