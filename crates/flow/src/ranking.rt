// 13 PRIORITY p.
ghost use Rattle.std.specs.Prelude.{◌≡◌, ◌+◌, ◌<◌};
ghost use Rattle.rows_laws.specs.All.{Room};
ghost use Rattle.layout.specs.All.{program_size};
ghost use Rattle.moves.specs.Motion.{moved};
ghost use Rattle.flow_laws.specs.Kinds.{rank_on, priority_rows};

use crate::sending::{PRIORITIES, to_ready};
use layout::{FIRST, number};
use moves::go_on;
use rows::STANDING;
use rows::cells::write;
use state::{Mover, Moving, Scalars};

// The moving one goes to REL with a priority, its next block plus one.
fn rank_on(work: &mut [u32], x: Moving, p: u32) -> Scalars
    requires room { Room work.old }
    ensures { moved result work.new ≡ rank_on work.old x p }
{
    let k = x.row();
    let y = go_on(work, x);
    write(work, STANDING, k, p % PRIORITIES * 2);
    let mut z = to_ready(work, y, k);
    z.moving = Mover::NOBODY;
    z
}

pub fn priority(tables: &[u32], work: &mut [u32], x: Moving, at: usize) -> Scalars
    requires room { Room work.old }
    requires at_lt_program_size { at < program_size }
    ensures { moved result work.new ≡ priority_rows tables.now work.old x at }
{
    let p = number(tables, at + FIRST);
    rank_on(work, x, p)
}
