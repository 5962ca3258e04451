// 14 SPLIT n, target.
ghost use Rattle.std.specs.Prelude.{◌≡◌, ◌+◌, ◌<◌};
ghost use Rattle.rows_laws.specs.All.{Room};
ghost use Rattle.layout.specs.All.{program_size};
ghost use Rattle.moves.specs.Motion.{moved};
ghost use Rattle.flow_laws.specs.Kinds.{copies_of, split_on, split_rows};

use crate::questions::ask_room;
use crate::sending::copy_one;
use layout::{FIRST, SECOND, number};
use moves::{go_on, stop};
use rows::Row;
use state::{Moving, Scalars};

// n copies of the moving one, row k, at a block, one after the other.
fn copies(work: &mut [u32], x: Scalars, k: Row, n: u32, target: u32) -> Scalars
    requires room { Room work.old }
    ensures { x.moving ≡ k → moved result work.new ≡ copies_of n work.old x target }
{
    let mut y = x;
    for _ in 0..n {
        y = copy_one(work, y, k, target);
    }
    y
}

fn split_on(work: &mut [u32], x: Moving, n: u32, target: u32) -> Scalars
    requires room { Room work.old }
    ensures { moved result work.new ≡ split_on work.old x n target }
{
    let k = x.row();
    let y = go_on(work, x);
    copies(work, y, k, n, target)
}

pub fn split(tables: &[u32], work: &mut [u32], x: Moving, at: usize) -> Scalars
    requires room { Room work.old }
    requires at_lt_program_size { at < program_size }
    ensures { moved result work.new ≡ split_rows tables.now work.old x at }
{
    let n = number(tables, at + FIRST);
    if let Err(end) = ask_room(&x.scalars(), n) {
        return stop(x.scalars(), end);
    }
    let target = number(tables, at + SECOND);
    split_on(work, x, n, target)
}
