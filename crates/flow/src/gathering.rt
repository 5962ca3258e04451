// 18 ASSEMBLE n.
ghost use Rattle.std.specs.Prelude.{◌≡◌, ◌+◌, ◌<◌, ◌≤◌};
ghost use Rattle.rows_laws.specs.All.{Room};
ghost use Rattle.machine.specs.All.{max_facilities};
ghost use Rattle.layout.specs.All.{program_size};
ghost use Rattle.moves.specs.Motion.{moved};
ghost use Rattle.flow_laws.specs.Gathering.{list_at_lem, gather_on, release_on, end_on, count_on, later_rows, gather_rows, assemble_rows};

use crate::questions::ask_holding;
use crate::sending::to_ready;
use layout::{FIRST, number};
use moves::{IN_ORDER, begin_wait, stop};
use rows::cells::{read, row_at, set_returning, write};
use rows::lists::{family_cell, remove_at};
use rows::make::free_row;
use rows::{Chain, FAMILY, NEXT, NUMBER, Row};
use state::{Mover, Moving, Note, Noting, Scalars};

// The list of gatherers of the block at which row k stands.
fn list_at(work: &[u32], k: Row) -> Chain
    requires room { Room work.now }
    ensures { result ≡ list_at_lem work.now k }
{
    Chain::gatherers(read(work, NEXT, k).saturating_sub(1))
}

// The first of its family begins to wait on list p; its row holds how many have come.
fn gather_on(work: &mut [u32], x: Moving, p: Chain) -> Scalars
    requires room { Room work.old }
    ensures { moved result work.new ≡ gather_on work.old x p }
{
    write(work, NEXT, x.row(), 1);
    begin_wait(work, x, p, IN_ORDER)
}

// The one that waits, row j of cell c, goes to REL and on from the block of the moving one.
fn release_on(work: &mut [u32], x: Moving, p: Chain, c: u32, j: Row) -> Scalars
    requires room { Room work.old }
    ensures { moved result work.new ≡ release_on work.old x p c j }
{
    let next = read(work, NEXT, x.row()).saturating_add(1);
    remove_at(work, p, c);
    write(work, NEXT, j, next);
    set_returning(work, j, 0);
    to_ready(work, x.scalars(), j)
}

// A later one, row k, ends.
fn end_on(work: &mut [u32], x: Scalars, k: Row) -> Scalars
    requires room { Room work.old }
    ensures { moved result work.new ≡ end_on work.old x k }
{
    free_row(work, k);
    let mut y = x;
    y.moving = Mover::NOBODY;
    y.ended = x.ended.saturating_add(1);
    y.note = Noting::of(Note::Entered);
    y
}

// So many have come with it: at the n-th the one that waits goes on.
fn count_on(work: &mut [u32], x: Moving, n: u32, p: Chain, c: u32, j: Row, come: u32) -> Scalars
    requires room { Room work.old }
    ensures { moved result work.new ≡ count_on work.old x n p c j come }
{
    let k = x.row();
    if come == n {
        let y = release_on(work, x, p, c, j);
        return end_on(work, y, k);
    }
    write(work, NEXT, j, come);
    end_on(work, x.scalars(), k)
}

fn later(
    facilities: usize,
    work: &mut [u32],
    tally: &[u64],
    x: Moving,
    n: u32,
    p: Chain,
    c: u32,
    j: Row,
) -> Scalars
    requires room { Room work.old }
    requires facilities_le_max_facilities { facilities ≤ max_facilities }
    ensures { moved result work.new ≡ later_rows facilities work.old tally.now x n p c j }
{
    if let Err(end) = ask_holding(tally, facilities, read(work, NUMBER, x.row()) as u64) {
        return stop(x.scalars(), end);
    }
    let come = read(work, NEXT, j).saturating_add(1);
    count_on(work, x, n, p, c, j, come)
}

fn gather(
    facilities: usize,
    work: &mut [u32],
    tally: &[u64],
    x: Moving,
    n: u32,
    p: Chain,
    c: u32,
) -> Scalars
    requires room { Room work.old }
    requires facilities_le_max_facilities { facilities ≤ max_facilities }
    ensures { moved result work.new ≡ gather_rows facilities work.old tally.now x n p c }
{
    match row_at(work, c) {
        Some(j) => later(facilities, work, tally, x, n, p, c, j),
        None => gather_on(work, x, p),
    }
}

pub fn assemble(
    tables: &[u32],
    facilities: usize,
    work: &mut [u32],
    tally: &[u64],
    x: Moving,
    at: usize,
) -> Scalars
    requires room { Room work.old }
    requires facilities_le_max_facilities { facilities ≤ max_facilities }
    requires at_lt_program_size { at < program_size }
    ensures { moved result work.new
        ≡ assemble_rows tables.now facilities work.old tally.now x at }
{
    let n = number(tables, at + FIRST);
    let k = x.row();
    let p = list_at(work, k);
    let family = read(work, FAMILY, k);
    let c = family_cell(work, p, family);
    gather(facilities, work, tally, x, n, p, c)
}
