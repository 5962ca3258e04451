// 8 WAITIF code, server, and 17 (document 02, item 7) code, server, back count.
ghost use Rattle.std.specs.Prelude.{◌≡◌, ◌+◌, ◌<◌};
ghost use Rattle.rows_laws.specs.All.{Room};
ghost use Rattle.machine.specs.All.{max_back};
ghost use Rattle.layout.specs.All.{block_width, program_size};
ghost use Rattle.moves.specs.Motion.{moved};
ghost use Rattle.servers_laws.specs.WaitServer.{back_of, begins_from, is_late, back_from, stamp_on, pass_on, pass_or_back, wait_while, wait_server_rows};

use crate::units::{Code, capacity, in_use, server_at};
use constants::{Kind, Model};
use layout::{BLOCK_WIDTH, EDITION, FIRST, SECOND, THIRD, number};
use moves::{go_back, go_on, wait_on};
use rows::cells::{set_time, time};
use rows::wake::wake_first;
use rows::{Chain, Row};
use state::{Moving, Scalars};

// The back count of the block at `at`, 0 for kind 8.
fn back_count(tables: &[u32], at: usize) -> u32
    requires { at < program_size }
    ensures { result ≡ back_of tables.now at }
{
    if number(tables, at) == Kind::JoinedWait.number() {
        number(tables, at + THIRD)
    } else {
        0
    }
}

// Does a group begin with the block at `at`? Behind it stand waits of kind 8 and then one of kind 17 that counts back to it.
fn begins_group(tables: &[u32], at: usize) -> bool
    requires { at < program_size }
    ensures { result ≡ begins_from tables.now (at + block_width) 1 max_back }
{
    for c in 1..Model::MAX_BACK + 1 {
        let next = at + BLOCK_WIDTH * c;
        let kind = number(tables, next);
        if kind == Kind::JoinedWait.number() {
            return number(tables, next + THIRD) as usize == c;
        }
        if kind != Kind::WaitServer.number() {
            return false;
        }
    }
    false
}

// With a back count: it last entered the first block of its group at an earlier clock.
fn late(work: &[u32], x: Moving, c: u32) -> bool
    requires room { Room work.now }
    ensures { result ≡ is_late work.now x c }
{
    c != 0 && time(work, x.row()) < x.scalars().clock
}

// The first of a list goes to REL, and it goes back to the first block of its group.
fn back_from(work: &mut [u32], x: Moving, list: Chain, c: u32) -> Scalars
    requires room { Room work.old }
    ensures { moved result work.new ≡ back_from work.old x list c }
{
    wake_first(work, list);
    go_back(work, x, c)
}

// It takes the clock as its stamp and goes on.
fn stamp_on(work: &mut [u32], x: Moving) -> Scalars
    requires room { Room work.old }
    ensures { moved result work.new ≡ stamp_on work.old x }
{
    set_time(work, x.row(), x.scalars().clock);
    go_on(work, x)
}

// It enters, and the first of list p goes to REL.
fn pass_on(work: &mut [u32], x: Moving, p: Chain, begins: bool) -> Scalars
    requires room { Room work.old }
    ensures { moved result work.new ≡ pass_on work.old x p begins }
{
    wake_first(work, p);
    if begins {
        return stamp_on(work, x);
    }
    go_on(work, x)
}

// The condition is not true.
fn pass_or_back(tables: &[u32], work: &mut [u32], x: Moving, at: usize, p: Chain) -> Scalars
    requires room { Room work.old }
    requires at_lt_program_size { at < program_size }
    ensures { moved result work.new ≡ pass_or_back tables.now work.old x at p }
{
    let c = back_count(tables, at);
    if late(work, x, c) {
        return back_from(work, x, p, c);
    }
    let begins = begins_group(tables, at);
    pass_on(work, x, p, begins)
}

// It waits on list p while the code is true.
fn wait_while(
    tables: &[u32],
    work: &mut [u32],
    x: Moving,
    at: usize,
    p: Chain,
    holds: bool,
) -> Scalars
    requires room { Room work.old }
    requires at_lt_program_size { at < program_size }
    ensures { moved result work.new ≡ wait_while tables.now work.old x at p holds }
{
    if holds {
        return wait_on(work, x, p, number(tables, EDITION));
    }
    pass_or_back(tables, work, x, at, p)
}

pub fn wait_server(tables: &[u32], work: &mut [u32], tally: &[u64], x: Moving, at: usize) -> Scalars
    requires room { Room work.old }
    requires at_lt_program_size { at < program_size }
    ensures { moved result work.new ≡ wait_server_rows tables.now work.old tally.now x at }
{
    let code = Code::of(number(tables, at + FIRST));
    let v = server_at(tables, at + SECOND);
    let holds = code.holds(in_use(tally, v), capacity(tables, v));
    wait_while(
        tables,
        work,
        x,
        at,
        Chain::watching(v, code.number()),
        holds,
    )
}
