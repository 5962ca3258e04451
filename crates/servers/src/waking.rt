// Whom a change of a server's units wakes: the first of its QL or those that fit, and the first of each WEL whose code is not true.
ghost use Rattle.std.specs.Prelude.{◌≡◌, ◌<◌};
ghost use Rattle.machine.specs.All.{max_blocks};
ghost use Rattle.layout.specs.All.{program_size};
ghost use Rattle.servers.specs.Codes.{code_number};
ghost use Rattle.rows_laws.specs.All.{Room, head, wake_walk, wake_first};
ghost use Rattle.servers_laws.specs.Waking.{check_wel, check_first, check_last, check_wels, shorter, units_at, member_units, member_fits, leave_with, taken_off, left_behind, member_left, steps, wake_stays, too_many_lem, none_too_many, ahead_of, at_once_lem, woken_rows, woken_length};

use crate::units::{Code, server_at};
use constants::{Kind, Model};
use layout::{BLOCK_WIDTH, FIRST, QL_LENGTH, SECOND, count, number, set_count};
use rows::cells::{get, read, row_at};
use rows::lists::first;
use rows::order::outranks;
use rows::wake::{pass, wake_first};
use rows::whole::wake_whole;
use rows::{Chain, LINKS, NEXT, ROWS, Row, Server};

const BLOCKS: u32 = Model::MAX_BLOCKS as u32;

// From so many on, a whole list is faster than one by one.
const MANY: u64 = 64;

// The WEL of a server and a code gives its first, if the code is not true.
fn check_wel(work: &mut [u32], v: Server, code: Code, units: u64, capacity: u64)
    requires room { Room work.old }
    ensures { work.new ≡ check_wel work.old v (code_number code) units capacity }
{
    if !code.holds(units, capacity) {
        wake_first(work, Chain::watching(v, code.number()));
    }
}

fn check_first(work: &mut [u32], v: Server, units: u64, capacity: u64)
    requires room { Room work.old }
    ensures { work.new ≡ check_first work.old v units capacity }
{
    check_wel(work, v, Code::InUse, units, capacity);
    check_wel(work, v, Code::NotInUse, units, capacity);
    check_wel(work, v, Code::Empty, units, capacity);
}

fn check_last(work: &mut [u32], v: Server, units: u64, capacity: u64)
    requires room { Room work.old }
    ensures { work.new ≡ check_last work.old v units capacity }
{
    check_wel(work, v, Code::NotEmpty, units, capacity);
    check_wel(work, v, Code::Full, units, capacity);
    check_wel(work, v, Code::NotFull, units, capacity);
}

// "After blocks 4 to 7 enter, each WEL of that server whose code is not true gives its first to REL."
pub fn check_wels(work: &mut [u32], v: Server, units: u64, capacity: u64)
    requires room { Room work.old }
    ensures { work.new ≡ check_wels work.old v units capacity }
{
    check_first(work, v, units, capacity);
    check_last(work, v, units, capacity);
}

// The first of the QL goes to REL.
pub fn wake_first_ql(work: &mut [u32], tally: &mut [u64], v: Server)
    requires room { Room work.old }
    ensures rows { work.new ≡ wake_first work.old v }
    ensures lengths { tally.new ≡ shorter tally.old v }
{
    let at = QL_LENGTH + v.index();
    let n = count(tally, at).saturating_sub(1);
    set_count(tally, at, n);
    wake_first(work, Chain::queue(v));
}

// The units that the block at an index of the tables takes: one for a SEIZE or PREEMPT, 0 for a block that takes none.
fn units_at(tables: &[u32], at: usize) -> u64
    requires { at < program_size }
    ensures { result ≡ units_at tables.now at }
{
    let Some(kind) = Kind::of(number(tables, at)) else {
        return 0;
    };
    match kind {
        Kind::Seize | Kind::Preempt => 1,
        Kind::Enter => number(tables, at + SECOND) as u64,
        _ => 0,
    }
}

// The units that row k waits for.
fn member_units(tables: &[u32], work: &[u32], k: Row) -> u64
    requires room { Room work.now }
    ensures { result ≡ member_units tables.now work.now k }
{
    let block = read(work, NEXT, k).saturating_sub(1) % BLOCKS;
    units_at(tables, BLOCK_WIDTH * (block as usize))
}

// What a LEAVE gives to those who wait: under edition 1 the free units, to each alone; under edition 2 its own, one after
// the other.
pub fn leave_with(edition: u32, free: u64, own: u64) -> u64
    ensures { result ≡ leave_with edition free own }
{
    if edition == 1 { free } else { own }
}

// Less so many units, for one that goes; one that is too large stays.
fn taken_off(left: u64, units: u64) -> u64
    ensures { result ≡ taken_off left units }
{
    if left < units { left } else { left - units }
}

// What is left of it behind one of so many units.
fn left_behind(edition: u32, left: u64, units: u64) -> u64
    ensures { result ≡ left_behind edition left units }
{
    if edition == 1 {
        left
    } else {
        taken_off(left, units)
    }
}

// Those of the QL whose units fit what is left go to REL, one by one; the answer is how many stay.
fn wake_ql(tables: &[u32], work: &mut [u32], v: Server, edition: u32, all: u64) -> u64
    requires room { Room work.old }
    ensures rows { work.new
        ≡ wake_walk (member_fits tables.now) (member_left tables.now edition)
        steps all work.old v (head v) }
    ensures stays { result
        ≡ wake_stays (member_fits tables.now) (member_left tables.now edition)
        steps all work.old v (head v) }
{
    let queue = Chain::queue(v);
    let mut c = queue.head();
    let mut left = all;
    let mut stay: u64 = 0;
    for _ in 0..ROWS {
        let Some(k) = row_at(work, c) else {
            return stay;
        };
        let units = member_units(tables, work, k);
        let fits = units <= left;
        stay += u64::from(!fits);
        c = pass(work, queue, c, fits);
        left = left_behind(edition, left, units);
    }
    stay
}

// Does the block at an index of the tables take more units of server v than are left?
fn too_many(tables: &[u32], at: usize, v: Server, left: u64) -> bool
    requires { at < program_size }
    ensures { result ≡ too_many_lem tables.now at v left }
{
    if number(tables, at) != Kind::Enter.number() {
        return false;
    }
    server_at(tables, at + FIRST) == v && left < number(tables, at + SECOND) as u64
}

// Does no block take more? Behind the last block the tables have 0.
fn none_too_many(tables: &[u32], v: Server, left: u64) -> bool
    ensures { result ≡ none_too_many max_blocks tables.now 0 v left }
{
    for b in 0..Model::MAX_BLOCKS {
        let at = BLOCK_WIDTH * b;
        if number(tables, at) == 0 {
            return true;
        }
        if too_many(tables, at, v, left) {
            return false;
        }
    }
    true
}

// Does the last of the QL stand before the first of REL, if there is one?
fn ahead_of(work: &[u32], v: Server) -> bool
    requires room { Room work.now }
    ensures { result ≡ ahead_of work.now v }
{
    let Some(r) = first(work, Chain::REL) else {
        return true;
    };
    match Row::of(get(work, Chain::queue(v).tail()).saturating_sub(LINKS)) {
        Some(k) => outranks(work, k, r),
        None => false,
    }
}

// Do all n of a QL go to REL at once, under edition 1, with so many units left?
fn at_once(tables: &[u32], work: &[u32], v: Server, edition: u32, left: u64, n: u64) -> bool
    requires room { Room work.now }
    ensures { result ≡ at_once_lem tables.now work.now v edition left n }
{
    if n < MANY {
        return false;
    }
    if edition != 1 {
        return false;
    }
    if first(work, Chain::queue(v)).is_none() {
        return false;
    }
    if !ahead_of(work, v) {
        return false;
    }
    none_too_many(tables, v, left)
}

// Those of a QL of n whose units fit what is left go to REL; the answer is how many stay.
pub fn wake_some(
    tables: &[u32],
    work: &mut [u32],
    v: Server,
    edition: u32,
    left: u64,
    n: u64,
) -> u64
    requires room { Room work.old }
    ensures rows { work.new ≡ woken_rows tables.now work.old v edition left n }
    ensures stays { result ≡ woken_length tables.now work.old v edition left n }
{
    if at_once(tables, work, v, edition, left, n) {
        wake_whole(work, Chain::queue(v), n);
        return 0;
    }
    wake_ql(tables, work, v, edition, left)
}
