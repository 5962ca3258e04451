// The turns of those who come back to a WAITIF or an ENTER and wait again: they go from REL to the WSL or to a QL, whose length is counted,
// and nothing else is done.
ghost use Rattle.constants.specs.Numbers.{kind_number};
ghost use Rattle.std.specs.Prelude.{◌≡◌, ◌≢◌, ◌-◌, ◌%◌, ◌<◌, ◌≤◌};
ghost use Rattle.rows_laws.specs.All.{Room, row_count, standing_field, read};
ghost use Rattle.turn_laws.specs.Staying.{back_to, quiet, all_wait, stayed, server_of, short, crowded, lengthened_by, ends_at, comes_with, WhereLine, tied, Lines};

use constants::{Kind, Model};
use layout::{
    ASKED, BLOCK_WIDTH, EDITION, FIRST, QL_LENGTH, SECOND, TABLES, TALLY, count, number, set_count,
};
use rows::cells::{get, load, read, set, store};
use rows::lists::{end_at, first, put, take_first};
use rows::order::outranks;
use rows::{Chain, LINKS, NEXT, ROWS, Row, SERIAL, STANDING, Server};
use servers::units::{capacity, in_use, server_at};
use state::behind;
use values_queues::held_by_all;

// The block to which the first of REL comes back, 0 for none.
pub fn back_to(work: &[u32]) -> u32
    requires room { Room work.now }
    ensures { result ≡ back_to work.now }
{
    let Some(k) = first(work, Chain::REL) else {
        return 0;
    };
    if read(work, STANDING, k) % 2 != 1 {
        return 0;
    }
    read(work, NEXT, k)
}

// Is a block of this kind, and does nobody read what a turn at it changes?
pub fn quiet(tables: &[u32; TABLES], kind: Kind, block: u32) -> bool
    ensures { result ≡ quiet tables.now (kind_number kind) block }
{
    if block == 0 {
        return false;
    }
    let b = (block - 1) as usize;
    if b >= Model::MAX_BLOCKS {
        return false;
    }
    if number(tables, BLOCK_WIDTH * b) != kind.number() {
        return false;
    }
    number(tables, ASKED + b) == 0
}

// Does everybody wait who comes to a block? It is such a WAITIF, and its comparison names no parameter and holds.
pub fn all_wait(
    tables: &[u32; TABLES],
    values: usize,
    tally: &[u64; TALLY],
    clock: u64,
    block: u32,
) -> bool
    ensures { result ≡ all_wait tables.now values tally.now clock block }
{
    if !quiet(tables, Kind::WaitTerms, block) {
        return false;
    }
    let b = block.saturating_sub(1) as usize;
    held_by_all(tables, values, tally, clock, BLOCK_WIDTH * b)
}

// The first of REL goes back to the WSL.
pub fn stay(work: &mut [u32])
    requires room { Room work.old }
    ensures { work.new ≡ stayed work.old }
{
    if let Some(k) = take_first(work, Chain::REL) {
        put(work, Chain::WSL, k);
    }
}

// The server that the ENTER of a block names.
fn server_of(tables: &[u32; TABLES], block: u32) -> Server
    ensures { result ≡ server_of tables.now block }
{
    let b = block.saturating_sub(1) as usize;
    server_at(tables, BLOCK_WIDTH * b + FIRST)
}

// Are fewer units free than the ENTER of a block takes?
fn short(tables: &[u32; TABLES], tally: &[u64; TALLY], block: u32) -> bool
    ensures { result ≡ short tables.now tally.now block }
{
    let v = server_of(tables, block);
    let free = capacity(tables, v).saturating_sub(in_use(tally, v));
    let b = block.saturating_sub(1) as usize;
    free < number(tables, BLOCK_WIDTH * b + SECOND) as u64
}

// Does who comes to it wait, and changes it no statistics that the QL grows?
pub fn crowded(tables: &[u32; TABLES], tally: &[u64; TALLY], block: u32) -> bool
    ensures { result ≡ crowded tables.now tally.now block }
{
    let v = server_of(tables, block);
    !behind(tally, v.index()) && short(tables, tally, block)
}

// Its QL is longer by n.
pub fn lengthen(tables: &[u32; TABLES], tally: &mut [u64; TALLY], block: u32, n: u32)
    ensures { tally.new ≡ lengthened_by tables.now tally.old block n }
{
    let at = QL_LENGTH + server_of(tables, block).index();
    let m = count(tally, at).saturating_add(n as u64);
    set_count(tally, at, m);
}

// Is cell c the last of list v, behind which row k may come?
fn ends_at(work: &[u32], v: Server, c: u32, k: Row) -> bool
    requires room { Room work.now }
    ensures { result ≡ ends_at work.now v c k }
{
    if c == Chain::queue(v).head() {
        return true;
    }
    if c < LINKS {
        return false;
    }
    match Row::of(c - LINKS) {
        Some(j) => j != k && !outranks(work, k, j),
        None => false,
    }
}

// Does row n come back to that block too, behind one of this standing and serial?
fn comes_with(work: &[u32], n: Row, block: u32, standing: u32, serial: u32) -> bool
    requires room { Room work.now }
    ensures { n < row_count → result ≡ comes_with work.now n block standing serial }
{
    if read(work, NEXT, n) != block {
        return false;
    }
    if read(work, STANDING, n) != standing {
        return false;
    }
    serial < read(work, SERIAL, n)
}

// List v ends with row l and m, which is no row; REL begins with what stood behind l.
fn tie(work: &mut [u32], v: Server, l: Row, m: u32)
    requires room { Room work.old }
    ensures { work.new ≡ tied work.old v l m }
{
    let n = get(work, l.link());
    set(work, Chain::REL.head(), n);
    set(work, l.link(), m);
    set(work, Chain::queue(v).tail(), l.link());
    end_at(work, Chain::REL, n, Chain::REL.head());
}

// Behind row k, which has gone back to list v, those go back too that come with it, at most so many with it; answers how many. Their links
// stay, and what else is theirs to change is changed once, behind the last.
fn line_on(work: &mut [u32], v: Server, k: Row, m: u32, block: u32, most: u32) -> u32
    requires room { Room work.old }
    requires le_most { 1 ≤ most }
    ensures lines { row_count ≤ m → read work.old standing_field k % 2 ≡ 1
        → WhereLine block v (λ tables. Lines tables block (tied work.old v k m) (result - 1) work.new) }
    ensures some { 1 ≤ result }
    ensures few { result ≤ most }
{
    let standing = read(work, STANDING, k);
    let mut serial = read(work, SERIAL, k);
    let mut last = k;
    for i in 1..most {
        match Row::of(get(work, last.link())) {
            Some(n) if comes_with(work, n, block, standing, serial) => {
                serial = read(work, SERIAL, n);
                set(work, n.place(), v.number());
                last = n;
            }
            _ => {
                tie(work, v, last, m);
                return i;
            }
        }
    }
    tie(work, v, last, m);
    most
}

// The first of REL goes back to the QL of its ENTER, and those with it that come behind it, under edition 1; answers how many.
pub fn line_all(tables: &[u32; TABLES], work: &mut [u32], block: u32, most: u32) -> u32
    requires room { Room work.old }
    ensures lines { block ≢ 0 → Lines tables.now block work.old result work.new }
    ensures few { result ≤ most }
{
    if most == 0 {
        return 0;
    }
    if number(tables, EDITION) != 1 {
        return 0;
    }
    if back_to(work) != block {
        return 0;
    }
    let Some(k) = first(work, Chain::REL) else {
        return 0;
    };
    let v = server_of(tables, block);
    let c = get(work, Chain::queue(v).tail());
    if !ends_at(work, v, c, k) {
        return 0;
    }
    let m = load(work, c);
    if m < ROWS {
        return 0;
    }
    store(work, c, k.number());
    set(work, k.place(), v.number());
    line_on(work, v, k, m, block, most)
}
