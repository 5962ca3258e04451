// Evaluates values that a model could hold, and writes what each is worth: wrapping, brackets, comparisons, mentions.
#![tactic(auto)]

use evaluation::View;
use layout::{CAPACITIES, CONTENT, ENTRIES, IN_USE, TABLES, TALLY, VALUE_WIDTH, VALUES};
use std::io;

// The largest number with a sign, and the bits of -9.
const MOST: u32 = 2_147_483_647;

const MINUS_NINE: u32 = 4_294_967_287;

// Puts numbers into the tables from a position on, as far as there is room.
fn put(tables: &mut [u32], at: usize, numbers: &[u32]) {
    if tables.len() <= at {
        return;
    }
    for (cell, number) in tables[at..].iter_mut().zip(numbers) {
        *cell = *number;
    }
}

// Value k (from 0).
fn put_value(tables: &mut [u32], k: u32, numbers: &[u32]) {
    put(tables, VALUES + VALUE_WIDTH * k as usize, numbers);
}

fn put_sums(tables: &mut [u32]) {
    // 2,147,483,647 + 1
    let wrapped = [2, 0, 0, MOST, 0, 0, 1];
    put_value(tables, 0, &wrapped);
    // 10 - (3 - (2 + parameter 1))
    let nested = [2, 0, 0, 10, 1, 11, 2, 0, 0, 3, 1, 11, 2, 0, 0, 2, 0, 2, 0];
    put_value(tables, 1, &nested);
    // (clock ≥ 7) + (entries of block 1 < 3)
    let compared = [2, 0, 10, 6, 3, 0, 0, 7, 0, 10, 3, 4, 0, 0, 3];
    put_value(tables, 2, &compared);
    // value 1 - value 2 + units free of server 2
    let mentioned = [3, 0, 9, 0, 1, 9, 1, 0, 7, 1];
    put_value(tables, 3, &mentioned);
}

fn put_others(tables: &mut [u32]) {
    // -(-(-(-(parameter 4))))
    let deep = [1, 1, 11, 1, 1, 11, 1, 1, 11, 1, 1, 11, 1, 0, 2, 3];
    put_value(tables, 4, &deep);
    // a value that names itself
    let own = [1, 0, 9, 5];
    put_value(tables, 5, &own);
    // facility 1 in use + content of queue 1 + units in use of server 2
    let seen = [3, 0, 8, 0, 0, 5, 0, 0, 6, 1];
    put_value(tables, 6, &seen);
    // minus 2,147,483,647 - 2
    let below = [2, 0, 1, MOST, 1, 0, 2];
    put_value(tables, 7, &below);
}

// All eight values may be named; the clock is 7.
fn seen<'a>(tables: &'a [u32; TABLES], tally: &'a [u64; TALLY]) -> View<'a> {
    View {
        tables,
        tally,
        values: 8,
        clock: 7,
    }
}

// Value k, as a block's term names it: the term stands at position 0.
fn show_value(
    rt: &impl Print,
    tables: &mut [u32; TABLES],
    tally: &[u64; TALLY],
    k: u32,
) -> io::Result<()> {
    let p = [5, 0, 0, MINUS_NINE];
    let named = [9, k];
    put(tables, 0, &named);
    let worth = seen(tables, tally).term_at(&p, 0);
    println!(rt; "{worth}")
}

// Value 1 < 0, as a WAITIF has it: at position 0.
fn show_comparison(
    rt: &impl Print,
    tables: &mut [u32; TABLES],
    tally: &[u64; TALLY],
) -> io::Result<()> {
    let p = [5, 0, 0, 0];
    let named = [9, 0, 3, 0, 0];
    put(tables, 0, &named);
    let holds = u8::from(seen(tables, tally).compare_at(&p, 0));
    println!(rt; "{holds}")
}

fn show_all(rt: &impl Print, tables: &mut [u32; TABLES], tally: &[u64; TALLY]) -> io::Result<()> {
    for k in 0..8 {
        show_value(rt, tables, tally, k)?;
    }
    show_comparison(rt, tables, tally)
}

fn main(rt: HostRuntime) -> io::Result<()> {
    let mut tables = [0u32; TABLES];
    let mut tally = [0u64; TALLY];
    tables[CAPACITIES + 1] = 5;
    tally[ENTRIES] = 2;
    tally[IN_USE] = 1;
    tally[IN_USE + 1] = 2;
    tally[CONTENT] = 4;
    put_sums(&mut tables);
    put_others(&mut tables);
    show_all(&rt, &mut tables, &tally)
}
