// What the WAITIFs on comparisons read, and which values name a parameter.
ghost use Rattle.std.specs.Prelude.{◌≡◌, ◌<◌, ◌≤◌};
ghost use Rattle.machine.specs.All.{max_blocks, max_values};
ghost use Rattle.watch.specs.Watch.{reach_value, reach, wait_marks, waits_marks, own_of, changed_cell, asked_of, own_stored, asked_stored, watched};

use crate::walk::{CLOCK, MARKS, OWN, QUEUES, SERVERS, VALUES, terms};
use constants::Kind;
use layout::{ASKED, BLOCK_WIDTH, CLOCK_ASKED, FIRST, NAMES_OWN, VALUE_WIDTH, number, store};

// The terms of value k, if it is marked. No more brackets open than it has numbers.
fn reach_value(tables: &[u32], marks: &mut [u32], k: usize)
    requires { k < max_values }
    ensures { marks.new ≡ reach_value tables.now k marks.old }
{
    if number(marks, VALUES + k) == 0 {
        return;
    }
    let at = layout::VALUES + VALUE_WIDTH * k;
    let count = number(tables, at);
    terms(tables, marks, k, VALUE_WIDTH, 1, count, at + 1);
}

// Through the values, the highest first, since they name lower ones.
fn reach(tables: &[u32], marks: &mut [u32], values: usize)
    requires { values ≤ max_values }
    ensures { marks.new ≡ reach tables.now values marks.old }
{
    for k in (0..values).rev() {
        reach_value(tables, marks, k);
    }
}

// The two terms of block b, if it is a WAITIF on a comparison: one behind the kind, one behind the relation.
fn wait(tables: &[u32], marks: &mut [u32], values: usize, b: usize)
    requires { b < max_blocks }
    ensures { marks.new ≡ wait_marks tables.now values b marks.old }
{
    let at = BLOCK_WIDTH * b;
    if number(tables, at) != Kind::WaitTerms.number() {
        return;
    }
    terms(tables, marks, values, BLOCK_WIDTH, 1, 2, at);
}

fn waits(tables: &[u32], marks: &mut [u32], values: usize, blocks: usize)
    requires { blocks ≤ max_blocks }
    ensures { marks.new ≡ waits_marks tables.now values blocks marks.old }
{
    for b in 0..blocks {
        wait(tables, marks, values, b);
    }
}

// Does value k name a parameter, itself or through lower ones?
fn names_own(tables: &[u32], values: usize, k: usize) -> u32
    requires values_le_max_values { values ≤ max_values }
    requires k_lt_max_values { k < max_values }
    ensures { result ≡ own_of tables.now values k }
{
    let mut marks = [0u32; MARKS];
    store(&mut marks, VALUES + k, 1);
    reach(tables, &mut marks, values);
    number(&marks, OWN)
}

// The cell of the server or queue that block b changes; its own where there is none.
fn changed(tables: &[u32], b: usize) -> usize
    requires { b < max_blocks }
    ensures { result ≡ changed_cell tables.now b }
{
    let at = BLOCK_WIDTH * b;
    let n = number(tables, at + FIRST) as usize;
    let Some(kind) = Kind::of(number(tables, at)) else {
        return b;
    };
    match kind {
        Kind::Seize | Kind::Release | Kind::Enter | Kind::Leave => SERVERS + n % 64,
        Kind::Preempt | Kind::Return => SERVERS + n % 64,
        Kind::Arrive | Kind::Depart => QUEUES + n % 32,
        _ => b,
    }
}

// Is a WAITIF asked again after block b? 0 for no.
// kept: the number of a mark and no `bool`, since the definition hands on the mark that stands.
fn asked(tables: &[u32], marks: &[u32], b: usize) -> u32
    requires { b < max_blocks }
    ensures { result ≡ asked_of tables.now marks.now b }
{
    if number(marks, b) != 0 {
        return 1;
    }
    number(marks, changed(tables, b))
}

fn store_own(tables: &mut [u32], values: usize)
    requires { values ≤ max_values }
    ensures { tables.new ≡ own_stored values values tables.old }
{
    for k in 0..values {
        let x = names_own(tables, values, k);
        store(tables, NAMES_OWN + k, x);
    }
}

fn store_asked(tables: &mut [u32], marks: &[u32], blocks: usize)
    requires { blocks ≤ max_blocks }
    ensures { tables.new ≡ asked_stored marks.now blocks tables.old }
{
    for b in 0..blocks {
        let x = asked(tables, marks, b);
        store(tables, ASKED + b, x);
    }
}

// All that the WAITIFs read, marked.
fn marks_of(tables: &[u32], marks: &mut [u32], blocks: usize, values: usize)
    requires blocks_le_max_blocks { blocks ≤ max_blocks }
    requires values_le_max_values { values ≤ max_values }
    ensures { marks.new ≡ reach tables.now values (waits_marks tables.now values blocks marks.old) }
{
    waits(tables, marks, values, blocks);
    reach(tables, marks, values);
}

// Fills the last cells of the tables.
pub fn watch(tables: &mut [u32], blocks: usize, values: usize)
    requires blocks_le_max_blocks { blocks ≤ max_blocks }
    requires values_le_max_values { values ≤ max_values }
    ensures { tables.new ≡ watched blocks values tables.old }
{
    store_own(tables, values);
    let mut marks = [0u32; MARKS];
    marks_of(tables, &mut marks, blocks, values);
    store_asked(tables, &marks, blocks);
    store(tables, CLOCK_ASKED, number(&marks, CLOCK));
}
