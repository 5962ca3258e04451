// The start of a run: "clock 0; for each GENERATE in block order, if its sample list has a time, one transaction on the FEL at that
// time". Nothing is asked.

#![tactic(auto)]

ghost use Rattle.std.specs.Prelude.{◌≡◌, ◌<◌, ◌≤◌};
ghost use Rattle.rows_laws.specs.All.{Room};
ghost use Rattle.machine.specs.All.{min, max_blocks, max_lists};
ghost use Rattle.layout.specs.All.{most32};
ghost use Rattle.state.specs.All.{rows_of};
ghost use Rattle.start.specs.Start.{list_set, lists_set, start_scalars, begin_list, begin_block, begin_blocks, start_rows};

use constants::{Kind, Model};
use flow::{arrives, next_sample, one_made, times_left};
use layout::{
    BLOCK_WIDTH, FIRST, LIST_AT, LIST_COUNTS, LIST_LEFT, SECOND, count, number, set_count,
};
use rows::make::initialise;
use state::{Mover, Note, Noting, Scalars, Stopped};

// Where list l begins and how many times it has.
fn set_list(lists: &[u64], tally: &mut [u64], l: usize)
    requires { l < max_lists }
    ensures { tally.new ≡ list_set lists.now tally.old l }
{
    set_count(tally, LIST_AT + l, count(lists, l));
    set_count(tally, LIST_LEFT + l, count(lists, LIST_COUNTS + l));
}

fn set_lists(lists: &[u64], tally: &mut [u64])
    ensures { tally.new ≡ lists_set max_lists lists.now tally.old }
{
    for l in 0..Model::MAX_LISTS {
        set_list(lists, tally, l);
    }
}

// the largest number of 32 bits
const MOST: usize = u32::MAX as usize;

fn narrow(n: usize) -> u32
    ensures { result ≡ min n most32 }
{
    n.min(MOST) as u32
}

fn begin_scalars(counter: usize) -> Scalars
    ensures { result ≡ start_scalars counter }
{
    let c = narrow(counter);
    Scalars {
        clock: 0,
        counter: c,
        moving: Mover::NOBODY,
        serial: 0,
        made: 0,
        ended: 0,
        turns: 0,
        used: 0,
        end: Stopped::none(),
        note: Noting::of(Note::Entered),
    }
}

// Block b (from 0) is a GENERATE.
fn begin_list(
    tables: &[u32],
    tape: &[u8],
    work: &mut [u32],
    tally: &mut [u64],
    x: Scalars,
    b: usize,
) -> Scalars
    requires room { Room work.old }
    requires b_lt_max_blocks { b < max_blocks }
    ensures { rows_of result work.new tally.new ≡ begin_list tables.now tape.now
        (rows_of x work.old tally.old) b }
{
    let list = number(tables, BLOCK_WIDTH * b + FIRST);
    if times_left(tally, list) == 0 {
        return x;
    }
    let priority = number(tables, BLOCK_WIDTH * b + SECOND);
    let sample = next_sample(tape, tally, list);
    let made = arrives(
        work,
        tally,
        x.made,
        x.serial,
        x.clock,
        sample,
        list,
        priority,
        (b + 1) as u32,
    );
    one_made(x, made)
}

fn begin_block(
    tables: &[u32],
    tape: &[u8],
    work: &mut [u32],
    tally: &mut [u64],
    x: Scalars,
    b: usize,
) -> Scalars
    requires room { Room work.old }
    requires b_lt_max_blocks { b < max_blocks }
    ensures { rows_of result work.new tally.new ≡ begin_block tables.now tape.now
        (rows_of x work.old tally.old) b }
{
    if number(tables, BLOCK_WIDTH * b) != Kind::Generate.number() {
        return x;
    }
    begin_list(tables, tape, work, tally, x, b)
}

fn begin_blocks(
    tables: &[u32],
    tape: &[u8],
    work: &mut [u32],
    tally: &mut [u64],
    x: Scalars,
    blocks: usize,
) -> Scalars
    requires room { Room work.old }
    requires blocks_le_max_blocks { blocks ≤ max_blocks }
    ensures { rows_of result work.new tally.new ≡ begin_blocks blocks tables.now tape.now
        (rows_of x work.old tally.old) 0 }
{
    let mut y = x;
    for b in 0..blocks {
        y = begin_block(tables, tape, work, tally, y, b);
    }
    y
}

// `lists` is what decoding leaves: where list l begins in the tape, at l, and how many times it has, at LIST_COUNTS + l.
pub fn begin(
    model: Model,
    tables: &[u32],
    tape: &[u8],
    lists: &[u64],
    work: &mut [u32],
    tally: &mut [u64],
) -> Scalars
    requires room { Room work.old }
    ensures { rows_of result work.new tally.new ≡ start_rows model tables.now tape.now lists.now
        work.old tally.old }
{
    initialise(work);
    set_lists(lists, tally);
    let blocks = model.blocks.min(Model::MAX_BLOCKS);
    let x = begin_scalars(model.counter);
    begin_blocks(tables, tape, work, tally, x, blocks)
}
