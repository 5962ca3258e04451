// The parts of a turn in their order.
ghost use Rattle.std.specs.Prelude.{◌≡◌, ◌≤◌};
ghost use Rattle.rows_laws.specs.All.{Room};
ghost use Rattle.machine.specs.All.{max_blocks, max_facilities};
ghost use Rattle.state.specs.All.{rows_of};
ghost use Rattle.turn_laws.specs.Turn.{traced, act, act_moving, clock_asks, next_of, asks, scheme_if, after_taking, turn};

use crate::note::note_record;
use blocks::execute;
use clock::take;
use constants::Model;
use layout::{ASKED, BLOCK_WIDTH, CLOCK_ASKED, TABLES, TALLY};
use rows::cells::read;
use rows::lists::first;
use rows::{Chain, NEXT, NUMBER};
use state::{Moving, Scalars};
use values_queues::ws;

// The moving transaction, with this number and next block, executes that block, and its record is noted.
fn act(
    tables: &[u32; TABLES],
    values: usize,
    facilities: usize,
    tape: &[u8],
    work: &mut [u32],
    tally: &mut [u64; TALLY],
    trace: &mut [u8],
    x: Moving,
    number: u32,
    block: u32,
) -> Scalars
    requires room { Room work.old }
    requires facilities_le_max_facilities { facilities ≤ max_facilities }
    ensures { traced (rows_of result work.new tally.new) trace.new
        ≡ act tables.now values facilities tape.now work.old tally.old
        trace.old x number block }
{
    let b = block.saturating_sub(1) as usize;
    if b >= Model::MAX_BLOCKS {
        return x.scalars();
    }
    let y = execute(
        tables,
        values,
        facilities,
        tape,
        work,
        tally,
        x,
        BLOCK_WIDTH * b,
    );
    note_record(tally, trace, y, number, block)
}

// Who moves, if somebody does, executes its block.
fn act_moving(
    tables: &[u32; TABLES],
    values: usize,
    facilities: usize,
    tape: &[u8],
    work: &mut [u32],
    tally: &mut [u64; TALLY],
    trace: &mut [u8],
    x: Scalars,
) -> Scalars
    requires room { Room work.old }
    requires facilities_le_max_facilities { facilities ≤ max_facilities }
    ensures { traced (rows_of result work.new tally.new) trace.new
        ≡ act_moving tables.now values facilities tape.now work.old tally.old
        trace.old x }
{
    let idle = x;
    let Some(m) = Moving::of(x) else {
        return idle;
    };
    let k = m.row();
    let number = read(work, NUMBER, k);
    let block = read(work, NEXT, k);
    act(
        tables, values, facilities, tape, work, tally, trace, m, number, block,
    )
}

// Has the clock moved, and does a WAITIF on a comparison read it?
fn clock_asked(tables: &[u32; TABLES], before: u64, after: u64) -> bool
    ensures { result ≡ clock_asks tables.now before «after» }
{
    before != after && layout::number(tables, CLOCK_ASKED) != 0
}

// The block that who moves stands before, 0 where nobody does.
fn next_of(work: &[u32], x: &Scalars) -> u32
    requires room { Room work.now }
    ensures { result ≡ next_of work.now x.now.moving }
{
    match x.moving.row() {
        Some(k) => read(work, NEXT, k),
        None => 0,
    }
}

// Are those that wait on comparisons asked again after a turn, of the clock before and after it and the block of whoever moved? Not if
// none of them reads what that block changes.
fn asked(tables: &[u32; TABLES], before: u64, after: u64, block: u32) -> bool
    ensures { result ≡ asks tables.now before «after» block }
{
    if clock_asked(tables, before, after) {
        return true;
    }
    let b = block.saturating_sub(1) as usize;
    if b >= Model::MAX_BLOCKS {
        return true;
    }
    layout::number(tables, ASKED + b) != 0
}

// The WS scheme, where they are asked.
fn scheme(
    tables: &[u32; TABLES],
    blocks: usize,
    values: usize,
    work: &mut [u32],
    tally: &[u64; TALLY],
    x: &Scalars,
    asks: bool,
)
    requires room { Room work.old }
    requires blocks_le_max_blocks { blocks ≤ max_blocks }
    ensures { work.new ≡ scheme_if asks tables.now blocks values tally.now x.now work.old }
{
    if asks {
        ws(tables, blocks, values, work, tally, *x);
    }
}

// The same after a turn; where nobody is on the WSL, it does nothing, and whether they are asked is not looked at.
fn scheme_after(
    tables: &[u32; TABLES],
    blocks: usize,
    values: usize,
    work: &mut [u32],
    tally: &[u64; TALLY],
    x: &Scalars,
    before: u64,
    block: u32,
)
    requires room { Room work.old }
    requires blocks_le_max_blocks { blocks ≤ max_blocks }
    ensures { work.new ≡ scheme_if (asks tables.now before x.now.clock block) tables.now blocks values
        tally.now x.now work.old }
{
    let Some(_) = first(work, Chain::WSL) else {
        return;
    };
    let asks = asked(tables, before, x.clock, block);
    scheme(tables, blocks, values, work, tally, x, asks);
}

// A turn after the taking, of the clock before it.
fn after_taking(
    model: Model,
    tables: &[u32; TABLES],
    tape: &[u8],
    work: &mut [u32],
    tally: &mut [u64; TALLY],
    trace: &mut [u8],
    before: u64,
    x: Scalars,
) -> Scalars
    requires room { Room work.old }
    requires facilities_le_max_facilities { model.facilities ≤ max_facilities }
    requires blocks_le_max_blocks { model.blocks ≤ max_blocks }
    ensures { traced (rows_of result work.new tally.new) trace.new
        ≡ after_taking tables.now model.blocks model.values model.facilities tape.now
        trace.old before (rows_of x work.old tally.old) }
{
    let block = next_of(work, &x);
    let y = act_moving(
        tables,
        model.values,
        model.facilities,
        tape,
        work,
        tally,
        trace,
        x,
    );
    scheme_after(
        tables,
        model.blocks,
        model.values,
        work,
        tally,
        &y,
        before,
        block,
    );
    y
}

pub fn turn(
    model: Model,
    tables: &[u32; TABLES],
    tape: &[u8],
    work: &mut [u32],
    tally: &mut [u64; TALLY],
    trace: &mut [u8],
    x: Scalars,
) -> Scalars
    requires room { Room work.old }
    requires facilities_le_max_facilities { model.facilities ≤ max_facilities }
    requires blocks_le_max_blocks { model.blocks ≤ max_blocks }
    ensures { traced (rows_of result work.new tally.new) trace.new
        ≡ turn model tables.now tape.now work.old tally.old trace.old x }
{
    let before = x.clock;
    let y = take(work, tally, x);
    after_taking(model, tables, tape, work, tally, trace, before, y)
}
