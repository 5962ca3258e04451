// The WS scheme: "every WSL member whose comparison no longer holds goes to REL".
ghost use Rattle.std.specs.Prelude.{◌≡◌, ◌*◌, ◌≤◌};
ghost use Rattle.machine.specs.All.{max_blocks};
ghost use Rattle.layout.specs.All.{block_width, most32};
ghost use Rattle.rows_laws.specs.All.{Room, wsl, pass_rows, pass_cell};
ghost use Rattle.values_queues_laws.specs.Scheme.{block_of, leaves_by_lem, ws_scheme};
ghost use Rattle.values_queues_laws.specs.Sides.{answer_number};

use crate::sides::{LEFT_SIDE, RIGHT_SIDE, shared, side};
use constants::Kind;
use evaluation::{Relation, View};
use layout::{BLOCK_WIDTH, TABLES, TALLY, THIRD, number};
use rows::cells::{read, row_at};
use rows::wake::pass;
use rows::{Chain, NEXT, ROWS, Row};
use state::Scalars;

// Where the block of row k stands in the tables.
fn block_of(work: &[u32], k: Row) -> usize
    requires room { Room work.now }
    ensures block { result ≡ block_of work.now k }
    ensures most { result ≤ block_width * most32 }
{
    let i = read(work, NEXT, k).saturating_sub(1) as usize;
    BLOCK_WIDTH * i
}

// Does row k, which stands at `at`, leave the WSL? It does unless a WAITIF is there whose comparison holds.
fn leaves(
    view: &View,
    blocks: usize,
    work: &[u32],
    k: Row,
    at: usize,
    left: Option<u32>,
    right: Option<u32>,
) -> bool
    requires room { Room work.now }
    requires blocks_le_max_blocks { blocks ≤ max_blocks }
    ensures { result
        ≡ leaves_by_lem view.now.tables.now blocks view.now.values view.now.tally.now view.now.clock work.now k at
        (answer_number left) (answer_number right) }
{
    if at >= BLOCK_WIDTH * blocks {
        return true;
    }
    let tables = view.tables;
    if number(tables, at) != Kind::WaitTerms.number() {
        return true;
    }
    let a = side(view, work, k, at + LEFT_SIDE, left);
    let b = side(view, work, k, at + RIGHT_SIDE, right);
    !Relation::of(number(tables, at + THIRD)).holds(a, b)
}

// One step along the WSL, at a cell that holds row k, which stands at `at`.
fn step(
    view: &View,
    blocks: usize,
    work: &mut [u32],
    cell: u32,
    k: Row,
    at: usize,
    left: Option<u32>,
    right: Option<u32>,
) -> u32
    requires room { Room work.old }
    requires blocks_le_max_blocks { blocks ≤ max_blocks }
    ensures cell { result
        ≡ pass_cell (leaves_by_lem view.now.tables.now blocks view.now.values view.now.tally.now view.now.clock work.old k at
        (answer_number left) (answer_number right))
        work.old cell }
    ensures rows { work.new
        ≡ pass_rows (leaves_by_lem view.now.tables.now blocks view.now.values view.now.tally.now view.now.clock work.old k at
        (answer_number left) (answer_number right))
        work.old wsl cell }
{
    let moves = leaves(view, blocks, work, k, at, left, right);
    pass(work, Chain::WSL, cell, moves)
}

// The WS scheme follows a turn's block unless that ended the run. Answers for all are kept from one row to the next.
pub fn ws(
    tables: &[u32; TABLES],
    blocks: usize,
    values: usize,
    work: &mut [u32],
    tally: &[u64; TALLY],
    x: Scalars,
)
    requires room { Room work.old }
    requires blocks_le_max_blocks { blocks ≤ max_blocks }
    ensures { work.new ≡ ws_scheme tables.now blocks values tally.now x work.old }
{
    if x.end.ended() {
        return;
    }
    let view = View {
        tables,
        tally,
        values,
        clock: x.clock,
    };
    let mut cell = Chain::WSL.head();
    let mut seen = TABLES;
    let mut left = None;
    let mut right = None;
    for _ in 0..ROWS {
        let Some(k) = row_at(work, cell) else {
            return;
        };
        let at = block_of(work, k);
        left = shared(&view, seen + LEFT_SIDE, left, at + LEFT_SIDE);
        right = shared(&view, seen + RIGHT_SIDE, right, at + RIGHT_SIDE);
        seen = at;
        cell = step(&view, blocks, work, cell, k, at, left, right);
    }
}
