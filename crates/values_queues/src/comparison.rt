// Blocks with terms, which are read with the moving transaction's own parameters: WAITIF, IF and LET. Kept with tables, values and tally
// apart: who chooses the block lends the tally to ARRIVE and DEPART as well, which write it, so it has no view to hand on.
ghost use Rattle.std.specs.Prelude.{◌≡◌, ◌<◌};
ghost use Rattle.rows_laws.specs.All.{Room};
ghost use Rattle.layout.specs.All.{program_size};
ghost use Rattle.moves.specs.Motion.{moved};
ghost use Rattle.values_queues_laws.specs.Comparison.{parameters_at, holds_at, worth_at, set_parameter, branch_rows, assign_rows};
ghost use Rattle.values_queues_laws.specs.Waits.{wait_terms_rows};

use crate::sides::held;
use constants::Model;
use evaluation::View;
use layout::{BRANCH_TARGET, FIRST, SECOND, TABLES, TALLY, number};
use moves::{IN_ORDER, go_on, go_to, wait_on};
use rows::cells::{read, write};
use rows::{Chain, PARAMETER_1, PARAMETER_2, PARAMETER_3, PARAMETER_4, Row};
use state::{Moving, Scalars};

const PARAMETERS: u32 = Model::PARAMETERS as u32;

// The parameters of row k, as bits.
pub fn parameters_of(work: &[u32], k: Row) -> [u32; Model::PARAMETERS]
    requires room { Room work.now }
    ensures { result ≡ parameters_at work.now k }
{
    let p1 = read(work, PARAMETER_1, k);
    let p2 = read(work, PARAMETER_2, k);
    let p3 = read(work, PARAMETER_3, k);
    let p4 = read(work, PARAMETER_4, k);
    [p1, p2, p3, p4]
}

// Does the comparison of the block at `at` hold for row k?
fn holds(view: &View, work: &[u32], k: Row, at: usize) -> bool
    requires room { Room work.now }
    requires at_lt_program_size { at < program_size }
    ensures { result ≡ holds_at view.now.tables.now view.now.values work.now view.now.tally.now view.now.clock k at }
{
    let parameters = parameters_of(work, k);
    view.compare_at(&parameters, at + FIRST)
}

// What the term of the LET at `at` is worth for row k, as bits.
fn worth(view: &View, work: &[u32], k: Row, at: usize) -> u32
    requires room { Room work.now }
    requires at_lt_program_size { at < program_size }
    ensures { result ≡ worth_at view.now.tables.now view.now.values work.now view.now.tally.now view.now.clock k at }
{
    let parameters = parameters_of(work, k);
    view.term_at(&parameters, at + SECOND).cast_unsigned()
}

// Parameter i (from 0) of row k gets these bits.
fn set_parameter(work: &mut [u32], k: Row, i: u32, x: u32)
    requires room { Room work.old }
    ensures { work.new ≡ set_parameter work.old k i x }
{
    if i < PARAMETERS {
        write(work, PARAMETER_1 + i, k, x);
    }
}

// 9 WAITIF left, relation, right: "waits on the WSL while true; else go on".
pub fn wait_terms(
    tables: &[u32; TABLES],
    values: usize,
    work: &mut [u32],
    tally: &[u64; TALLY],
    x: Moving,
    at: usize,
) -> Scalars
    requires room { Room work.old }
    requires at_lt_program_size { at < program_size }
    ensures { moved result work.new
        ≡ wait_terms_rows tables.now values work.old tally.now x at }
{
    let k = x.row();
    let view = View {
        tables,
        tally,
        values,
        clock: x.scalars().clock,
    };
    if held(&view, work, k, at) {
        return wait_on(work, x, Chain::WSL, IN_ORDER);
    }
    go_on(work, x)
}

// 10 IF left, relation, right, target: "true, the next block is the target, still moving; else go on".
pub fn branch(
    tables: &[u32; TABLES],
    values: usize,
    work: &mut [u32],
    tally: &[u64; TALLY],
    x: Moving,
    at: usize,
) -> Scalars
    requires room { Room work.old }
    requires at_lt_program_size { at < program_size }
    ensures { moved result work.new ≡ branch_rows tables.now values work.old tally.now x at }
{
    let k = x.row();
    let view = View {
        tables,
        tally,
        values,
        clock: x.scalars().clock,
    };
    if holds(&view, work, k, at) {
        return go_to(work, x, number(tables, at + BRANCH_TARGET));
    }
    go_on(work, x)
}

// 12 LET parameter, term: the parameter becomes what the term is worth.
pub fn assign(
    tables: &[u32; TABLES],
    values: usize,
    work: &mut [u32],
    tally: &[u64; TALLY],
    x: Moving,
    at: usize,
) -> Scalars
    requires room { Room work.old }
    requires at_lt_program_size { at < program_size }
    ensures { moved result work.new ≡ assign_rows tables.now values work.old tally.now x at }
{
    let k = x.row();
    let view = View {
        tables,
        tally,
        values,
        clock: x.scalars().clock,
    };
    let n = worth(&view, work, k, at);
    set_parameter(work, k, number(tables, at + FIRST), n);
    go_on(work, x)
}
