// A side of a comparison, for those that wait on it: one that names no parameter is worth the same to all, and is evaluated once
// for those that stand at one WAITIF.
ghost use Rattle.std.specs.Prelude.{◌≡◌, ◌<◌};
ghost use Rattle.rows_laws.specs.All.{Room};
ghost use Rattle.machine.specs.All.{get_or};
ghost use Rattle.layout.specs.All.{program_size, tables_size};
ghost use Rattle.evaluation.specs.Evaluation.{term_at};
ghost use Rattle.values_queues_laws.specs.Comparison.{parameters_at};
ghost use Rattle.values_queues_laws.specs.Sides.{answer_number, names_own, side_at, side_by, ForAll};
ghost use Rattle.values_queues_laws.specs.Waits.{held_at, held_by_all};

use crate::comparison::parameters_of;
use constants::Model;
use evaluation::{Relation, View};
use layout::{FIRST, NAMES_OWN, RIGHT, TABLES, TALLY, THIRD, Tag, number};
use rows::cells::read;
use rows::{PARAMETER_1, Row};

const PARAMETERS: u32 = Model::PARAMETERS as u32;

const PARAMETER_TAG: u32 = Tag::Parameter as u32;

const VALUE_TAG: u32 = Tag::Value as u32;

// The left term of a block at a position, and the right one.
pub const LEFT_SIDE: usize = FIRST;

pub const RIGHT_SIDE: usize = FIRST + RIGHT;

// Does the term at `at` name a parameter, itself or through values? Past the tables it counts as one that does. Kept by the numbers of
// tags: a match over `Tag` becomes a table of jumps, which was slower in `term` of evaluation (59 ns, and 47 by numbers).
fn names_own(tables: &[u32; TABLES], at: usize) -> bool
    ensures { result ≡ names_own tables.now at }
{
    if at >= TABLES {
        return true;
    }
    let tag = number(tables, at);
    if tag == PARAMETER_TAG {
        return true;
    }
    if tag < VALUE_TAG {
        return false;
    }
    let k = number(tables, at + 1) as usize;
    number(tables, NAMES_OWN + k) != 0
}

// What the term at `at` is worth to all, as bits, if it names no parameter.
fn for_all(view: &View, at: usize) -> Option<u32>
    ensures { ForAll view.now.tables.now view.now.values view.now.tally.now view.now.clock at (answer_number result) }
{
    if names_own(view.tables, at) {
        return None;
    }
    let none = [0u32; Model::PARAMETERS];
    Some(view.term_at(&none, at).cast_unsigned())
}

// The answer for all at `at`, where `known` is the one at `seen`.
pub fn shared(view: &View, seen: usize, known: Option<u32>, at: usize) -> Option<u32>
    ensures { ForAll view.now.tables.now view.now.values view.now.tally.now view.now.clock seen (answer_number known)
        → ForAll view.now.tables.now view.now.values view.now.tally.now view.now.clock at (answer_number result) }
{
    if seen == at {
        return known;
    }
    for_all(view, at)
}

// Parameter i (from 0) of row k, as bits; 0 if there is none.
fn parameter(work: &[u32], k: Row, i: u32) -> u32
    requires room { Room work.now }
    ensures { result ≡ get_or (parameters_at work.now k) i 0 }
{
    if i >= PARAMETERS {
        return 0;
    }
    read(work, PARAMETER_1 + i, k)
}

// What the term at `at` is worth to row k, with its own parameters.
fn own(view: &View, work: &[u32], k: Row, at: usize) -> i32
    requires room { Room work.now }
    requires at_lt_tables_size { at < tables_size }
    ensures { result ≡ term_at view.now.tables.now view.now.tally.now view.now.values view.now.clock (parameters_at work.now k) at }
{
    let tables = view.tables;
    if number(tables, at) == PARAMETER_TAG {
        return parameter(work, k, number(tables, at + 1)).cast_signed();
    }
    let parameters = parameters_of(work, k);
    view.term_at(&parameters, at)
}

// The same, by an answer for all if there is one.
pub fn side(view: &View, work: &[u32], k: Row, at: usize, answer: Option<u32>) -> i32
    requires room { Room work.now }
    requires at_lt_tables_size { at < tables_size }
    ensures { result ≡ side_by view.now.tables.now view.now.values view.now.tally.now view.now.clock (answer_number answer) work.now k at }
{
    match answer {
        Some(bits) => bits.cast_signed(),
        None => own(view, work, k, at),
    }
}

// The same in a turn of row k: one that names no parameter is evaluated with none.
fn worth_to(view: &View, work: &[u32], k: Row, at: usize) -> i32
    requires room { Room work.now }
    requires at_lt_tables_size { at < tables_size }
    ensures { result ≡ side_at view.now.tables.now view.now.values view.now.tally.now view.now.clock work.now k at }
{
    if names_own(view.tables, at) {
        return own(view, work, k, at);
    }
    let none = [0u32; Model::PARAMETERS];
    view.term_at(&none, at)
}

// Does the comparison of the WAITIF at `at` hold for row k?
pub fn held(view: &View, work: &[u32], k: Row, at: usize) -> bool
    requires room { Room work.now }
    requires at_lt_program_size { at < program_size }
    ensures { result ≡ held_at view.now.tables.now view.now.values work.now view.now.tally.now view.now.clock k at }
{
    let tables = view.tables;
    let a = worth_to(view, work, k, at + LEFT_SIDE);
    let b = worth_to(view, work, k, at + RIGHT_SIDE);
    Relation::of(number(tables, at + THIRD)).holds(a, b)
}

// Does it name no parameter, and hold for all?
pub fn held_by_all(
    tables: &[u32; TABLES],
    values: usize,
    tally: &[u64; TALLY],
    clock: u64,
    at: usize,
) -> bool
    requires { at < program_size }
    ensures { result ≡ held_by_all tables.now values tally.now clock at }
{
    if names_own(tables, at + LEFT_SIDE) {
        return false;
    }
    if names_own(tables, at + RIGHT_SIDE) {
        return false;
    }
    let view = View {
        tables,
        tally,
        values,
        clock,
    };
    let none = [0u32; Model::PARAMETERS];
    view.compare_at(&none, at + FIRST)
}
