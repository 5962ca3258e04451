// Numbers, terms and values of a model (document 01, "Terms are a tag and a number", "A value is a
// sum"): read with questions 3, 4 and 5, and stored in the tables as they are read.

#![tactic(auto)]

ghost use Rattle.std.specs.Prelude.{◌≡◌, ◌+◌, ◌*◌, ◌≤◌, ◌<◌};
ghost use Rattle.machine.specs.All.{[], ℕ, max_values, field, value_number, comparison_field, sum_field, sum_terms, value_term, value_field, value_fields, block_term};
ghost use Rattle.layout.specs.Layout as Layout;
ghost use Rattle.layout.specs.All.{value_width, tables_size, word_end};
ghost use Rattle.parse_values.specs.Keeps.{Fits, Takes, Stores, cursor_of, plain_shape, number_shape, counted_shape};
ghost use Rattle.parse_values.specs.Filled.{Filled};
ghost use Rattle.parse_values.specs.Shapes.{Within, ProperValue, before_values, counts_of, range_of, operand_field, term_shape, operand_shape, terms_shape, sum_shape, value_shape, block_term_shape};

use codec::read_text;
use constants::{Model, Refusal, Text};
use layout::{
    BRACKET_TAG, COMPARISON_TAG, ENTRIES_TAG, RELATIONS, TABLES, Tag, VALUE_TAG, VALUE_WIDTH,
    VALUES,
};

// Where reading stands, and the largest block number that values named so far.
#[derive(Clone, Copy)]
pub struct Place {
    pub position: usize,
    // numbers and mentions of values, within one value
    pub numbers: usize,
    pub mentions: usize,
    pub named: usize,
}

// A number of the model: questions 3 and 4.
pub fn number(s: &[u8], p: Place, lo: usize, hi: usize) -> Result<(usize, Place), Refusal>
    ensures takes { Takes (plain_shape lo hi) p 0 [] [] result (field s.now 3 lo hi (cursor_of p)) }
    ensures range { (v : ℕ) (q : Place) → result ≡ Ok (v, q) → (lo ≤ v) × (v ≤ hi) × (q.numbers ≡ p.numbers) }
{
    let most = Model::MAX_NUMBER;
    let (v, position) = read_text(s, p.position, most, lo as u64, hi as u64, Text::Model)?;
    Ok((v as usize, Place { position, ..p }))
}

// The same, stored in the tables: `plus` for the lowest, one more for the next.
// kept: lo, hi and plus are numbers, since a `Range` that carried `Fits` would ask more of those who build one than `keep` does.
// kept: bytes, tables and header stay apart, since a struct around the `&mut` array says in each clause that the others stay.
pub fn keep(
    s: &[u8],
    tables: &mut [u32; TABLES],
    to: usize,
    p: Place,
    lo: usize,
    hi: usize,
    plus: usize,
) -> Result<(usize, Place), Refusal>
    requires { (to < tables_size) × Fits lo hi plus }
    ensures takes { Takes (number_shape lo hi plus) p to tables.old tables.new result (field s.now 3 lo hi (cursor_of p)) }
    ensures range { (v : ℕ) (q : Place) → result ≡ Ok (v, q) → (lo ≤ v) × (v ≤ hi) }
{
    let (v, q) = number(s, p, lo, hi)?;
    tables[to] = (plus + (v - lo)) as u32;
    Ok((v, q))
}

// The same inside a value that is stored from `base` on: question 5 too.
fn keep_counted(
    s: &[u8],
    tables: &mut [u32; TABLES],
    base: usize,
    p: Place,
    lo: usize,
    hi: usize,
    plus: usize,
) -> Result<(usize, Place), Refusal>
    requires { (base + value_width ≤ tables_size) × Fits lo hi plus }
    ensures takes { Takes (counted_shape lo hi plus) p (base + p.numbers) tables.old tables.new result
        (value_number s.now lo hi (cursor_of p)) }
    ensures range { (v : ℕ) (q : Place) → result ≡ Ok (v, q) → (lo ≤ v) × (v ≤ hi) }
{
    let (v, q) = number(s, p, lo, hi)?;
    let numbers = q.numbers;
    if Model::MAX_VALUE_NUMBERS <= numbers {
        return Err(Refusal::LargeValue);
    }
    tables[base + numbers] = (plus + (v - lo)) as u32;
    Ok((
        v,
        Place {
            numbers: numbers + 1,
            ..q
        },
    ))
}

// ---- Terms

// The numbers that may follow a tag, and what is stored for the lowest.
#[derive(Clone, Copy)]
pub struct Range {
    pub lo: usize,
    pub hi: usize,
    pub plus: usize,
}

pub fn term_range(m: Model, tag: usize) -> Range
    requires { Within m }
    ensures value { result ≡ range_of (counts_of m) tag }
    ensures fits { result.hi + result.plus < word_end }
{
    match Tag::of(tag.min(BRACKET_TAG) as u32) {
        Tag::Constant | Tag::MinusConstant => Range {
            lo: 0,
            hi: Model::MAX_CONSTANT,
            plus: 0,
        },
        Tag::Parameter => Range {
            lo: 1,
            hi: Model::PARAMETERS,
            plus: 0,
        },
        Tag::Clock => Range {
            lo: 0,
            hi: 0,
            plus: 0,
        },
        Tag::Entries => Range {
            lo: 1,
            hi: m.blocks,
            plus: 0,
        },
        Tag::Content => Range {
            lo: 1,
            hi: m.queues,
            plus: 0,
        },
        Tag::UnitsInUse | Tag::UnitsFree => Range {
            lo: 1,
            hi: m.storages,
            plus: m.facilities,
        },
        Tag::FacilityInUse => Range {
            lo: 1,
            hi: m.facilities,
            plus: 0,
        },
        Tag::Value | Tag::Comparison | Tag::Bracket => Range {
            lo: 1,
            hi: m.values,
            plus: 0,
        },
    }
}

// A term of a block: tags 0 to 9.
pub fn block_term(
    s: &[u8],
    tables: &mut [u32; TABLES],
    to: usize,
    m: Model,
    p: Place,
) -> Result<Place, Refusal>
    requires { (to + 1 < tables_size) × Within m }
    ensures { Stores block_term_shape p to tables.old tables.new result (block_term s.now (counts_of m) (cursor_of p)) }
{
    let (tag, q) = keep(s, tables, to, p, 0, VALUE_TAG, 0)?;
    let range = term_range(m, tag);
    let (_, after) = keep(s, tables, to + 1, q, range.lo, range.hi, range.plus)?;
    Ok(after)
}

// The number after a tag from 0 to 9, inside a value.
fn operand(
    s: &[u8],
    tables: &mut [u32; TABLES],
    base: usize,
    m: Model,
    tag: usize,
    p: Place,
) -> Result<Place, Refusal>
    requires { (base + value_width ≤ tables_size) × Within m × (tag ≤ 9) }
    ensures { Stores (operand_shape tag) p (base + p.numbers) tables.old tables.new result
        (operand_field s.now (counts_of m) tag (cursor_of p)) }
{
    let range = term_range(m, tag);
    let (v, q) = keep_counted(s, tables, base, p, range.lo, range.hi, range.plus)?;
    if tag == VALUE_TAG {
        if Model::MAX_MENTIONS <= q.mentions {
            return Err(Refusal::LargeValue);
        }
        return Ok(Place {
            mentions: q.mentions + 1,
            ..q
        });
    }
    if tag == ENTRIES_TAG {
        return Ok(Place {
            named: q.named.max(v),
            ..q
        });
    }
    Ok(q)
}

// ---- Values: a term, a comparison, a sum and its terms call each other

// A term of a value in which `depth` brackets may still open.
#[cycle(comparison_sum_sum_terms_value_term)]
fn value_term(
    s: &[u8],
    tables: &mut [u32; TABLES],
    base: usize,
    m: Model,
    depth: usize,
    p: Place,
) -> Result<Place, Refusal>
    requires { (base + value_width ≤ tables_size) × Within m }
    ensures { Stores term_shape p (base + p.numbers) tables.old tables.new result
        (value_term s.now (counts_of m) depth (cursor_of p)) }
{
    let (tag, q) = keep_counted(s, tables, base, p, 0, BRACKET_TAG, 0)?;
    if tag <= VALUE_TAG {
        return operand(s, tables, base, m, tag, q);
    }
    if depth == 0 {
        return Err(Refusal::LargeValue);
    }
    if tag == COMPARISON_TAG {
        return comparison(s, tables, base, m, depth - 1, q);
    }
    sum(s, tables, base, m, depth - 1, q)
}

// After tag 10: a relation and two terms.
#[cycle(comparison_sum_sum_terms_value_term)]
fn comparison(
    s: &[u8],
    tables: &mut [u32; TABLES],
    base: usize,
    m: Model,
    depth: usize,
    p: Place,
) -> Result<Place, Refusal>
    requires { (base + value_width ≤ tables_size) × Within m }
    ensures { Stores (operand_shape 10) p (base + p.numbers) tables.old tables.new result
        (comparison_field s.now (value_term s.now (counts_of m) depth) (cursor_of p)) }
{
    let (_, q) = keep_counted(s, tables, base, p, 1, RELATIONS, 1)?;
    let left = value_term(s, tables, base, m, depth, q)?;
    value_term(s, tables, base, m, depth, left)
}

// A sum: a count of terms and the terms.
#[cycle(comparison_sum_sum_terms_value_term)]
fn sum(
    s: &[u8],
    tables: &mut [u32; TABLES],
    base: usize,
    m: Model,
    depth: usize,
    p: Place,
) -> Result<Place, Refusal>
    requires { (base + value_width ≤ tables_size) × Within m }
    ensures { Stores sum_shape p (base + p.numbers) tables.old tables.new result
        (sum_field s.now (value_term s.now (counts_of m) depth) (cursor_of p)) }
{
    let (count, q) = keep_counted(s, tables, base, p, 1, Model::MAX_TERMS, 1)?;
    sum_terms(s, tables, base, m, depth, count, q)
}

// `left` terms, each behind its sign.
#[cycle(comparison_sum_sum_terms_value_term)]
fn sum_terms(
    s: &[u8],
    tables: &mut [u32; TABLES],
    base: usize,
    m: Model,
    depth: usize,
    left: usize,
    p: Place,
) -> Result<Place, Refusal>
    requires { (base + value_width ≤ tables_size) × Within m }
    ensures { Stores (terms_shape left) p (base + p.numbers) tables.old tables.new result
        (sum_terms s.now left (value_term s.now (counts_of m) depth) (cursor_of p)) }
{
    if left == 0 {
        return Ok(p);
    }
    let (_, q) = keep_counted(s, tables, base, p, 0, 1, 0)?;
    let after = value_term(s, tables, base, m, depth, q)?;
    sum_terms(s, tables, base, m, depth, left - 1, after)
}

// Value k (from 0), whose limits begin anew.
pub fn value(
    s: &[u8],
    tables: &mut [u32; TABLES],
    k: usize,
    m: Model,
    p: Place,
) -> Result<Place, Refusal>
    requires { (k < max_values) × Within m }
    ensures { Stores value_shape p (Layout.values + value_width * k) tables.old tables.new result
        (value_field s.now (counts_of m) (cursor_of p)) }
{
    let base = VALUES + VALUE_WIDTH * k;
    let begun = Place {
        numbers: 0,
        mentions: 0,
        ..p
    };
    sum(s, tables, base, m, Model::MAX_BRACKETS, begun)
}

// The values of a model, each behind the lower-numbered ones that it may name.
pub fn values(s: &[u8], tables: &mut [u32; TABLES], m: Model, p: Place) -> Result<Place, Refusal>
    requires { Within m }
    ensures { Filled value_shape ProperValue value_width Layout.values p tables.old tables.new result
        (value_fields s.now (before_values m) m.values 0 (cursor_of p)) }
{
    let mut q = p;
    for k in 0..m.values {
        let seen = Model {
            values: k,
            lists: 0,
            counter: 0,
            blocks: Model::MAX_BLOCKS,
            ..m
        };
        q = value(s, tables, k, seen, q)?;
    }
    Ok(q)
}
