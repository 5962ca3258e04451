// Values of a part, from the tables, written as the joined model numbers them: brackets open inside brackets.
ghost use Rattle.std.specs.Prelude.{◌≡◌, ◌+◌, ◌≤◌, ◌<◌};
ghost use Rattle.machine.specs.All.{length, max_values};
ghost use Rattle.layout.specs.All.{tables_size};
ghost use Rattle.codec.specs.Writing.{written};
ghost use Rattle.join_laws.specs.Rows.{opened as openedTerms, signs_in, sign_at, item_at, items_from, value_row_lem, value_rows, Wrote, puts};

use super::moving::{Role, emit};
use constants::Model;
use join_laws::Shift;
use layout::{Tag, VALUE_WIDTH, VALUES, number};

const VALUE_TAG: u32 = Tag::Value as u32;

const COMPARISON_TAG: u32 = Tag::Comparison as u32;

// Where reading and writing stand.
#[derive(Clone, Copy)]
struct Went {
    from: usize,
    to: usize,
}

// How many terms a comparison or a bracket opens: two, or the count behind the tag.
fn opened(tag: u32, n: u32) -> u32
    ensures { result ≡ openedTerms tag n }
{
    if tag == COMPARISON_TAG {
        return 2;
    }
    n
}

// The signs before each of them.
fn signs_in(tag: u32) -> usize
    ensures value { result ≡ signs_in tag }
    ensures most { result ≤ 1 }
{
    if tag == COMPARISON_TAG {
        return 0;
    }
    1
}

fn sign(tables: &[u32], from: usize, signs: usize, by: Shift, out: &mut [u8], to: usize) -> usize
    ensures { written result out.new ≡ puts (sign_at tables.now by from signs) (written to out.old) }
{
    if signs == 0 {
        return to;
    }
    emit(out, to, Role::Plain, number(tables, from), by)
}

// A term's sign, its tag and the number behind it.
fn item(tables: &[u32], from: usize, signs: usize, by: Shift, out: &mut [u8], to: usize) -> usize
    requires { (from < length tables.now) × (signs ≤ 1) }
    ensures { written result out.new ≡ puts (item_at tables.now by from signs) (written to out.old) }
{
    let a = sign(tables, from, signs, by, out, to);
    let tag = number(tables, from + signs);
    let b = emit(out, a, Role::Plain, tag, by);
    emit(out, b, Role::of(tag), number(tables, from + signs + 1), by)
}

// `left` terms from a place on, where `depth` brackets may still open.
fn items(
    tables: &[u32],
    from: usize,
    left: u32,
    signs: usize,
    depth: usize,
    by: Shift,
    out: &mut [u8],
    to: usize,
) -> Went
    requires { signs ≤ 1 }
    ensures { Wrote (items_from tables.now by depth left signs from) result.from (written to out.old) (written result.to out.new) }
{
    if left == 0 {
        return Went { from, to };
    }
    if tables.len() <= from {
        return Went { from, to };
    }
    let next = from + signs + 2;
    let tag = number(tables, from + signs);
    let n = number(tables, from + signs + 1);
    let done = item(tables, from, signs, by, out, to);
    if tag <= VALUE_TAG {
        return items(tables, next, left - 1, signs, depth, by, out, done);
    }
    if depth == 0 {
        return items(tables, next, left - 1, signs, depth, by, out, done);
    }
    let inner = items(
        tables,
        next,
        opened(tag, n),
        signs_in(tag),
        depth - 1,
        by,
        out,
        done,
    );
    items(
        tables,
        inner.from,
        left - 1,
        signs,
        depth,
        by,
        out,
        inner.to,
    )
}

// The value at a place of the tables.
fn value(tables: &[u32], at: usize, by: Shift, out: &mut [u8], to: usize) -> usize
    requires { at ≤ tables_size }
    ensures { written result out.new ≡ puts (value_row_lem tables.now by at) (written to out.old) }
{
    let count = number(tables, at);
    let next = emit(out, to, Role::Plain, count, by);
    let whole = items(tables, at + 1, count, 1, Model::MAX_BRACKETS, by, out, next);
    whole.to
}

// The first `count` values.
pub fn values(tables: &[u32], count: usize, by: Shift, out: &mut [u8], to: usize) -> usize
    requires { count ≤ max_values }
    ensures { written result out.new ≡ puts (value_rows tables.now by count 0) (written to out.old) }
{
    let mut next = to;
    for k in 0..count {
        next = value(tables, VALUES + VALUE_WIDTH * k, by, out, next);
    }
    next
}
