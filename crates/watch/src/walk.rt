// The things that terms name, marked one by one. Sums and terms call each other: bracket depth and remaining terms fall.
ghost use Rattle.std.specs.Prelude.{◌≡◌, ◌≤◌};
ghost use Rattle.machine.specs.All.{set};
ghost use Rattle.layout.specs.Tags.{tag_number};
ghost use Rattle.watch.specs.Walk.{cell_of, walked, terms_from, term_from};

use layout::{TERM_WIDTH, Tag, number, store};

// Entries of block b (from 0) at b; then queues, servers and values.
pub const QUEUES: usize = 256;

pub const SERVERS: usize = 288;

pub const VALUES: usize = 352;

pub const CLOCK: usize = 360;

// The parameters.
pub const OWN: usize = 361;

// Nothing that could change.
const NOTHING: usize = 362;

pub const MARKS: usize = 363;

const COMPARISON_TAG: u32 = layout::COMPARISON_TAG as u32;

// The cell of what a term of tags 0 to 9 names, where the first `lower` values may be named.
fn cell(lower: usize, tag: Tag, n: u32) -> usize
    ensures { result ≡ cell_of lower (tag_number tag) n }
{
    let i = n as usize;
    match tag {
        Tag::Constant | Tag::MinusConstant => NOTHING,
        Tag::Parameter => OWN,
        Tag::Clock => CLOCK,
        Tag::Entries => i % 256,
        Tag::Content => QUEUES + i % 32,
        Tag::UnitsInUse | Tag::UnitsFree | Tag::FacilityInUse => SERVERS + i % 64,
        Tag::Value | Tag::Comparison | Tag::Bracket => {
            if i < lower { VALUES + i % 8 } else { NOTHING }
        }
    }
}

// Marks what a term of tags 0 to 9 names.
fn mark(marks: &mut [u32], lower: usize, tag: Tag, n: u32)
    ensures { marks.new ≡ set marks.old (cell_of lower (tag_number tag) n) 1 }
{
    store(marks, cell(lower, tag, n), 1);
}

// A term at a position, where `depth` brackets may still open; answers the position after it.
#[cycle(term_terms)]
fn term(tables: &[u32], marks: &mut [u32], lower: usize, depth: usize, at: usize) -> usize
    ensures { walked result marks.new ≡ term_from tables.now lower depth at marks.old }
{
    if tables.len() <= at {
        return at;
    }
    let tag = number(tables, at);
    let n = number(tables, at + 1);
    if tag < COMPARISON_TAG {
        mark(marks, lower, Tag::of(tag), n);
        return at + TERM_WIDTH;
    }
    if depth == 0 {
        return at + TERM_WIDTH;
    }
    if tag == COMPARISON_TAG {
        return terms(tables, marks, lower, depth - 1, 0, 2, at + TERM_WIDTH);
    }
    terms(tables, marks, lower, depth - 1, 1, n, at + TERM_WIDTH)
}

// So many terms from a position on, each behind `skip` numbers.
#[cycle(term_terms)]
pub fn terms(
    tables: &[u32],
    marks: &mut [u32],
    lower: usize,
    depth: usize,
    skip: usize,
    left: u32,
    at: usize,
) -> usize
    requires { skip ≤ 1 }
    ensures { walked result marks.new ≡ terms_from tables.now
        (term_from tables.now lower depth) skip left at marks.old }
{
    if left == 0 {
        return at;
    }
    if tables.len() <= at {
        return at;
    }
    let next = term(tables, marks, lower, depth, at + skip);
    terms(tables, marks, lower, depth, skip, left - 1, next)
}
