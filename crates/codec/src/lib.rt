// Numbers in bytes (document 01, "Bytes"): groups of seven bits, highest first, top bit set on all
// bytes but the last, shortest form.

#![tactic(auto)]

ghost use Rattle.std.specs.Prelude.{◌≡◌, ◌+◌, ◌≤◌, ◌<◌};
ghost use Rattle.constants.specs.Numbers.{refusal_number, malformed};
ghost use Rattle.machine.specs.All.{cond, ℕ, leb, length, drop, sets, five_groups, max_number_bytes, max_report_number_bytes, max_report_number, groups, within, read_number, number_bytes, field_up_to};
ghost use Rattle.codec.specs.Answers.{number_of, read_as, cursor_at, parsed_of, numbered};
ghost use Rattle.codec.specs.Writing.{written, put};

use constants::{Model, Refusal, Text};

// A group has seven bits; the top bit of its byte is worth as much as a group.
const GROUP: u64 = 128;

// the first byte of a number that is not in shortest form
const EMPTY_GROUP: u8 = 128;

// The groups at a position, at most `limit` of them, a number of at most `most`: its value and the position after it.
fn read_groups(s: &[u8], at: usize, limit: usize, most: u64) -> Option<(u64, usize)>
    requires { limit ≤ max_report_number_bytes }
    ensures { result ≡ read_as at (within most (groups limit 0 (drop at s.now))) }
{
    let mut value: u64 = 0;
    let mut next = at;
    for _ in 0..limit {
        let b = u64::from(*s.get(next)?);
        next += 1;
        if b < GROUP {
            value = value * GROUP + b;
            return (value <= most).then_some((value, next));
        }
        value = value * GROUP + (b - GROUP);
    }
    None
}

// The same in shortest form: a number that begins with an empty group is refused.
fn read_shortest(s: &[u8], at: usize, limit: usize, most: u64) -> Option<(u64, usize)>
    requires { limit ≤ max_report_number_bytes }
    ensures { result ≡ read_as at (read_number limit most (drop at s.now)) }
{
    if *s.get(at)? == EMPTY_GROUP {
        return None;
    }
    read_groups(s, at, limit, most)
}

// A number of model, tape or trace, in size if it is at most `most`: its value and the position after it.
pub fn read_number(s: &[u8], at: usize, most: u64) -> Option<(u64, usize)>
    ensures result_value { number_of at result ≡ read_number max_number_bytes most (drop at s.now) }
    ensures inside { (v next : ℕ) → result ≡ Some (v, next) → (v ≤ most) × (at < next) × (next ≤ length s.now) }
{
    read_shortest(s, at, Model::NUMBER_BYTES, most)
}

// A number of the report.
pub fn read_report_number(s: &[u8], at: usize) -> Option<(u64, usize)>
    ensures result_value { number_of at result ≡ read_number max_report_number_bytes max_report_number (drop at s.now) }
    ensures inside { (v next : ℕ) → result ≡ Some (v, next) → (v ≤ max_report_number) × (at < next) × (next ≤ length s.now) }
{
    read_shortest(s, at, Model::REPORT_NUMBER_BYTES, Model::MAX_REPORT_NUMBER)
}

// A number from lo to hi and the position after it, or the refusal: the text's first for a number that is not whole, not
// shortest or above `most`, its second for one out of range.
pub fn read_text(
    s: &[u8],
    at: usize,
    most: u64,
    lo: u64,
    hi: u64,
    text: Text,
) -> Result<(u64, usize), Refusal>
    ensures by_index { (numbers mentions : ℕ) → parsed_of numbers mentions result
        ≡ field_up_to most s.now (refusal_number (malformed text)) lo hi (cursor_at at numbers mentions) }
    ensures inside { (v next : ℕ) → result ≡ Ok (v, next) → (lo ≤ v) × (v ≤ hi) × (at < next) × (next ≤ length s.now) }
{
    let Some((v, next)) = read_number(s, at, most) else {
        return Err(text.malformed());
    };
    if v < lo || hi < v {
        return Err(text.out_of_range());
    }
    Ok((v, next))
}

// A number from lo to hi and the position after it, or the number of the refusal: `code` for a number that is not whole, not
// shortest or above `most`, the next number for one out of range.
pub fn read_field(
    s: &[u8],
    at: usize,
    most: u64,
    lo: u64,
    hi: u64,
    code: u8,
) -> Result<(u64, usize), u32>
    ensures by_index { (numbers mentions : ℕ) → numbered numbers mentions result
        ≡ field_up_to most s.now code lo hi (cursor_at at numbers mentions) }
    ensures inside { (v next : ℕ) → result ≡ Ok (v, next) → (lo ≤ v) × (v ≤ hi) × (at < next) × (next ≤ length s.now) }
{
    let malformed = code as u32;
    let Some((v, next)) = read_number(s, at, most) else {
        return Err(malformed);
    };
    if v < lo || hi < v {
        return Err(malformed + 1);
    }
    Ok((v, next))
}

// Numbers below these take so many bytes.
const END_1: u64 = 128;

const END_2: u64 = 16_384;

const END_3: u64 = 2_097_152;

const END_4: u64 = 268_435_456;

const END_5: u64 = 34_359_738_368;

const END_6: u64 = 4_398_046_511_104;

const END_7: u64 = 562_949_953_421_312;

const END_8: u64 = 72_057_594_037_927_936;

// How many bytes a number takes.
pub fn number_len(v: u64) -> usize
    ensures { result ≡ length (number_bytes v) }
{
    if v < END_1 {
        return 1;
    }
    if v < END_2 {
        return 2;
    }
    if v < END_3 {
        return 3;
    }
    if v < END_4 {
        return 4;
    }
    if v < END_5 {
        return 5;
    }
    if v < END_6 {
        return 6;
    }
    if v < END_7 {
        return 7;
    }
    if v < END_8 {
        return 8;
    }
    Model::REPORT_NUMBER_BYTES
}

// Writes the `len` bytes of a number at a position with room for them.
fn store_number(out: &mut [u8], at: usize, v: u64, len: usize)
    requires { (len ≡ length (number_bytes v)) × (at + len ≤ length out.old) }
    ensures { out.new ≡ sets out.old at (number_bytes v) }
{
    let mut left = len - 1;
    out[at + left] = (v % GROUP) as u8;
    let mut above = v / GROUP;
    while 0 < left {
        left -= 1;
        out[at + left] = (GROUP + above % GROUP) as u8;
        above /= GROUP;
    }
}

// Writes a number at a position and returns the position after it; without room for it nothing is
// written and the position is returned as it was.
pub fn write_number(out: &mut [u8], at: usize, v: u64) -> usize
    ensures { written result out.new ≡ put v (written at out.old) }
{
    let len = number_len(v);
    if out.len() < len {
        return at;
    }
    if out.len() - len < at {
        return at;
    }
    store_number(out, at, v, len);
    at + len
}

// Writes a number of at most five groups where there is room for it and returns the position after it. Each length has its own
// stores, so that nothing is counted.
pub fn put_number(out: &mut [u8], at: usize, v: u64) -> usize
    requires v_le_five_groups { v ≤ five_groups }
    requires v_in_bounds { at + length (number_bytes v) ≤ length out.old }
    ensures position { result ≡ at + length (number_bytes v) }
    ensures bytes { out.new ≡ sets out.old at (number_bytes v) }
{
    if v < END_1 {
        store_number(out, at, v, 1);
        return at + 1;
    }
    if v < END_2 {
        store_number(out, at, v, 2);
        return at + 2;
    }
    if v < END_3 {
        store_number(out, at, v, 3);
        return at + 3;
    }
    if v < END_4 {
        store_number(out, at, v, 4);
        return at + 4;
    }
    store_number(out, at, v, Model::NUMBER_BYTES);
    at + Model::NUMBER_BYTES
}
