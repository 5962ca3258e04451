// Trace records (document 01, "Bytes" and "Questions at the door"): the reader on bytes and a
// position, the writer into the unused rest of the trace buffer, and the counter of low bytes.

#![tactic(auto)]

mod words;

ghost use Rattle.std.specs.Prelude.{◌≡◌, ◌+◌, ◌≤◌, ◌<◌};
ghost use Rattle.machine.specs.All.{true, ℕ, leb, length, sets, in_force, count_low, record_bytes, trace_field, read_record, in_ranges, write_record};
ghost use Rattle.codec.specs.Answers.{cursor_at, parsed_of};
ghost use Rattle.trace.specs.Answers.{entry_of, reading_of, writing_of, after};

use codec::{number_len, put_number, read_text, write_number};
use constants::{Model, Refusal, Text};
use words::count_words;

// "block 1..256, outcome 0..1"
pub const MAX_BLOCK: u64 = Model::MAX_BLOCKS as u64;

pub const MAX_OUTCOME: u64 = 1;

#[derive(Clone, Copy, PartialEq, Eq)]
pub struct Record {
    pub clock: u64,
    pub transaction: u64,
    pub block: u64,
    pub outcome: u64,
}

// A number of a record, from lo to hi: 31 if it is not whole, not shortest or not in size, 32 if it is out of range.
pub fn trace_field(s: &[u8], at: usize, lo: u64, hi: u64) -> Result<(u64, usize), Refusal>
    ensures by_index { (numbers mentions : ℕ) → parsed_of numbers mentions result ≡ trace_field in_force s.now lo hi (cursor_at at numbers mentions) }
    ensures inside { (v next : ℕ) → result ≡ Ok (v, next) → (lo ≤ v) × (v ≤ hi) × (at < next) × (next ≤ length s.now) }
{
    read_text(s, at, Model::FIVE_GROUPS, lo, hi, Text::Trace)
}

// The record at a position and the position after it; `None` where there are no more.
pub fn read_record(s: &[u8], at: usize) -> Result<Option<(Record, usize)>, Refusal>
    ensures { reading_of result ≡ read_record in_force s.now at }
{
    if s.len() <= at {
        return Ok(None);
    }
    let (clock, p1) = trace_field(s, at, 0, Model::MAX_CLOCK)?;
    let (transaction, p2) = trace_field(s, p1, 1, Model::MAX_TRANSACTION)?;
    let (block, p3) = trace_field(s, p2, 1, MAX_BLOCK)?;
    let (outcome, next) = trace_field(s, p3, 0, MAX_OUTCOME)?;
    let r = Record {
        clock,
        transaction,
        block,
        outcome,
    };
    Ok(Some((r, next)))
}

impl Record {
    fn in_ranges(self) -> bool
        ensures { result ≡ in_ranges in_force (entry_of self) }
    {
        self.clock <= Model::MAX_CLOCK
            && 1 <= self.transaction
            && self.transaction <= Model::MAX_TRANSACTION
            && 1 <= self.block
            && self.block <= MAX_BLOCK
            && self.outcome <= MAX_OUTCOME
    }

    // How many bytes it takes.
    fn len(self) -> usize
        ensures { result ≡ length (record_bytes (entry_of self)) }
    {
        number_len(self.clock)
            + number_len(self.transaction)
            + number_len(self.block)
            + number_len(self.outcome)
    }

    // Does a record whose numbers are in range fit into so much room? Any does into RECORD_ROOM.
    fn fits(self, room: usize) -> bool
        requires { in_ranges in_force (entry_of self) ≡ true }
        ensures { result ≡ leb (length (record_bytes (entry_of self))) room }
    {
        Model::RECORD_ROOM <= room || self.len() <= room
    }
}

// Writes the four numbers of a record at the front of a rest with room for them; answers how many bytes they take.
fn put_record(rest: &mut [u8], r: Record) -> usize
    requires outcome_value { in_ranges in_force (entry_of r) ≡ true }
    requires outcome_in_bounds { length (record_bytes (entry_of r)) ≤ length rest.old }
    ensures count { result ≡ length (record_bytes (entry_of r)) }
    ensures bytes { rest.new ≡ sets rest.old 0 (record_bytes (entry_of r)) }
{
    let p1 = put_number(rest, 0, r.clock);
    let p2 = put_number(rest, p1, r.transaction);
    let p3 = put_number(rest, p2, r.block);
    put_number(rest, p3, r.outcome)
}

// Writes one record into the unused rest of the trace buffer; answers how many bytes it takes.
pub fn write_record(rest: &mut [u8], r: Record) -> Result<usize, Refusal>
    ensures result_after { writing_of rest.new result ≡ write_record in_force (length rest.old) (entry_of r) }
    ensures bytes { rest.new ≡ after (write_record in_force (length rest.old) (entry_of r)) rest.old }
    ensures count { (n : ℕ) → result ≡ Ok n → (n ≡ length (record_bytes (entry_of r))) × (n ≤ length rest.old) }
{
    if !r.in_ranges() {
        return Err(Refusal::TraceRange);
    }
    if !r.fits(rest.len()) {
        return Err(Refusal::RecordRoom);
    }
    Ok(put_record(rest, r))
}

// The four numbers of a record, each as the report's are written.
fn place_record(rest: &mut [u8], r: Record)
    requires { length (record_bytes (entry_of r)) ≤ length rest.old }
    ensures { rest.new ≡ sets rest.old 0 (record_bytes (entry_of r)) }
{
    let p1 = write_number(rest, 0, r.clock);
    let p2 = write_number(rest, p1, r.transaction);
    let p3 = write_number(rest, p2, r.block);
    write_number(rest, p3, r.outcome);
}

// Writes one record alone. The turns have `write_record` for themselves, so that the compiler sets it into their loop.
// kept: with one writer for both, single ran 48.0 million turns a second and not 53.1, gotoloop 68.4 and not 77.1 (docs/DECISIONS.md).
pub fn write_one(rest: &mut [u8], r: Record) -> Result<usize, Refusal>
    ensures result_after { writing_of rest.new result ≡ write_record in_force (length rest.old) (entry_of r) }
    ensures bytes { rest.new ≡ after (write_record in_force (length rest.old) (entry_of r)) rest.old }
    ensures count { (n : ℕ) → result ≡ Ok n → n ≤ length rest.old }
{
    if !r.in_ranges() {
        return Err(Refusal::TraceRange);
    }
    let len = r.len();
    if rest.len() < len {
        return Err(Refusal::RecordRoom);
    }
    place_record(rest, r);
    Ok(len)
}

// Low is what is below 80 hexadecimal.
const LOW: u8 = 0x80;

// How many bytes are below 80 hexadecimal: by sixteen words, the words that are left, and the bytes that are left singly.
pub fn count_low(s: &[u8]) -> u64
    ensures { result ≡ count_low s.now }
{
    let (words, ends) = s.as_chunks::<8>();
    let (groups, words) = words.as_chunks::<16>();
    let mut count = count_words(words);
    for group in groups {
        count += count_words(group);
    }
    for b in ends {
        count += u64::from(*b < LOW);
    }
    count
}
