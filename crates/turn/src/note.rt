// The record of a block, written behind the others, and the count of its entries or waits.
ghost use Rattle.std.specs.Prelude.{◌≡◌};
ghost use Rattle.turn_laws.specs.Note.{bytes, append_record, cell_of, count_record, noted, note_record};

use layout::{WAITS, count, set_count};
use state::{Note, Noting, Scalars};
use trace::{Record, write_record};

// Writes a record into the unused rest of the trace buffer; answers how many bytes are used then.
pub fn append_record(
    trace: &mut [u8],
    used: usize,
    clock: u64,
    number: u32,
    block: u32,
    outcome: Noting,
) -> usize
    ensures { bytes result trace.new ≡ append_record trace.old used clock number block outcome }
{
    if trace.len() < used {
        return used;
    }
    let record = Record {
        clock,
        transaction: number as u64,
        block: block as u64,
        outcome: outcome.number() as u64,
    };
    match write_record(&mut trace[used..], record) {
        Ok(n) => used + n,
        Err(_) => used,
    }
}

// Entries of block b stand at b - 1 of the tally, its waits at WAITS + b - 1.
fn cell(block: u32, outcome: Noting) -> usize
    ensures { result ≡ cell_of block outcome }
{
    let b = block.saturating_sub(1) as usize;
    match outcome.note() {
        Note::Entered => b,
        Note::Waits | Note::NoRecord => WAITS + b,
    }
}

pub fn count_record(tally: &mut [u64], block: u32, outcome: Noting)
    ensures { tally.new ≡ count_record tally.old block outcome }
{
    let at = cell(block, outcome);
    let n = count(tally, at).saturating_add(1);
    set_count(tally, at, n);
}

// The record of the block that was executed, if it writes one: by transaction `number`, which stood before `block`.
pub fn note_record(
    tally: &mut [u64],
    trace: &mut [u8],
    x: Scalars,
    number: u32,
    block: u32,
) -> Scalars
    ensures { noted result tally.new trace.new ≡ note_record tally.old trace.old x number block }
{
    let outcome = x.note;
    if let Note::NoRecord = outcome.note() {
        return x;
    }
    count_record(tally, block, outcome);
    let used = append_record(trace, x.used, x.clock, number, block, outcome);
    let mut y = x;
    y.used = used;
    y
}
