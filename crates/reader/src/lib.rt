// The trace reader (document 01, "A trace reader keeps the lent bytes and its position between records; a second call counts the
// bytes below 80 hexadecimal"): a struct that holds the bytes and a position, and thin methods over the reader of crate `trace`.

#![tactic(auto)]

ghost use Rattle.std.specs.Prelude.{◌≡◌};
ghost use Rattle.machine.specs.All.{ℕ, in_force, count_low, read_record};
ghost use Rattle.trace.specs.Answers.{reading_of};
ghost use Rattle.reader.specs.Position.{position_behind, reading_by, moved};

use constants::Refusal;
use trace::{Record, count_low, read_record};

#[derive(Clone, Copy)]
pub struct Reader<'a> {
    pub bytes: &'a [u8],
    pub at: usize,
}

// The position behind an answer of the reader at a position. "A refusal leaves the position", and so does "no more".
pub fn behind<E: Copy>(x: Result<Option<(Record, usize)>, E>, at: usize) -> usize
    ensures { (number : E → ℕ) → result ≡ position_behind at (reading_by number x) }
{
    match x {
        Ok(Some((_, next))) => next,
        Ok(None) => at,
        Err(_) => at,
    }
}

impl<'a> Reader<'a> {
    // A reader before the first record.
    pub fn new(bytes: &'a [u8]) -> Reader<'a>
        ensures { (result.bytes ≡ bytes.entry) × (result.at ≡ 0) }
    {
        Reader { bytes, at: 0 }
    }

    // The record at the reader's position, or the refusal, or `None` where there are no more; the reader keeps the position behind it.
    pub fn next(&mut self) -> Result<Option<(Record, usize)>, Refusal>
        ensures { (reading_of result ≡ read_record in_force self.old.bytes.now self.old.at) × (self.new ≡ moved self.old) }
    {
        let at = self.at;
        let x = read_record(self.bytes, at);
        self.at = behind(x, at);
        x
    }

    // The same record, without moving on.
    pub fn peek(self) -> Result<Option<(Record, usize)>, Refusal>
        ensures { reading_of result ≡ read_record in_force self.entry.bytes.now self.entry.at }
    {
        read_record(self.bytes, self.at)
    }

    // How many of the bytes are below 80 hexadecimal, whatever the position.
    pub fn count(self) -> u64
        ensures { result ≡ count_low self.entry.bytes.now }
    {
        count_low(self.bytes)
    }
}

// The first record of these bytes, for callers that hold no reader.
pub fn first(bytes: &[u8]) -> Result<Option<(Record, usize)>, Refusal>
    ensures { reading_of result ≡ read_record in_force bytes.now 0 }
{
    Reader::new(bytes).peek()
}
