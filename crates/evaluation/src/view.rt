// What terms read, and what they are worth.
use layout::{TABLES, TALLY};

// The decoded tables, of which the first `values` values may be named, the tally and the clock.
#[derive(Clone, Copy)]
pub struct View<'a> {
    pub tables: &'a [u32; TABLES],
    pub tally: &'a [u64; TALLY],
    pub values: usize,
    pub clock: u64,
}

// What a term or a sum is worth, and the position after its numbers.
#[derive(Clone, Copy)]
pub struct Worth {
    pub worth: i32,
    pub next: u32,
}
