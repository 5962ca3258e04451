// A position in the trace and in each column, and the clock of the record before.
#[derive(Clone, Copy)]
pub struct Walk {
    pub at: usize,
    pub clock: u64,
    pub differences: usize,
    pub transactions: usize,
    pub blocks: usize,
    pub outcomes: usize,
}
