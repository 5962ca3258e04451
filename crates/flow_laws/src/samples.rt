// A time and the position after it.
#[derive(Clone, Copy)]
pub struct Sample {
    pub time: u64,
    pub next: usize,
}
