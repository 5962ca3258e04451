// "A run returns refusal (0 for none), end, clock, turns, made, ended, bytes of trace and of report."
#[derive(Clone, Copy)]
pub struct Outcome {
    pub refusal: u64,
    pub end: u64,
    pub clock: u64,
    pub turns: u64,
    pub made: u64,
    pub ended: u64,
    pub trace_bytes: u64,
    pub report_bytes: u64,
}
