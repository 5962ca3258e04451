// The blocks that make transactions, delay them, gather them and end them, over rows: definitions (specs/) and that they do what the
// machine does (proofs/). The code is crate `flow`.
#![tactic(auto)]

mod samples;

pub use samples::Sample;
