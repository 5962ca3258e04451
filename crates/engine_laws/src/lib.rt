// A run over rows: definitions (specs/), what `run` promises, and that it is the machine's run (proofs/). The code is crate `engine`.

#![tactic(auto)]

mod outcome;

pub use outcome::Outcome;
