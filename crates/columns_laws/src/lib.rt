// Traces by column (document 02, item 10): definitions (specs/), and that they lead there and back and take every trace of a run (proofs/).
// The code is crate `columns`; here stands the type that both name.

#![tactic(auto)]

mod walk;

pub use walk::Walk;
