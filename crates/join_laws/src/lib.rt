// Two plants as one model, from bytes to bytes (document 02, item 13): definitions (specs/), that the joined pair is always accepted, and that
// what is written from two decoded tables is the joined model (proofs/). The code is crate `join`.

#![tactic(auto)]

mod shift;

pub use shift::Shift;
