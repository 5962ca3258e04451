// The header of a decoded model, with the limits as named constants, and the paper's numbers of kinds, ends and refusals.

#![tactic(auto)]

pub mod ends;
pub mod kinds;
mod model;
pub mod refusals;

pub use ends::End;
pub use kinds::Kind;
pub use model::Model;
pub use refusals::{Refusal, Text};
