// What the WAITIFs on comparisons read, found once when a model is decoded: a turn that changes nothing of it need not ask them again.

#![tactic(auto)]

mod reads;
mod walk;

pub use reads::watch;
