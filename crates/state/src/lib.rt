// The state of a run: scalars by value here, transactions and lists in the work buffer (crate rows), entries, units and sums in
// the tally (crate layout). specs/Stands says when the three stand for a state of the machine.

#![tactic(auto)]

mod arith;
mod scalars;
mod statistics;

pub use arith::{MOST_TICKS, product};
pub use scalars::{Mover, Moving, Note, Noting, Scalars, Stopped, by_fields};
pub use statistics::{behind, longest_now, sum_now, update_queue, update_server};
