// Blocks that decide or count and nothing more: WAITIF and IF on a comparison, GOTO, LET, ARRIVE, DEPART; and the WS scheme.

#![tactic(auto)]

mod comparison;
mod jumps;
mod queues;
mod scheme;
mod sides;

pub use comparison::{assign, branch, wait_terms};
pub use jumps::goto;
pub use queues::{arrive, depart};
pub use scheme::ws;
pub use sides::held_by_all;
