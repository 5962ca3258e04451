// The blocks that make transactions, delay them, gather them and end them: GENERATE, ADVANCE, TERMINATE, PRIORITY, SPLIT and ASSEMBLE. Each
// kind is one function of the same shape over tables, buffers, scalars and the place of its block in the tables.

#![tactic(auto)]

mod advancing;
mod gathering;
mod generating;
mod questions;
mod ranking;
mod samples;
mod sending;
mod splitting;
mod terminating;

pub use advancing::advance;
pub use gathering::assemble;
pub use generating::generate;
pub use questions::ask_time;
pub use ranking::priority;
pub use samples::{next_sample, times_left};
pub use sending::{arrives, one_made, to_future};
pub use splitting::split;
pub use terminating::terminate;
