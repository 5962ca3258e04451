// The blocks on servers: 4 SEIZE, 5 RELEASE, 6 ENTER, 7 LEAVE, 8 WAITIF code, server and 17. Servers are numbered from 0 here, the
// facilities first. Units in use and lengths of QLs stand in the tally, capacities in the tables.

#![tactic(auto)]

pub mod freeing;
pub mod taking;
pub mod units;
mod waiting;
pub mod waking;

pub use freeing::{leave, release};
pub use taking::{enter, seize};
pub use waiting::wait_server;
