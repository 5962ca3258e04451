// The taking: a turn takes the moving transaction, else the first of REL, else it moves the clock to the first time of the FEL.

#![tactic(auto)]

mod taking;

pub use taking::take;
