// Evaluation of terms and values (document 01, "Blocks"), over the decoded tables and the tally.

#![tactic(auto)]

mod evaluate;
mod relations;
mod simple;
mod view;

pub use relations::Relation;
pub use view::View;
