// Traces by column (document 02, item 10): from a trace to its columns and back. Both walk over their input twice: the first time to
// judge it and to count the bytes of the output, the second time to write it. Its definitions and laws are crate `columns_laws`.

#![tactic(auto)]

mod from;
mod measure;
mod place;
mod restore;
mod survey;
mod to;

pub use from::from_columns;
pub use to::to_columns;

// "up to 100,000,000 records"
const MAX_RECORDS: u64 = 100_000_000;
