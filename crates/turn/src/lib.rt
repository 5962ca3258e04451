// One turn: the taking, the block, its record and the WS scheme.

#![tactic(auto)]

mod acting;
mod note;
mod staying;

pub use acting::turn;
pub use note::{append_record, count_record, note_record};
pub use staying::{all_wait, back_to, crowded, lengthen, line_all, quiet, stay};
