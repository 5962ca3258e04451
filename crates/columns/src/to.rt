// A trace to columns.
ghost use Rattle.std.specs.Prelude.{◌≡◌, ◌≤◌};
ghost use Rattle.machine.specs.All.{ℕ, length};
ghost use Rattle.trace.specs.Answers.{writing_of, after};
ghost use Rattle.columns_laws.specs.Columns.{to_columns};

use crate::measure::measure;
use crate::place::write_columns;
use codec::{number_len, write_number};
use columns_laws::Walk;
use constants::Refusal;

// 51 not such a trace; then 52 the output needs more bytes than were lent. A refusal writes nothing.
pub fn to_columns(trace: &[u8], out: &mut [u8]) -> Result<usize, Refusal>
    ensures result_after { writing_of out.new result ≡ to_columns trace.now (length out.old) }
    ensures bytes { out.new ≡ after (to_columns trace.now (length out.old)) out.old }
    ensures count { (n : ℕ) → result ≡ Ok n → n ≤ length out.old }
{
    let (count, t) = measure(trace).ok_or(Refusal::NoColumns)?;
    let differences = number_len(count);
    let transactions = differences + t.differences;
    let blocks = transactions + t.transactions;
    let outcomes = blocks + t.blocks;
    let len = outcomes + t.outcomes;
    if out.len() < len {
        return Err(Refusal::ColumnsRoom);
    }
    write_number(out, 0, count);
    write_columns(
        trace,
        out,
        Walk {
            at: 0,
            clock: 0,
            differences,
            transactions,
            blocks,
            outcomes,
        },
        count,
    );
    Ok(len)
}
