// Columns to a trace.
ghost use Rattle.std.specs.Prelude.{◌≡◌, ◌≤◌};
ghost use Rattle.machine.specs.All.{ℕ, length};
ghost use Rattle.trace.specs.Answers.{writing_of, after};
ghost use Rattle.columns_laws.specs.Columns.{from_columns};

use crate::restore::write_trace;
use crate::survey::survey_columns;
use constants::Refusal;

// 51 not such columns; then 52 the output needs more bytes than were lent. A refusal writes nothing.
pub fn from_columns(columns: &[u8], out: &mut [u8]) -> Result<usize, Refusal>
    ensures result_after { writing_of out.new result ≡ from_columns columns.now (length out.old) }
    ensures bytes { out.new ≡ after (from_columns columns.now (length out.old)) out.old }
    ensures count { (n : ℕ) → result ≡ Ok n → n ≤ length out.old }
{
    let (count, start, len) = survey_columns(columns).ok_or(Refusal::NoColumns)?;
    if out.len() < len {
        return Err(Refusal::ColumnsRoom);
    }
    write_trace(columns, out, start, count);
    Ok(len)
}
