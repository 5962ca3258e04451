// The first walk over a trace: is it taken, how many records has it, and how many bytes has each column?
ghost use Rattle.std.specs.Prelude.{◌≡◌, ◌≤◌};
ghost use Rattle.machine.specs.All.{in_force, read_record};
ghost use Rattle.trace.specs.Answers.{entry};
ghost use Rattle.columns_laws.specs.Columns.{max_records, whole_from};
ghost use Rattle.columns_laws.specs.Walks.{Short, longer, measuring, at_start, totals, totals_of};

use crate::MAX_RECORDS;
use codec::number_len;
use columns_laws::Walk;
use trace::{Record, read_record};

// One record more.
fn longer(count: u64, t: Walk, r: Record, next: usize) -> Walk
    requires short { Short count t }
    requires clock_le_clock { t.clock ≤ r.clock }
    ensures { result ≡ longer t (entry r.clock r.transaction r.block r.outcome) next }
{
    Walk {
        at: next,
        clock: r.clock,
        differences: t.differences + number_len(r.clock - t.clock),
        transactions: t.transactions + number_len(r.transaction),
        blocks: t.blocks + number_len(r.block),
        outcomes: t.outcomes + number_len(r.outcome),
    }
}

// The record at the walk's position: how many records there are then, and the walk behind it.
fn measure_record(s: &[u8], count: u64, t: Walk) -> Option<(u64, Walk)>
    requires { Short count t }
    ensures { result ≡ measuring count t (read_record in_force s.now t.at) }
{
    let (r, next) = read_record(s, t.at).ok().flatten()?;
    if r.clock < t.clock {
        return None;
    }
    if count == MAX_RECORDS {
        return None;
    }
    Some((count + 1, longer(count, t, r, next)))
}

// The number of records and a walk whose columns count bytes.
pub fn measure(s: &[u8]) -> Option<(u64, Walk)>
    ensures { totals_of result ≡ totals 0 at_start (whole_from max_records s.now (read_record in_force s.now 0)) }
{
    let mut count: u64 = 0;
    let mut t = Walk {
        at: 0,
        clock: 0,
        differences: 0,
        transactions: 0,
        blocks: 0,
        outcomes: 0,
    };
    // kept: the position goes on by the bytes of a record, and nothing is counted up
    while t.at < s.len() {
        (count, t) = measure_record(s, count, t)?;
    }
    Some((count, t))
}
