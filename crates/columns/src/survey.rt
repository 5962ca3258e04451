// The first walk over columns: are they taken, where does each begin, and how many bytes has the trace?
ghost use Rattle.std.specs.Prelude.{◌≡◌, ◌≤◌};
ghost use Rattle.machine.specs.All.{in_force, times, trace_field};
ghost use Rattle.codec.specs.Answers.{cursor_at};
ghost use Rattle.columns_laws.specs.Columns.{max_records, clocks_from};
ghost use Rattle.columns_laws.specs.Walks.{sized, ends, Surveyed};

use crate::MAX_RECORDS;
use codec::number_len;
use columns_laws::Walk;
use constants::Model;
use trace::{MAX_BLOCK, MAX_OUTCOME, trace_field};

// The position after the differences, and how many bytes their clocks take.
fn scan_clocks(s: &[u8], at: usize, count: u64) -> Option<(usize, usize)>
    requires { count ≤ max_records }
    ensures { result ≡ sized 0 (clocks_from s.now count 0 (cursor_at at 0 0)) }
{
    let mut clock: u64 = 0;
    let mut next = at;
    let mut size: usize = 0;
    for _ in 0..count {
        let (difference, after) = trace_field(s, next, 0, Model::MAX_CLOCK - clock).ok()?;
        clock += difference;
        size += number_len(clock);
        next = after;
    }
    Some((next, size))
}

// The position after a column.
fn scan_column(s: &[u8], at: usize, count: u64, lo: u64, hi: u64) -> Option<usize>
    ensures { result ≡ ends (times count (trace_field in_force s.now lo hi) (cursor_at at 0 0)) }
{
    let mut next = at;
    for _ in 0..count {
        (_, next) = trace_field(s, next, lo, hi).ok()?;
    }
    Some(next)
}

// The number of records, where each column begins, and the bytes of the trace.
pub fn survey_columns(s: &[u8]) -> Option<(u64, Walk, usize)>
    ensures { Surveyed s.now result }
{
    let (count, differences) = trace_field(s, 0, 0, MAX_RECORDS).ok()?;
    let (transactions, size) = scan_clocks(s, differences, count)?;
    let blocks = scan_column(s, transactions, count, 1, Model::MAX_TRANSACTION)?;
    let outcomes = scan_column(s, blocks, count, 1, MAX_BLOCK)?;
    let end = scan_column(s, outcomes, count, 0, MAX_OUTCOME)?;
    if end != s.len() {
        return None;
    }
    let start = Walk {
        at: 0,
        clock: 0,
        differences,
        transactions,
        blocks,
        outcomes,
    };
    Some((count, start, size + (end - transactions)))
}
