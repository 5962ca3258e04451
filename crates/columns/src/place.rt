// The second walk over a trace: each record's numbers go to the four columns.
ghost use Rattle.std.specs.Prelude.{◌≡◌};
ghost use Rattle.columns_laws.specs.Walks.{record_at, moved, place, place_all};

use codec::write_number;
use columns_laws::Walk;
use trace::{Record, read_record};

// The record at a position and the position behind it; zeros, and the same position, where the reader takes none.
fn record_at(s: &[u8], at: usize) -> (Record, usize)
    ensures { result ≡ record_at s.now at }
{
    let zeros = Record {
        clock: 0,
        transaction: 0,
        block: 0,
        outcome: 0,
    };
    read_record(s, at).ok().flatten().unwrap_or((zeros, at))
}

// A clock that falls counts as one that stands.
fn place(s: &[u8], out: &mut [u8], t: Walk) -> Walk
    ensures { moved result out.new ≡ place (record_at s.now t.at) t out.old }
{
    let (r, at) = record_at(s, t.at);
    let differences = write_number(out, t.differences, r.clock.saturating_sub(t.clock));
    let transactions = write_number(out, t.transactions, r.transaction);
    let blocks = write_number(out, t.blocks, r.block);
    let outcomes = write_number(out, t.outcomes, r.outcome);
    Walk {
        at,
        clock: r.clock,
        differences,
        transactions,
        blocks,
        outcomes,
    }
}

pub fn write_columns(s: &[u8], out: &mut [u8], start: Walk, count: u64)
    ensures { out.new ≡ place_all count s.now start out.old }
{
    let mut t = start;
    for _ in 0..count {
        t = place(s, out, t);
    }
}
