// The second walk over columns: record by record, the four numbers go to the trace.
ghost use Rattle.std.specs.Prelude.{◌≡◌, ◌≤◌};
ghost use Rattle.machine.specs.All.{max_clock};
ghost use Rattle.columns_laws.specs.Walks.{number_at, later, moved, restore, restore_all};

use codec::{read_number, write_number};
use columns_laws::Walk;
use constants::Model;

// The number at a position and the position behind it; zero, and the same position, where none is read.
fn number_at(s: &[u8], at: usize) -> (u64, usize)
    ensures { result ≡ number_at s.now at }
{
    read_number(s, at, Model::FIVE_GROUPS).unwrap_or((0, at))
}

// A clock later than one, at most the clock limit.
fn later(clock: u64, difference: u64) -> u64
    requires { clock ≤ max_clock }
    ensures value { result ≡ later clock difference }
    ensures upper_bound { result ≤ max_clock }
{
    if Model::MAX_CLOCK - clock < difference {
        return Model::MAX_CLOCK;
    }
    clock + difference
}

fn restore(s: &[u8], out: &mut [u8], t: Walk) -> Walk
    requires { t.clock ≤ max_clock }
    ensures out_after { moved result out.new ≡ restore s.now t out.old }
    ensures clock_le_max_clock { result.clock ≤ max_clock }
{
    let (difference, differences) = number_at(s, t.differences);
    let (transaction, transactions) = number_at(s, t.transactions);
    let (block, blocks) = number_at(s, t.blocks);
    let (outcome, outcomes) = number_at(s, t.outcomes);
    let clock = later(t.clock, difference);
    let p1 = write_number(out, t.at, clock);
    let p2 = write_number(out, p1, transaction);
    let p3 = write_number(out, p2, block);
    let at = write_number(out, p3, outcome);
    Walk {
        at,
        clock,
        differences,
        transactions,
        blocks,
        outcomes,
    }
}

pub fn write_trace(s: &[u8], out: &mut [u8], start: Walk, count: u64)
    requires { start.clock ≤ max_clock }
    ensures { out.new ≡ restore_all count s.now start out.old }
{
    let mut t = start;
    for _ in 0..count {
        t = restore(s, out, t);
    }
}
