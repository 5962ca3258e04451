// Sums over ticks and longest lengths. They are brought up to date before a number changes: since then it has been what it is.
// Server v is counted as v, queue q as `SERVERS` + q.
ghost use Rattle.std.specs.Prelude.{◌≡◌, ◌+◌, ◌<◌, ◌≤◌};
ghost use Rattle.machine.specs.All.{max_queues};
ghost use Rattle.layout.specs.All.{server_count, measured_count};
ghost use Rattle.state.specs.Ticks.{most_ticks};
ghost use Rattle.state.specs.Statistics.{ticks_since, behind, sum_now, longest_now, see, store_server, update_server, store_queue, update_queue};

use crate::arith::{MOST_TICKS, product};
use layout::{
    CLOCK_MOVES, CONTENT, CONTENT_TICKS, IN_USE, LONGEST_CONTENT, LONGEST_QL, QL_LENGTH,
    SEEN_CLOCK, SEEN_MOVES, SERVERS, UNIT_TICKS, WAIT_TICKS, count, set_count,
};

// The ticks since i was brought up to date, no more than a clock has.
fn ticks_since(tally: &[u64], i: usize, clock: u64) -> u64
    requires { i < measured_count }
    ensures { (result ≡ ticks_since tally.now i clock) × (result ≤ most_ticks) }
{
    let ticks = clock.saturating_sub(count(tally, SEEN_CLOCK + i));
    ticks.min(MOST_TICKS)
}

// Has the clock moved since i was brought up to date?
pub fn behind(tally: &[u64], i: usize) -> bool
    requires { i < measured_count }
    ensures { result ≡ behind tally.now i }
{
    count(tally, SEEN_MOVES + i) != count(tally, CLOCK_MOVES)
}

// The sum at `at`, with the number at `from` for each tick since.
pub fn sum_now(tally: &[u64], at: usize, from: usize, i: usize, clock: u64) -> u64
    requires { i < measured_count }
    ensures { result ≡ sum_now tally.now at from i clock }
{
    let ticks = ticks_since(tally, i, clock);
    let sum = count(tally, at);
    sum.saturating_add(product(count(tally, from), ticks))
}

// The longest at `at`, with the number at `from` where the clock moved since.
pub fn longest_now(tally: &[u64], at: usize, from: usize, i: usize) -> u64
    requires { i < measured_count }
    ensures { result ≡ longest_now tally.now at from i }
{
    if behind(tally, i) {
        return count(tally, at).max(count(tally, from));
    }
    count(tally, at)
}

// i is up to date.
fn see(tally: &mut [u64], i: usize, clock: u64)
    requires { i < measured_count }
    ensures { tally.new ≡ see tally.old i clock }
{
    let moves = count(tally, CLOCK_MOVES);
    set_count(tally, SEEN_CLOCK + i, clock);
    set_count(tally, SEEN_MOVES + i, moves);
}

fn store_server(tally: &mut [u64], v: usize, clock: u64)
    requires { v < server_count }
    ensures { tally.new ≡ store_server tally.old v clock }
{
    let units = sum_now(tally, UNIT_TICKS + v, IN_USE + v, v, clock);
    let waited = sum_now(tally, WAIT_TICKS + v, QL_LENGTH + v, v, clock);
    let longest = longest_now(tally, LONGEST_QL + v, QL_LENGTH + v, v);
    set_count(tally, UNIT_TICKS + v, units);
    set_count(tally, WAIT_TICKS + v, waited);
    set_count(tally, LONGEST_QL + v, longest);
    see(tally, v, clock);
}

// Ticks of units in use, ticks waited and the longest QL of server v, from 0.
pub fn update_server(tally: &mut [u64], v: usize, clock: u64)
    requires { v < server_count }
    ensures { tally.new ≡ update_server tally.old v clock }
{
    if behind(tally, v) {
        store_server(tally, v, clock);
    }
}

fn store_queue(tally: &mut [u64], q: usize, clock: u64)
    requires { q < max_queues }
    ensures { tally.new ≡ store_queue tally.old q clock }
{
    let filled = sum_now(tally, CONTENT_TICKS + q, CONTENT + q, SERVERS + q, clock);
    let longest = longest_now(tally, LONGEST_CONTENT + q, CONTENT + q, SERVERS + q);
    set_count(tally, CONTENT_TICKS + q, filled);
    set_count(tally, LONGEST_CONTENT + q, longest);
    see(tally, SERVERS + q, clock);
}

// Content ticks and the longest content of queue q, from 0.
pub fn update_queue(tally: &mut [u64], q: usize, clock: u64)
    requires { q < max_queues }
    ensures { tally.new ≡ update_queue tally.old q clock }
{
    if behind(tally, SERVERS + q) {
        store_queue(tally, q, clock);
    }
}
