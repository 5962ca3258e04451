// Blocks that count: ARRIVE and DEPART, on the content of a queue in the tally.
ghost use Rattle.std.specs.Prelude.{◌≡◌, ◌<◌};
ghost use Rattle.rows_laws.specs.All.{Room};
ghost use Rattle.machine.specs.All.{max_queues};
ghost use Rattle.layout.specs.All.{program_size};
ghost use Rattle.state.specs.All.{rows_of};
ghost use Rattle.values_queues_laws.specs.Queues.{queue_of, change, arrive_rows, depart_rows};

use constants::{End, Model};
use layout::{CONTENT, FIRST, count, number, set_count};
use moves::{go_on, stop};
use state::{Moving, Scalars, update_queue};

const QUEUES: u32 = Model::MAX_QUEUES as u32;

// The queue that the block at `at` names.
fn queue_at(tables: &[u32], at: usize) -> usize
    requires { at < program_size }
    ensures queue { result ≡ queue_of tables.now at }
    ensures small { result < max_queues }
{
    (number(tables, at + FIRST) % QUEUES) as usize
}

// Its content is n from now on, and the transaction goes on.
fn change(work: &mut [u32], tally: &mut [u64], x: Moving, q: usize, n: u64) -> Scalars
    requires room { Room work.old }
    requires q_lt_max_queues { q < max_queues }
    ensures { rows_of result work.new tally.new ≡ change work.old tally.old x q n }
{
    update_queue(tally, q, x.scalars().clock);
    set_count(tally, CONTENT + q, n);
    go_on(work, x)
}

// 15 ARRIVE q: one more content.
pub fn arrive(tables: &[u32], work: &mut [u32], tally: &mut [u64], x: Moving, at: usize) -> Scalars
    requires room { Room work.old }
    requires at_lt_program_size { at < program_size }
    ensures { rows_of result work.new tally.new
        ≡ arrive_rows tables.now work.old tally.old x at }
{
    let q = queue_at(tables, at);
    change(
        work,
        tally,
        x,
        q,
        count(tally, CONTENT + q).saturating_add(1),
    )
}

// 16 DEPART q: "Has the queue content? 25." One content less.
pub fn depart(tables: &[u32], work: &mut [u32], tally: &mut [u64], x: Moving, at: usize) -> Scalars
    requires room { Room work.old }
    requires at_lt_program_size { at < program_size }
    ensures { rows_of result work.new tally.new
        ≡ depart_rows tables.now work.old tally.old x at }
{
    let q = queue_at(tables, at);
    let content = count(tally, CONTENT + q);
    if content == 0 {
        return stop(x.scalars(), End::NoContent);
    }
    change(work, tally, x, q, content - 1)
}
