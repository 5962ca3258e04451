// One block: its kind chooses the function.

#![tactic(auto)]

ghost use Rattle.std.specs.Prelude.{◌≡◌, ◌<◌, ◌≤◌};
ghost use Rattle.machine.specs.All.{max_facilities};
ghost use Rattle.layout.specs.All.{program_size};
ghost use Rattle.rows_laws.specs.All.{Room, row_count};
ghost use Rattle.state.specs.All.{rows_of};
ghost use Rattle.blocks.specs.Execute.{execute};

use constants::Kind;
use flow::{advance, assemble, generate, priority, split, terminate};
use layout::{TABLES, TALLY, number};
use preempt::{give_back, preempt};
use servers::{enter, leave, release, seize, wait_server};
use state::{Moving, Scalars, by_fields};
use values_queues::{arrive, assign, branch, depart, goto, wait_terms};

// The block at `at` of the tables, for the moving transaction. A number that is no kind changes nothing.
pub fn execute(
    tables: &[u32; TABLES],
    values: usize,
    facilities: usize,
    tape: &[u8],
    work: &mut [u32],
    tally: &mut [u64; TALLY],
    x: Moving,
    at: usize,
) -> Scalars
    requires room { Room work.old }
    requires facilities_le_max_facilities { facilities ≤ max_facilities }
    requires at_lt_program_size { at < program_size }
    ensures { rows_of result work.new tally.new ≡ execute tables.now values facilities tape.now work.old tally.old x at }
{
    let Some(kind) = Kind::of(number(tables, at)) else {
        return x.scalars();
    };
    match kind {
        Kind::Generate => by_fields(generate(tables, tape, work, tally, x.afresh(), at)),
        Kind::Advance => by_fields(advance(tables, tape, work, tally, x.afresh(), at)),
        Kind::Terminate => by_fields(terminate(tables, facilities, work, tally, x.afresh(), at)),
        Kind::Seize => by_fields(seize(tables, work, tally, x.afresh(), at)),
        Kind::Release => by_fields(release(tables, work, tally, x.afresh(), at)),
        Kind::Enter => by_fields(enter(tables, work, tally, x.afresh(), at)),
        Kind::Leave => by_fields(leave(tables, work, tally, x.afresh(), at)),
        Kind::WaitServer => by_fields(wait_server(tables, work, tally, x.afresh(), at)),
        Kind::WaitTerms => by_fields(wait_terms(tables, values, work, tally, x.afresh(), at)),
        Kind::Branch => by_fields(branch(tables, values, work, tally, x.afresh(), at)),
        Kind::Goto => by_fields(goto(tables, work, x.afresh(), at)),
        Kind::Assign => by_fields(assign(tables, values, work, tally, x.afresh(), at)),
        Kind::Priority => by_fields(priority(tables, work, x.afresh(), at)),
        Kind::Split => by_fields(split(tables, work, x.afresh(), at)),
        Kind::Arrive => by_fields(arrive(tables, work, tally, x.afresh(), at)),
        Kind::Depart => by_fields(depart(tables, work, tally, x.afresh(), at)),
        Kind::JoinedWait => by_fields(wait_server(tables, work, tally, x.afresh(), at)),
        Kind::Assemble => by_fields(assemble(tables, facilities, work, tally, x.afresh(), at)),
        Kind::Preempt => by_fields(preempt(tables, work, tally, x.afresh(), at)),
        Kind::Return => by_fields(give_back(tables, work, tally, x.afresh(), at)),
    }
}
