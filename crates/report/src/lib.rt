// The report, written after the run (document 01, "Report: clock, made, ended; per facility and storage: ..; per queue: ..; the
// living count and, per living one, number and place"). specs/Numbers of
// report_laws has its numbers, proofs/Report there that they are the machine's.

#![tactic(auto)]

mod counts;
mod living;

ghost use Rattle.std.specs.Prelude.{◌≡◌, ◌∷◌};
ghost use Rattle.machine.specs.All.{[]};
ghost use Rattle.report_laws.specs.Numbers.{row_numbers};
ghost use Rattle.report_laws.specs.Writing.{written, put_all};

use codec::write_number;
use constants::Model;
use counts::Counts;
use living::Living;
use rows::Work;
use state::Scalars;

fn put_scalars(x: Scalars, report: &mut [u8], at: usize) -> usize
    ensures { written result report.new ≡ put_all (x.clock ∷ x.made ∷ x.ended ∷ []) (written at report.old) }
{
    let clocked = write_number(report, at, x.clock);
    let made = write_number(report, clocked, x.made as u64);
    write_number(report, made, x.ended as u64)
}

// Writes the report from the start of its buffer, and answers how many bytes it takes.
pub fn write_report(
    model: Model,
    tables: &[u32],
    tally: &[u64],
    work: &Work,
    x: Scalars,
    report: &mut [u8],
) -> usize
    ensures { written result report.new ≡ put_all (row_numbers model tables.now tally.now work.now x)
        (written 0 report.old) }
{
    let counts = Counts {
        tables,
        tally,
        clock: x.clock,
        blocks: model.blocks.min(Model::MAX_BLOCKS),
    };
    let living = Living {
        work,
        moving: x.moving,
    };
    let servers = model.facilities.min(Model::MAX_FACILITIES)
        + model.storages.min(Model::MAX_STORAGES);
    let queues = model.queues.min(Model::MAX_QUEUES);
    let head = put_scalars(x, report, 0);
    let served = counts.put_servers(servers, report, head);
    let queued = counts.put_queues(queues, report, served);
    living.put_living(report, queued)
}
