// The results of a run.
ghost use Rattle.constants.specs.Numbers.{refusal_number};
ghost use Rattle.std.specs.Prelude.{◌≡◌, ◌≤◌};
ghost use Rattle.machine.specs.All.{length, max_blocks, max_facilities};
ghost use Rattle.rows_laws.specs.All.{Room};
ghost use Rattle.state.specs.All.{rows_of};
ghost use Rattle.start.specs.Start.{start_rows};
ghost use Rattle.report_laws.specs.Numbers.{row_numbers};
ghost use Rattle.report_laws.specs.Writing.{written, put_all};
ghost use Rattle.turn_laws.specs.Turn.{traced};
ghost use Rattle.engine_laws.specs.Turns.{turns_rows};
ghost use Rattle.engine_laws.specs.Last.{refused_with, ended_with, last_rows, Finishes};

use crate::steps::turns;
use constants::{Model, Refusal};
use engine_laws::Outcome;
use layout::{LIST_CELLS, TABLES, TALLY};
use report::write_report;
use rows::Work;
use start::begin;
use state::Scalars;

// "the refusal number listed for it, all other results zero"
pub fn refused(r: Refusal) -> Outcome
    ensures { result ≡ refused_with (refusal_number r) }
{
    Outcome {
        refusal: r.number() as u64,
        end: 0,
        clock: 0,
        turns: 0,
        made: 0,
        ended: 0,
        trace_bytes: 0,
        report_bytes: 0,
    }
}

fn ended(x: Scalars, report_bytes: usize) -> Outcome
    ensures { result ≡ ended_with x report_bytes }
{
    Outcome {
        refusal: 0,
        end: x.end.number() as u64,
        clock: x.clock,
        turns: x.turns as u64,
        made: x.made as u64,
        ended: x.ended as u64,
        trace_bytes: x.used as u64,
        report_bytes: report_bytes as u64,
    }
}

// From the start to the last turn.
fn play(
    model: Model,
    tables: &[u32; TABLES],
    lists: &[u64],
    tape: &[u8],
    budget: u64,
    work: &mut Work,
    tally: &mut [u64; TALLY],
    trace: &mut [u8],
) -> Scalars
    requires facilities_le_max_facilities { model.facilities ≤ max_facilities }
    requires blocks_le_max_blocks { model.blocks ≤ max_blocks }
    ensures { traced (rows_of result work.new tally.new) trace.new
        ≡ turns_rows model tables.now tape.now budget (length trace.old)
        (traced (start_rows model tables.now tape.now lists.now work.old tally.old)
        trace.old) }
{
    let x = begin(model, tables, tape, lists, work, tally);
    turns(model, tables, tape, budget, work, tally, trace, x)
}

// The report of what a run leaves.
fn reported(
    model: Model,
    tables: &[u32; TABLES],
    tally: &[u64; TALLY],
    work: &Work,
    x: &Scalars,
    report: &mut [u8],
) -> usize
    ensures { written result report.new ≡ put_all (row_numbers model tables.now tally.now work.now x.now)
        (written 0 report.old) }
{
    write_report(model, tables, tally, work, *x, report)
}

// A run of a decoded model: the turns, then the report.
pub fn accepted(
    model: Model,
    tables: &[u32; TABLES],
    lists: &[u64; LIST_CELLS],
    tape: &[u8],
    budget: u64,
    work: &mut Work,
    trace: &mut [u8],
    report: &mut [u8],
) -> Outcome
    requires facilities_le_max_facilities { model.facilities ≤ max_facilities }
    requires blocks_le_max_blocks { model.blocks ≤ max_blocks }
    ensures { Finishes model tables.now
        (last_rows model tables.now lists.now tape.now budget work.old trace.old)
        report.old result trace.new report.new }
{
    let mut tally = [0u64; TALLY];
    let x = play(model, tables, lists, tape, budget, work, &mut tally, trace);
    let n = reported(model, tables, &tally, work, &x, report);
    ended(x, n)
}
