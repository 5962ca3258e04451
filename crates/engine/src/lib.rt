// The engine: one run of a model on a tape (document 01), from bytes to trace, report and eight numbers. specs/Contract of engine_laws has
// what `run` promises for all inputs and buffer lengths.

#![tactic(auto)]

mod ends;
mod finish;
mod herds;
mod steps;

ghost use Rattle.engine_laws.specs.Contract.{Contract};

use constants::Refusal;
use decode::decode;
pub use engine_laws::Outcome;
use finish::{accepted, refused};
use layout::{LIST_CELLS, TABLES};

// Validates model and tape, runs, and writes trace and report.
pub fn run(
    model: &[u8],
    tape: &[u8],
    budget: u64,
    work: &mut [u32],
    trace: &mut [u8],
    report: &mut [u8],
) -> Outcome
    ensures { Contract model.now tape.now budget work.old trace.old report.old result
        work.new trace.new report.new }
{
    let mut tables = [0u32; TABLES];
    let mut lists = [0u64; LIST_CELLS];
    let decoded = decode(
        model,
        tape,
        work.len(),
        report.len(),
        &mut tables,
        &mut lists,
    );
    match decoded {
        Err(r) => refused(r),
        Ok(m) => match work.first_chunk_mut() {
            Some(rows) => accepted(m, &tables, &lists, tape, budget, rows, trace, report),
            None => refused(Refusal::ShortWork),
        },
    }
}
