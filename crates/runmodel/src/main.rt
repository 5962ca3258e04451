// Runs `model.bin` on `tape.bin` of the working folder and prints the records, the end and the report (document 01, the first
// example); or `refused` and the number. Where a file cannot be read it says so on standard error and prints nothing.
#![tactic(auto)]

mod files;
mod lines;
mod printing;

use constants::Model;
use files::{fail, read_file};
use printing::{print_accepted, print_refused};
use std::io;

const BUDGET: u64 = 1_000_000;

// As many bytes of each file, and of the trace.
const BUFFER: usize = 65_536;

// Fails where not all that is to be printed could be written.
fn run(rt: &impl Print, model: &[u8], tape: &[u8]) -> io::Result<()> {
    let mut work = [0u32; Model::WORK_NUMBERS];
    let mut trace = [0u8; BUFFER];
    let mut report = [0u8; Model::REPORT_ROOM];
    let outcome = engine::run(model, tape, BUDGET, &mut work, &mut trace, &mut report);
    if outcome.refusal != 0 {
        return print_refused(rt, outcome.refusal);
    }
    let trace_bytes = outcome.trace_bytes as usize;
    let report_bytes = outcome.report_bytes as usize;
    print_accepted(
        rt,
        model,
        tape,
        outcome,
        &trace[..trace_bytes],
        &report[..report_bytes],
    )
}

fn main(rt: HostRuntime) {
    let mut model = [0u8; BUFFER];
    let Some(model_len) = read_file(&rt, "model.bin", &mut model) else {
        return;
    };
    let mut tape = [0u8; BUFFER];
    let Some(tape_len) = read_file(&rt, "tape.bin", &mut tape) else {
        return;
    };
    if let Err(error) = run(&rt, &model[..model_len], &tape[..tape_len]) {
        fail(&rt, "standard output", error);
    }
}
