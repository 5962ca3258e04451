// Runs stored cases (the file stdin) and writes a line for each: the eight results, then the checksums of all lent bytes of the trace
// and of the report. The buffers are not cleared between cases, so that the checksums see stale bytes too.
// `vectors` of reference/ wrote the cases and, from its own runs, what must come out.
//
// A case: lengths of model and tape in bytes, budget, lengths of work buffer in 32-bit numbers and of trace and report in bytes, each as
// a seven-bit number; then the bytes of model and tape.
#![tactic(auto)]

ghost use Rattle.std.specs.Prelude.{◌<◌};
ghost use Rattle.std.specs.Io.{ReadsAtMost};

use constants::Model;
use std::io;

const CASES_BYTES: usize = 262_144;

const WORK_NUMBERS: usize = 16_500;

const TRACE_BYTES: usize = 131_072;

const REPORT_BYTES: usize = 10_400;

// A prime below 2 ^ 32.
const MODULUS: u64 = 4_294_967_291;

const FACTOR: u64 = 263;

// Reads until the buffer is full or the input ends; answers how many bytes.
fn read_full(input: &mut impl io::Read, buffer: &mut [u8]) -> io::Result<usize>
    ensures { ReadsAtMost result buffer.new }
{
    let mut done = 0;
    while done < buffer.len() {
        let n = input.read(&mut buffer[done..])?;
        if n == 0 {
            break;
        }
        done += n;
    }
    Ok(done)
}

fn print_number(rt: &impl Print, n: u64) -> io::Result<()> {
    print!(rt; "{n} ")
}

fn wide(b: u8) -> u64
    ensures { result < 256 }
{
    b as u64
}

// One byte more: the factor times the sum so far, the byte and 1, modulo the prime.
fn mixed(sum: u64, b: u8) -> u64
    requires { sum < MODULUS }
    ensures { result < MODULUS }
{
    (sum * FACTOR + wide(b) + 1) % MODULUS
}

fn checksum(bytes: &[u8]) -> u64 {
    let mut sum = 0;
    for b in bytes {
        sum = mixed(sum, *b);
    }
    sum
}

fn print_results(rt: &impl Print, r: engine::Outcome) -> io::Result<()> {
    print_number(rt, r.refusal)?;
    print_number(rt, r.end)?;
    print_number(rt, r.clock)?;
    print_number(rt, r.turns)?;
    print_number(rt, r.made)?;
    print_number(rt, r.ended)?;
    print_number(rt, r.trace_bytes)?;
    print_number(rt, r.report_bytes)
}

fn print_checksums(rt: &impl Print, trace: &[u8], report: &[u8]) -> io::Result<()> {
    print_number(rt, checksum(trace))?;
    let sum = checksum(report);
    println!(rt; "{sum}")
}

fn run_case(
    rt: &impl Print,
    model: &[u8],
    tape: &[u8],
    budget: u64,
    work: &mut [u32],
    trace: &mut [u8],
    report: &mut [u8],
) -> io::Result<()> {
    print_results(rt, engine::run(model, tape, budget, work, trace, report))?;
    print_checksums(rt, trace, report)
}

// The numbers of a case, and where its model begins; 0 where no case stands.
#[derive(Drop)]
struct Case {
    model: usize,
    tape: usize,
    budget: u64,
    work: usize,
    trace: usize,
    report: usize,
    at: usize,
}

fn no_case() -> Case {
    Case {
        model: 0,
        tape: 0,
        budget: 0,
        work: 0,
        trace: 0,
        report: 0,
        at: 0,
    }
}

fn read_case(cases: &[u8], at: usize) -> Case {
    let Some((model, p1)) = codec::read_number(cases, at, Model::MAX_NUMBER) else {
        return no_case();
    };
    let Some((tape, p2)) = codec::read_number(cases, p1, Model::MAX_NUMBER) else {
        return no_case();
    };
    let Some((budget, p3)) = codec::read_number(cases, p2, Model::MAX_NUMBER) else {
        return no_case();
    };
    let Some((work, p4)) = codec::read_number(cases, p3, Model::MAX_NUMBER) else {
        return no_case();
    };
    let Some((trace, p5)) = codec::read_number(cases, p4, Model::MAX_NUMBER) else {
        return no_case();
    };
    let Some((report, p6)) = codec::read_number(cases, p5, Model::MAX_NUMBER) else {
        return no_case();
    };
    Case {
        model: model as usize,
        tape: tape as usize,
        budget,
        work: work as usize,
        trace: trace as usize,
        report: report as usize,
        at: p6,
    }
}

// Lends a case the buffers of its lengths and runs it, if they are long enough.
fn run_within(
    rt: &impl Print,
    model: &[u8],
    tape: &[u8],
    case: Case,
    work: &mut [u32],
    trace: &mut [u8],
    report: &mut [u8],
) -> io::Result<bool> {
    let work_len = case.work;
    let trace_len = case.trace;
    let report_len = case.report;
    if work.len() < work_len {
        return Ok(false);
    }
    if trace.len() < trace_len {
        return Ok(false);
    }
    if report.len() < report_len {
        return Ok(false);
    }
    run_case(
        rt,
        model,
        tape,
        case.budget,
        &mut work[..work_len],
        &mut trace[..trace_len],
        &mut report[..report_len],
    )?;
    Ok(true)
}

// Runs the case at a position and returns the position after it, or 0 where none stands or a buffer is too short for it.
fn next_case(
    rt: &impl Print,
    cases: &[u8],
    at: usize,
    work: &mut [u32],
    trace: &mut [u8],
    report: &mut [u8],
) -> io::Result<usize> {
    let case = read_case(cases, at);
    let begin = case.at;
    if cases.len() < begin {
        return Ok(0);
    }
    if cases.len() - begin < case.model {
        return Ok(0);
    }
    let middle = begin + case.model;
    if cases.len() - middle < case.tape {
        return Ok(0);
    }
    let end = middle + case.tape;
    if run_within(
        rt,
        &cases[begin..middle],
        &cases[middle..end],
        case,
        work,
        trace,
        report,
    )? {
        return Ok(end);
    }
    Ok(0)
}

fn run_all(
    rt: &impl Print,
    cases: &[u8],
    work: &mut [u32],
    trace: &mut [u8],
    report: &mut [u8],
) -> io::Result<()> {
    let mut at = 0;
    while at < cases.len() {
        let next = next_case(rt, cases, at, work, trace, report)?;
        if next <= at {
            return println!(rt; "not a case");
        }
        at = next;
    }
    Ok(())
}

fn main(rt: HostRuntime) -> io::Result<()> {
    let mut cases = [0u8; CASES_BYTES];
    let mut work = [0u32; WORK_NUMBERS];
    let mut trace = [0u8; TRACE_BYTES];
    let mut report = [0u8; REPORT_BYTES];
    let n = read_full(&mut rt.reader(), &mut cases)?;
    run_all(&rt, &cases[..n], &mut work, &mut trace, &mut report)
}
