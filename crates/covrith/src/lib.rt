// Each call of Covrith with its answers as numbers, which can cross to other languages: crate covrith_c exports these functions to C.
#![tactic(auto)]

ghost use Rattle.std.specs.Prelude.{◌≡◌, MatchResult};
ghost use Rattle.machine.specs.All.{length, in_force, count_low, read_record, write_record};
ghost use Rattle.constants.specs.Numbers.{refusal_number};
ghost use Rattle.trace.specs.Answers.{entry, after};
ghost use Rattle.columns_laws.specs.Columns.{to_columns, from_columns};
ghost use Rattle.engine_laws.specs.Contract.{Contract};
ghost use Rattle.streams.specs.Stream.{next, start_of};
ghost use Rattle.tapes_laws.specs.Tape.{make_tape, leaves};
ghost use Rattle.tapes_laws.specs.Contract.{Accepts};
ghost use Rattle.join_laws.specs.Joining.{join};
ghost use Rattle.join.specs.Contract.{model_left, tape_left};
ghost use Rattle.covrith.specs.Answers.{read_answer, read_numbers, write_answer, write_count, start_answer, start_state, tape_answer, tape_count, join_answer, join_lengths};
ghost use Rattle.covrith.specs.Results.{results};

use constants::Refusal;
use constants::refusals::NO_MORE;
use trace::Record;

// The eight results of a run; a record and the position behind it.
pub const OUTCOME: usize = 8;

pub const RECORD: usize = 5;

// The lengths of a joined model and its tape.
pub const LENGTHS: usize = 2;

// What was written as numbers: 0 and how many bytes, or the number of the refusal and none.
fn told(written: Result<usize, Refusal>, count: &mut u64) -> u32
    ensures { MatchResult written (λ n. (result ≡ 0) × (count.new ≡ n)) (λ r. (result ≡ refusal_number r) × (count.new ≡ 0)) }
{
    match written {
        Ok(n) => {
            *count = n as u64;
            0
        }
        Err(r) => {
            *count = 0;
            r.number()
        }
    }
}

// One run of a model on a tape. `outcome` gets the eight results.
pub fn covrith_run(
    model: &[u8],
    tape: &[u8],
    budget: u64,
    work: &mut [u32],
    trace: &mut [u8],
    report: &mut [u8],
    outcome: &mut [u64; OUTCOME],
)
    ensures { Contract model.now tape.now budget work.old trace.old report.old
        (results outcome.new) work.new trace.new report.new }
{
    let r = engine::run(model, tape, budget, work, trace, report);
    *outcome = [
        r.refusal,
        r.end,
        r.clock,
        r.turns,
        r.made,
        r.ended,
        r.trace_bytes,
        r.report_bytes,
    ];
}

// The record at a position of a trace. Asked first whether there is one: the answer of `trace::read_record` is large, and at the end of a
// trace most of the time went into it.
pub fn covrith_read_record(trace: &[u8], position: usize, numbers: &mut [u64; RECORD]) -> u32
    ensures value { result ≡ read_answer (read_record in_force trace.now position) }
    ensures numbers_after { numbers.new ≡ read_numbers (read_record in_force trace.now position) numbers.old }
{
    if trace.len() <= position {
        return NO_MORE;
    }
    match trace::read_record(trace, position) {
        Ok(Some((r, next))) => {
            *numbers = [r.clock, r.transaction, r.block, r.outcome, next as u64];
            0
        }
        Ok(None) => NO_MORE,
        Err(r) => r.number(),
    }
}

// Writes one record into the unused rest of a trace.
pub fn covrith_write_record(
    rest: &mut [u8],
    clock: u64,
    transaction: u64,
    block: u64,
    outcome: u64,
    count: &mut u64,
) -> u32
    ensures value { result ≡ write_answer (write_record in_force (length rest.old) (entry clock transaction block outcome)) }
    ensures count_after { count.new ≡ write_count (write_record in_force (length rest.old) (entry clock transaction block outcome)) }
    ensures rest_after { rest.new ≡ after (write_record in_force (length rest.old) (entry clock transaction block outcome))
        rest.old }
{
    let r = Record {
        clock,
        transaction,
        block,
        outcome,
    };
    told(trace::write_one(rest, r), count)
}

// How many bytes of a trace are below 80 hexadecimal.
pub fn covrith_count(trace: &[u8]) -> u64
    ensures { result ≡ count_low trace.now }
{
    trace::count_low(trace)
}

// Where a stream begins: `state` gets the state before its first step. 41 for a stream above 511.
pub fn covrith_stream_start(stream: u32, state: &mut u32) -> u32
    ensures value { result ≡ start_answer (start_of stream) }
    ensures state_after { state.new ≡ start_state (start_of stream) state.old }
{
    match streams::start(stream) {
        Ok(first) => {
            *state = first.number();
            0
        }
        Err(refusal) => refusal.number(),
    }
}

// The state that follows a state.
pub fn covrith_stream_step(state: u32) -> u32
    ensures { result ≡ next state }
{
    streams::step(state)
}

// A trace to columns.
pub fn covrith_columns(trace: &[u8], out: &mut [u8], written: &mut u64) -> u32
    ensures value { result ≡ write_answer (to_columns trace.now (length out.old)) }
    ensures written_after { written.new ≡ write_count (to_columns trace.now (length out.old)) }
    ensures out_after { out.new ≡ after (to_columns trace.now (length out.old)) out.old }
{
    told(columns::to_columns(trace, out), written)
}

// Columns to the trace that produces them.
pub fn covrith_uncolumns(columns: &[u8], out: &mut [u8], size: &mut u64) -> u32
    ensures value { result ≡ write_answer (from_columns columns.now (length out.old)) }
    ensures size_after { size.new ≡ write_count (from_columns columns.now (length out.old)) }
    ensures out_after { out.new ≡ after (from_columns columns.now (length out.old)) out.old }
{
    told(columns::from_columns(columns, out), size)
}

// Makes a tape from a stream and distributions. `used` gets the number of its bytes, 0 for a refusal.
pub fn covrith_make_tape(
    stream: u32,
    lists: &[u32],
    numbers: &[f64],
    tape: &mut [u8],
    used: &mut u64,
) -> u32
    ensures value { result ≡ tape_answer (make_tape stream lists.now numbers.now (length tape.old)) }
    ensures used_after { used.new ≡ tape_count (make_tape stream lists.now numbers.now (length tape.old)) }
    ensures tape_after { tape.new ≡ leaves (make_tape stream lists.now numbers.now (length tape.old))
        tape.old }
    ensures accepts { Accepts stream lists.now numbers.now (length tape.old) }
{
    match tapes::make(stream, lists, numbers, tape) {
        Ok(n) => {
            *used = n as u64;
            0
        }
        Err(refusal) => {
            *used = 0;
            refusal.number()
        }
    }
}

// Joins two pairs of model and tape. `lengths` gets how many bytes the joined model and tape have, 0 and 0 for a refusal.
pub fn covrith_join(
    model1: &[u8],
    tape1: &[u8],
    model2: &[u8],
    tape2: &[u8],
    model: &mut [u8],
    tape: &mut [u8],
    lengths: &mut [u64; LENGTHS],
) -> u32
    ensures value { result ≡ join_answer
        (join model1.now tape1.now model2.now tape2.now (length model.old)
        (length tape.old)) }
    ensures lengths_after { lengths.new ≡ join_lengths
        (join model1.now tape1.now model2.now tape2.now (length model.old)
        (length tape.old)) }
    ensures model_after { model.new ≡ model_left
        (join model1.now tape1.now model2.now tape2.now (length model.old)
        (length tape.old)) model.old }
    ensures tape_after { tape.new ≡ tape_left
        (join model1.now tape1.now model2.now tape2.now (length model.old)
        (length tape.old)) tape.old }
{
    match join::join(model1, tape1, model2, tape2, model, tape) {
        Ok((model_bytes, tape_bytes)) => {
            *lengths = [model_bytes as u64, tape_bytes as u64];
            0
        }
        Err(refusal) => {
            *lengths = [0, 0];
            refusal.number()
        }
    }
}
