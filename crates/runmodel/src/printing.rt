// What is printed.
ghost use Rattle.std.specs.Prelude.{◌≡◌, ◌+◌, ◌*◌, ◌≤◌};
ghost use Rattle.machine.specs.All.{length, sets, in_force, work_numbers, report_room, validate};
ghost use Rattle.runmodel.specs.Fields.{field_at, numbers_at, behind_numbers, behind_things, header_for};
ghost use Rattle.runmodel.specs.Line.{letter_room, number_room, line_room};

use crate::lines::{LINE, line};
use constants::Model;
use engine::Outcome;
use layout::{LIST_CELLS, TABLES};
use std::io;

// How many numbers the report has at its head, per server and per queue; a line has one more.
const HEAD: usize = 3;

const SERVER: usize = 5;

const QUEUE: usize = 3;

const NUMBERS: usize = 6;

// Each function that prints fails where not all of it could be written.
fn print_line(rt: &impl Print, letters: &[u8], numbers: &[u64]) -> io::Result<()>
    requires { length letters.now + number_room * length numbers.now ≤ line_room }
{
    let mut out = [0u8; LINE];
    let n = line(&mut out, letters, numbers);
    rt.write_all(&out[..n])
}

pub fn print_refused(rt: &impl Print, number: u64) -> io::Result<()> {
    print_line(rt, b"refused ", &[number])
}

// Every record of a trace.
fn print_records(rt: &impl Print, trace: &[u8]) -> io::Result<()> {
    let mut at = 0;
    for _ in 0..trace.len() {
        let Ok(Some((r, next))) = trace::read_record(trace, at) else {
            return Ok(());
        };
        print_line(rt, b"", &[r.clock, r.transaction, r.block, r.outcome])?;
        at = next;
    }
    Ok(())
}

// The report's number at a position, and the position after it.
#[derive(Drop)]
struct Field {
    value: u64,
    next: usize,
}

// The engine's report has a number at every position that is asked for here; elsewhere it counts as 0.
fn number_at(report: &[u8], at: usize) -> Field
    ensures { result ≡ field_at report.now at }
{
    match codec::read_report_number(report, at) {
        Some((value, next)) => Field { value, next },
        None => Field { value: 0, next: at },
    }
}

// The position behind so many numbers.
fn skip(report: &[u8], at: usize, count: usize) -> usize
    ensures { result ≡ behind_numbers report.now count at }
{
    let mut next = at;
    for _ in 0..count {
        next = number_at(report, next).next;
    }
    next
}

// The position behind the fields of so many servers or queues.
fn skip_all(report: &[u8], at: usize, things: usize, count: usize) -> usize
    ensures { result ≡ behind_things report.now count things at }
{
    let mut next = at;
    for _ in 0..things {
        next = skip(report, next, count);
    }
    next
}

// The fields from a position on, so many of them, behind the first number; returns the position behind them.
fn read_fields(report: &[u8], at: usize, count: usize, numbers: &mut [u64; NUMBERS]) -> usize
    requires { count ≤ SERVER }
    ensures value { result ≡ behind_numbers report.now count at }
    ensures numbers { numbers.new ≡ sets numbers.old 1 (numbers_at report.now count at) }
{
    let mut next = at;
    for i in 0..count {
        let f = number_at(report, next);
        numbers[i + 1] = f.value;
        next = f.next;
    }
    next
}

// A line for each server or queue of a kind, from a position on.
fn print_all(
    rt: &impl Print,
    report: &[u8],
    at: usize,
    letters: &[u8],
    things: usize,
    count: usize,
) -> io::Result<()>
    requires letters_len_bound { length letters.now ≤ letter_room }
    requires count_bound { count ≤ SERVER }
{
    let mut numbers = [0u64; NUMBERS];
    let mut next = at;
    for k in 0..things {
        numbers[0] = k as u64 + 1;
        next = read_fields(report, next, count, &mut numbers);
        print_line(rt, letters, &numbers[..count + 1])?;
    }
    Ok(())
}

// Clock, made and ended begin the report, and the living follow the queues.
fn print_report(rt: &impl Print, m: Model, outcome: Outcome, report: &[u8]) -> io::Result<()> {
    let facilities = skip(report, 0, HEAD);
    let storages = skip_all(report, facilities, m.facilities, SERVER);
    let queues = skip_all(report, storages, m.storages, SERVER);
    let living = number_at(report, skip_all(report, queues, m.queues, QUEUE)).value;
    print_line(
        rt,
        b"end ",
        &[
            outcome.end,
            outcome.clock,
            outcome.made,
            outcome.ended,
            living,
        ],
    )?;
    print_all(rt, report, facilities, b"f ", m.facilities, SERVER)?;
    print_all(rt, report, storages, b"s ", m.storages, SERVER)?;
    print_all(rt, report, queues, b"q ", m.queues, QUEUE)
}

// How many servers and queues an accepted model has.
fn header(model: &[u8], tape: &[u8]) -> Model
    ensures { result ≡ header_for (validate in_force model.now tape.now work_numbers report_room) }
{
    let mut tables = [0u32; TABLES];
    let mut lists = [0u64; LIST_CELLS];
    decode::decode(
        model,
        tape,
        Model::WORK_NUMBERS,
        Model::REPORT_ROOM,
        &mut tables,
        &mut lists,
    )
    .unwrap_or(Model::empty())
}

pub fn print_accepted(
    rt: &impl Print,
    model: &[u8],
    tape: &[u8],
    outcome: Outcome,
    trace: &[u8],
    report: &[u8],
) -> io::Result<()> {
    print_records(rt, trace)?;
    print_report(rt, header(model, tape), outcome, report)
}
