// Runs the codec: the paper's numbers as bytes and back, and a thousand records there and back.
#![tactic(auto)]

ghost use Rattle.std.specs.Prelude.{◌<◌};

use constants::{Model, Refusal};
use std::io;
use trace::Record;

const RECORDS: u64 = 1000;

// So far are clocks and transactions of one record from those of the one before.
const CLOCKS: u64 = 32_032_032;

const TRANSACTIONS: u64 = 100_100;

const BLOCKS: u64 = Model::MAX_BLOCKS as u64;

// the largest number of one group
const ONE_GROUP: u64 = 127;

const TRACE_BYTES: usize = 65_536;

fn print_byte(rt: &impl Print, b: u8) -> io::Result<()> {
    print!(rt; " {b:02x}")
}

// The bytes of a slice in hexadecimal.
fn print_bytes(rt: &impl Print, s: &[u8]) -> io::Result<()> {
    for b in s {
        print_byte(rt, *b)?;
    }
    Ok(())
}

// A number and a word, on a line.
fn print_count(rt: &impl Print, n: usize, text: &str) -> io::Result<()> {
    println!(rt; "{n}{text}")
}

// A number and its bytes.
fn print_written(rt: &impl Print, v: u64) -> io::Result<()> {
    print!(rt; "{v}")?;
    let mut bytes = [0u8; 9];
    let len = codec::write_number(&mut bytes, 0, v);
    print_bytes(rt, &bytes[..len])?;
    println!(rt)
}

// What reading a number of at most `most` at the front of these bytes answers.
fn print_read(rt: &impl Print, s: &[u8], most: u64) -> io::Result<()> {
    print_answer(rt, codec::read_number(s, 0, most))?;
    print_bytes(rt, s)?;
    println!(rt)
}

fn print_answer(rt: &impl Print, answer: Option<(u64, usize)>) -> io::Result<()> {
    match answer {
        Some((v, _)) => print!(rt; "{v}"),
        None => print!(rt; "refused"),
    }
}

// What the reader answers at the front of these bytes.
fn print_record(rt: &impl Print, s: &[u8]) -> io::Result<()> {
    print_reading(rt, trace::read_record(s, 0))?;
    print_bytes(rt, s)?;
    println!(rt)
}

fn print_reading(
    rt: &impl Print,
    answer: Result<Option<(Record, usize)>, Refusal>,
) -> io::Result<()> {
    match answer {
        Ok(Some((r, _))) => {
            let clock = r.clock;
            print!(rt; "clock {clock}")
        }
        Ok(None) => print!(rt; "no more"),
        Err(refusal) => print_refusal(rt, refusal),
    }
}

fn print_refusal(rt: &impl Print, refusal: Refusal) -> io::Result<()> {
    let n = refusal.number();
    print!(rt; "refused {n}")
}

// What the writer answers to a record at this clock, with the largest of all else and room for it.
fn print_largest(rt: &impl Print, clock: u64) -> io::Result<()> {
    print!(rt; "{clock}")?;
    let mut bytes = [0u8; Model::RECORD_ROOM];
    let largest = Record {
        clock,
        transaction: Model::MAX_TRANSACTION,
        block: BLOCKS,
        outcome: 1,
    };
    match trace::write_record(&mut bytes, largest) {
        Ok(n) => {
            print!(rt; " in {n} bytes")?;
            print_bytes(rt, &bytes)?;
        }
        Err(refusal) => {
            let n = refusal.number();
            print!(rt; " refused {n}")?;
        }
    }
    println!(rt)
}

// The i-th record of the test, within the ranges.
fn record(i: u64) -> Record
    requires { i < RECORDS }
{
    Record {
        clock: i * CLOCKS,
        transaction: i * TRANSACTIONS + 1,
        block: i % BLOCKS + 1,
        outcome: i % 2,
    }
}

// Writes the i-th record behind the bytes that are used, and returns how many are used then.
fn put(trace: &mut [u8], used: usize, i: u64) -> usize
    requires { i < RECORDS }
{
    if trace.len() < used {
        return used;
    }
    match trace::write_record(&mut trace[used..], record(i)) {
        Ok(n) => used + n,
        Err(_) => used,
    }
}

// The position after the i-th record, if it stands at `at`.
fn take(trace: &[u8], at: usize, i: u64) -> Option<usize>
    requires { i < RECORDS }
{
    let (r, next) = trace::read_record(trace, at).ok().flatten()?;
    (r == record(i)).then_some(next)
}

fn write_all(trace: &mut [u8]) -> usize {
    let mut used = 0;
    for i in 0..RECORDS {
        used = put(trace, used, i);
    }
    used
}

// The position after the thousand records, if each reads back as it was written.
fn read_all(trace: &[u8]) -> Option<usize> {
    let mut at = 0;
    for i in 0..RECORDS {
        at = take(trace, at, i)?;
    }
    Some(at)
}

// Whether the reader has no more at a position.
fn print_end(rt: &impl Print, trace: &[u8], at: usize) -> io::Result<()> {
    match trace::read_record(trace, at) {
        Ok(None) => println!(rt; "no more"),
        _ => println!(rt; "more"),
    }
}

fn print_numbers(rt: &impl Print) -> io::Result<()> {
    print_written(rt, 0)?;
    print_written(rt, ONE_GROUP)?;
    print_written(rt, ONE_GROUP + 1)?;
    print_written(rt, Model::MAX_NUMBER)?;
    print_written(rt, Model::FIVE_GROUPS)?;
    print_written(rt, Model::MAX_REPORT_NUMBER)
}

// Numbers of a model.
fn print_readings(rt: &impl Print) -> io::Result<()> {
    print_read(rt, b"\x7f", Model::MAX_NUMBER)?;
    print_read(rt, b"\x81\x00", Model::MAX_NUMBER)?;
    print_read(rt, b"\x8f\xff\xff\xff\x7f", Model::MAX_NUMBER)?;
    print_read(rt, b"\x80\x01", Model::MAX_NUMBER)?;
    print_read(rt, b"\x90\x80\x80\x80\x00", Model::MAX_NUMBER)?;
    print_read(rt, b"\x81\x80\x80\x80\x80\x00", Model::MAX_NUMBER)?;
    print_read(rt, b"\x81", Model::MAX_NUMBER)
}

// Numbers of a tape or a trace.
fn print_wider_readings(rt: &impl Print) -> io::Result<()> {
    print_read(rt, b"\x90\x80\x80\x80\x00", Model::FIVE_GROUPS)?;
    print_read(rt, b"\xff\xff\xff\xff\x7f", Model::FIVE_GROUPS)?;
    print_read(rt, b"\x81\x80\x80\x80\x80\x00", Model::FIVE_GROUPS)
}

// Records with a clock at its limit, one past it, the largest number and one more; and 2 to the 32 as a transaction.
fn print_limits(rt: &impl Print) -> io::Result<()> {
    print_record(rt, b"\xf7\x9a\xe5\x80\x00\x01\x01\x00")?;
    print_record(rt, b"\xf7\x9a\xe5\x80\x01\x01\x01\x00")?;
    print_record(rt, b"\xff\xff\xff\xff\x7f\x01\x01\x00")?;
    print_record(rt, b"\x81\x80\x80\x80\x80\x00\x01\x01\x00")?;
    print_record(rt, b"\x00\x90\x80\x80\x80\x00\x01\x00")?;
    print_largest(rt, Model::MAX_CLOCK)?;
    print_largest(rt, Model::MAX_CLOCK + 1)
}

fn print_trace(rt: &impl Print, trace: &[u8]) -> io::Result<()> {
    let at = read_all(trace).unwrap_or(0);
    print_count(rt, at, " bytes read back")?;
    print_end(rt, trace, at)?;
    let low = trace::count_low(trace);
    println!(rt; "{low} of them below 80")
}

fn main(rt: HostRuntime) -> io::Result<()> {
    print_numbers(&rt)?;
    print_readings(&rt)?;
    print_wider_readings(&rt)?;
    print_limits(&rt)?;
    let mut trace = [0u8; TRACE_BYTES];
    let used = write_all(&mut trace);
    print_count(&rt, used, " bytes written")?;
    if used <= trace.len() {
        print_trace(&rt, &trace[..used])?;
    }
    Ok(())
}
