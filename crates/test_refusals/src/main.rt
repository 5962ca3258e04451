// Judges a table of models and tapes (the file stdin), most of them damaged, and writes the number that documents 01 and 02 give to each: 0
// for one that is accepted, else the first question that is answered "no".
//
// A case is a line: its name, a colon, the bytes of the model in hexadecimal, a slash, those of the tape.
#![tactic(auto)]

ghost use Rattle.std.specs.Io.{ReadsAtMost};
ghost use Rattle.std.specs.Prelude.{length, ◌<◌, ◌≤◌, IfSome};

use std::io;
use std::io::Read;

const CASES_BYTES: usize = 16_384;

const MOST_BYTES: usize = 256;

const WORK_NUMBERS: usize = 16_384;

const REPORT_BYTES: usize = 10_240;

// Reads until the buffer is full or the input ends; answers how many bytes.
// kept: a `while`, since a read gives as many bytes as it likes.
fn read_full(input: &mut impl Read, buffer: &mut [u8]) -> io::Result<usize>
    ensures { ReadsAtMost result buffer.new }
{
    let mut done = 0;
    while done < buffer.len() {
        let n = input.read(&mut buffer[done..])?;
        if n == 0 {
            break;
        }
        done += n;
    }
    Ok(done)
}

// Where a mark stands first.
fn find(s: &[u8], mark: u8) -> Option<usize>
    ensures { IfSome result (λ i. i < length s.now) }
{
    s.iter().position(|b| *b == mark)
}

fn digit(c: u8) -> u8
    ensures { result < 16 }
{
    if c >= b'a' {
        return (c - b'a') % 6 + 10;
    }
    if c >= b'0' {
        return (c - b'0') % 10;
    }
    0
}

fn byte(high: u8, low: u8) -> u8 {
    digit(high) * 16 + digit(low)
}

// The bytes that a text gives in hexadecimal, as many as there is room for; answers how many.
fn bytes_of(text: &[u8], out: &mut [u8]) -> usize
    ensures { result ≤ length out.new }
{
    let (pairs, _) = text.as_chunks::<2>();
    for (cell, pair) in out.iter_mut().zip(pairs) {
        *cell = byte(pair[0], pair[1]);
    }
    pairs.len().min(out.len())
}

fn answer(rt: &impl Print, model: &[u8], tape: &[u8]) -> io::Result<()> {
    let n = decode::validate(model, tape, WORK_NUMBERS, REPORT_BYTES);
    print!(rt; "{n}")
}

fn show(rt: &impl Print, name: &[u8], model_text: &[u8], tape_text: &[u8]) -> io::Result<()> {
    let mut model = [0u8; MOST_BYTES];
    let mut tape = [0u8; MOST_BYTES];
    let m = bytes_of(model_text, &mut model);
    let t = bytes_of(tape_text, &mut tape);
    answer(rt, &model[..m], &tape[..t])?;
    print!(rt; " ")?;
    rt.write_all(name)?;
    println!(rt)
}

fn show_line(rt: &impl Print, line: &[u8]) -> io::Result<()> {
    let Some(colon) = find(line, b':') else {
        return Ok(());
    };
    let texts = &line[colon + 1..];
    let Some(slash) = find(texts, b'/') else {
        return Ok(());
    };
    show(rt, &line[..colon], &texts[..slash], &texts[slash + 1..])
}

fn show_all(rt: &impl Print, cases: &[u8]) -> io::Result<()> {
    let mut left = cases;
    while let Some(end) = find(left, b'\n') {
        show_line(rt, &left[..end])?;
        left = &left[end + 1..];
    }
    Ok(())
}

fn cut_models(rt: &impl Print, model: &[u8], tape: &[u8]) -> io::Result<()> {
    for n in 0..model.len() {
        answer(rt, &model[..n], tape)?;
    }
    Ok(())
}

fn cut_tapes(rt: &impl Print, model: &[u8], tape: &[u8]) -> io::Result<()> {
    for n in 0..tape.len() {
        answer(rt, model, &tape[..n])?;
    }
    Ok(())
}

// A good model cut off after each of its bytes, and its tape too.
fn truncated(rt: &impl Print, model: &[u8], tape: &[u8]) -> io::Result<()> {
    cut_models(rt, model, tape)?;
    println!(rt; " model cut off")?;
    cut_tapes(rt, model, tape)?;
    println!(rt; " tape cut off")
}

// The two buffers, asked before any byte is read.
fn buffers(rt: &impl Print) -> io::Result<()> {
    let short_work = decode::validate(b"", b"", WORK_NUMBERS - 1, REPORT_BYTES);
    let both_short = decode::validate(b"", b"", WORK_NUMBERS - 1, REPORT_BYTES - 1);
    let short_report = decode::validate(b"", b"", WORK_NUMBERS, REPORT_BYTES - 1);
    let neither = decode::validate(b"", b"", WORK_NUMBERS, REPORT_BYTES);
    println!(rt; "{short_work}{both_short}{short_report}{neither} buffers")
}

fn main(rt: HostRuntime) -> io::Result<()> {
    let mut cases = [0u8; CASES_BYTES];
    let n = read_full(&mut rt.reader(), &mut cases)?;
    buffers(&rt)?;
    show_all(&rt, &cases[..n])?;
    truncated(
        &rt,
        b"\x01\x01\x01\x03\x01\x02\x01\x00\x00\x05\x02\x00\x09\x01\x01\x04\x03\x01\x05\x07\x01\x01\x00\x06\x01\x02\x02\x01\x07\x01\x02\x0a\x05\x01\x03\x00\x02\x07\x03\x01\x03\x00",
        b"\x02\x03\xbd\x84\x40",
    )
}
