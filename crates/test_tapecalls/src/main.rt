// Calls of the tape maker at the limits of its rules: answers, lengths and the twelve bytes that were lent.
#![tactic(auto)]

use std::io;

fn print_byte(rt: &impl Print, b: u8) -> io::Result<()> {
    print!(rt; " {b}")
}

fn print_bytes(rt: &impl Print, tape: &[u8; 12]) -> io::Result<()> {
    for b in tape {
        print_byte(rt, *b)?;
    }
    println!(rt)
}

fn print_call(rt: &impl Print, stream: u32, lists: &[u32], numbers: &[f64]) -> io::Result<()> {
    let mut tape = [7u8; 12];
    match tapes::make(stream, lists, numbers, &mut tape) {
        Ok(n) => print!(rt; "made {n}")?,
        Err(refusal) => {
            let n = refusal.number();
            print!(rt; "refused {n}")?;
        }
    }
    print_bytes(rt, &tape)
}

// The largest time, a fraction that is cut, minus zero.
fn call_1(rt: &impl Print) -> io::Result<()> {
    let lists: [u32; 12] = [0, 1, 0, 0, 0, 1, 1, 0, 0, 1, 2, 0];
    let numbers: [f64; 3] = [1000000.0, 2.75, -0.0];
    print_call(rt, 0, &lists, &numbers)
}

// Half equal to mean, at both limits.
fn call_2(rt: &impl Print) -> io::Result<()> {
    let lists: [u32; 4] = [1, 3, 0, 0];
    let numbers: [f64; 2] = [500000.0, 500000.0];
    print_call(rt, 0, &lists, &numbers)
}

// No half: the mean.
fn call_3(rt: &impl Print) -> io::Result<()> {
    let lists: [u32; 4] = [1, 3, 0, 0];
    let numbers: [f64; 2] = [9.0, 0.0];
    print_call(rt, 511, &lists, &numbers)
}

// All times equal.
fn call_4(rt: &impl Print) -> io::Result<()> {
    let lists: [u32; 4] = [2, 3, 0, 2];
    let numbers: [f64; 4] = [0.0, 5.0, 1.0, 5.0];
    print_call(rt, 0, &lists, &numbers)
}

// A curve from 0 to the largest time.
fn call_5(rt: &impl Print) -> io::Result<()> {
    let lists: [u32; 4] = [2, 3, 0, 2];
    let numbers: [f64; 4] = [0.0, 0.0, 1.0, 1000000.0];
    print_call(rt, 0, &lists, &numbers)
}

// Points 1/65,536 apart: the second draw of stream 0 is 8620/65,536.
fn call_6(rt: &impl Print) -> io::Result<()> {
    let lists: [u32; 4] = [2, 3, 0, 4];
    let numbers: [f64; 8] = [
        0.0,
        0.0,
        0.1315155029296875,
        1.0,
        0.13153076171875,
        1000.0,
        1.0,
        1000000.0,
    ];
    print_call(rt, 0, &lists, &numbers)
}

// 24 points.
fn call_7(rt: &impl Print) -> io::Result<()> {
    let lists: [u32; 4] = [2, 4, 0, 24];
    let numbers: [f64; 48] = [
        0.0,
        0.0,
        0.0009765625,
        0.046875,
        0.00390625,
        0.09375,
        0.0087890625,
        0.140625,
        0.015625,
        0.1875,
        0.0244140625,
        0.234375,
        0.03515625,
        0.28125,
        0.0478515625,
        0.328125,
        0.0625,
        0.375,
        0.0791015625,
        0.421875,
        0.09765625,
        0.46875,
        0.1181640625,
        0.515625,
        0.140625,
        0.5625,
        0.1650390625,
        0.609375,
        0.19140625,
        0.65625,
        0.2197265625,
        0.703125,
        0.25,
        0.75,
        0.2822265625,
        0.796875,
        0.31640625,
        0.84375,
        0.3525390625,
        0.890625,
        0.390625,
        0.9375,
        0.4306640625,
        0.984375,
        0.47265625,
        1.03125,
        1.0,
        77.0,
    ];
    print_call(rt, 0, &lists, &numbers)
}

// The stream runs on: spread, fixed, curve.
fn call_8(rt: &impl Print) -> io::Result<()> {
    let lists: [u32; 12] = [1, 3, 0, 0, 0, 2, 2, 0, 2, 2, 3, 3];
    let numbers: [f64; 9] = [12.5, 4.0, 7.0, 0.0, 1.0, 0.5, 3.0, 1.0, 10.0];
    print_call(rt, 0, &lists, &numbers)
}

// No lists.
fn call_9(rt: &impl Print) -> io::Result<()> {
    let lists: [u32; 1] = [0];
    let numbers: [f64; 1] = [1.0];
    print_call(rt, 0, &lists[..0], &numbers)
}

// 16 lists of no times need 16 bytes; a seventeenth is refused before the room is asked for.
fn call_10(rt: &impl Print) -> io::Result<()> {
    let lists: [u32; 64] = [
        0, 0, 0, 0, 0, 0, 0, 0, 0, 0, 0, 0, 0, 0, 0, 0, 0, 0, 0, 0, 0, 0, 0, 0, 0, 0, 0, 0, 0, 0,
        0, 0, 0, 0, 0, 0, 0, 0, 0, 0, 0, 0, 0, 0, 0, 0, 0, 0, 0, 0, 0, 0, 0, 0, 0, 0, 0, 0, 0, 0,
        0, 0, 0, 0,
    ];
    let numbers: [f64; 1] = [1.0];
    print_call(rt, 0, &lists, &numbers)
}

fn call_11(rt: &impl Print) -> io::Result<()> {
    let lists: [u32; 68] = [
        0, 0, 0, 0, 0, 0, 0, 0, 0, 0, 0, 0, 0, 0, 0, 0, 0, 0, 0, 0, 0, 0, 0, 0, 0, 0, 0, 0, 0, 0,
        0, 0, 0, 0, 0, 0, 0, 0, 0, 0, 0, 0, 0, 0, 0, 0, 0, 0, 0, 0, 0, 0, 0, 0, 0, 0, 0, 0, 0, 0,
        0, 0, 0, 0, 0, 0, 0, 0,
    ];
    let numbers: [f64; 1] = [1.0];
    print_call(rt, 0, &lists, &numbers)
}

// 41 before all.
fn call_12(rt: &impl Print) -> io::Result<()> {
    let lists: [u32; 4] = [9, 9, 9, 9];
    let numbers: [f64; 1] = [1.0];
    print_call(rt, 512, &lists, &numbers)
}

// 42 before 43: 13 bytes are needed and 12 lent.
fn call_13(rt: &impl Print) -> io::Result<()> {
    let lists: [u32; 4] = [0, 12, 0, 0];
    let numbers: [f64; 1] = [1.0];
    print_call(rt, 0, &lists, &numbers)
}

fn call_14(rt: &impl Print) -> io::Result<()> {
    let lists: [u32; 4] = [0, 12, 1, 0];
    let numbers: [f64; 1] = [1.0];
    print_call(rt, 0, &lists, &numbers)
}

// Damaged doubles: not a number, infinities, below 0, 1/128, a tenth, above the limit.
fn call_15(rt: &impl Print) -> io::Result<()> {
    let lists: [u32; 4] = [0, 1, 0, 0];
    let numbers: [f64; 1] = [0.0 / 0.0];
    print_call(rt, 0, &lists, &numbers)
}

fn call_16(rt: &impl Print) -> io::Result<()> {
    let lists: [u32; 4] = [0, 1, 0, 0];
    let numbers: [f64; 1] = [1.0 / 0.0];
    print_call(rt, 0, &lists, &numbers)
}

fn call_17(rt: &impl Print) -> io::Result<()> {
    let lists: [u32; 4] = [0, 1, 0, 0];
    let numbers: [f64; 1] = [-1.0 / 0.0];
    print_call(rt, 0, &lists, &numbers)
}

fn call_18(rt: &impl Print) -> io::Result<()> {
    let lists: [u32; 4] = [0, 1, 0, 0];
    let numbers: [f64; 1] = [-0.015625];
    print_call(rt, 0, &lists, &numbers)
}

fn call_19(rt: &impl Print) -> io::Result<()> {
    let lists: [u32; 4] = [0, 1, 0, 0];
    let numbers: [f64; 1] = [0.0078125];
    print_call(rt, 0, &lists, &numbers)
}

fn call_20(rt: &impl Print) -> io::Result<()> {
    let lists: [u32; 4] = [0, 1, 0, 0];
    let numbers: [f64; 1] = [0.1];
    print_call(rt, 0, &lists, &numbers)
}

fn call_21(rt: &impl Print) -> io::Result<()> {
    let lists: [u32; 4] = [0, 1, 0, 0];
    let numbers: [f64; 1] = [1000000.015625];
    print_call(rt, 0, &lists, &numbers)
}

// Half above mean, mean above 500,000.
fn call_22(rt: &impl Print) -> io::Result<()> {
    let lists: [u32; 4] = [1, 1, 0, 0];
    let numbers: [f64; 2] = [4.0, 4.015625];
    print_call(rt, 0, &lists, &numbers)
}

fn call_23(rt: &impl Print) -> io::Result<()> {
    let lists: [u32; 4] = [1, 1, 0, 0];
    let numbers: [f64; 2] = [500000.015625, 1.0];
    print_call(rt, 0, &lists, &numbers)
}

// One point, 25 points, u that does not begin at 0, end at 1 or rise, times that fall.
fn call_24(rt: &impl Print) -> io::Result<()> {
    let lists: [u32; 4] = [2, 1, 0, 1];
    let numbers: [f64; 2] = [0.0, 1.0];
    print_call(rt, 0, &lists, &numbers)
}

fn call_25(rt: &impl Print) -> io::Result<()> {
    let lists: [u32; 4] = [2, 1, 0, 25];
    let numbers: [f64; 50] = [
        0.0,
        1.0,
        0.0009765625,
        1.0,
        0.001953125,
        1.0,
        0.0029296875,
        1.0,
        0.00390625,
        1.0,
        0.0048828125,
        1.0,
        0.005859375,
        1.0,
        0.0068359375,
        1.0,
        0.0078125,
        1.0,
        0.0087890625,
        1.0,
        0.009765625,
        1.0,
        0.0107421875,
        1.0,
        0.01171875,
        1.0,
        0.0126953125,
        1.0,
        0.013671875,
        1.0,
        0.0146484375,
        1.0,
        0.015625,
        1.0,
        0.0166015625,
        1.0,
        0.017578125,
        1.0,
        0.0185546875,
        1.0,
        0.01953125,
        1.0,
        0.0205078125,
        1.0,
        0.021484375,
        1.0,
        0.0224609375,
        1.0,
        1.0,
        1.0,
    ];
    print_call(rt, 0, &lists, &numbers)
}

fn call_26(rt: &impl Print) -> io::Result<()> {
    let lists: [u32; 4] = [2, 1, 0, 2];
    let numbers: [f64; 4] = [0.5, 1.0, 1.0, 1.0];
    print_call(rt, 0, &lists, &numbers)
}

fn call_27(rt: &impl Print) -> io::Result<()> {
    let lists: [u32; 4] = [2, 1, 0, 2];
    let numbers: [f64; 4] = [0.0, 1.0, 0.5, 1.0];
    print_call(rt, 0, &lists, &numbers)
}

fn call_28(rt: &impl Print) -> io::Result<()> {
    let lists: [u32; 4] = [2, 1, 0, 3];
    let numbers: [f64; 6] = [0.0, 1.0, 0.0, 1.0, 1.0, 1.0];
    print_call(rt, 0, &lists, &numbers)
}

fn call_29(rt: &impl Print) -> io::Result<()> {
    let lists: [u32; 4] = [2, 1, 0, 2];
    let numbers: [f64; 4] = [0.0, 2.0, 1.0, 1.0];
    print_call(rt, 0, &lists, &numbers)
}

// Another kind, a count of 65,536, a double past the end, a length of three, points of a fixed time.
fn call_30(rt: &impl Print) -> io::Result<()> {
    let lists: [u32; 4] = [3, 1, 0, 0];
    let numbers: [f64; 1] = [1.0];
    print_call(rt, 0, &lists, &numbers)
}

fn call_31(rt: &impl Print) -> io::Result<()> {
    let lists: [u32; 4] = [0, 65536, 0, 0];
    let numbers: [f64; 1] = [1.0];
    print_call(rt, 0, &lists, &numbers)
}

fn call_32(rt: &impl Print) -> io::Result<()> {
    let lists: [u32; 4] = [1, 1, 0, 0];
    let numbers: [f64; 1] = [1.0];
    print_call(rt, 0, &lists, &numbers)
}

fn call_33(rt: &impl Print) -> io::Result<()> {
    let lists: [u32; 3] = [0, 1, 0];
    let numbers: [f64; 1] = [1.0];
    print_call(rt, 0, &lists, &numbers)
}

fn call_34(rt: &impl Print) -> io::Result<()> {
    let lists: [u32; 4] = [0, 1, 0, 1];
    let numbers: [f64; 1] = [1.0];
    print_call(rt, 0, &lists, &numbers)
}

fn main(rt: HostRuntime) -> io::Result<()> {
    call_1(&rt)?;
    call_2(&rt)?;
    call_3(&rt)?;
    call_4(&rt)?;
    call_5(&rt)?;
    call_6(&rt)?;
    call_7(&rt)?;
    call_8(&rt)?;
    call_9(&rt)?;
    call_10(&rt)?;
    call_11(&rt)?;
    call_12(&rt)?;
    call_13(&rt)?;
    call_14(&rt)?;
    call_15(&rt)?;
    call_16(&rt)?;
    call_17(&rt)?;
    call_18(&rt)?;
    call_19(&rt)?;
    call_20(&rt)?;
    call_21(&rt)?;
    call_22(&rt)?;
    call_23(&rt)?;
    call_24(&rt)?;
    call_25(&rt)?;
    call_26(&rt)?;
    call_27(&rt)?;
    call_28(&rt)?;
    call_29(&rt)?;
    call_30(&rt)?;
    call_31(&rt)?;
    call_32(&rt)?;
    call_33(&rt)?;
    call_34(&rt)
}
