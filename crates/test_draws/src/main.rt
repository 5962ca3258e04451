// Draws from streams and prints what comes: the published check, starts and refusals, steps of states at the ends of their range.
#![tactic(auto)]

use std::io;

const PUBLISHED_STEPS: u32 = 10_000;

const LAST_STREAM: u32 = 511;

const NO_STREAM: u32 = 512;

const LAST_STATE: u32 = 2_147_483_646;

const MODULUS: u32 = 2_147_483_647;

const BEHIND_MODULUS: u32 = 2_147_483_648;

const LARGEST: u32 = 4_294_967_295;

const DRAWS: u32 = 3;

fn print_line(rt: &impl Print, n: u32) -> io::Result<()> {
    println!(rt; "{n}")
}

// A stream's start and its first three draws; or the refusal.
fn print_stream(rt: &impl Print, stream: u32) -> io::Result<()> {
    match streams::start(stream) {
        Err(refusal) => {
            let n = refusal.number();
            println!(rt; "refused {n}")
        }
        Ok(mut state) => {
            print_line(rt, state.number())?;
            for _ in 0..DRAWS {
                state = state.next();
                print_line(rt, state.number())?;
            }
            Ok(())
        }
    }
}

fn main(rt: HostRuntime) -> io::Result<()> {
    // "1,043,618,065 after 10,000 steps from 1"
    print_line(&rt, streams::advance(1, PUBLISHED_STEPS))?;
    print_stream(&rt, 0)?;
    print_stream(&rt, 1)?;
    print_stream(&rt, LAST_STREAM)?;
    print_stream(&rt, NO_STREAM)?;
    print_stream(&rt, LARGEST)?;
    print_line(&rt, streams::step(0))?;
    print_line(&rt, streams::step(LAST_STATE))?;
    print_line(&rt, streams::step(MODULUS))?;
    print_line(&rt, streams::step(BEHIND_MODULUS))?;
    print_line(&rt, streams::step(LARGEST))
}
