// A tape measured, and written: one walk over its numbers, and two things that are done with each.
ghost use Rattle.std.specs.Prelude.{◌≡◌, ◌≤◌, min, ◌-◌, ◌^◌};
ghost use Rattle.machine.specs.All.{List, ℕ, length, sets};
ghost use Rattle.tapes_laws.specs.Source.{Source, times_of, state_after};
ghost use Rattle.tapes_laws.specs.Given.{Listed};
ghost use Rattle.tapes_laws.specs.Tape.{tape_numbers, tape_bytes};
ghost use Rattle.tapes_laws.specs.Held.{Meant, Rows, Steps, Measures, Writes};

use super::draw::draw;
use codec::{number_len, write_number};
use streams::State;
use tapes_laws::{Distribution, Row};

// What is done with each number of a tape, at a position of a buffer.
pub trait Step {
    ghost step: { ℕ → List ℕ → ℕ → ℕ → List ℕ → Type 0 };

    // The position behind the number.
    fn put(tape: &mut [u8], at: usize, number: u64) -> usize
        ensures { step number tape.old at result tape.new };
}

// It is counted.
pub struct Measuring;

impl Step for Measuring {
    ghost step = { Measures };

    fn put(_tape: &mut [u8], at: usize, number: u64) -> usize {
        at.saturating_add(number_len(number))
    }
}

// It is written.
pub struct Writing;

impl Step for Writing {
    ghost step = { Writes };

    fn put(tape: &mut [u8], at: usize, number: u64) -> usize {
        write_number(tape, at, number)
    }
}

// A position in the buffer, and the state of the stream.
#[derive(Clone, Copy)]
pub struct Progress {
    pub at: usize,
    pub state: State,
}

// Goes over a list's times.
pub fn walk_times<S: Step>(
    tape: &mut [u8],
    start: usize,
    numbers: &[f64],
    row: Row,
    state: State,
) -> Progress
    ensures { (s : Source) → Meant numbers.now row.distribution s
        → Steps S.step (times_of s row.count state) tape.old start result.at tape.new × (result.state ≡ state_after s row.count state) }
{
    let mut at = start;
    let mut r = state;
    for _ in 0..row.count {
        let x = draw(numbers, row.distribution, r);
        at = S::put(tape, at, x.time);
        r = x.state;
    }
    Progress { at, state: r }
}

// Goes over the count and the times of each list.
pub fn walk<S: Step>(tape: &mut [u8], rows: &[Row], numbers: &[f64], state: State) -> usize
    ensures { (ls : List Listed) → Rows numbers.now rows.now ls → Steps S.step (tape_numbers ls state) tape.old 0 result tape.new }
{
    let mut at: usize = 0;
    let mut r = state;
    for row in rows {
        let behind = S::put(tape, at, row.count as u64);
        let p = walk_times::<S>(tape, behind, numbers, *row, r);
        at = p.at;
        r = p.state;
    }
    at
}

// How many bytes the lists take, up to the largest number.
pub fn measure(rows: &[Row], numbers: &[f64], state: State) -> usize
    ensures { (ls : List Listed) → Rows numbers.now rows.now ls → result ≡ min (length (tape_bytes ls state)) (2 ^ 64 - 1) }
{
    walk::<Measuring>(&mut [], rows, numbers, state)
}

// Writes the count and the times of each list, from the front on.
pub fn write(tape: &mut [u8], rows: &[Row], numbers: &[f64], state: State)
    ensures { (ls : List Listed) → Rows numbers.now rows.now ls
        → length (tape_bytes ls state) ≤ length tape.old → tape.new ≡ sets tape.old 0 (tape_bytes ls state) }
{
    walk::<Writing>(tape, rows, numbers, state);
}
