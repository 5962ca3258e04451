// Tapes from distributions (document 02, item 4): a distribution is held in doubles, is checked, and
// gives the times of a list from a stream. Its definitions and laws are crate `tapes_laws`.

#![tactic(auto)]

mod draw;
mod given;
mod write;

ghost use Rattle.tapes_laws.specs.Given.{lists_of};
ghost use Rattle.tapes_laws.specs.Held.{Maker};
ghost use Rattle.tapes_laws.specs.Contract.{Contract};

use constants::Refusal;
use given::rows_of;
use streams::State;
use write::{measure, write};

// The numbers that stand for one list.
const NUMBERS_PER_LIST: usize = 4;

// "up to 16 of these, one per list"
const MOST_LISTS: usize = 16;

// A tape from a stream's state: 42 list by list, then 43, then its bytes.
fn make_from(
    state: State,
    lists: &[u32],
    numbers: &[f64],
    tape: &mut [u8],
) -> Result<usize, Refusal>
    ensures { Maker (lists_of lists.now numbers.now) state tape.old result tape.new }
{
    let (fours, others) = lists.as_chunks::<NUMBERS_PER_LIST>();
    if !others.is_empty() {
        return Err(Refusal::ListRules);
    }
    if MOST_LISTS < fours.len() {
        return Err(Refusal::ListRules);
    }
    let Some(rows) = rows_of(fours, numbers) else {
        return Err(Refusal::ListRules);
    };
    let rows = &rows[..fours.len()];
    let bytes = measure(rows, numbers, state);
    if tape.len() < bytes {
        return Err(Refusal::TapeRoom);
    }
    write(tape, rows, numbers, state);
    Ok(bytes)
}

// Makes the tape of up to 16 lists, in order, from a stream.
pub fn make(stream: u32, lists: &[u32], numbers: &[f64], tape: &mut [u8]) -> Result<usize, Refusal>
    ensures { Contract stream lists.now numbers.now tape.old result tape.new }
{
    let state = streams::start(stream)?;
    make_from(state, lists, numbers, tape)
}
