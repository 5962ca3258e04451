// The questions of GENERATE, ADVANCE, SPLIT and TERMINATE; a no is an end.
ghost use Rattle.std.specs.Prelude.{◌≡◌, ◌≤◌};
ghost use Rattle.machine.specs.All.{length, max_facilities};
ghost use Rattle.layout.specs.All.{tally_size};
ghost use Rattle.state.specs.Notes.{number_of_no};
ghost use Rattle.flow_laws.specs.Questions.{ask_room, ask_time, ask_arrival, held_by, ask_holding};

use constants::{End, Model};
use layout::{HELD, HOLDER, TALLY};
use state::Scalars;

const MAX_LIVING: u32 = Model::MAX_LIVING as u32;

const RESIDUES: u64 = layout::RESIDUES as u64;

// "Is a living place free for each new one?"
pub fn ask_room(x: &Scalars, n: u32) -> Result<(), End>
    ensures { number_of_no result ≡ ask_room x.now n }
{
    if x.made.saturating_sub(x.ended).saturating_add(n) <= MAX_LIVING {
        Ok(())
    } else {
        Err(End::NoPlace)
    }
}

// "Is the move time at most ..?"
pub fn ask_time(x: Scalars, time: u64) -> Result<(), End>
    ensures { number_of_no result ≡ ask_time x time }
{
    if x.clock.saturating_add(time) <= Model::MAX_CLOCK {
        Ok(())
    } else {
        Err(End::TooLate)
    }
}

pub fn ask_arrival(x: Scalars, time: u64) -> Result<(), End>
    ensures { number_of_no result ≡ ask_arrival x time }
{
    ask_room(&x, 1)?;
    ask_time(x, time)
}

// How many facilities the transaction of that number holds. All are looked at, without a test of the index: so several at a time.
fn held(tally: &[u64], facilities: usize, number: u64) -> u64
    requires facilities_le_max_facilities { facilities ≤ max_facilities }
    requires tally_size_in_bounds { tally_size ≤ length tally.now }
    ensures { result ≡ held_by tally.now facilities number }
{
    let mut n: u64 = 0;
    for f in 0..facilities {
        n += u64::from(tally[HOLDER + f] == number);
    }
    n
}

// "TERMINATE while holding a facility". The holders are looked at only where a facility is held by a number of the same residue.
pub fn ask_holding(tally: &[u64], facilities: usize, number: u64) -> Result<(), End>
    requires { facilities ≤ max_facilities }
    ensures { number_of_no result ≡ ask_holding tally.now facilities number }
{
    if tally.len() < TALLY {
        return Ok(());
    }
    if tally[HELD + ((number % RESIDUES) as usize)] == 0 {
        return Ok(());
    }
    if held(tally, facilities, number) == 0 {
        return Ok(());
    }
    Err(End::Holding)
}
