// The next time of a sample list: where it stands in the tape and how many are left are numbers of the tally.
ghost use Rattle.std.specs.Prelude.{◌≡◌, ◌+◌};
ghost use Rattle.machine.specs.All.{get_or};
ghost use Rattle.layout.specs.Layout as Layout;
ghost use Rattle.flow_laws.specs.Samples.{sample_at, next_sample, use_time};

use codec::read_number;
use constants::Model;
use flow_laws::Sample;
use layout::{LIST_AT, LIST_LEFT, count, set_count};

fn sample_at(tape: &[u8], at: usize) -> Sample
    ensures { result ≡ sample_at tape.now at }
{
    match read_number(tape, at, Model::FIVE_GROUPS) {
        Some((time, next)) => Sample { time, next },
        None => Sample { time: 0, next: at },
    }
}

// The next time of a list, which stays unused.
pub fn next_sample(tape: &[u8], tally: &[u64], list: u32) -> Sample
    ensures { result ≡ next_sample tape.now tally.now list }
{
    let l = list as usize;
    let at = count(tally, LIST_AT + l) as usize;
    sample_at(tape, at)
}

// How many times of a list are left.
pub fn times_left(tally: &[u64], list: u32) -> u64
    ensures { result ≡ get_or tally.now (Layout.list_left + list) 0 }
{
    let l = list as usize;
    count(tally, LIST_LEFT + l)
}

// The next time is used: the list goes on at a position, and has one time less.
pub fn use_time(tally: &mut [u64], list: u32, next: usize)
    ensures { tally.new ≡ use_time tally.old list next }
{
    let l = list as usize;
    let left = count(tally, LIST_LEFT + l);
    set_count(tally, LIST_AT + l, next as u64);
    set_count(tally, LIST_LEFT + l, left.saturating_sub(1));
}
