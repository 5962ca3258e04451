// Tells numbers as ends and as notes: each to 30 and the largest, with the number of the end that it is, 0 where it is none, and that of its
// note; then the number of each end, put into `Stopped` and told again.
#![tactic(auto)]

use constants::End;
use state::{Noting, Stopped};
use std::io;

const MOST: u32 = 30;

const LARGEST: u32 = 4_294_967_295;

const ENDS: [End; 12] = [
    End::Dry,
    End::Counted,
    End::Budget,
    End::TraceFull,
    End::NoPlace,
    End::TooLate,
    End::NoTime,
    End::NotInUse,
    End::NoContent,
    End::WornOut,
    End::NotHolder,
    End::Holding,
];

// The number of an end, 0 for none.
fn number(end: Option<End>) -> u32 {
    match end {
        Some(e) => e.number(),
        None => 0,
    }
}

fn print_number(rt: &impl Print, n: u32) -> io::Result<()> {
    let end = number(Stopped::of_number(n).end());
    let note = Noting::of_number(n).note() as u32;
    println!(rt; "{n} {end} {note}")
}

fn main(rt: HostRuntime) -> io::Result<()> {
    for n in 0..=MOST {
        print_number(&rt, n)?;
    }
    print_number(&rt, LARGEST)?;
    for end in ENDS {
        let n = number(Stopped::at(end).end());
        println!(rt; "{n}")?;
    }
    Ok(())
}
