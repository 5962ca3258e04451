// The layout of a run's two arrays, as constants (specs/Layout). `TABLES` numbers of 32 bits are filled once by decoding;
// `TALLY` numbers of 64 bits change with the run.

#![tactic(auto)]

ghost use Rattle.std.specs.Prelude.{◌≡◌};
ghost use Rattle.machine.specs.All.{get_or, set};

mod tag;

use constants::Model;
pub use tag::Tag;

// The facilities, then the storages.
pub const SERVERS: usize = Model::MAX_FACILITIES + Model::MAX_STORAGES;

// The row of a block: its kind, then its operands. A comparison is a term, a relation and a term, and an IF has its target
// behind it; a term is its tag and its number.
pub const BLOCK_WIDTH: usize = 8;

pub const FIRST: usize = 1;

pub const SECOND: usize = 2;

pub const THIRD: usize = 3;

pub const BRANCH_TARGET: usize = 6;

pub const RELATION: usize = 2;

pub const RIGHT: usize = 3;

pub const TERM_WIDTH: usize = 2;

// Tags of terms, how many relations there are and how many codes.
pub const ENTRIES_TAG: usize = 4;

pub const VALUE_TAG: usize = 9;

pub const COMPARISON_TAG: usize = 10;

pub const BRACKET_TAG: usize = 11;

pub const RELATIONS: usize = 6;

pub const CODES: usize = 6;

// Behind the program, 256 blocks wide.
pub const VALUES: usize = 2_048;

pub const VALUE_WIDTH: usize = 64;

pub const CAPACITIES: usize = 2_560;

pub const EDITION: usize = 2_624;

// Behind the edition, what the WAITIFs on comparisons read: of each block, is one asked again after it? Is one asked again when the
// clock has moved? Of each value, does it name a parameter?
pub const ASKED: usize = 2_625;

pub const CLOCK_ASKED: usize = 2_881;

pub const NAMES_OWN: usize = 2_882;

pub const TABLES: usize = 2_890;

pub const ENTRIES: usize = 0;

pub const WAITS: usize = 256;

pub const IN_USE: usize = 512;

pub const UNIT_TICKS: usize = 576;

pub const WAIT_TICKS: usize = 640;

pub const LONGEST_QL: usize = 704;

pub const QL_LENGTH: usize = 768;

pub const CONTENT: usize = 832;

pub const CONTENT_TICKS: usize = 864;

pub const LONGEST_CONTENT: usize = 896;

pub const LIST_AT: usize = 928;

pub const LIST_LEFT: usize = 944;

// Who holds a server: the number of a transaction, 0 for nobody.
pub const HOLDER: usize = 960;

pub const PREEMPTED: usize = 1_024;

// How many facilities are held by the numbers of each residue modulo 256.
pub const RESIDUES: usize = 256;

pub const HELD: usize = 1_088;

// When the statistics of a server were brought up to date, and behind the servers those of a queue: the clock, and how many
// clock moves there had been. Last, how many there have been.
pub const SEEN_CLOCK: usize = 1_344;

pub const SEEN_MOVES: usize = 1_440;

pub const CLOCK_MOVES: usize = 1_536;

pub const TALLY: usize = 1_537;

// What decoding leaves of the tape: where the times of each list begin, then how many they are.
pub const LIST_COUNTS: usize = Model::MAX_LISTS;

pub const LIST_CELLS: usize = 32;

// A number of the tables (32 bits) or of the tally (64 bits), and what is read past the end of them.
pub trait Cell: Copy {
    ghost ZERO: { Self };

    const ZERO: Self;
}

impl Cell for u32 {
    ghost ZERO = { 0 };

    const ZERO: u32 = 0;
}

impl Cell for u64 {
    ghost ZERO = { 0 };

    const ZERO: u64 = 0;
}

// The number at an index of the tables or the tally; 0 past their end.
pub fn number<T: Cell>(l: &[T], at: usize) -> T
    ensures { result ≡ get_or l.now at T.ZERO }
{
    l.get(at).copied().unwrap_or(T::ZERO)
}

// The number at an index of the tally; 0 past its end.
pub fn count(tally: &[u64], at: usize) -> u64
    ensures { result ≡ get_or tally.now at 0 }
{
    number(tally, at)
}

// Stores a number at an index; nothing past the end.
pub fn store<T: Cell>(l: &mut [T], at: usize, x: T)
    ensures { l.new ≡ set l.old at x }
{
    if at < l.len() {
        l[at] = x;
    }
}

// Stores a number at an index of the tally; nothing past its end.
pub fn set_count(tally: &mut [u64], at: usize, x: u64)
    ensures { tally.new ≡ set tally.old at x }
{
    store(tally, at, x);
}
