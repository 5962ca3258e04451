// Units, holders, capacities and status codes of servers.
ghost use Rattle.std.specs.Prelude.{◌≡◌, ◌%◌, ◌<◌, ◌≤◌};
ghost use Rattle.machine.specs.All.{length};
ghost use Rattle.layout.specs.All.{code_count, word_end, tally_size};
ghost use Rattle.servers.specs.Codes.{code_number};
ghost use Rattle.servers_laws.specs.Units.{server_at, in_use, holder, preempted, residue_cell, held_less, held_more, store_use, set_use, change_use, capacity, status_of};

use layout::{CAPACITIES, HELD, HOLDER, IN_USE, PREEMPTED, TALLY, count, number};
use rows::Server;
use state::update_server;

const RESIDUES: u64 = layout::RESIDUES as u64;

pub const CODES: u32 = layout::CODES as u32;

// The server that a block names at an index of the tables.
pub fn server_at(tables: &[u32], at: usize) -> Server
    ensures { result ≡ server_at tables.now at }
{
    Server::of(number(tables, at))
}

pub fn in_use(tally: &[u64], v: Server) -> u64
    ensures { result ≡ in_use tally.now v }
{
    count(tally, IN_USE + v.index())
}

// The number of who holds the server, 0 for nobody.
pub fn holder(tally: &[u64], v: Server) -> u64
    ensures { result ≡ holder tally.now v }
{
    count(tally, HOLDER + v.index())
}

// 1 where it is held by PREEMPT, else 0.
pub fn preempted(tally: &[u64], v: Server) -> u64
    ensures { result ≡ preempted tally.now v }
{
    count(tally, PREEMPTED + v.index())
}

// Where facilities are counted that such a number holds.
fn residue_cell(n: u64) -> usize
    ensures cell { result ≡ residue_cell n }
    ensures low { result < tally_size }
{
    HELD + ((n % RESIDUES) as usize)
}

// One facility fewer is held by that number, 0 for nobody.
fn held_less(tally: &mut [u64], n: u64)
    requires { tally_size ≤ length tally.old }
    ensures { tally.new ≡ held_less tally.old n }
{
    if n != 0 {
        let at = residue_cell(n);
        tally[at] = tally[at].saturating_sub(1);
    }
}

// One more.
fn held_more(tally: &mut [u64], n: u64)
    requires { tally_size ≤ length tally.old }
    ensures { tally.new ≡ held_more tally.old n }
{
    if n != 0 {
        let at = residue_cell(n);
        tally[at] = tally[at].saturating_add(1);
    }
}

fn store_use(tally: &mut [u64], v: Server, units: u64, who: u64, preempts: u64)
    requires tally_size_in_bounds { tally_size ≤ length tally.old }
    ensures { tally.new ≡ store_use tally.old v units who preempts }
{
    tally[IN_USE + v.index()] = units;
    tally[HOLDER + v.index()] = who;
    tally[PREEMPTED + v.index()] = preempts;
}

// So many units are in use, who holds the server, and whether by PREEMPT. One test of the length serves all cells.
fn set_use(tally: &mut [u64], v: Server, units: u64, who: u64, preempts: u64)
    ensures { tally.new ≡ set_use tally.old v units who preempts }
{
    if tally.len() < TALLY {
        return;
    }
    let old = tally[HOLDER + v.index()];
    held_less(tally, old);
    held_more(tally, who);
    store_use(tally, v, units, who, preempts);
}

// The same from now on: the server's statistics are brought up to date first.
pub fn change_use(tally: &mut [u64], v: Server, clock: u64, units: u64, who: u64, preempts: u64)
    ensures { tally.new ≡ change_use tally.old v clock units who preempts }
{
    update_server(tally, v.index(), clock);
    set_use(tally, v, units, who, preempts);
}

pub fn capacity(tables: &[u32], v: Server) -> u64
    ensures capacity { result ≡ capacity tables.now v }
    ensures small { result < word_end }
{
    number(tables, CAPACITIES + v.index()) as u64
}

// The state of a server that a wait names, by U, NU, E, NE, F or NF.
#[derive(Clone, Copy, PartialEq, Eq)]
pub enum Code {
    InUse = 0,
    NotInUse = 1,
    Empty = 2,
    NotEmpty = 3,
    Full = 4,
    NotFull = 5,
}

impl Code {
    // The code of a number of the tables.
    pub fn of(n: u32) -> Code
        ensures { code_number result ≡ n % code_count }
    {
        match n % CODES {
            0 => Code::InUse,
            1 => Code::NotInUse,
            2 => Code::Empty,
            3 => Code::NotEmpty,
            4 => Code::Full,
            _ => Code::NotFull,
        }
    }

    pub fn number(self) -> u32
        ensures same { result ≡ code_number self }
        ensures small { result < code_count }
    {
        self as u32
    }

    // Is a server of so many units in this state?
    pub fn holds(self, units: u64, capacity: u64) -> bool
        ensures { result ≡ status_of (code_number self) units capacity }
    {
        match self {
            Code::InUse | Code::NotEmpty => units > 0,
            Code::NotInUse | Code::Empty => units == 0,
            Code::Full => units == capacity,
            Code::NotFull => units != capacity,
        }
    }
}

// The same by a number: from 6 on, each names what 5 does.
pub fn status(code: u32, units: u64, capacity: u64) -> bool
    ensures { result ≡ status_of code units capacity }
{
    if code < CODES {
        Code::of(code).holds(units, capacity)
    } else {
        Code::NotFull.holds(units, capacity)
    }
}
