// The work buffer, the number of a row and the number of a list, which GPSS calls a chain.
ghost use Rattle.std.specs.Prelude.{MatchOption, ◌≤◌, ◌≡◌, ◌+◌, ◌*◌, ◌%◌, ◌<◌};
ghost use Rattle.rows_laws.specs.All.{row_count, list_count, wels, wsl, rel, gatherers, interrupted, fel, free, IsRow, link, place, head, tail};

use crate::{
    CHAINS, FEL, FREE, GATHERERS, HEADS, INTERRUPTED, LINKS, PLACES, REL, ROWS, TAILS, WELS, WSL,
};
use std::marker::Model;

const CODES: u32 = 6;

const BLOCKS: u32 = 256;

const SERVERS: u32 = 64;

// The part of the lent buffer that a run uses: what stands above this crate takes it by its length. The functions here take any that has
// room. Kept: test_lists lends a longer one, which an array of this length excludes.
pub type Work = [u32; 16_384];

// A row of the buffer: one for each living transaction.
#[derive(Clone, Copy, PartialEq, Eq)]
pub struct Row {
    k: u32,
}

impl Model for Row {
    ghost use Rattle.std.specs.Prelude.{ℕ, ◌<◌};
    ghost use Rattle.rows_laws.specs.All.{row_count};

    ghost Value = { ℕ };

    ghost view = { λ r. r.k };

    ghost invariant = { λ r. r.k < row_count };

    ghost inverse = { λ n. record { k = n } };
}

impl Row {
    // The row that a number is: none from ROWS on.
    pub fn of(n: u32) -> Option<Row>
        ensures { IsRow n result }
    {
        if n < ROWS { Some(Row { k: n }) } else { None }
    }

    pub fn number(self) -> u32
        ensures same { result ≡ self }
        ensures small { result < row_count }
    {
        self.k
    }

    // The cell that holds the row after it.
    pub fn link(self) -> u32
        ensures cell { result ≡ link self }
        ensures small { self < row_count }
    {
        LINKS + self.k
    }

    // The cell that holds which chain it is on.
    pub fn place(self) -> u32
        ensures cell { result ≡ place self }
        ensures small { self < row_count }
    {
        PLACES + self.k
    }
}

// A list.
#[derive(Clone, Copy, PartialEq, Eq)]
pub struct Chain {
    p: u32,
}

impl Model for Chain {
    ghost use Rattle.std.specs.Prelude.{ℕ, ◌<◌};
    ghost use Rattle.rows_laws.specs.All.{list_count};

    ghost Value = { ℕ };

    ghost view = { λ l. l.p };

    ghost invariant = { λ l. l.p < list_count };

    ghost inverse = { λ n. record { p = n } };
}

impl Chain {
    pub const WSL: Chain = Chain { p: WSL };

    pub const REL: Chain = Chain { p: REL };

    pub const FEL: Chain = Chain { p: FEL };

    pub const FREE: Chain = Chain { p: FREE };

    // The list of a number: none from CHAINS on.
    pub fn of(p: u32) -> Option<Chain>
        ensures { MatchOption result (list_count ≤ p) (λ l. l ≡ p) }
    {
        if p < CHAINS { Some(Chain { p }) } else { None }
    }

    // The QL of a server.
    pub fn queue(v: Server) -> Chain
        ensures { result ≡ v }
    {
        Chain { p: v.v }
    }

    // Its WEL for a code from 0 on.
    pub fn watching(v: Server, code: u32) -> Chain
        requires { code < 6 }
        ensures { result ≡ wels + (v * 6 + code) }
    {
        Chain {
            p: WELS + (v.v * CODES + code),
        }
    }

    // The gatherers of a block, counted from 0.
    pub fn gatherers(block: u32) -> Chain
        ensures { result ≡ gatherers + block % 256 }
    {
        Chain {
            p: GATHERERS + block % BLOCKS,
        }
    }

    // Who was interrupted at a facility.
    pub fn interrupted(v: Server) -> Chain
        ensures { result ≡ interrupted + v }
    {
        Chain {
            p: INTERRUPTED + v.v,
        }
    }

    pub fn number(self) -> u32
        ensures same { result ≡ self }
        ensures small { result < list_count }
    {
        self.p
    }

    // The cell that holds its first row.
    pub fn head(self) -> u32
        ensures cell { result ≡ head self }
        ensures small { self < list_count }
    {
        HEADS + self.p
    }

    // The cell that holds which cell is its last.
    pub fn tail(self) -> u32
        ensures cell { result ≡ tail self }
        ensures small { self < list_count }
    {
        TAILS + self.p
    }
}

// A facility or a storage, counted from 0, the facilities first.
#[derive(Clone, Copy, PartialEq, Eq)]
pub struct Server {
    v: u32,
}

impl Model for Server {
    ghost use Rattle.std.specs.Prelude.{ℕ, ◌<◌};
    ghost use Rattle.rows_laws.specs.All.{wels};

    ghost Value = { ℕ };

    ghost view = { λ s. s.v };

    ghost invariant = { λ s. s.v < wels };

    ghost inverse = { λ n. record { v = n } };
}

impl Server {
    // The server of a number of the tables.
    pub fn of(n: u32) -> Server
        ensures { result ≡ n % wels }
    {
        Server { v: n % SERVERS }
    }

    pub fn number(self) -> u32
        ensures same { result ≡ self }
        ensures small { result < wels }
    {
        self.v
    }

    pub fn index(self) -> usize
        ensures same { result ≡ self }
        ensures small { result < wels }
    {
        self.number() as usize
    }
}
