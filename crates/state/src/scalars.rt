// What a turn hands on beside the buffers. Who moves, the end and the note are numbers in clauses: `NOBODY` moves, end 0 is none, and a
// note is the outcome that a record has (state specs/Notes). Each takes any number, as what speaks of scalars does.
ghost use Rattle.std.specs.Prelude.{◌≡◌, ◌<◌, ◌≤◌, MatchOption};
ghost use Rattle.constants.specs.Numbers.{end_number};
ghost use Rattle.rows_laws.specs.All.{row_count, IsRow};
ghost use Rattle.machine.specs.All.{eqb, min, not};
ghost use Rattle.state.specs.Notes.{note_number, end_or_0, end_of_number, NoneOrEnd};

use constants::End;
use rows::{ROWS, Row};
use std::marker::Model;

// A row, or nobody.
#[derive(Clone, Copy)]
pub struct Mover {
    k: u32,
}

impl Model for Mover {
    ghost use Rattle.std.specs.Prelude.{ℕ};

    ghost Value = { ℕ };

    ghost view = { λ m. m.k };

    ghost inverse = { λ n. record { k = n } };
}

impl Mover {
    pub const NOBODY: Mover = Mover { k: ROWS };

    pub fn of(k: Row) -> Mover
        ensures { result ≡ k }
    {
        Mover { k: k.number() }
    }

    // The row of this number, nobody from ROWS on.
    pub fn of_number(n: u32) -> Mover
        ensures { result ≡ n }
    {
        Mover { k: n }
    }

    pub fn row(self) -> Option<Row>
        ensures { IsRow self result }
    {
        Row::of(self.k)
    }

    pub fn number(self) -> u32
        ensures { result ≡ self }
    {
        self.k
    }
}

// Which record the last block writes: "outcome (0 entered, 1 began to wait)", or none.
#[derive(Clone, Copy, PartialEq, Eq)]
pub enum Note {
    Entered = 0,
    Waits = 1,
    NoRecord = 2,
}

// Its number: any from 2 on is none.
#[derive(Clone, Copy)]
pub struct Noting {
    note: u32,
}

impl Model for Noting {
    ghost use Rattle.std.specs.Prelude.{ℕ};

    ghost Value = { ℕ };

    ghost view = { λ m. m.note };

    ghost inverse = { λ n. record { note = n } };
}

impl Noting {
    pub fn of(note: Note) -> Noting
        ensures { result ≡ note_number note }
    {
        Noting { note: note as u32 }
    }

    pub fn of_number(n: u32) -> Noting
        ensures { result ≡ n }
    {
        Noting { note: n }
    }

    pub fn note(self) -> Note
        ensures { note_number result ≡ min self 2 }
    {
        match self.note {
            0 => Note::Entered,
            1 => Note::Waits,
            _ => Note::NoRecord,
        }
    }

    pub fn number(self) -> u32
        ensures { result ≡ self }
    {
        self.note
    }
}

// The number of the end of the run, 0 as long as it goes on.
#[derive(Clone, Copy)]
pub struct Stopped {
    end: u32,
}

impl Model for Stopped {
    ghost use Rattle.std.specs.Prelude.{ℕ};

    ghost Value = { ℕ };

    ghost view = { λ m. m.end };

    ghost inverse = { λ n. record { end = n } };
}

impl Stopped {
    // The run goes on.
    pub fn none() -> Stopped
        ensures { result ≡ 0 }
    {
        Stopped { end: 0 }
    }

    pub fn of_number(n: u32) -> Stopped
        ensures { result ≡ n }
    {
        Stopped { end: n }
    }

    pub fn at(end: End) -> Stopped
        ensures { result ≡ end_number end }
    {
        Stopped { end: end.number() }
    }

    // The end of that number: none for 0, and for a number that is no end's.
    pub fn end(self) -> Option<End>
        ensures value { result ≡ end_of_number self }
        ensures back { NoneOrEnd self → end_or_0 result ≡ self }
    {
        match self.end {
            1 => Some(End::Dry),
            2 => Some(End::Counted),
            3 => Some(End::Budget),
            4 => Some(End::TraceFull),
            21 => Some(End::NoPlace),
            22 => Some(End::TooLate),
            23 => Some(End::NoTime),
            24 => Some(End::NotInUse),
            25 => Some(End::NoContent),
            26 => Some(End::WornOut),
            27 => Some(End::NotHolder),
            28 => Some(End::Holding),
            _ => None,
        }
    }

    // Is there an end?
    pub fn ended(self) -> bool
        ensures { result ≡ not (eqb self 0) }
    {
        self.end != 0
    }

    pub fn number(self) -> u32
        ensures { result ≡ self }
    {
        self.end
    }
}

// `moving` is the row of the moving transaction; `used` counts the bytes of trace.
#[derive(Clone, Copy)]
pub struct Scalars {
    pub counter: u32,
    pub moving: Mover,
    pub serial: u32,
    pub made: u32,
    pub ended: u32,
    pub turns: u32,
    pub used: usize,
    pub clock: u64,
    pub end: Stopped,
    pub note: Noting,
}

// The same scalars, field by field. Kept, where a copy would say it: loads of single fields do not wait for the stores before
// them, as the copy does.
pub fn by_fields(x: Scalars) -> Scalars
    ensures { result ≡ x }
{
    Scalars {
        counter: x.counter,
        moving: x.moving,
        serial: x.serial,
        made: x.made,
        ended: x.ended,
        turns: x.turns,
        used: x.used,
        clock: x.clock,
        end: x.end,
        note: x.note,
    }
}

// Scalars with somebody who moves.
#[derive(Clone, Copy)]
pub struct Moving {
    scalars: Scalars,
}

impl Model for Moving {
    ghost use Rattle.std.specs.Prelude.{◌<◌};
    ghost use Rattle.rows_laws.specs.All.{row_count};
    ghost use Rattle.state.specs.declared.scalars.Scalars.{Scalars};

    ghost Value = { Scalars };

    ghost view = { λ m. m.scalars };

    ghost invariant = { λ m. m.scalars.moving < row_count };

    ghost inverse = { λ x. record { scalars = x } };
}

impl Moving {
    // If somebody does.
    pub fn of(x: Scalars) -> Option<Moving>
        ensures { MatchOption result (row_count ≤ x.moving) (λ m. (m ≡ x) × (x.moving < row_count)) }
    {
        match x.moving.row() {
            Some(_) => Some(Moving { scalars: x }),
            None => None,
        }
    }

    // The same, its scalars field by field.
    pub fn afresh(self) -> Moving
        ensures { result ≡ self }
    {
        Moving {
            scalars: by_fields(self.scalars),
        }
    }

    pub fn scalars(self) -> Scalars
        ensures same { result ≡ self }
        ensures moves { self.moving < row_count }
    {
        self.scalars
    }

    pub fn row(self) -> Row
        ensures { result ≡ self.moving }
    {
        Row::of(self.scalars.moving.number()).unwrap()
    }
}
