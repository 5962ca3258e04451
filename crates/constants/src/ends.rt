// The ends with their numbers (document 01, "A turn", "Blocks" and "Questions at the door"; document 02, item 6).
ghost use Rattle.std.specs.Prelude.{◌≡◌};
ghost use Rattle.constants.specs.Numbers.{end_number};

#[derive(Clone, Copy, PartialEq, Eq)]
pub enum End {
    // nobody moving and REL and FEL both empty
    Dry = 1,
    // the counter is at or below 0
    Counted = 2,
    // budget of turns used
    Budget = 3,
    // fewer than 12 bytes left in the trace
    TraceFull = 4,
    // no living place is free
    NoPlace = 21,
    // the move time is past the clock's limit
    TooLate = 22,
    // the list of an ADVANCE has no time
    NoTime = 23,
    // fewer units are in use than are given back
    NotInUse = 24,
    // the queue has no content
    NoContent = 25,
    // the last serial or the number of turns is at its limit
    WornOut = 26,
    // RELEASE by another than the holder or of a preempted facility; RETURN of a seized one or by another (document 02, item 11)
    NotHolder = 27,
    // TERMINATE while holding a facility
    Holding = 28,
}

impl End {
    pub fn number(self) -> u32
        ensures { result ≡ end_number self }
    {
        self as u32
    }
}

pub const DRY: u32 = 1;

pub const COUNTED: u32 = 2;

pub const BUDGET: u32 = 3;

pub const TRACE_FULL: u32 = 4;

pub const NO_PLACE: u32 = 21;

pub const TOO_LATE: u32 = 22;

pub const NO_TIME: u32 = 23;

pub const NOT_IN_USE: u32 = 24;

pub const NO_CONTENT: u32 = 25;

pub const WORN_OUT: u32 = 26;

pub const NOT_HOLDER: u32 = 27;

pub const HOLDING: u32 = 28;
