// The refusals with their numbers (document 01, "Questions at the door" and "Bytes"; document 02, items 3, 4, 10 and 13).
ghost use Rattle.std.specs.Prelude.{◌≡◌};
ghost use Rattle.constants.specs.Numbers.{refusal_number, malformed, out_of_range};

#[derive(Clone, Copy, PartialEq, Eq)]
pub enum Refusal {
    // the work buffer, the report buffer
    ShortWork = 1,
    ShortReport = 2,
    // a number of the model that is not whole, shortest or in size; one out of range
    ModelNumber = 3,
    ModelRange = 4,
    // more numbers, open brackets or mentions than a value may have
    LargeValue = 5,
    // something follows the model
    ModelGoesOn = 6,
    // a GENERATE, a target, the last block or a block named in a value
    IllFormed = 7,
    // a number of the tape
    TapeNumber = 8,
    TapeRange = 9,
    // something follows the tape
    TapeGoesOn = 10,
    // a number of the trace
    TraceNumber = 31,
    TraceRange = 32,
    // the record does not fit in the rest
    RecordRoom = 33,
    // no stream has this number
    NoStream = 41,
    // a list of a tape that is outside the rules
    ListRules = 42,
    // the tape needs more bytes than were lent
    TapeRoom = 43,
    // no trace that has columns, or no columns
    NoColumns = 51,
    // the output needs more bytes than were lent
    ColumnsRoom = 52,
    // editions differ, or a joined count or the counter passes its limit
    NotJoinable = 61,
    // the joined model or tape needs more bytes than were lent
    JoinRoom = 62,
}

// The trace reader has no more records; this number is ours.
pub const NO_MORE: u32 = 30;

impl Refusal {
    pub fn number(self) -> u32
        ensures { result ≡ refusal_number self }
    {
        self as u32
    }
}

// Whose a number is that is read: this chooses the two refusals that it may get.
#[derive(Clone, Copy, PartialEq, Eq)]
pub enum Text {
    Model,
    Tape,
    Trace,
}

impl Text {
    // It is not whole, not shortest or not in size.
    pub fn malformed(self) -> Refusal
        ensures { result ≡ malformed self }
    {
        match self {
            Text::Model => Refusal::ModelNumber,
            Text::Tape => Refusal::TapeNumber,
            Text::Trace => Refusal::TraceNumber,
        }
    }

    pub fn out_of_range(self) -> Refusal
        ensures { result ≡ out_of_range self }
    {
        match self {
            Text::Model => Refusal::ModelRange,
            Text::Tape => Refusal::TapeRange,
            Text::Trace => Refusal::TraceRange,
        }
    }
}

pub const SHORT_WORK: u32 = 1;

pub const SHORT_REPORT: u32 = 2;

pub const MODEL_NUMBER: u8 = 3;

pub const LARGE_VALUE: u32 = 5;

pub const MODEL_GOES_ON: u32 = 6;

pub const ILL_FORMED: u32 = 7;

pub const TAPE_NUMBER: u8 = 8;

pub const TAPE_GOES_ON: u32 = 10;

pub const TRACE_NUMBER: u8 = 31;

pub const TRACE_RANGE: u32 = 32;

pub const NO_ROOM: u32 = 33;
