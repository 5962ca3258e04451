// The kinds of blocks with their numbers (document 01, "Blocks").
ghost use Rattle.std.specs.Prelude.{◌≡◌};
ghost use Rattle.constants.specs.Numbers.{kind_number, Names};

#[derive(Clone, Copy, PartialEq, Eq)]
pub enum Kind {
    // 1 GENERATE list, priority
    Generate = 1,
    Advance = 2,
    Terminate = 3,
    Seize = 4,
    Release = 5,
    Enter = 6,
    Leave = 7,
    // WAITIF code, server
    WaitServer = 8,
    // WAITIF left, relation, right
    WaitTerms = 9,
    // IF
    Branch = 10,
    Goto = 11,
    // LET
    Assign = 12,
    Priority = 13,
    Split = 14,
    Arrive = 15,
    Depart = 16,
    // document 02, item 7: a server wait joined with those before it
    JoinedWait = 17,
    // document 02, item 8: families that gather
    Assemble = 18,
    // document 02, item 11: a crane that can be taken over
    Preempt = 19,
    Return = 20,
}

impl Kind {
    // how many there are
    pub const COUNT: usize = 20;

    pub fn number(self) -> u32
        ensures { result ≡ kind_number self }
    {
        self as u32
    }

    // The kind of a number, if it has one.
    pub fn of(n: u32) -> Option<Kind>
        ensures { Names n result }
    {
        match n {
            1 => Some(Kind::Generate),
            2 => Some(Kind::Advance),
            3 => Some(Kind::Terminate),
            4 => Some(Kind::Seize),
            5 => Some(Kind::Release),
            6 => Some(Kind::Enter),
            7 => Some(Kind::Leave),
            8 => Some(Kind::WaitServer),
            9 => Some(Kind::WaitTerms),
            10 => Some(Kind::Branch),
            11 => Some(Kind::Goto),
            12 => Some(Kind::Assign),
            13 => Some(Kind::Priority),
            14 => Some(Kind::Split),
            15 => Some(Kind::Arrive),
            16 => Some(Kind::Depart),
            17 => Some(Kind::JoinedWait),
            18 => Some(Kind::Assemble),
            19 => Some(Kind::Preempt),
            20 => Some(Kind::Return),
            _ => None,
        }
    }
}

pub const GENERATE: u32 = 1;

pub const TERMINATE: u32 = 3;

pub const SEIZE: u32 = 4;

pub const ENTER: u32 = 6;

pub const WAIT_SERVER: u32 = 8;

pub const WAIT_TERMS: u32 = 9;

pub const BRANCH: u32 = 10;

pub const GOTO: u32 = 11;

pub const SPLIT: u32 = 14;

pub const ARRIVE: u32 = 15;

pub const JOINED_WAIT: u32 = 17;

pub const ASSEMBLE: u32 = 18;

pub const PREEMPT: u32 = 19;

pub const RETURN: u32 = 20;

pub const KINDS: usize = 20;
