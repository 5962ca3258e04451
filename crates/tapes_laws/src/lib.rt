// Tapes from distributions (document 02, item 4): definitions (specs/), and that a tape made is what they say and is accepted (proofs/).
// The code is crate `tapes`; here stand the types that both name.

#![tactic(auto)]

ghost use Rattle.tapes_laws.specs.Kinds.{Names};

// "a fixed time, a mean with a half-width, or a curve through points": of a curve, the index of its
// first double among those that are held beside it.
#[derive(Clone, Copy)]
pub enum Distribution {
    Fixed(f64),
    Spread(f64, f64),
    Curve(u32),
}

// The kinds of distributions with their numbers.
#[derive(Clone, Copy, PartialEq, Eq)]
pub enum Kind {
    Fixed = 0,
    Spread = 1,
    Curve = 2,
}

impl Kind {
    // The kind of a number, if it has one.
    pub fn of(number: u32) -> Option<Kind>
        ensures { Names number result }
    {
        match number {
            0 => Some(Kind::Fixed),
            1 => Some(Kind::Spread),
            2 => Some(Kind::Curve),
            _ => None,
        }
    }
}

// A list within the rules: its distribution and its count of times.
#[derive(Clone, Copy)]
pub struct Row {
    pub distribution: Distribution,
    pub count: u16,
}

// A point of a curve, in whole numbers.
#[derive(Clone, Copy)]
pub struct Point {
    pub u: u64,
    pub time: u64,
}
