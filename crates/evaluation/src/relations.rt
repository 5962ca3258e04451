// Document 01, "Relations: 1 =, 2 ≠, 3 <, 4 ≤, 5 >, 6 ≥, signed."
ghost use Rattle.std.specs.Prelude.{ℤ, ◌≡◌};
ghost use Rattle.evaluation.specs.Evaluation.{related_by};
ghost use Rattle.evaluation.specs.Relations.{holds_of};

#[derive(Clone, Copy, PartialEq, Eq)]
pub enum Relation {
    Equal = 1,
    Unequal = 2,
    Less = 3,
    AtMost = 4,
    Greater = 5,
    AtLeast = 6,
}

impl Relation {
    // The relation of a number; any other counts as 6.
    pub fn of(n: u32) -> Relation
        ensures { (a b : ℤ) → holds_of result a b ≡ related_by n a b }
    {
        match n {
            1 => Relation::Equal,
            2 => Relation::Unequal,
            3 => Relation::Less,
            4 => Relation::AtMost,
            5 => Relation::Greater,
            _ => Relation::AtLeast,
        }
    }

    // Is a in this relation to b?
    pub fn holds(self, a: i32, b: i32) -> bool
        ensures { result ≡ holds_of self a b }
    {
        match self {
            Relation::Equal => a == b,
            Relation::Unequal => a != b,
            Relation::Less => a < b,
            Relation::AtMost => a <= b,
            Relation::Greater => a > b,
            Relation::AtLeast => a >= b,
        }
    }
}
