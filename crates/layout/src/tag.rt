// Tags of terms with their numbers (document 01, "Terms are a tag and a number").
ghost use Rattle.std.specs.Prelude.{◌≡◌, ◌<◌, ◌≤◌};
ghost use Rattle.layout.specs.Tags.{tag_number};

#[derive(Clone, Copy, PartialEq, Eq)]
pub enum Tag {
    Constant = 0,
    MinusConstant = 1,
    Parameter = 2,
    Clock = 3,
    Entries = 4,
    Content = 5,
    UnitsInUse = 6,
    UnitsFree = 7,
    FacilityInUse = 8,
    Value = 9,
    Comparison = 10,
    Bracket = 11,
}

impl Tag {
    // The tag of a number; 12 or more counts as 11.
    pub fn of(n: u32) -> Tag
        ensures known { n ≤ 11 → tag_number result ≡ n }
        ensures rest { 11 < n → tag_number result ≡ 11 }
    {
        match n {
            0 => Tag::Constant,
            1 => Tag::MinusConstant,
            2 => Tag::Parameter,
            3 => Tag::Clock,
            4 => Tag::Entries,
            5 => Tag::Content,
            6 => Tag::UnitsInUse,
            7 => Tag::UnitsFree,
            8 => Tag::FacilityInUse,
            9 => Tag::Value,
            10 => Tag::Comparison,
            _ => Tag::Bracket,
        }
    }
}
