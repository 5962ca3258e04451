// Terms of tags 0 to 8: a tag and a number, with no sum inside.
ghost use Rattle.machine.specs.All.{ltb, one_if, wrap};
ghost use Rattle.std.specs.Prelude.{neg_ℤ, pos, ◌+◌, ◌≡◌, ◌≤◌};
ghost use Rattle.layout.specs.Layout as Layout;
ghost use Rattle.layout.specs.Tags.{tag_number};
ghost use Rattle.evaluation.specs.Evaluation as Evaluation;
ghost use Rattle.evaluation.specs.Evaluation.{within, servers, free_units, simple_term};

use crate::view::View;
use constants::Model;
use layout::{CAPACITIES, CONTENT, ENTRIES, IN_USE, SERVERS, Tag, count, number};

// 2 to the 32
const WORD_END: u64 = 4_294_967_296;

// A number as a signed one; 0 if it is 2 to the 31 or more.
fn small(n: u64) -> i32
    ensures { result ≡ Evaluation.small n }
{
    i32::try_from(n).unwrap_or(0)
}

fn minus(n: u64) -> i32
    ensures { result ≡ neg_ℤ (Evaluation.small n) }
{
    -small(n)
}

// The low 32 bits of a number, as a signed one.
fn low_signed(n: u64) -> i32
    ensures { result ≡ wrap (pos n) }
{
    ((n % WORD_END) as u32).cast_signed()
}

impl View<'_> {
    // Number n of a part of the tally that begins at `begin` and has `size` of them; 0 if there is none.
    fn tallied(&self, begin: usize, size: usize, n: u32) -> u64
        requires { begin + size ≤ Layout.tally_size }
        ensures { result ≡ within self.now.tally.now begin size n }
    {
        let tally = self.tally;
        count(&tally[begin..begin + size], n as usize)
    }

    // The capacity of server v (from 0).
    fn capacity(&self, v: u32) -> u64
        ensures { result ≡ within self.now.tables.now Layout.capacities servers v }
    {
        let tables = self.tables;
        let capacities = &tables[CAPACITIES..CAPACITIES + SERVERS];
        u64::from(number(capacities, v as usize))
    }

    // The units free of server v (from 0).
    fn free(&self, v: u32) -> u64
        ensures { result ≡ free_units self.now.tables.now self.now.tally.now v }
    {
        let used = self.tallied(IN_USE, SERVERS, v);
        self.capacity(v).saturating_sub(used)
    }

    // Is server v (from 0) in use? 1 or 0.
    fn in_use(&self, v: u32) -> i32
        ensures { result ≡ one_if (ltb 0 (within self.now.tally.now Layout.in_use servers v)) }
    {
        i32::from(0 < self.tallied(IN_USE, SERVERS, v))
    }

    // Tags 0 to 8; any other counts as 8.
    pub fn simple_term(&self, parameters: &[u32; Model::PARAMETERS], tag: Tag, n: u32) -> i32
        ensures { result ≡ simple_term self.now.tables.now self.now.tally.now self.now.clock parameters.now (tag_number tag) n }
    {
        match tag {
            Tag::Constant => small(u64::from(n)),
            Tag::MinusConstant => minus(u64::from(n)),
            Tag::Parameter => number(parameters, n as usize).cast_signed(),
            Tag::Clock => low_signed(self.clock),
            Tag::Entries => small(self.tallied(ENTRIES, Model::MAX_BLOCKS, n)),
            Tag::Content => small(self.tallied(CONTENT, Model::MAX_QUEUES, n)),
            Tag::UnitsInUse => small(self.tallied(IN_USE, SERVERS, n)),
            Tag::UnitsFree => small(self.free(n)),
            _ => self.in_use(n),
        }
    }
}
