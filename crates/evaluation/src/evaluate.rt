// Sums and terms, which call each other: bracket depth, value number and remaining terms fall.
ghost use Rattle.std.specs.Prelude.{◌≡◌, ◌≤◌};
ghost use Rattle.machine.specs.All.{length, get_or, one_if};
ghost use Rattle.layout.specs.All.{tables_size, most32};
ghost use Rattle.evaluation.specs.Evaluation.{joined, related_by, simple_term, sum_from, comparison_from, value_below, term_of, term_at, compare_at};

use crate::relations::Relation;
use crate::view::{View, Worth};
use constants::Model;
use layout::{RELATION, RIGHT, TABLES, Tag, VALUE_WIDTH, VALUES, number};

const POSITIONS: u32 = TABLES as u32;

const TERM_WIDTH: u32 = layout::TERM_WIDTH as u32;

const VALUE_TAG: u32 = Tag::Value as u32;

const COMPARISON_TAG: u32 = Tag::Comparison as u32;

// "a sign (0 plus, 1 minus)"
fn join(sign: u32, a: i32, b: i32) -> i32
    ensures { result ≡ joined sign a b }
{
    if sign == 0 {
        a.wrapping_add(b)
    } else {
        a.wrapping_sub(b)
    }
}

// Are two numbers in a relation? 1 or 0.
fn judge(relation: u32, a: i32, b: i32) -> i32
    ensures { result ≡ one_if (related_by relation a b) }
{
    i32::from(Relation::of(relation).holds(a, b))
}

// The number at a position of the tables; 0 past their end. That the tables are whole is told to those who only pass them on.
fn number_at(tables: &[u32; TABLES], at: u32) -> u32
    ensures number { result ≡ get_or tables.now at 0 }
    ensures whole { length tables.now ≡ tables_size }
{
    number(tables, at as usize)
}

impl View<'_> {
    // A term at a position, where `depth` brackets may still open and the first `lower` values may be named: its answer.
    #[cycle(comparison_sum_term_value)]
    fn term(
        &self,
        parameters: &[u32; Model::PARAMETERS],
        lower: usize,
        depth: usize,
        at: u32,
    ) -> Worth
        ensures { result ≡ term_of self.now.tables.now self.now.tally.now self.now.clock parameters.now lower depth at }
    {
        let tag = number_at(self.tables, at);
        if POSITIONS <= at {
            return Worth { worth: 0, next: at };
        }
        let n = number_at(self.tables, at + 1);
        // kept: by the numbers, since a match over `Tag` becomes one table of jumps: 59 ns for each value asked, where this takes 47
        if tag < VALUE_TAG {
            let worth = self.simple_term(parameters, Tag::of(tag), n);
            return Worth {
                worth,
                next: at + TERM_WIDTH,
            };
        }
        if tag == VALUE_TAG {
            let worth = self.value(parameters, lower, n);
            return Worth {
                worth,
                next: at + TERM_WIDTH,
            };
        }
        if depth == 0 {
            return Worth {
                worth: 0,
                next: at + 1,
            };
        }
        if tag == COMPARISON_TAG {
            return self.comparison(parameters, lower, depth - 1, at + 1);
        }
        self.sum(parameters, lower, depth - 1, n, 0, at + 2)
    }

    // A relation and two terms: 1 if it holds, else 0.
    #[cycle(comparison_sum_term_value)]
    fn comparison(
        &self,
        parameters: &[u32; Model::PARAMETERS],
        lower: usize,
        depth: usize,
        at: u32,
    ) -> Worth
        requires { at ≤ tables_size }
        ensures { result ≡ comparison_from self.now.tables.now
            (term_of self.now.tables.now self.now.tally.now self.now.clock parameters.now lower depth) at }
    {
        let left = self.term(parameters, lower, depth, at + 1);
        let right = self.term(parameters, lower, depth, left.next);
        let worth = judge(number_at(self.tables, at), left.worth, right.worth);
        Worth {
            worth,
            next: right.next,
        }
    }

    // The terms of a sum from a position on, `left` of them, behind terms worth `so_far`.
    #[cycle(comparison_sum_term_value)]
    fn sum(
        &self,
        parameters: &[u32; Model::PARAMETERS],
        lower: usize,
        depth: usize,
        left: u32,
        so_far: i32,
        at: u32,
    ) -> Worth
        ensures { result ≡ sum_from self.now.tables.now
            (term_of self.now.tables.now self.now.tally.now self.now.clock parameters.now lower depth) left so_far at }
    {
        if left == 0 {
            return Worth {
                worth: so_far,
                next: at,
            };
        }
        let sign = number_at(self.tables, at);
        if POSITIONS <= at {
            return Worth {
                worth: so_far,
                next: at,
            };
        }
        let t = self.term(parameters, lower, depth, at + 1);
        let joint = join(sign, so_far, t.worth);
        self.sum(parameters, lower, depth, left - 1, joint, t.next)
    }

    // Value k (from 0) if it is one of the first `lower`, else 0; past the tables a sum of nothing. With two mentions in each of eight
    // values at most 255 are evaluated, each in time linear in its numbers.
    #[cycle(comparison_sum_term_value)]
    fn value(&self, parameters: &[u32; Model::PARAMETERS], lower: usize, k: u32) -> i32
        ensures { result ≡ value_below self.now.tables.now
            (simple_term self.now.tables.now self.now.tally.now self.now.clock parameters.now) lower k }
    {
        let k = k as usize;
        if lower <= k {
            return 0;
        }
        let at = VALUES + VALUE_WIDTH * k;
        let tables = self.tables;
        let count = number(tables, at);
        if TABLES <= at + 1 {
            return 0;
        }
        let whole = self.sum(
            parameters,
            k,
            Model::MAX_BRACKETS,
            count,
            0,
            (at + 1) as u32,
        );
        whole.worth
    }

    // A term of a block, by the position of its tag.
    pub fn term_at(&self, parameters: &[u32; Model::PARAMETERS], at: usize) -> i32
        requires { at ≤ most32 }
        ensures { result ≡ term_at self.now.tables.now self.now.tally.now self.now.values self.now.clock parameters.now at }
    {
        let t = self.term(parameters, self.values, 0, at as u32);
        t.worth
    }

    // Left, relation and right of a WAITIF or an IF, by the position of the left term's tag.
    pub fn compare_at(&self, parameters: &[u32; Model::PARAMETERS], at: usize) -> bool
        requires { at ≤ tables_size }
        ensures { result ≡ compare_at self.now.tables.now self.now.tally.now self.now.values self.now.clock parameters.now at }
    {
        let left = self.term_at(parameters, at);
        let right = self.term_at(parameters, at + RIGHT);
        let tables = self.tables;
        Relation::of(number(tables, at + RELATION)).holds(left, right)
    }
}
