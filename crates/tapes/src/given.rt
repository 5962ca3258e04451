// What a call gives, checked: doubles, distributions and lists.
ghost use Rattle.std.specs.Prelude.{◌≡◌, ◌+◌, ◌*◌, ◌≤◌, ◌<◌, Some};
ghost use Rattle.machine.specs.All.{ℕ, length};
ghost use Rattle.tapes_laws.specs.Limits.{most_lists};
ghost use Rattle.tapes_laws.specs.Given.{counted_at, fixed_at, spread_at, point_at, points_behind, curve_at, source_at, list_at_lem};
ghost use Rattle.tapes_laws.specs.Held.{Chosen, Listing, Reading};
ghost use Rattle.tapes_laws.specs.Answers.{step_of, is_given};

use super::{MOST_LISTS, NUMBERS_PER_LIST};
use floats::Scale;
use tapes_laws::{Distribution, Kind, Point, Row};

// "mean at most 500,000", in 64ths
const MAX_MEAN_PARTS: u64 = 32_000_000;

// "A curve has 2 to 24 points"
const FEWEST_POINTS: u32 = 2;

const MOST_POINTS: u32 = 24;

// u = 1, in 65,536ths
const LAST_U: u64 = 65_536;

// The double at an index, counted on a scale.
pub fn count_at(numbers: &[f64], at: usize, scale: Scale) -> Option<u64>
    ensures { result ≡ counted_at scale numbers.now at }
{
    if numbers.len() <= at {
        return None;
    }
    scale.count(numbers[at])
}

pub fn fixed(numbers: &[f64], first: u32) -> Option<Distribution>
    ensures { Chosen numbers.now result (fixed_at numbers.now first) }
{
    let at = first as usize;
    count_at(numbers, at, Scale::Time)?;
    Some(Distribution::Fixed(numbers[at]))
}

pub fn spread(numbers: &[f64], first: u32) -> Option<Distribution>
    ensures { Chosen numbers.now result (spread_at numbers.now first) }
{
    let at = first as usize;
    let mean = count_at(numbers, at, Scale::Time)?;
    let half = count_at(numbers, at + 1, Scale::Time)?;
    if mean < half {
        return None;
    }
    if MAX_MEAN_PARTS < mean {
        return None;
    }
    Some(Distribution::Spread(numbers[at], numbers[at + 1]))
}

// The point whose first double is at an index.
pub fn point_at(numbers: &[f64], at: usize) -> Option<Point>
    ensures { result ≡ point_at numbers.now at }
{
    let u = count_at(numbers, at, Scale::Draw)?;
    let time = count_at(numbers, at + 1, Scale::Time)?;
    Some(Point { u, time })
}

// The point at an index, if it may follow another.
pub fn next_point(numbers: &[f64], at: usize, before: Point) -> Option<Point>
    ensures result_value { result ≡ step_of numbers.now at before }
    ensures inside { (p : Point) → result ≡ Some p → at < length numbers.now }
{
    let p = point_at(numbers, at)?;
    if p.u <= before.u {
        return None;
    }
    if p.time < before.time {
        return None;
    }
    Some(p)
}

// Whether that many points from an index on may follow the first, the last at 1.
pub fn points_behind(numbers: &[f64], start: usize, count: u32, first: Point) -> bool
    requires { start ≤ 4294967297 }
    ensures { result ≡ is_given (points_behind numbers.now count start first) }
{
    let mut at = start;
    let mut last = first;
    for _ in 0..count {
        let Some(next) = next_point(numbers, at, last) else {
            return false;
        };
        last = next;
        at += 2;
    }
    last.u == LAST_U
}

pub fn curve(numbers: &[f64], first: u32, points: u32) -> Option<Distribution>
    ensures { Chosen numbers.now result (curve_at numbers.now first points) }
{
    let at = first as usize;
    if points < FEWEST_POINTS {
        return None;
    }
    if MOST_POINTS < points {
        return None;
    }
    let p = point_at(numbers, at)?;
    if p.u != 0 {
        return None;
    }
    if points_behind(numbers, at + 2, points - 1, p) {
        return Some(Distribution::Curve(first));
    }
    None
}

pub fn choose(numbers: &[f64], kind: u32, first: u32, points: u32) -> Option<Distribution>
    ensures { Chosen numbers.now result (source_at numbers.now kind first points) }
{
    match Kind::of(kind)? {
        Kind::Curve => curve(numbers, first, points),
        Kind::Fixed => {
            if points != 0 {
                return None;
            }
            fixed(numbers, first)
        }
        Kind::Spread => {
            if points != 0 {
                return None;
            }
            spread(numbers, first)
        }
    }
}

// A list from its kind, its count of times ("0..65,535"), its first double and its number of points.
pub fn row_of(list: [u32; NUMBERS_PER_LIST], numbers: &[f64]) -> Option<Row>
    ensures { Listing numbers.now result (list_at_lem list numbers.now 0) }
{
    let [kind, count, first, points] = list;
    let count = u16::try_from(count).ok()?;
    let distribution = choose(numbers, kind, first, points)?;
    Some(Row {
        distribution,
        count,
    })
}

// The lists, where all are within the rules: as many in front as were given.
pub fn rows_of(lists: &[[u32; NUMBERS_PER_LIST]], numbers: &[f64]) -> Option<[Row; MOST_LISTS]>
    requires { length lists.now ≤ most_lists }
    ensures { Reading numbers.now lists.now result }
{
    let mut rows = [Row {
        distribution: Distribution::Fixed(0.0),
        count: 0,
    }; MOST_LISTS];
    for k in 0..lists.len() {
        rows[k] = row_of(lists[k], numbers)?;
    }
    Some(rows)
}
