// Doubles of known value (document 02, item 4): the check of a caller's double, the interpolation on
// a curve's segment and the spread.

#![tactic(auto)]

ghost use Rattle.std.specs.Prelude.{◌≡◌, ℕ, ◌/◌, ◌^◌, ◌≤◌};
ghost use Rattle.std.specs.Float.{binary64};
ghost use Rattle.floats.specs.Limits.{max_time_parts, draw_parts};
ghost use Rattle.floats.specs.Value.{Is, parts_of, whole_part_lem};
ghost use Rattle.floats.specs.Line.{line_double, line_over, line_under, Ends, OnLine, spread_double, spread_over, spread_under, Width, Exactly};
ghost use Rattle.floats.specs.Scales.{counted};

// "Times, means and halves are multiples of 1/64 from 0 to 1,000,000", "u .. in 65,536ths"
const TIME_PARTS: f64 = 64.0;

const MAX_TIME_PARTS: u64 = 64_000_000;

const DRAW_PARTS: f64 = 65536.0;

const MAX_DRAW_PARTS: u64 = 65_536;

// 2 ^ 64, the first whole number that no u64 holds.
const TWO_64: f64 = 18446744073709551616.0;

// What a double counts: a time, a mean or a half-width in 64ths, or a u in 65,536ths.
#[derive(Clone, Copy, PartialEq, Eq)]
pub enum Scale {
    Time,
    Draw,
}

// The two end points of a curve's segment.
#[derive(Clone, Copy)]
pub struct Segment {
    pub u0: f64,
    pub time0: f64,
    pub u1: f64,
    pub time1: f64,
}

// The whole part of a double above -1 and below 2 ^ 64; for any other, the largest number.
pub fn whole_part(x: f64) -> u64
    ensures { result ≡ whole_part_lem x }
{
    if x > -1.0 {
        if x < TWO_64 {
            return std::num::truncating_f64_to_u64(x);
        }
        return u64::MAX;
    }
    u64::MAX
}

// How many parts of 1 / scale a double has, where it is a whole number of them up to `most`.
fn count_parts(x: f64, scale: f64, most: u64) -> Option<u64>
    requires { most ≤ max_time_parts }
    ensures { (k : ℕ) → k ≤ 16 → Is scale (2 ^ k) 1 → result ≡ parts_of (2 ^ k) most x }
{
    let n = whole_part(x * scale);
    if most < n {
        return None;
    }
    if n as f64 / scale == x {
        return Some(n);
    }
    None
}

impl Scale {
    // How many parts a double has, where it is a whole number of them in range.
    pub fn count(self, x: f64) -> Option<u64>
        ensures { result ≡ counted self x }
    {
        match self {
            Scale::Time => count_parts(x, TIME_PARTS, MAX_TIME_PARTS),
            Scale::Draw => count_parts(x, DRAW_PARTS, MAX_DRAW_PARTS),
        }
    }
}

// v 65,536ths as a double.
pub fn fraction(v: u32) -> f64
    ensures { Is result v draw_parts }
{
    v as f64 / DRAW_PARTS
}

// The time on a segment at u.
pub fn interpolate(s: Segment, u: f64) -> f64
    ensures value { result ≡ line_double s.u0 s.time0 s.u1 s.time1 u }
    ensures near { (v0 t0 v1 t1 v : ℕ) → Ends s.u0 s.time0 s.u1 s.time1 v0 t0 v1 t1 → Is u v draw_parts → v0 ≤ v → v ≤ v1
        → OnLine result (line_over v0 t0 v1 t1 v) (line_under v0 v1) }
{
    s.time0 + ((s.time1 - s.time0) * (u - s.u0)) / (s.u1 - s.u0)
}

// The time of a spread at u.
pub fn spread(mean: f64, half: f64, u: f64) -> f64
    ensures value { result ≡ spread_double mean half u }
    ensures exact { (m h v : ℕ) → Width mean half m h → Is u v draw_parts → v ≤ draw_parts → Exactly result (spread_over m h v) spread_under }
{
    mean - half + 2.0 * half * u
}
