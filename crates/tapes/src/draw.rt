// One time from a distribution.
ghost use Rattle.std.specs.Prelude.{◌≡◌, ◌+◌, ◌≤◌, ◌<◌};
ghost use Rattle.machine.specs.All.{List, ℕ};
ghost use Rattle.floats.specs.Limits.{draw_parts};
ghost use Rattle.floats.specs.Value.{Is};
ghost use Rattle.tapes_laws.specs.declared.Point.{Point};
ghost use Rattle.tapes_laws.specs.Source.{Source, draw_of, around, after, time_of};
ghost use Rattle.tapes_laws.specs.Held.{Points, Meant, Surrounds};

use floats::Segment;
use streams::State;
use tapes_laws::Distribution;

// "(r - 1) divided by 32,768, whole part"
const STATES_PER_PART: u32 = 32_768;

// A time and the state behind its draw.
#[derive(Clone, Copy)]
pub struct Drawn {
    pub time: u64,
    pub state: State,
}

// The u of a state.
pub fn uniform(state: State) -> f64
    ensures value { Is result (draw_of state) draw_parts }
    ensures below { draw_of state < draw_parts }
{
    floats::fraction((state.number() - 1) / STATES_PER_PART)
}

// The segment of a curve around u. The last u of a curve is 1, so the walk ends inside it.
// kept: `windows(4).step_by(2)` goes over a slice cut at `first`, which may lie past the end: a test more, and no shorter.
pub fn segment(numbers: &[f64], first: u32, u: f64) -> Segment
    ensures { (p : Point) (l : List Point) (v : ℕ) → Points numbers.now first p l → p.u ≤ v → v < draw_parts → Is u v draw_parts
        → Surrounds result (around p l v) v }
{
    let mut at = first as usize;
    while at + 3 < numbers.len() {
        if u < numbers[at + 2] {
            return Segment {
                u0: numbers[at],
                time0: numbers[at + 1],
                u1: numbers[at + 2],
                time1: numbers[at + 3],
            };
        }
        at += 2;
    }
    Segment {
        u0: 0.0,
        time0: 0.0,
        u1: 1.0,
        time1: 0.0,
    }
}

// The time that a distribution gives from a state, and the state then.
pub fn draw(numbers: &[f64], d: Distribution, state: State) -> Drawn
    ensures { (s : Source) → Meant numbers.now d s → (result.time ≡ time_of s state) × (result.state ≡ after s state) }
{
    match d {
        Distribution::Fixed(x) => Drawn {
            time: floats::whole_part(x),
            state,
        },
        Distribution::Spread(mean, half) => {
            let behind = state.next();
            let u = uniform(behind);
            Drawn {
                time: floats::whole_part(floats::spread(mean, half, u)),
                state: behind,
            }
        }
        Distribution::Curve(first) => {
            let behind = state.next();
            let v = uniform(behind);
            let s = segment(numbers, first, v);
            Drawn {
                time: floats::whole_part(floats::interpolate(s, v)),
                state: behind,
            }
        }
    }
}
