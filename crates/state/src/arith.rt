// Ticks times what is counted.
ghost use Rattle.std.specs.Prelude.{◌≡◌, ◌≤◌};
ghost use Rattle.state.specs.Ticks as Ticks;

// No run counts so many units, waiters or contents: 2 to the 28.
const COUNT_END: u64 = 268_435_456;

// No clock moves by more ticks: 2 to the 36, less one.
pub const MOST_TICKS: u64 = 68_719_476_735;

// A count times some ticks; 0 where there are too many.
pub fn product(a: u64, ticks: u64) -> u64
    requires { ticks ≤ Ticks.most_ticks }
    ensures { result ≡ Ticks.product a ticks }
{
    if a >= COUNT_END {
        return 0;
    }
    a * ticks
}
