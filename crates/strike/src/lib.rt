// The spread limit of a strike, by a search on squares: no root and no float.
//
// The limit is one number of steps: the greater of b and the greatest n that, less half a step, is at most the product. `strike_law` says
// that D is at most it exactly where D is within the limit by the definition, for every D and whatever the four numbers; so the ranges are
// needed only for the widths. The code halves between 0 and 2,000,001, 21 turns.
#![tactic(auto)]

ghost use Rattle.std.specs.Prelude.{◌≡◌, true, ◌+◌, ◌-◌, ◌*◌, ◌^◌, ◌≤◌, ◌<◌, leb};
ghost use Rattle.rules.specs.Causes.{good_spread_rule};
ghost use Rattle.rules.specs.Strikes.{good_strike, square_of};
ghost use Rattle.strike.specs.Widest.{widest_of_strike};

use rules::{SpreadRule, Strike};

// Whether the four numbers are in their ranges.
fn is_good(s: Strike) -> bool
    ensures { result ≡ good_strike s }
{
    (s.a <= 200) & (s.difference <= 100000) & (s.days <= 365) & (s.b <= 1000000)
}

// The same, where open is given a strike.
pub fn in_range(spread: SpreadRule) -> bool
    ensures { result ≡ good_spread_rule spread }
{
    match spread {
        SpreadRule::Settled(_) => true,
        SpreadRule::OfStrike(s) => is_good(s),
    }
}

// The doubled product's square, times 36,500.
fn square(s: Strike) -> u64
    requires { good_strike s ≡ true }
    ensures { (result ≡ 4 * square_of s) × (result ≤ 584000000000000000) }
{
    let product = (s.a as u64) * (s.difference as u64);
    4 * (product * product * (s.days as u64))
}

// Twice what d less half a step is.
fn doubled(d: u32) -> u64
    requires { (1 ≤ d) × (d ≤ 2000001) }
    ensures { (result ≡ 2 * d - 1) × (result ≤ 4000001) }
{
    2 * (d as u64) - 1
}

// Whether d less half a step is at most the product, by the doubled numbers' squares.
fn half_below(d: u32, square: u64) -> bool
    requires { (1 ≤ d) × (d ≤ 2000001) }
    ensures { result ≡ leb ((2 * d - 1) ^ 2 * 36500) square }
{
    let twice = doubled(d);
    twice * twice * 36500 <= square
}

// The nearest step, half upwards, between two numbers that close in on it: a halving, so no index is counted.
fn nearest(square: u64) -> u32
    requires { square ≤ 584000000000000000 }
    ensures { ((2 * result - 1) ^ 2 * 36500 ≤ square) × (square < (2 * result + 1) ^ 2 * 36500) × (result ≤ 2000000) }
{
    let mut low: u32 = 0;
    let mut high: u32 = 2000001;
    while low + 1 < high {
        let middle = (low + high) / 2;
        if half_below(middle, square) {
            low = middle;
        } else {
            high = middle;
        }
    }
    low
}

// The greatest D that is within the strike's spread limit.
pub fn widest(s: Strike) -> u32
    requires { good_strike s ≡ true }
    ensures { result ≡ widest_of_strike s }
{
    nearest(square(s)).max(s.b)
}
