// The row of a day inside a period: a and b doubled, M halved, in the lent words.
#![tactic(auto)]

ghost use Rattle.std.specs.Prelude.{◌≡◌, ◌≤◌};
ghost use Rattle.volatile.specs.Answers.{inside_of, shown_day};
ghost use Rattle.ease.specs.Easing.{doubled, halved, eased, eased_if, is_inside};

use rules::SpreadRule;
use volatile::UnusablePrices;

// Halved, rounded up.
fn half(n: u32) -> u32
    ensures { result ≡ halved n }
{
    n.div_ceil(2)
}

// a or b for an open by SP; a strike leaves both unread, and they stay as they are.
fn double(spread: SpreadRule, most: u32, n: u32) -> u32
    requires { most ≤ 1000000 }
    ensures { result ≡ doubled spread most n }
{
    match spread {
        SpreadRule::Settled(_) => n.saturating_mul(2).min(most), // past the limit set to it
        SpreadRule::OfStrike(_) => n,
    }
}

// Easing the lent words of a row that 1 and 2 pass at an open by SP, or by a strike; any others stay as they are.
pub fn ease(words: &mut [u32], spread: SpreadRule)
    ensures { words.new ≡ eased spread words.old }
{
    let read = row::read(&words[..], spread);
    let Ok(row) = read else {
        return;
    };
    let m = half(row.minimum.0);
    let a = double(spread, 100000, row.a);
    let b = double(spread, 1000000, row.b);
    words[3] = m;
    words[4] = a;
    words[5] = b;
}

fn is_inside(answer: Result<bool, UnusablePrices>) -> bool
    ensures { result ≡ is_inside answer }
{
    answer.unwrap_or(false)
}

// Easing the row of the day after the last price, where that day is inside a period.
pub fn ease_if_inside(
    words: &mut [u32],
    spread: SpreadRule,
    prices: &[i32],
    threshold: u32,
) -> Result<bool, UnusablePrices>
    ensures answer { shown_day result ≡ inside_of prices.now threshold }
    ensures words { words.new ≡ eased_if (inside_of prices.now threshold) spread words.old }
{
    let answer = volatile::inside(prices, threshold);
    if is_inside(answer) {
        ease(words, spread);
    }
    answer
}
