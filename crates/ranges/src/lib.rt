// The ranges of document 01's numbers, each as a test. Tests are joined by `&`, which has no branch.
#![tactic(auto)]

ghost use Rattle.std.specs.Prelude.{◌≡◌};
ghost use Rattle.lists.specs.Lists.{within};
ghost use Rattle.rules.specs.Terms.{paper};
ghost use Rattle.rules.specs.Units.{good_price, good_volume, good_charge};
ghost use Rattle.rules.specs.Cells.{good_cell};
ghost use Rattle.rules.specs.Lapses.{good_lapse_limit};
ghost use Rattle.rules.specs.Causes.{good_settlement};

use rules::{Contracts, Kopecks, SpreadRule, Steps};

// A number from one end to the other, both taken in.
pub fn between(low: u32, high: u32, n: u32) -> bool
    ensures { result ≡ within low high n }
{
    (low <= n) & (n <= high)
}

// A price, or SP.
#[tactic(auto, unfolding(rules::specs::Units::good_price))]
pub fn price(p: Steps) -> bool
    ensures { result ≡ good_price p.0 }
{
    (-1000000000 <= p.0) & (p.0 <= 1000000000)
}

// SP, where open is given it.
pub fn settlement(spread: SpreadRule) -> bool
    ensures { result ≡ good_settlement spread }
{
    match spread {
        SpreadRule::Settled(sp) => price(sp),
        SpreadRule::OfStrike(_) => true,
    }
}

// The volume of an order or a deal.
#[tactic(auto, unfolding(rules::specs::Units::good_volume))]
pub fn volume(v: Contracts) -> bool
    ensures { result ≡ good_volume v.0 }
{
    between(1, 1000000, v.0)
}

// A or P.
#[tactic(auto, unfolding(rules::specs::Units::good_charge))]
pub fn charge(k: Kopecks) -> bool
    ensures { result ≡ good_charge paper k.0 }
{
    k.0 <= 100000000000
}

// A lapse limit: 0 to 1,000, or 65,535 for none.
#[tactic(auto, unfolding(rules::specs::Lapses::good_lapse_limit))]
pub fn lapse_limit(n: u32) -> bool
    ensures { result ≡ good_lapse_limit n }
{
    (n <= 1000) | (n == 65535)
}

// A day, an expiry and a quantum that name a cell.
pub fn cell(day: u32, expiry: u32, quantum: u32) -> bool
    ensures { result ≡ good_cell day expiry quantum }
{
    between(1, 31, day) & between(1, 2, expiry) & (quantum <= 2)
}
