// Prices as keys, and the spread test on the keys of two best quotes.
//
// A key is a price turned so that the better one has the greater key: 1,000,000,001 plus the price for buys, less the price for sells; 0 is
// no price. So neither side is a case of its own in any sum or search. The spread limit is one number, fixed at open: max(b, a × max(SP, 0)
// / 100,000), and the test is D against 1 and against it. The definition stays as the paper has it; `keys_law` says that the test on two
// keys agrees with it.
#![tactic(auto)]

ghost use Rattle.std.specs.Prelude.{◌≡◌, true, ◌≤◌, eqb, IfSome, if◌then◌else◌};
ghost use Rattle.rules.specs.Units.{steps, good_price};
ghost use Rattle.price_keys.specs.Widest.{positive_part, widest_of, keys_keep, keys_state};
ghost use Rattle.price_keys.specs.Keys.{key_of, price_at, quote_key, quote_at};

use rules::{Side, Steps};

// ---- keys

// The key of a price: the better price has the greater one.
pub fn key_of(side: Side, price: Steps) -> u32
    requires { good_price price.0 ≡ true }
    ensures { result ≡ key_of side price.0 }
{
    match side {
        Side::Buy => (1000000001 + price.0) as u32,
        Side::Sell => (1000000001 - price.0) as u32,
    }
}

// The price of a key.
pub fn price_at(side: Side, key: u32) -> Steps
    requires { key ≤ 2000000001 }
    ensures { result ≡ steps (price_at side key) }
{
    match side {
        Side::Buy => Steps(key as i32 - 1000000001),
        Side::Sell => Steps(1000000001 - key as i32),
    }
}

// The quote of a key; 0 is the key of none.
pub fn quote_at(side: Side, key: u32) -> Option<Steps>
    requires { key ≤ 2000000001 }
    ensures { result ≡ quote_at side key }
{
    if key == 0 {
        return None;
    }
    Some(price_at(side, key))
}

// The key of a quote.
pub fn quote_key(side: Side, quote: Option<Steps>) -> u32
    requires { IfSome quote (λ p. good_price p.0 ≡ true) }
    ensures { result ≡ quote_key side quote }
{
    match quote {
        None => 0,
        Some(p) => key_of(side, p),
    }
}

// ---- the spread test

// The price, or 0 where it is negative.
fn positive_part(p: Steps) -> u32
    ensures { result ≡ positive_part p.0 }
{
    p.0.max(0) as u32
}

// The greatest D that the spread test takes, fixed once for a quantum: max(b, a × max(SP, 0) / 100,000).
pub fn widest_for_price(a: u32, b: u32, sp: Steps) -> u32
    requires { a ≤ 100000 }
    ensures { result ≡ widest_of a b sp.0 }
{
    let price = positive_part(sp);
    let part = (a as u64 * price as u64 / 100000) as u32;
    part.max(b)
}

// Whether two best keys keep the quote: both are there, and D is 1 or more and at most the limit. D is 2,000,000,002 less
// both keys.
pub fn keys_keep(widest: u32, bid: u32, ask: u32) -> bool
    ensures { result ≡ keys_keep widest bid ask }
{
    let there = (bid != 0) & (ask != 0);
    let both = bid as u64 + ask as u64;
    there & (both <= 2000000001) & (2000000002 <= both + widest as u64)
}

// The state's word where there is no best bid.
fn absent_bid(ask: u32) -> u32
    ensures { result ≡ (if eqb ask 0 then 3 else 1) }
{
    if ask == 0 {
        return 3;
    }
    1
}

// The word of the state of two best keys, as the views show it to C (a number for that reason, and no enum): 0 kept, 1 no bid, 2 no ask,
// 3 neither, 4 locked or crossed, 5 too wide.
pub fn keys_state(widest: u32, bid: u32, ask: u32) -> u32
    ensures { result ≡ keys_state widest bid ask }
{
    if bid == 0 {
        return absent_bid(ask);
    }
    if ask == 0 {
        return 2;
    }
    let both = bid as u64 + ask as u64;
    if 2000000001 < both {
        return 4;
    }
    if both + (widest as u64) < 2000000002 {
        return 5;
    }
    0
}
