// The weight card: for three required shares the weight of each f, looked up.
//
// A crate of its own, so that no other crate's check or edit pays for the constants.
#![tactic(auto)]

ghost use Rattle.std.specs.Prelude.{◌≡◌, true, ◌+◌, ◌<◌, min};
ghost use Rattle.rules.specs.Terms.{paper};
ghost use Rattle.rules.specs.Pay.{weight_at};
ghost use Rattle.weights.specs.Card.{on_card};

mod table;

use table::{
    CARD_600_CURVE, CARD_600_FULL, CARD_600_LOW, CARD_700_CURVE, CARD_700_FULL, CARD_700_LOW,
    CARD_750_CURVE, CARD_750_FULL, CARD_750_LOW,
};

// Whether the card has that share.
pub fn has(share: u32) -> bool
    ensures { result ≡ on_card share }
{
    (share == 600) | (share == 700) | (share == 750)
}

// A constant is put on the stack where it is read, so each share's line is in three parts: below every p, the curve, and the full weight.
fn low(f: usize, share: u32) -> u16
    requires { (f < 600) × (on_card share ≡ true) }
    ensures { result ≡ weight_at paper f share }
{
    match share {
        600 => CARD_600_LOW[f],
        700 => CARD_700_LOW[f],
        _ => CARD_750_LOW[f],
    }
}

fn curve(f: usize, share: u32) -> u16
    requires { (f < 200) × (on_card share ≡ true) }
    ensures { result ≡ weight_at paper (600 + f) share }
{
    match share {
        600 => CARD_600_CURVE[f],
        700 => CARD_700_CURVE[f],
        _ => CARD_750_CURVE[f],
    }
}

fn full(f: usize, share: u32) -> u16
    requires { (f < 201) × (on_card share ≡ true) }
    ensures { result ≡ weight_at paper (800 + f) share }
{
    match share {
        600 => CARD_600_FULL[f],
        700 => CARD_700_FULL[f],
        _ => CARD_750_FULL[f],
    }
}

// The weight of a line of the card.
fn at(f: usize, share: u32) -> u16
    requires { (f < 1001) × (on_card share ≡ true) }
    ensures { result ≡ weight_at paper f share }
{
    if f < 600 {
        return low(f, share);
    }
    if f < 800 {
        return curve(f - 600, share);
    }
    full(f - 800, share)
}

// The weight of f by a share that the card has. Where the card ends, the weight stays the same: what is past it has the last line.
pub fn look_up(f: u64, share: u32) -> u32
    requires { on_card share ≡ true }
    ensures { result ≡ weight_at paper f share }
{
    let line = f.min(1000) as usize;
    u32::from(at(line, share))
}
