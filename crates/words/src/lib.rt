// Numbers in 32-bit words and bytes: two's complement, a word from its four bytes, and a side as 1 or 2.
//
// Functions, and no `From`: the two types of each are rules' and std's, and an impl may only be in a crate that has one of them.
#![tactic(auto)]

ghost use Rattle.std.specs.Prelude.{◌≡◌, ◌+◌, ◌≤◌, length};
ghost use Rattle.rules.specs.Units.{steps};
ghost use Rattle.rules.specs.Records.{signed_of, unsigned_of, word_at, add_kind};
ghost use Rattle.words.specs.Sides.{side_by};

use rules::{Side, Steps};

// The price that a word represents, in two's complement.
pub fn to_steps(w: u32) -> Steps
    ensures { result ≡ steps (signed_of w) }
{
    Steps(w.cast_signed())
}

// The word that represents a price.
pub fn from_steps(p: Steps) -> u32
    ensures { result ≡ unsigned_of p.0 }
{
    p.0.cast_unsigned()
}

// The word that starts at a byte, low byte first.
pub fn word_at(bytes: &[u8], at: usize) -> u32
    requires { at + 4 ≤ length bytes.now }
    ensures { result ≡ word_at bytes.now at }
{
    u32::from_le_bytes([bytes[at], bytes[at + 1], bytes[at + 2], bytes[at + 3]])
}

// A side as a number: 1 for a buy, 2 for a sell.
pub fn from_side(side: Side) -> u32
    ensures { result ≡ add_kind side }
{
    match side {
        Side::Buy => 1,
        Side::Sell => 2,
    }
}

// The side of such a number.
pub fn to_side(n: u32) -> Side
    ensures { result ≡ side_by n }
{
    if n == 1 { Side::Buy } else { Side::Sell }
}
