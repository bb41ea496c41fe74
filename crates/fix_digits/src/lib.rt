// Numbers in digits, and the sum of bytes that a message carries.
#![tactic(auto)]

ghost use Rattle.std.specs.Prelude.{◌≡◌, ◌-◌, ◌%◌, ◌≤◌, true, option_map};
ghost use Rattle.lists.specs.Lists.{sum};
ghost use Rattle.rules.specs.Units.{steps};
ghost use Rattle.rules.specs.Digits.{is_digit, in_digits, word_in, steps_in, positive, negative};
ghost use Rattle.fix_digits.specs.Capped.{capped};
ghost use Rattle.fix_digits.specs.Internal.{more_of};

use rules::Steps;

pub fn is_digit(b: u8) -> bool
    ensures { result ≡ is_digit b }
{
    (48 <= b) & (b <= 57)
}

// The value of a digit.
fn value(b: u8) -> u64
    requires { is_digit b ≡ true }
    ensures { (result ≡ b - 48) × (result ≤ 9) }
{
    u64::from(b - 48)
}

// A number with one digit more; the greatest word once the number is past 18,446,744,073,709,551,609.
fn more(n: u64, d: u64) -> u64
    requires { d ≤ 9 }
    ensures { result ≡ more_of n d }
{
    if n <= 1844674407370955160 {
        return n * 10 + d;
    }
    u64::MAX
}

// A number in digits, at least one, leading zeros allowed. Past 18,446,744,073,709,551,609 it is the greatest word: no length of
// bytes and no number of 32 bits is that.
pub fn number_in(v: &[u8]) -> Option<u64>
    ensures { result ≡ option_map capped (in_digits v.now) }
{
    if v.is_empty() {
        return None;
    }
    let mut n: u64 = 0;
    for b in v {
        if !is_digit(*b) {
            return None;
        }
        n = more(n, value(*b));
    }
    Some(n)
}

// A number of 32 bits.
pub fn word_in(v: &[u8]) -> Option<u32>
    ensures { result ≡ word_in v.now }
{
    u32::try_from(number_in(v)?).ok()
}

// The digits where no minus sign is before them.
fn positive_in(v: &[u8]) -> Option<i32>
    ensures { result ≡ positive (in_digits v.now) }
{
    i32::try_from(number_in(v)?).ok()
}

// The digits after a minus sign; zero has none.
fn negative_in(v: &[u8]) -> Option<i32>
    ensures { result ≡ negative (in_digits v.now) }
{
    match number_in(v)? {
        0 => None,
        n => Some(-1 - i32::try_from(n - 1).ok()?),
    }
}

// A signed number of 32 bits; zero has no minus sign.
pub fn steps_in(v: &[u8]) -> Option<Steps>
    ensures { result ≡ option_map steps (steps_in v.now) }
{
    let (first, rest) = v.split_first()?;
    let n = if *first == b'-' {
        negative_in(rest)
    } else {
        positive_in(v)
    };
    n.map(Steps)
}

// The sum of the bytes, modulo 256: a pass of its own, which the compiler makes wide.
pub fn byte_sum(bytes: &[u8]) -> u8
    ensures { result ≡ sum bytes.now % 256 }
{
    bytes.iter().fold(0, |s: u8, b| s.wrapping_add(*b))
}
