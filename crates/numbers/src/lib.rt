// Sums, differences and products of words that fit in a word; and what some crates still call in place of std.
//
// Of words that a call wrote they always do. `a + b` would let the compiler assume it, and with other words, which a C caller may lend, the
// compiled code would be undefined. These wrap: the same for sums that fit, and defined for the others. They are functions, and not std's
// `wrapping_` methods at each place, since their contracts are the plain sum, difference and product.
#![tactic(auto)]

ghost use Rattle.std.specs.Prelude.{◌≡◌, ◌&&◌, ◌+◌, ◌-◌, ◌*◌, ◌%◌, ◌≤◌, ◌<◌, min as lesser};

pub fn sum(a: u32, b: u32) -> u32
    requires { a + b < 4294967296 }
    ensures { result ≡ a + b }
{
    a.wrapping_add(b)
}

pub fn difference(a: u32, b: u32) -> u32
    requires { b ≤ a }
    ensures { result ≡ a - b }
{
    a.wrapping_sub(b)
}

pub fn product(a: u32, b: u32) -> u32
    requires { a * b < 4294967296 }
    ensures { result ≡ a * b }
{
    a.wrapping_mul(b)
}

// ---- std has these: they go as soon as the crates that still call them say it by `&`, `min`, `u64::from`, `as usize` and `as u32`

pub fn both(a: bool, b: bool) -> bool
    ensures { result ≡ (a && b) }
{
    a & b
}

// The lesser of two lengths.
pub fn min_length(a: usize, b: usize) -> usize
    ensures { result ≡ lesser a b }
{
    a.min(b)
}

// A word in 64 bits.
pub fn wide(n: u32) -> u64
    ensures { (result ≡ n) × (result < 4294967296) }
{
    n as u64
}

// A word as a length or a place.
pub fn length(n: u32) -> usize
    ensures { (result ≡ n) × (result < 4294967296) }
{
    n as usize
}

// The lower 32 bits.
pub fn low(n: u64) -> u32
    ensures { result ≡ n % 4294967296 }
{
    (n % 4294967296) as u32
}
