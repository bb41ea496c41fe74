// From prices to sigmas: R in millionths, and the whole root of a sum of three squares. No float is used.
#![tactic(auto)]

ghost use Rattle.std.specs.Prelude.{◌≡◌, [], ◌∷◌, ◌*◌, ◌≤◌, ◌<◌, leb, nat_abs, ◌-ℤ◌, ◌*ℤ◌, pos};
ghost use Rattle.sigma.specs.Sigmas.{root_of, square, sigma_of, last_sigma};
ghost use Rattle.sigma.specs.Internal.{change_shown};

// The R of two successive prices; none where the previous price is zero or R is beyond 1,000,000 either way.
pub fn change_of(previous: i32, price: i32) -> Option<i32>
    ensures { result ≡ change_shown previous price }
{
    if previous == 0 {
        return None;
    }
    let difference = i64::from(price) - i64::from(previous);
    let r = difference * 1000000 / i64::from(previous.unsigned_abs());
    if 1000000 < r.unsigned_abs() {
        return None;
    }
    Some(r as i32)
}

// The largest n with 18 n² at most the total.
fn root(total: u64) -> u32
    requires { total < 18 * (4194304 * 4194304) }
    ensures { (result ≡ root_of total) × (result < 4194304) }
{
    (total / 18).isqrt() as u32
}

// (3R - S)²
fn square(r: i32, sum: i64) -> u64
    requires { (nat_abs r ≤ 1000000) × (nat_abs sum ≤ 3000000) }
    ensures { (result ≡ square (pos 3 *ℤ r -ℤ sum)) × (result ≤ 36000000000000) }
{
    let gap = (3 * i64::from(r) - sum).unsigned_abs();
    gap * gap
}

// The sigma of three R, oldest first.
pub fn sigma(a: i32, b: i32, c: i32) -> u32
    requires { (nat_abs a ≤ 1000000) × (nat_abs b ≤ 1000000) × (nat_abs c ≤ 1000000) }
    ensures { (result ≡ sigma_of a b c) × (result < 4194304) }
{
    let sum = i64::from(a) + i64::from(b) + i64::from(c);
    root(square(a, sum) + square(b, sum) + square(c, sum))
}

// The sigma of the day of s, by the three R of four successive prices.
fn sigma_by(p: i32, q: i32, r: i32, s: i32) -> Option<u32>
    ensures { result ≡ last_sigma (p ∷ q ∷ r ∷ s ∷ []) }
{
    let first = change_of(p, q)?;
    let second = change_of(q, r)?;
    let third = change_of(r, s)?;
    Some(sigma(first, second, third))
}

// The sigma of the last day of the prices.
pub fn last_sigma(prices: &[i32]) -> Option<u32>
    ensures { result ≡ last_sigma prices.now }
{
    let [p, q, r, s] = *prices.last_chunk::<4>()?;
    sigma_by(p, q, r, s)
}
