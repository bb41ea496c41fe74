// A board of strikes, each a pair of K and L as C lends them, checked against two shares in percent.
#![tactic(auto)]

ghost use Rattle.std.specs.Prelude.{◌≡◌, [], map, ◌&&◌, ◌*◌, ◌≤◌, ◌<◌, leb, eqb, length, get_or};
ghost use Rattle.lists.specs.Lists.{within, sum, every};
ghost use Rattle.rules.specs.Boards.{kept_of, length_in, good_quantum_of, reaches, judged};
ghost use Rattle.board.specs.Answers.{shown_board};
ghost use Rattle.board.specs.Internal.{numbers_good, shares_met};

use ranges::between;
use rules::Refusal;

fn is_size(n: usize) -> bool
    ensures { result ≡ within 1 32 n }
{
    (1..=32).contains(&n)
}

// Whether each strike has the board's length, and K at most that.
fn are_quanta(strikes: &[[u32; 2]], l: u32) -> bool
    ensures { result ≡ every (good_quantum_of l) strikes.now }
{
    strikes.iter().all(|s| (s[1] == l) & (s[0] <= l))
}

fn are_shares(first: u32, second: u32) -> bool
    ensures { result ≡ within 1 100 first && within 1 100 second }
{
    between(1, 100, first) && between(1, 100, second)
}

// Whether each strike has 100 K at least the share of L.
fn do_reach(strikes: &[[u32; 2]], first: u32, l: u32) -> bool
    requires { (first ≤ 100) × (l ≤ 86400000) }
    ensures { result ≡ every (reaches first l) strikes.now }
{
    let due = u64::from(first) * u64::from(l);
    strikes.iter().all(|s| due <= 100 * u64::from(s[0]))
}

// Whether 100 times the sum of K is at least the share of L times the number of strikes.
fn does_sum_reach(strikes: &[[u32; 2]], second: u32, l: u32) -> bool
    requires { (length strikes.now ≤ 32) × (second ≤ 100) × (l ≤ 86400000) }
    ensures { result ≡ leb (second * l * length strikes.now) (100 * sum (map kept_of strikes.now)) }
{
    let due = u64::from(second) * u64::from(l) * (strikes.len() as u64);
    let hundredfold: u64 = strikes.iter().map(|s| 100 * u64::from(s[0])).sum();
    due <= hundredfold
}

// Whether the numbers are in their ranges.
fn are_good(strikes: &[[u32; 2]], l: u32, first: u32, second: u32) -> bool
    requires { length strikes.now ≤ 32 }
    ensures { result ≡ numbers_good l first second strikes.now }
{
    row::is_length(l) && are_quanta(strikes, l) && are_shares(first, second)
}

fn is_met(strikes: &[[u32; 2]], l: u32, first: u32, second: u32) -> bool
    requires { (length strikes.now ≤ 32) × (l ≤ 86400000) × (first ≤ 100) × (second ≤ 100) }
    ensures { result ≡ shares_met l first second strikes.now }
{
    let each = do_reach(strikes, first, l);
    each && does_sum_reach(strikes, second, l)
}

// Whether the board is met.
pub fn judge(strikes: &[[u32; 2]], first: u32, second: u32) -> Result<bool, Refusal>
    ensures { shown_board result ≡ judged first second strikes.now }
{
    if !is_size(strikes.len()) {
        return Err(Refusal::StrikesOutOfRange);
    }
    let l = strikes[0][1];
    if !are_good(strikes, l, first, second) {
        return Err(Refusal::StrikesOutOfRange);
    }
    Ok(is_met(strikes, l, first, second))
}
