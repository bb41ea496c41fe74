// The best key of a side of at most four orders, without its level: the orders are sorted by five exchanges, and their volumes added up
// from the best one down until they are enough. So nothing is added up twice, and for no price after the first that qualifies.
//
// A side of at most four orders has no sums to carry: this is proved to find the best key, so nothing is measured after it, and the two
// carried sums of such a side are 0.
#![tactic(auto)]

ghost use Rattle.std.specs.Prelude.{◌≡◌, true, ◌+◌, ◌*◌, ◌≤◌, ◌%◌, min, max, ltb, length, if◌then◌else◌};
ghost use Rattle.lists.specs.Lists.{how_many};
ghost use Rattle.best_quote.specs.Levels.{is_best, Columns};
ghost use Rattle.small_side.specs.Small.{BestKeyFound};
ghost use Rattle.small_side.specs.Internal.{Descending, four, level_in};

use rules::Contracts;

// The best key, 0 where no price qualifies (as in `Level`), and for how many orders volumes were added up.
#[derive(Clone, Copy)]
pub struct KeyFound {
    pub key: u32,
    pub sums: u32,
}

// An order as one number, by which orders compare: its key, then its volume. A blank is 0.
fn packed(key: u32, volume: u32) -> u64
    ensures { result ≡ 4294967296 * key + volume }
{
    4294967296 * (key as u64) + volume as u64
}

// The depth with one more order's volume, where it was not enough without it.
fn deeper(depth: u64, order: u64, minimum: Contracts) -> u64
    ensures { result ≡ (if ltb depth minimum.0 then depth + order % 4294967296 else depth) }
{
    if depth < minimum.0 as u64 {
        return depth + order % 4294967296;
    }
    depth
}

// The key at which the depth of four orders, from the best one down, is first enough; 0 where it never is.
fn down(first: u64, second: u64, third: u64, last: u64, minimum: Contracts) -> u32
    requires { Descending first second third last × (1 ≤ minimum.0) }
    ensures { is_best (level_in (four first second third last) result) minimum.0 ≡ true }
{
    let m = minimum.0 as u64;
    let one = deeper(0, first, minimum);
    let two = deeper(one, second, minimum);
    let three = deeper(two, third, minimum);
    let four = deeper(three, last, minimum);
    let in_four = if m <= four { last } else { 0 };
    let in_three = if m <= three { third } else { in_four };
    let in_two = if m <= two { second } else { in_three };
    let in_one = if m <= one { first } else { in_two };
    (in_one / 4294967296) as u32
}

// 1 where a key is better than another, else 0.
fn above(key: u32, other: u32) -> u32
    ensures { (result ≡ (if ltb other key then 1 else 0)) × (result ≤ 1) }
{
    (other < key) as u32
}

// For how many orders volumes are added up, from the best one down: for each at a better key than the best one, and for the first at it.
fn counted(keys: &[u32], best: u32) -> u32
    requires { length keys.now ≡ 4 }
    ensures { result ≡ how_many (ltb best) keys.now + (if ltb 0 best then 1 else 0) }
{
    above(keys[0], best)
        + above(keys[1], best)
        + above(keys[2], best)
        + above(keys[3], best)
        + above(best, 0)
}

// The best key of four slots, orders or blanks.
pub fn best(keys: &[u32], volumes: &[u32], minimum: Contracts) -> KeyFound
    requires { (length keys.now ≡ 4) × Columns keys.now volumes.now × (1 ≤ minimum.0) }
    ensures { BestKeyFound keys.now volumes.now minimum.0 result }
{
    let a = packed(keys[0], volumes[0]);
    let b = packed(keys[1], volumes[1]);
    let c = packed(keys[2], volumes[2]);
    let d = packed(keys[3], volumes[3]);
    let (p, q) = (a.max(b), a.min(b));
    let (r, s) = (c.max(d), c.min(d));
    let (u, v) = (p.min(r), q.max(s));
    let key = down(p.max(r), u.max(v), u.min(v), q.min(s), minimum);
    KeyFound {
        key,
        sums: counted(keys, key),
    }
}
