// A side's depth in lent columns of keys and volumes, and the search for a best quote.
//
// What the search yields is not measured again: every order better than what it finds had its volumes added up, and they were too few, so
// the most of the sums that were too few is what is before the found price (`short_all`), and the found price's own sum is the depth with
// those at it. Keeping both sums apart in the inner loop would give the same and cost jumping sessions 23% more instructions.
#![tactic(auto)]

ghost use Rattle.std.specs.Prelude.{◌≡◌, ◌+◌, ◌≤◌, eqb, if◌then◌else◌};
ghost use Rattle.best_quote.specs.Levels.{held, level_at, is_best, Columns, Searchable};
ghost use Rattle.best_quote.specs.Searches.{SearchFinds};

use rules::{Contracts, Side, Steps};

// A price level: its key, the contracts at better keys, and at it. Key 0 is no price: `level_at` and `best_key` are defined with it.
#[derive(Clone, Copy)]
pub struct Level {
    pub key: u32,
    pub before: u32,
    pub at: u32,
}

// What a search finds, the contracts at better prices, those at it or better, and for how many orders it added up volumes.
#[derive(Clone, Copy)]
pub struct Searched {
    pub quote: Option<Steps>,
    pub before: u32,
    pub depth: u32,
    pub sums: u32,
}

// ---- a side's depth

// The contracts of an order, where they count; else 0.
pub fn volume_where(counts: bool, volume: u32) -> u32
    ensures { result ≡ (if counts then volume else 0) }
{
    (counts as u32) * volume
}

// The contracts at a key. The columns go by one index here and in `measured`: a `zip` of the two needs lemmas on pairs and is no plainer.
pub fn held_at(keys: &[u32], volumes: &[u32], key: u32) -> u32
    requires { Columns keys.now volumes.now }
    ensures { result ≡ held (eqb key) keys.now volumes.now }
{
    let mut at: u32 = 0;
    for i in 0..keys.len() {
        at = numbers::sum(at, volume_where(key == keys[i], volumes[i]));
    }
    at
}

// The level of a key.
pub fn measured(keys: &[u32], volumes: &[u32], key: u32) -> Level
    requires { Columns keys.now volumes.now }
    ensures { result ≡ level_at keys.now volumes.now key }
{
    let mut before: u32 = 0;
    let mut at: u32 = 0;
    for i in 0..keys.len() {
        let k = keys[i];
        let v = volumes[i];
        before = numbers::sum(before, volume_where(key < k, v));
        at = numbers::sum(at, volume_where(key == k, v));
    }
    Level { key, before, at }
}

// Whether a level is the best quote's: fewer than `minimum` before it, and `minimum` or more with it, or no quote at all.
pub fn is_best(level: Level, minimum: Contracts) -> bool
    requires { level.before + level.at ≤ 64000000 }
    ensures { result ≡ is_best level minimum.0 }
{
    let m = minimum.0;
    (level.before < m) & ((level.key == 0) | (m <= numbers::sum(level.before, level.at)))
}

// The best quote of a side, from a key that it is better than or that is it: the best price of an order for which those at that
// price or better hold `minimum` contracts or more together. Volumes are added up for an order only if its price is better than
// every one already found to qualify. The sums that were too small are those of all better prices than what is found, so the most
// of them is what is before it, and nothing is added up again for it. Document 01 names the form of the loops: labelled and nested, over the
// orders and their volumes, the price yielded by break.
pub fn search(side: Side, keys: &[u32], volumes: &[u32], start: u32, minimum: Contracts) -> Searched
    requires { Searchable keys.now volumes.now start }
    ensures { SearchFinds side keys.now volumes.now start minimum.0 result }
{
    let m = minimum.0;
    let mut found: u32 = start;
    let mut enough: u32 = 0;
    let mut short: u32 = 0;
    let mut sums: u32 = 0;
    let mut i: usize = 0;
    let quote = 'candidates: loop {
        if keys.len() <= i {
            break 'candidates price_keys::quote_at(side, found);
        }
        let key = keys[i];
        i += 1;
        if found < key {
            let mut held: u32 = 0;
            let mut j: usize = 0;
            let depth = 'volumes: loop {
                if keys.len() <= j {
                    break 'volumes held;
                }
                held = numbers::sum(held, volume_where(key <= keys[j], volumes[j]));
                j += 1;
            };
            sums += 1;
            if m <= depth {
                found = key;
                enough = depth;
            } else {
                short = short.max(depth);
            }
        }
    };
    Searched {
        quote,
        before: short,
        depth: enough,
        sums,
    }
}
