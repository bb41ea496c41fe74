// The best level of a side after one of its orders changed: carried where it still holds, else guessed (next to the old one, or where the
// order went), else searched; that of a small side by its own search. Document 02, W3: volumes are added up only for a live order whose
// price is better than every one already found to qualify, and their number is answered (specs/Candidates).
//
// The best level is its key, the contracts strictly better and those at it. An event moves both sums by one order's volume before and after.
// That is what the old meter did, and drifted; here the three words are by contract a function of the live orders. While fewer than M are
// strictly better and M or more are there with it, the quote stays and nothing is added up. Otherwise the next better key is tried where M
// or more are strictly better, the next worse one where the depth is below M; only the contracts at that key are added up, since no order
// is between. A second step is omitted where the contracts at the first are less than an eighth of what is then missing, or too much. The
// changed order's key is tried where the best level can be there. The search starts from the best price found so far.
#![tactic(auto)]

ghost use Rattle.std.specs.Prelude.{◌≡◌, ◌&&◌, true, false, List, ℕ, ◌+◌, ◌-◌, ◌≤◌, min, max, ltb, eqb, length, get_or, take, drop, if◌then◌else◌};
ghost use Rattle.best_quote.specs.Levels.{level_at, is_best, Columns, Searchable};
ghost use Rattle.order_side.specs.Slots.{Slot, level_in, GoodSlots};
ghost use Rattle.order_side.specs.Internal.{StaleLevel, Changed, brings};
ghost use Rattle.best_level.specs.Requotes.{Requotes};
ghost use Rattle.best_level.specs.Candidates.{key_above, key_below, lacking_at, falls_short, can_be_best};
ghost use Rattle.best_level.specs.Internal.{IsLevel, SumFits, LevelBefore, level_read, found_at, next_level, step_farther, at_change, BestLevelFound, Open, Searches, FifthSide, with_level, put_level};
ghost use Rattle.best_level.specs.Small.{SmallSide, SmallMoved};

use best_quote::Level;
use order_side::{AT, BEFORE, BEST, COUNT, Change, KEYS, VOLUMES};
use rules::{Contracts, Side};

// What a requote did: whether the best key may have moved, and for how many orders volumes were added up. The number is promised in both
// cases (`Requotes`), so the two are no Option.
#[derive(Clone, Copy)]
pub struct Requoted {
    pub moves: bool,
    pub sums: u32,
}

// A sum of contracts that gains and loses, modulo 2^32 as all sums of volumes are: what it gains may be what it loses.
fn changed(sum: u32, gained: u32, lost: u32) -> u32
    requires { SumFits sum gained lost }
    ensures { result ≡ sum + gained - lost }
{
    sum.wrapping_add(gained).wrapping_sub(lost)
}

// A level after a change of one order.
fn moved(level: Level, change: Change) -> Level
    requires { LevelBefore level change }
    ensures { (before after : List Slot) → GoodSlots before → GoodSlots after → IsLevel before level → Changed change before after → result ≡ level_in after level.key }
{
    let best = level.key;
    let old = change.old;
    let key = change.key;
    let held = change.held;
    let volume = change.volume;
    let before = changed(
        level.before,
        best_quote::volume_where(best < key, volume.0),
        best_quote::volume_where(best < old, held.0),
    );
    let at = changed(
        level.at,
        best_quote::volume_where(best == key, volume.0),
        best_quote::volume_where(best == old, held.0),
    );
    Level {
        key: best,
        before,
        at,
    }
}

// ---- the keys next to one

// Whether a key is worse than another. Keys fit 31 bits, and a processor compares several numbers at once sooner with a sign. The lesser and
// the greater of two by this test are not std's `min` and `max` on i32: with those deep sessions take 393 instructions a record in place of
// 383 (callgrind).
fn under(a: u32, b: u32) -> bool
    requires { (a ≤ 2000000001) × (b ≤ 2000000001) }
    ensures { result ≡ ltb a b }
{
    (a as i32) < (b as i32)
}

fn lesser(a: u32, b: u32) -> u32
    requires { (a ≤ 2000000001) × (b ≤ 2000000001) }
    ensures { result ≡ min a b }
{
    if under(b, a) {
        return b;
    }
    a
}

fn greater(a: u32, b: u32) -> u32
    requires { (a ≤ 2000000001) × (b ≤ 2000000001) }
    ensures { result ≡ max a b }
{
    if under(a, b) {
        return b;
    }
    a
}

// The next better key, or the best one that there can be. `below` is its mirror: the test, the choice and the end are all the other way
// round, so one function for both would take the three of them as arguments and be no plainer.
fn above(keys: &[u32], key: u32) -> u32
    requires { ((i : ℕ) → get_or keys.now i 0 ≤ 2000000001) × (key ≤ 2000000001) }
    ensures { result ≡ key_above key keys.now }
{
    let mut next: u32 = 2000000001;
    for &k in keys {
        let better = if under(key, k) { k } else { 2000000001 };
        next = lesser(next, better);
    }
    next
}

// The next worse key, or none.
fn below(keys: &[u32], key: u32) -> u32
    requires { ((i : ℕ) → get_or keys.now i 0 ≤ 2000000001) × (key ≤ 2000000001) }
    ensures { result ≡ key_below key keys.now }
{
    let mut next: u32 = 0;
    for &k in keys {
        let worse = if under(k, key) { k } else { 0 };
        next = greater(next, worse);
    }
    next
}

// ---- guesses

// A level that is tried, the best price found to qualify so far, 0 for none, and the number of sums made.
#[derive(Clone, Copy)]
struct Guess {
    level: Level,
    start: u32,
    sums: u32,
}

// The best price found to qualify, with one more level.
fn qualified(level: Level, start: u32, minimum: Contracts) -> u32
    requires { level.before + level.at ≤ 64000000 }
    ensures { result ≡ found_at minimum.0 start level }
{
    if minimum.0 <= numbers::sum(level.before, level.at) {
        return level.key;
    }
    start
}

// A level is tried after a guess: by one sum, or by none where no order has its key, that of no price.
fn tried(guess: Guess, level: Level, minimum: Contracts) -> Guess
    requires { (level.before + level.at ≤ 64000000) × (guess.sums ≤ 8) }
    ensures { result ≡ with_level guess level minimum.0 }
{
    Guess {
        level,
        start: qualified(level, guess.start, minimum),
        sums: guess.sums + best_quote::volume_where(0 < level.key, 1),
    }
}

// The level next to one that is not the best, in the direction of the best one: only the orders at it are added up, since there is none
// between the two. Where no key is left below, nothing is added up.
fn stepped(keys: &[u32], volumes: &[u32], level: Level, minimum: Contracts) -> Level
    requires { Searchable keys.now volumes.now level.key × (level ≡ level_at keys.now volumes.now level.key) × (is_best level minimum.0 ≡ false) × (1 ≤ minimum.0) × Open minimum.0 keys.now volumes.now 0 }
    ensures { result ≡ next_level minimum.0 keys.now volumes.now level }
{
    if minimum.0 <= level.before {
        let up = above(keys, level.key);
        let there = best_quote::held_at(keys, volumes, up);
        return Level {
            key: up,
            before: numbers::difference(level.before, there),
            at: there,
        };
    }
    let down = below(keys, level.key);
    if down == 0 {
        return Level {
            key: 0,
            before: numbers::sum(level.before, level.at),
            at: 0,
        };
    }
    Level {
        key: down,
        before: numbers::sum(level.before, level.at),
        at: best_quote::held_at(keys, volumes, down),
    }
}

// How many contracts too many are before a level that is not the best, or how many are missing at it or better.
fn lacking(level: Level, minimum: Contracts) -> u32
    requires { level.before + level.at ≤ 64000000 }
    ensures { result ≡ lacking_at level minimum.0 }
{
    if minimum.0 <= level.before {
        return level.before - minimum.0;
    }
    minimum
        .0
        .saturating_sub(numbers::sum(level.before, level.at))
}

// Whether another step is not worth it: the contracts at the level are less than an eighth of what it lacks, so that the best one is likely
// far.
fn falls_short(level: Level, minimum: Contracts) -> bool
    requires { level.before + level.at ≤ 64000000 }
    ensures { result ≡ falls_short level minimum.0 }
{
    8 * u64::from(level.at) < u64::from(lacking(level, minimum))
}

// One step more from a guess that is not the best, where it is worth it.
fn farther(keys: &[u32], volumes: &[u32], guess: Guess, minimum: Contracts) -> Guess
    requires { Searchable keys.now volumes.now guess.level.key × (guess.level ≡ level_at keys.now volumes.now guess.level.key) × (is_best guess.level minimum.0 ≡ false) × (1 ≤ minimum.0) × Open minimum.0 keys.now volumes.now 0 × (guess.sums ≤ 8) }
    ensures { result ≡ step_farther minimum.0 keys.now volumes.now guess }
{
    let level = guess.level;
    if falls_short(level, minimum) {
        return guess;
    }
    tried(guess, stepped(keys, volumes, level, minimum), minimum)
}

// Whether the best level can be at a key, as seen from a level that is not the best: above it where enough are before it, else below it.
fn can_be_best(level: Level, key: u32, minimum: Contracts) -> bool
    ensures { result ≡ can_be_best level key minimum.0 }
{
    if minimum.0 <= level.before {
        return level.key < key;
    }
    (0 < key) & (key < level.key)
}

// The changed order's key is tried, where the best level can be there: an order that jumps mostly takes the best quote with it.
fn at_change(keys: &[u32], volumes: &[u32], guess: Guess, key: u32, minimum: Contracts) -> Guess
    requires { Columns keys.now volumes.now × (guess.sums ≤ 8) }
    ensures { result ≡ at_change minimum.0 keys.now volumes.now guess key }
{
    if can_be_best(guess.level, key, minimum) {
        return tried(guess, best_quote::measured(keys, volumes, key), minimum);
    }
    guess
}

// ---- the search

// The level by the search, from the best price found to qualify, or from none. Where it finds nothing better, that is from none, and all
// the contracts of the side are before no quote.
fn by_search(
    side: Side,
    keys: &[u32],
    volumes: &[u32],
    guess: Guess,
    minimum: Contracts,
) -> LevelFound
    requires { Searchable keys.now volumes.now guess.start × Open minimum.0 keys.now volumes.now guess.start × (1 ≤ minimum.0) × (guess.sums ≤ 8) }
    ensures { Searches minimum.0 keys.now volumes.now guess.start guess.sums result }
{
    let found = best_quote::search(side, keys, volumes, guess.start, minimum);
    let quote = found.quote;
    LevelFound {
        level: Level {
            key: price_keys::quote_key(side, quote),
            before: found.before,
            at: found.depth.saturating_sub(found.before),
        },
        sums: guess.sums + found.sums,
    }
}

// A best level, and for how many orders volumes were added up for it.
#[derive(Clone, Copy)]
struct LevelFound {
    level: Level,
    sums: u32,
}

fn taken(guess: Guess) -> LevelFound
    ensures { result ≡ record { level = guess.level; sums = guess.sums } }
{
    let level = guess.level;
    LevelFound {
        level,
        sums: guess.sums,
    }
}

// The best level from one that is not: one step from it, or two, or at the changed order's key, or by the search.
fn sought(
    side: Side,
    keys: &[u32],
    volumes: &[u32],
    old: Level,
    key: u32,
    minimum: Contracts,
) -> LevelFound
    requires { Searchable keys.now volumes.now old.key × (old ≡ level_at keys.now volumes.now old.key) × (is_best old minimum.0 ≡ false) × (1 ≤ minimum.0) × Open minimum.0 keys.now volumes.now 0 }
    ensures { BestLevelFound minimum.0 keys.now volumes.now old key result }
{
    let known = Guess {
        level: old,
        start: 0,
        sums: 0,
    };
    let first = tried(known, stepped(keys, volumes, old, minimum), minimum);
    let next = first.level;
    if best_quote::is_best(next, minimum) {
        return taken(first);
    }
    let second = farther(keys, volumes, first, minimum);
    let near = second.level;
    if best_quote::is_best(near, minimum) {
        return taken(second);
    }
    let last = at_change(keys, volumes, second, key, minimum);
    let far = last.level;
    if best_quote::is_best(far, minimum) {
        return taken(last);
    }
    by_search(side, keys, volumes, last, minimum)
}

// ---- the words of a side

// The side's best level as it was last put.
fn level_of(words: &[u32]) -> Level
    requires { length words.now ≡ 256 }
    ensures { result ≡ level_read words.now }
{
    Level {
        key: words[BEST],
        before: words[BEFORE],
        at: words[AT],
    }
}

// Whether the fifth order of a side came: before it the side was small, and kept only its best key.
fn is_fifth(count: u32, change: Change) -> bool
    ensures { result ≡ (eqb count 5 && brings change) }
{
    (count == 5) & ((change.old == 0) & (0 < change.key))
}

// The best level is written into the side's words.
fn put_level(words: &mut [u32], level: Level)
    requires { length words.old ≡ 256 }
    ensures { words.new ≡ put_level level words.old }
{
    words[BEST] = level.key;
    words[BEFORE] = level.before;
    words[AT] = level.at;
}

// The best key of a small side, by its own search; its depths are not kept.
fn by_small(words: &mut [u32], minimum: Contracts) -> Requoted
    requires { SmallSide words.old minimum.0 }
    ensures { SmallMoved words.old minimum.0 words.new result }
{
    let few = small_side::best(
        &words[KEYS..KEYS + 4],
        &words[VOLUMES..VOLUMES + 4],
        minimum,
    );
    put_level(
        words,
        Level {
            key: few.key,
            before: 0,
            at: 0,
        },
    );
    Requoted {
        moves: true,
        sums: few.sums,
    }
}

// The best level that was found is put.
fn settled(words: &mut [u32], found: LevelFound) -> Requoted
    requires { length words.old ≡ 256 }
    ensures { (words.new ≡ put_level found.level words.old) × (result ≡ record { moves = true; sums = found.sums }) }
{
    let level = found.level;
    put_level(words, level);
    Requoted {
        moves: true,
        sums: found.sums,
    }
}

// The best level of a side to which the fifth order came, by the search from none: a small side keeps no level that could be carried.
fn by_fifth(words: &[u32], side: Side, minimum: Contracts) -> LevelFound
    requires { FifthSide words.now minimum.0 }
    ensures { Searches minimum.0 (take 8 (drop 64 words.now)) (take 8 (drop 128 words.now)) 0 0 result }
{
    let none = Guess {
        level: Level {
            key: 0,
            before: 0,
            at: 0,
        },
        start: 0,
        sums: 0,
    };
    by_search(
        side,
        &words[KEYS..KEYS + 8],
        &words[VOLUMES..VOLUMES + 8],
        none,
        minimum,
    )
}

// The best level moves to where it belongs after a change.
pub fn requote(words: &mut [u32], side: Side, change: Change, minimum: Contracts) -> Requoted
    requires { StaleLevel words.old change minimum.0 × (1 ≤ minimum.0) }
    ensures { (m : StaleLevel words.old change minimum.0) → Requotes minimum.0 m.before m.after change words.new result }
{
    let count = words[COUNT];
    if count <= 4 {
        return by_small(words, minimum);
    }
    if is_fifth(count, change) {
        let fifth = by_fifth(words, side, minimum);
        return settled(words, fifth);
    }
    let old = moved(level_of(words), change);
    if best_quote::is_best(old, minimum) {
        put_level(words, old);
        return Requoted {
            moves: false,
            sums: 0,
        };
    }
    let to = order_side::room(count);
    let best = sought(
        side,
        &words[KEYS..KEYS + to],
        &words[VOLUMES..VOLUMES + to],
        old,
        change.key,
        minimum,
    );
    settled(words, best)
}
