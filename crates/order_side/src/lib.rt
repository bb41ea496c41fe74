// The live orders of one side in 256 lent words (specs/Slots has their layout): found by id, read, added, changed, removed. An order is an
// `Order` wherever it is taken or returned; the words are how it is stored. The best level is among the words too, and is moved by the crate
// best_level. Prices are keys: the better one is the greater, 0 is no price (crate price_keys).
#![tactic(auto)]

ghost use Rattle.std.specs.Prelude.{◌≡◌, true, List, ◌+◌, ◌*◌, ◌/◌, ◌≤◌, ◌<◌, length, get_or};
ghost use Rattle.rules.specs.Units.{good_price};
ghost use Rattle.best_quote.specs.declared.Level.{Level};
ghost use Rattle.price_keys.specs.Keys.{key_in};
ghost use Rattle.order_side.specs.Slots.{Slot, slot_of, order_of, side_of, seen_from, seen};
ghost use Rattle.order_side.specs.Internal.{Sized, HasOrder, Added, OrderReplaced, Removed, slot_at, stored, shifted};

use rules::{Contracts, Order, Side};

// What an event does to a side: an order that had `old` and `held` has `key` and `volume`, where none has 0 and 0.
#[derive(Clone, Copy)]
pub struct Change {
    pub old: u32,
    pub held: Contracts,
    pub key: u32,
    pub volume: Contracts,
}

// The places of a side's words (specs/Slots): where the columns of ids, keys and volumes start; in the last column the number of
// orders and the best level, which is its key, the contracts at better keys, and those at it; and how many words there are.
pub const IDS: usize = 0;

pub const KEYS: usize = 64;

pub const VOLUMES: usize = 128;

pub const COUNT: usize = 192;

pub const BEST: usize = 193;

pub const BEFORE: usize = 194;

pub const AT: usize = 195;

pub const WORDS: usize = 256;

// ---- the orders

// The slots of so many orders, in whole groups of eight: the blanks among them change no sum.
pub fn room(count: u32) -> usize
    requires { count ≤ 64 }
    ensures { result ≡ (count + 7) / 8 * 8 }
{
    ((count + 7) / 8 * 8) as usize
}

// 1 + the place of the id, or 0: ids are distinct, so the places where it is add up to that, with no branch. The clause promises the sum for
// whatever ids, so this is no `position`; with it jumping sessions take 1,021 instructions a record in place of 1,007 (callgrind).
pub fn scan(ids: &[u32], id: u32) -> u32
    requires { length ids.now ≤ 64 }
    ensures { result ≡ seen_from 1 id ids.now }
{
    let mut found: u32 = 0;
    for (i, &own) in ids.iter().enumerate() {
        found += best_quote::volume_where(own == id, i as u32 + 1);
    }
    found
}

// 1 + the place of the order with the id, or 0. A blank's id is 0, so that id alone is looked for among the orders exactly.
pub fn located(words: &[u32], id: u32) -> u32
    requires { Sized words.now }
    ensures { (slots : List Slot) (level : Level) → length slots ≤ 64 → words.now ≡ side_of slots level → result ≡ seen id slots }
{
    let count = words[COUNT];
    if id == 0 {
        return scan(&words[IDS..count as usize], id);
    }
    scan(&words[IDS..room(count)], id)
}

// The order at a place of a side: its price is that of its key.
pub fn order_at(words: &[u32], side: Side, place: usize) -> Order
    requires { HasOrder place words.now }
    ensures { result ≡ order_of side (slot_at place words.now) }
{
    Order {
        id: words[place],
        side,
        price: price_keys::price_at(side, words[KEYS + place]),
        volume: Contracts(words[VOLUMES + place]),
    }
}

// The key of an order's price.
fn key_in(order: Order) -> u32
    requires { good_price order.price.0 ≡ true }
    ensures { result ≡ key_in order.side order }
{
    let side = order.side;
    let price = order.price;
    price_keys::key_of(side, price)
}

// An order is written at a place.
fn store(words: &mut [u32], place: usize, order: Order)
    requires { (length words.old ≡ 256) × (place < 64) × (good_price order.price.0 ≡ true) }
    ensures { words.new ≡ stored place (slot_of order.side order) words.old }
{
    let key = key_in(order);
    words[place] = order.id;
    words[KEYS + place] = key;
    words[VOLUMES + place] = order.volume.0;
}

// An order more, behind the others: what its side gains, and loses nothing.
pub fn add(words: &mut [u32], order: Order) -> Change
    requires { (length words.old ≡ 256) × (get_or words.old 192 0 < 64) × (good_price order.price.0 ≡ true) }
    ensures { Added order words.old words.new result }
{
    let count = words[COUNT];
    let volume = order.volume;
    store(words, count as usize, order);
    words[COUNT] = count + 1;
    Change {
        old: 0,
        held: Contracts(0),
        key: key_in(order),
        volume,
    }
}

// An order in the place of the one that stands there: what its side loses and gains.
pub fn replace_order(words: &mut [u32], place: usize, order: Order) -> Change
    requires { HasOrder place words.old × (good_price order.price.0 ≡ true) }
    ensures { OrderReplaced place order words.old words.new result }
{
    let side = order.side;
    let volume = order.volume;
    let before = order_at(words, side, place);
    let lost = before.volume;
    store(words, place, order);
    Change {
        old: key_in(before),
        held: lost,
        key: key_in(order),
        volume,
    }
}

// What stands behind a place of a column moves up to it, and the last one is 0.
pub fn shift(column: &mut [u32], place: usize, last: usize)
    requires { (place ≤ last) × (last < length column.old) }
    ensures { column.new ≡ shifted column.old place last }
{
    for i in place..last {
        column[i] = column[i + 1];
    }
    column[last] = 0;
}

// The order at a place goes; those behind it move up, so that the orders stay in the order in which they were added.
pub fn remove(words: &mut [u32], side: Side, place: usize) -> Change
    requires { Sized words.old × (place < get_or words.old 192 0) × HasOrder place words.old }
    ensures { Removed place words.old words.new result }
{
    let order = order_at(words, side, place);
    let held = order.volume;
    let rest = words[COUNT].saturating_sub(1);
    shift(&mut words[IDS..KEYS], place, rest as usize);
    shift(&mut words[KEYS..VOLUMES], place, rest as usize);
    shift(&mut words[VOLUMES..COUNT], place, rest as usize);
    words[COUNT] = rest;
    Change {
        old: key_in(order),
        held,
        key: 0,
        volume: Contracts(0),
    }
}
