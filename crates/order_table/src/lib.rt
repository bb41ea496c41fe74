// The live orders of both sides in 512 lent words (specs/Table has their layout), and what is read off them: an order by its id, the best
// quotes, the state. `hints` has 2,048 bytes that say where an id was last found; nothing rests on it.
//
// Why it is laid out so: a side's orders are at the front of its columns in the order in which they were added, zeros after them, so that
// the table is a function of the book's list (`side_of`, `table_of`) and an event's contract is one equation. The session's loop owns the
// table and lends it; the month's quantum holds it by value, lends a copy and puts it back.
//
// A hint is a byte for each id modulo 2,048 that says where such an id was last found. The word there is compared with the id, and nothing
// else rests on the hint; otherwise both sides are scanned without branches.
#![tactic(auto)]

ghost use Rattle.std.specs.Prelude.{◌≡◌, List, [], ◌&&◌, not, ℕ, ◌+◌, ◌-◌, ◌*◌, ◌≤◌, ◌<◌, eqb, length, get_or};
ghost use Rattle.rules.specs.declared.Order.{Order};
ghost use Rattle.rules.specs.declared.Row.{Row};
ghost use Rattle.rules.specs.declared.SpreadRule.{SpreadRule};
ghost use Rattle.lists.specs.Lists.{any};
ghost use Rattle.rules.specs.Orders.{has_id, is_live};
ghost use Rattle.rules.specs.Quotes.{same, best as bestQuote};
ghost use Rattle.rules.specs.States.{state_word, orders_state};
ghost use Rattle.price_keys.specs.Widest.{WidestFor};
ghost use Rattle.order_table.specs.Table.{table_of, slot_by, slot_in, GoodOrders, Held};
ghost use Rattle.order_table.specs.Internal.{Numbers, side_at, order_in, Represents, Located, Placed, noted, rehinted};

use order_side::{BEST, COUNT, WORDS};
use rules::{Order, Side, Steps};

// The words of the table: the buys', then the sells'.
const TABLE: usize = 512;

// The number of hints.
const HINTS: u32 = 2048;

// ---- sides and slots

// Buys are 0, sells 1: by this number the words of a side are found.
pub fn side_number(side: Side) -> usize
    ensures { Numbers side result }
{
    match side {
        Side::Buy => 0,
        Side::Sell => 1,
    }
}

pub fn side_at(s: usize) -> Side
    ensures { result ≡ side_at s }
{
    if s == 0 {
        return Side::Buy;
    }
    Side::Sell
}

// The number of live orders.
pub fn count(table: &[u32]) -> u32
    requires { Held table.now }
    ensures { (minimum : ℕ) (live : List Order) → GoodOrders live → table.now ≡ table_of minimum live → result ≡ length live }
{
    table[COUNT] + table[WORDS + COUNT]
}

// Whether a live order of the other side has the id.
pub fn on_other_side(table: &[u32], side: Side, id: u32) -> bool
    requires { Held table.now }
    ensures { (minimum : ℕ) (live : List Order) → GoodOrders live → table.now ≡ table_of minimum live → result ≡ any (λ (o : Order). has_id id o && not (same side o.side)) live }
{
    let s = 1 - side_number(side);
    0 < order_side::located(&table[WORDS * s..WORDS * s + WORDS], id)
}

// The slot of what the scans of both sides found, or 128; buys have 0 to 63, sells 64 to 127. A slot is a number and no Option: with one a
// record takes 226 instructions in place of 220 in busy sessions, 261 in place of 256 in mixed ones (callgrind).
fn slot_of(buys: u32, sells: u32) -> usize
    ensures { result ≡ slot_by buys sells }
{
    if 0 < buys {
        return (buys - 1) as usize;
    }
    if 0 < sells {
        return 63 + (sells as usize);
    }
    128
}

// Whether a live order has the id, by scans of both sides: no hint is read.
pub fn has(table: &[u32], id: u32) -> bool
    requires { Held table.now }
    ensures { (minimum : ℕ) (live : List Order) → GoodOrders live → table.now ≡ table_of minimum live → result ≡ is_live id live }
{
    let slot = slot_of(
        order_side::located(&table[0..WORDS], id),
        order_side::located(&table[WORDS..TABLE], id),
    );
    slot < 128
}

// Whether a word of the table is the id of an order; a blank's is 0.
fn names(word: u32, id: u32) -> bool
    ensures { result ≡ (eqb word id && not (eqb id 0)) }
{
    (word == id) & (id != 0)
}

// Where an id was last found.
pub fn note(hints: &mut [u8], id: u32, slot: usize)
    requires { (length hints.old ≡ 2048) × (slot ≤ 128) }
    ensures { hints.new ≡ noted hints.old id slot }
{
    hints[(id % HINTS) as usize] = slot as u8;
}

// The slot of the order with the id, or 128: the one that was last found for an id like this, if the order is there. Nothing is noted here:
// an event that is refused leaves the hints.
pub fn find(table: &[u32], hints: &[u8], id: u32) -> usize
    requires { Held table.now × (length hints.now ≡ 2048) }
    ensures { (minimum : ℕ) (live : List Order) → Represents table.now minimum live → result ≡ slot_in id live }
{
    let hint = (hints[(id % HINTS) as usize] % 128) as usize;
    let word = table[WORDS * (hint / 64) + hint % 64];
    if names(word, id) {
        return hint;
    }
    slot_of(
        order_side::located(&table[0..WORDS], id),
        order_side::located(&table[WORDS..TABLE], id),
    )
}

// A side's orders from a place on are where they are now.
pub fn rehint(table: &[u32], hints: &mut [u8], s: usize, place: usize)
    requires { Placed table.now hints.old s }
    ensures { hints.new ≡ rehinted table.now s place (get_or table.now (256 * s + 192) 0 - place) hints.old }
{
    let to = table[WORDS * s + COUNT] as usize;
    for i in place..to {
        note(hints, table[WORDS * s + i], 64 * s + i);
    }
}

// The order in a slot.
pub fn order_in(table: &[u32], slot: usize) -> Order
    requires { Located table.now slot × (slot < 128) }
    ensures { (id minimum : ℕ) (live : List Order) → Represents table.now minimum live → slot ≡ slot_in id live → result ≡ order_in slot live }
{
    let s = slot / 64;
    order_side::order_at(&table[WORDS * s..WORDS * s + WORDS], side_at(s), slot % 64)
}

// ---- the quotes

// The word of the live orders' state, by the row's spread limit.
pub fn state(table: &[u32], widest: u32) -> u32
    requires { length table.now ≡ 512 }
    ensures { (row : Row) (sp : SpreadRule) (live : List Order) → GoodOrders live → table.now ≡ table_of row.minimum.0 live → WidestFor row sp widest → result ≡ state_word (orders_state row sp live) }
{
    price_keys::keys_state(widest, table[BEST], table[WORDS + BEST])
}

// The best quote of a side.
pub fn best(table: &[u32], side: Side) -> Option<Steps>
    requires { Held table.now }
    ensures { (minimum : ℕ) (live : List Order) → GoodOrders live → table.now ≡ table_of minimum live → result ≡ bestQuote side minimum live }
{
    let s = side_number(side);
    price_keys::quote_at(side, table[WORDS * s + BEST])
}

// The table of no orders.
pub fn empty() -> [u32; 512]
    ensures { (minimum : ℕ) → result ≡ table_of minimum [] }
{
    [0u32; TABLE]
}
