// The open quantum of a month's words as it is now, written into a lent buffer for whoever shows it (specs/Views). The month's words stay as
// they were.
#![tactic(auto)]

ghost use Rattle.std.specs.Prelude.{◌≡◌, true, ◌&&◌, List, ◌*◌, ◌≤◌, eqb, ltb, length, get_or, if◌then◌else◌};
ghost use Rattle.rules.specs.declared.Side.TheVariants.{Buy};
ghost use Rattle.rules.specs.Quotes.{same};
ghost use Rattle.order_table.specs.Internal.{blank_order};
ghost use Rattle.month.specs.Words.{HoldsMonth};
ghost use Rattle.quantum_in_place.specs.Events.{HoldsQuantum, OfWords};
ghost use Rattle.month_in_place.specs.Entry.{may_be_month};
ghost use Rattle.month_view.specs.Views.{order_words, orders_words, quoting_words, Shown, Views};
ghost use Rattle.month_view.specs.Internal.{head_from, NextIn, Listed};

use month::{CELLS_AT, MONTH_WORDS, QUANTUM_AT};
use quantum::{NOTES_AT, OPENING_AT, QUANTUM_WORDS, TABLE_AT};
use rules::{Order, Side};

// Why nothing is written: the month's words are too few, or no month's, or the buffer's are too few.
#[derive(Clone, Copy, PartialEq, Eq, Debug)]
pub enum ViewError {
    WordsShort,
    NoMonth,
    BufferShort,
}

// ---- the orders

fn put_order(order: Order, into: &mut [u32])
    requires { length into.old ≡ 4 }
    ensures { into.new ≡ order_words order }
{
    let side = order.side;
    let price = order.price;
    let volume = order.volume;
    let four = [
        order.id,
        words::from_side(side),
        words::from_steps(price),
        volume.0,
    ];
    lent::copy(&four, into);
}

// 1 for a buy, 0 for a sell.
fn buys_of(side: Side) -> usize
    ensures { result ≡ (if same Buy side then 1 else 0) }
{
    match side {
        Side::Buy => 1,
        Side::Sell => 0,
    }
}

// Whether the buy at a place has the id, in the words of the buys. After the last there is none: a blank's id is 0.
fn buy_has(words: &[u32], place: usize, id: u32) -> bool
    requires { (length words.now ≡ 256) × (place ≤ 64) }
    ensures { result ≡ (ltb place (get_or words.now 192 0) && eqb (get_or words.now place 0) id) }
{
    let count = numbers::length(words[192]);
    (place < count) & (words[place] == id)
}

// The live order that follows so many buys and sells: the next buy where it has the id, else the next sell.
fn order_next(table: &[u32], id: u32, buys: usize, sells: usize) -> Order
    requires { NextIn table.now id buys sells }
    ensures { (p : NextIn table.now id buys sells) → result ≡ get_or p.placed.live p.placed.place blank_order }
{
    if buy_has(&table[0..256], buys, id) {
        return order_side::order_at(&table[0..256], Side::Buy, buys);
    }
    order_side::order_at(&table[256..512], Side::Sell, sells)
}

// The live orders, by their ids as they were added: the table has them by side, each side as they were added, so one walk with a place in
// each side is enough.
fn put_orders(table: &[u32], ids: &[u32], into: &mut [u32])
    requires { Listed table.now ids.now × (length into.old ≡ 4 * length ids.now) }
    ensures { (l : Listed table.now ids.now) → into.new ≡ orders_words l.live }
{
    let mut buys: usize = 0;
    for i in 0..ids.len() {
        let order = order_next(table, ids[i], buys, i - buys);
        let side = order.side;
        let from = 4 * i;
        let to = from + 4;
        put_order(order, &mut into[from..to]);
        buys += buys_of(side);
    }
}

// ---- the quantum

// The words in front of the orders': the row and what the spread limit depends on are among the quantum's notes.
fn put_head(day: u32, allowed: u32, state: u32, count: u32, quantum: &[u32], into: &mut [u32])
    requires { (length quantum.now ≡ 598) × (length into.old ≡ 17) }
    ensures { into.new ≡ head_from day allowed state count quantum.now }
{
    let first = [day];
    let last = [allowed, quantum[2], state, count];
    lent::copy(&first, &mut into[0..1]);
    lent::copy(&quantum[OPENING_AT..QUANTUM_WORDS], &mut into[1..13]);
    lent::copy(&last, &mut into[13..17]);
}

// The open quantum, from its words.
fn show(day: u32, allowed: u32, quantum: &[u32], buffer: &mut [u32]) -> Result<usize, ViewError>
    requires { HoldsQuantum quantum.now × (length quantum.now ≡ 598) }
    ensures { OfWords quantum.now (λ row spread events. Shown (quoting_words day allowed row spread events) buffer.old buffer.new result) }
{
    let count = order_table::count(&quantum[TABLE_AT..NOTES_AT]);
    let live = count as usize;
    let size = 17 + 4 * live;
    if buffer.len() < size {
        return Err(ViewError::BufferShort);
    }
    let state = order_table::state(&quantum[TABLE_AT..NOTES_AT], quantum[2]);
    put_head(day, allowed, state, count, quantum, &mut buffer[0..17]);
    put_orders(
        &quantum[TABLE_AT..NOTES_AT],
        &quantum[NOTES_AT..NOTES_AT + live],
        &mut buffer[17..size],
    );
    Ok(size)
}

// The state now, of a month's words: how many words were written, 0 with no quantum open.
pub fn view(words: &[u32], buffer: &mut [u32]) -> Result<usize, ViewError>
    requires { 2464 ≤ length words.now → may_be_month words.now ≡ true → HoldsMonth words.now }
    ensures { Views words.now buffer.old buffer.new result }
{
    if words.len() < MONTH_WORDS {
        return Err(ViewError::WordsShort);
    }
    if !month_in_place::may_be_month(words) {
        return Err(ViewError::NoMonth);
    }
    if words[0] == 0 {
        return Ok(0);
    }
    show(
        words[1] / 6 + 1,
        words[3],
        &words[QUANTUM_AT..CELLS_AT],
        buffer,
    )
}
