// The events on the live orders: an accepted one changes the orders and the best level of its side in the table's words, a refused one
// nothing.
#![tactic(auto)]

ghost use Rattle.std.specs.Prelude.{◌≡◌, List, ◌&&◌, ℕ, length, OnErr, if◌then◌else◌};
ghost use Rattle.rules.specs.declared.Order.{Order};
ghost use Rattle.rules.specs.declared.Millis.{Millis};
ghost use Rattle.rules.specs.declared.Event.TheVariants.{Amend, Cancel, Deal};
ghost use Rattle.lists.specs.Lists.{within};
ghost use Rattle.rules.specs.Units.{good_price, good_volume};
ghost use Rattle.order_table.specs.Table.{slot_in, Held, Holding};
ghost use Rattle.order_table.specs.Internal.{Represents, Located};
ghost use Rattle.record.specs.Fields.{read_fields};
ghost use Rattle.book.specs.EventAnswered.{FieldsAnswered, sent_by};
ghost use Rattle.book.specs.Internal.{add_of, order_with, order_by, Lessens, answered, Applied, AppliedRead, keeps_by};

use order_side::{BEST, COUNT, Change, WORDS};
use record::Fields;
use rules::{Contracts, Order, Refusal, Steps};

// What an accepted event changes on a side, buys 0 and sells 1.
#[derive(Clone, Copy)]
struct OnSide {
    s: usize,
    change: Change,
}

// ---- the events

// What an add and an amendment are refused for by 12.
fn in_range(price: Steps, volume: Contracts) -> bool
    ensures { result ≡ (good_price price.0 && good_volume volume.0) }
{
    ranges::price(price) & ranges::volume(volume)
}

// One more order, after the others of its side: refused by 10, 12 or 13, in this order.
fn add(table: &mut [u32], hints: &mut [u8], slot: usize, order: Order) -> Result<OnSide, Refusal>
    requires { Located table.old slot × (length hints.old ≡ 2048) }
    ensures { ((t : Millis) (minimum : ℕ) (live : List Order) → Represents table.old minimum live → slot ≡ slot_in order.id live → Applied (add_of t order) minimum live table.new (answered result)) × OnErr result (hints.new ≡ hints.old) }
{
    let side = order.side;
    let price = order.price;
    let volume = order.volume;
    if slot < 128 {
        return Err(Refusal::IdLive);
    }
    if in_range(price, volume) {
        if 64 <= order_table::count(table) {
            return Err(Refusal::TooManyOrders);
        }
        let s = order_table::side_number(side);
        order_table::note(hints, order.id, 64 * s + table[WORDS * s + COUNT] as usize);
        let change = order_side::add(&mut table[WORDS * s..WORDS * s + WORDS], order);
        return Ok(OnSide { s, change });
    }
    Err(Refusal::PriceOrVolumeOutOfRange)
}

// An order with another price and volume.
fn renewed(order: Order, price: Steps, volume: Contracts) -> Order
    ensures { result ≡ order_with order price volume }
{
    let side = order.side;
    Order {
        id: order.id,
        side,
        price,
        volume,
    }
}

// Another price and volume for the order in a slot, which keeps its id, its side and its place: refused by 11 or 12. An accepted one notes
// the slot, as a deal does that leaves something: the hints may know nothing of an order that was added before they were lent.
fn amend(
    table: &mut [u32],
    hints: &mut [u8],
    id: u32,
    slot: usize,
    price: Steps,
    volume: Contracts,
) -> Result<OnSide, Refusal>
    requires { Located table.old slot × (length hints.old ≡ 2048) }
    ensures { ((t : Millis) (id minimum : ℕ) (live : List Order) → Represents table.old minimum live → slot ≡ slot_in id live → Applied (Amend t id price volume) minimum live table.new (answered result)) × OnErr result (hints.new ≡ hints.old) }
{
    if 128 <= slot {
        return Err(Refusal::IdNotLive);
    }
    if in_range(price, volume) {
        let order = order_table::order_in(table, slot);
        let s = slot / 64;
        order_table::note(hints, id, slot);
        let change = order_side::replace_order(
            &mut table[WORDS * s..WORDS * s + WORDS],
            slot % 64,
            renewed(order, price, volume),
        );
        return Ok(OnSide { s, change });
    }
    Err(Refusal::PriceOrVolumeOutOfRange)
}

// The order in a slot is removed: refused by 11 where there is none. The orders after it move up, and the hints with them.
fn cancel(table: &mut [u32], hints: &mut [u8], slot: usize) -> Result<OnSide, Refusal>
    requires { Located table.old slot × (length hints.old ≡ 2048) }
    ensures { ((t : Millis) (id minimum : ℕ) (live : List Order) → Represents table.old minimum live → slot ≡ slot_in id live → Applied (Cancel t id) minimum live table.new (answered result)) × OnErr result (hints.new ≡ hints.old) }
{
    if 128 <= slot {
        return Err(Refusal::IdNotLive);
    }
    let s = slot / 64;
    let place = slot % 64;
    let change = order_side::remove(
        &mut table[WORDS * s..WORDS * s + WORDS],
        order_table::side_at(s),
        place,
    );
    order_table::rehint(table, hints, s, place);
    Ok(OnSide { s, change })
}

// The order's volume is lowered, or the order is removed where nothing remains: refused by 11, 12 or 14.
fn deal(
    table: &mut [u32],
    hints: &mut [u8],
    id: u32,
    slot: usize,
    volume: Contracts,
) -> Result<OnSide, Refusal>
    requires { Located table.old slot × (length hints.old ≡ 2048) }
    ensures { ((t : Millis) (id minimum : ℕ) (live : List Order) → Represents table.old minimum live → slot ≡ slot_in id live → Applied (Deal t id volume) minimum live table.new (answered result)) × OnErr result (hints.new ≡ hints.old) }
{
    if 128 <= slot {
        return Err(Refusal::IdNotLive);
    }
    if ranges::volume(volume) {
        let order = order_table::order_in(table, slot);
        let price = order.price;
        let held = order.volume.0;
        let dealt = volume.0;
        if held < dealt {
            return Err(Refusal::DealAboveLeft);
        }
        if held == dealt {
            return cancel(table, hints, slot);
        }
        let s = slot / 64;
        order_table::note(hints, id, slot);
        let change = order_side::replace_order(
            &mut table[WORDS * s..WORDS * s + WORDS],
            slot % 64,
            renewed(order, price, Contracts(held - dealt)),
        );
        return Ok(OnSide { s, change });
    }
    Err(Refusal::PriceOrVolumeOutOfRange)
}

// ---- the fields of a record

// Whether a kind adds an order.
fn is_add(kind: u32) -> bool
    ensures { result ≡ within 1 2 kind }
{
    (1 <= kind) & (kind <= 2)
}

// The order that the fields of an add say.
fn order_of(f: Fields) -> Order
    ensures { result ≡ order_by f }
{
    let price = f.price;
    let volume = f.volume;
    Order {
        id: f.id,
        side: words::to_side(f.kind),
        price,
        volume,
    }
}

// A cancel, a deal, or fields that say no event.
fn lessened(table: &mut [u32], hints: &mut [u8], slot: usize, f: Fields) -> Result<OnSide, Refusal>
    requires { Located table.old slot × (length hints.old ≡ 2048) × Lessens f }
    ensures { ((minimum : ℕ) (live : List Order) → Represents table.old minimum live → slot ≡ slot_in f.id live → AppliedRead (read_fields f) minimum live table.old table.new (answered result)) × OnErr result (hints.new ≡ hints.old) }
{
    let kind = f.kind;
    let volume = f.volume;
    if record::is_good(f) {
        if kind == 4 {
            return cancel(table, hints, slot);
        }
        return deal(table, hints, f.id, slot, volume);
    }
    Err(Refusal::BadRecord)
}

// The answer to the fields of a record that is no tick, and the orders after it; the best level of its side is still that of before. The
// kind is looked at once: what 15 refuses is looked for only where it is neither an add's nor an amendment's.
fn changed(table: &mut [u32], hints: &mut [u8], f: Fields) -> Result<OnSide, Refusal>
    requires { Held table.old × (length hints.old ≡ 2048) × (f.kind ≡ 6 → ⊥) }
    ensures { ((minimum : ℕ) (live : List Order) → Represents table.old minimum live → AppliedRead (read_fields f) minimum live table.old table.new (answered result)) × OnErr result (hints.new ≡ hints.old) }
{
    let kind = f.kind;
    let price = f.price;
    let volume = f.volume;
    let slot = order_table::find(table, hints, f.id);
    if kind == 3 {
        return amend(table, hints, f.id, slot, price, volume);
    }
    if is_add(kind) {
        return add(table, hints, slot, order_of(f));
    }
    lessened(table, hints, slot, f)
}

// What an accepted event comes to: whether the live orders then keep the quote, 1 or 0 (a number, since time is counted by a product with
// it), and for how many orders volumes were added up for the best quote of its side.
#[derive(Clone, Copy)]
pub struct Sent {
    pub keeps: u32,
    pub sums: u32,
}

// Whether the quote is kept after a requote: as before where no best key moved.
fn keeps_after(table: &[u32], widest: u32, keeping: u32, moves: bool) -> u32
    requires { length table.now ≡ 512 }
    ensures { result ≡ (if moves then keeps_by widest table.now else keeping) }
{
    if moves {
        return u32::from(price_keys::keys_keep(widest, table[BEST], table[WORDS + BEST]));
    }
    keeping
}

// An event that is no tick, by the fields of its record: refused, or the orders and the best level of its side are those after it; fields
// that say no event are refused by 15. `keeping` is whether the orders before it keep the quote. Whatever the hints contain, the answer
// and the table are the same; a refusal leaves the hints too.
pub fn send(
    table: &mut [u32],
    hints: &mut [u8],
    f: Fields,
    minimum: Contracts,
    widest: u32,
    keeping: u32,
) -> Result<Sent, Refusal>
    requires { Holding table.old hints.old minimum.0 × (f.kind ≡ 6 → ⊥) }
    ensures answered { FieldsAnswered (read_fields f) minimum.0 widest keeping table.old table.new (sent_by keeping result) }
    ensures err { OnErr result (hints.new ≡ hints.old) }
{
    let on = changed(table, hints, f)?;
    let s = on.s;
    let side = order_table::side_at(s);
    let requoted = best_level::requote(
        &mut table[WORDS * s..WORDS * s + WORDS],
        side,
        on.change,
        minimum,
    );
    Ok(Sent {
        keeps: keeps_after(table, widest, keeping, requoted.moves),
        sums: requoted.sums,
    })
}
