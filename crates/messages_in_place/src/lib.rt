// A FIX message (W11) and a commit on the words of a month, in place: what refuses them is known before anything is written, so a message's
// two events are taken both or neither, and nothing is copied.
#![tactic(auto)]

ghost use Rattle.std.specs.Prelude.{◌≡◌, ◌&&◌, not, ◌≤◌, ◌<◌, eqb, ltb, length};
ghost use Rattle.lists.specs.Lists.{any};
ghost use Rattle.rules.specs.declared.Order.{Order};
ghost use Rattle.rules.specs.declared.Event.TheVariants.{Cancel};
ghost use Rattle.rules.specs.Units.{good_price, good_volume};
ghost use Rattle.rules.specs.Answers.{number_of};
ghost use Rattle.rules.specs.Orders.{has_id, is_live, live};
ghost use Rattle.rules.specs.Quotes.{same};
ghost use Rattle.rules.specs.Messages.{cancel_order};
ghost use Rattle.rules.specs.Calls as B;
ghost use Rattle.rules.specs.Calls.{amend_of};
ghost use Rattle.fix_dates.specs.Answers.{timely};
ghost use Rattle.fix_reader.specs.Answers.{timed_shown};
ghost use Rattle.quantum_in_place.specs.Events.{HoldsQuantum};
ghost use Rattle.month.specs.Words.{HoldsMonth};
ghost use Rattle.month_in_place.specs.Events.{ChangesMonth};
ghost use Rattle.messages_in_place.specs.Internal.{first_of_two, number_where, none_open_or, OfEvents, untimely as untimely_by, Refuses, RefusesThen, add_of, new_at, replaced_at, MessageChanges, TimedChanges, BothOrNeither};

use fix_dates::Moment;
use fix_reader::{Message, Timed};
use month::{CELLS_AT, QUANTUM_AT};
use numbers::both;
use quantum::{NOTES_AT, TABLE_AT};
use rules::{Amendment, Contracts, Event, Millis, Order, Refusal, Side, Steps, Ticket};

// ---- numbers of refusals

// The first of two that is not 0.
fn first_of(a: u32, b: u32) -> u32
    ensures { result ≡ first_of_two a b }
{
    if 0 < a {
        return a;
    }
    b
}

// The refusal's number where its cause applies, else 0.
fn number_where(applies: bool, refusal: Refusal) -> u32
    ensures { result ≡ number_where applies refusal }
{
    if applies {
        return u32::from(refusal);
    }
    0
}

// By the month's first word: with no quantum open that refusal comes first.
fn none_open_or(flag: u32, refusal: Refusal) -> u32
    ensures { result ≡ none_open_or flag (number_of refusal) }
{
    if flag == 0 {
        return u32::from(Refusal::NoQuantumOpen);
    }
    u32::from(refusal)
}

fn below(a: u32, b: u32) -> bool
    ensures { result ≡ ltb a b }
{
    a < b
}

fn differ(a: u32, b: u32) -> bool
    ensures { result ≡ not (eqb a b) }
{
    a != b
}

fn fails(test: bool) -> bool
    ensures { result ≡ not test }
{
    !test
}

// What an add and an amendment are refused for by 12.
fn in_range(price: Steps, volume: Contracts) -> bool
    ensures { result ≡ (good_price price.0 && good_volume volume.0) }
{
    both(ranges::price(price), ranges::volume(volume))
}

// ---- what refuses an event, by the words of an open quantum

// Whether a live order has the id.
fn has_order(words: &[u32], id: u32) -> bool
    requires { HoldsQuantum words.now × (length words.now ≡ 598) }
    ensures { OfEvents words.now (λ row events. result ≡ is_live id (live events)) }
{
    order_table::has(&words[TABLE_AT..NOTES_AT], id)
}

// Whether a live order of the other side has the id.
fn other_side(words: &[u32], side: Side, id: u32) -> bool
    requires { HoldsQuantum words.now × (length words.now ≡ 598) }
    ensures { OfEvents words.now (λ row events. result ≡ any (λ (o : Order). has_id id o && not (same side o.side)) (live events)) }
{
    order_table::on_other_side(&words[TABLE_AT..NOTES_AT], side, id)
}

// The time's cause, 8 or 9, or 0.
fn untimely(words: &[u32], t: Millis) -> u32
    requires { length words.now ≡ 598 }
    ensures { OfEvents words.now (λ row events. result ≡ untimely_by row events t.0) }
{
    first_of(
        number_where(below(t.0, words[3]), Refusal::TimeBackwards),
        number_where(below(words[0], t.0), Refusal::TimePastEnd),
    )
}

// A cancel: 8, 9, 11 or 0.
fn refuses_cancel(words: &[u32], t: Millis, id: u32) -> u32
    requires { HoldsQuantum words.now × (length words.now ≡ 598) }
    ensures { Refuses words.now (Cancel t id) result }
{
    first_of(
        untimely(words, t),
        number_where(fails(has_order(words, id)), Refusal::IdNotLive),
    )
}

// An amendment: 8, 9, 11, 12 or 0.
fn refuses_amendment(words: &[u32], a: Amendment) -> u32
    requires { HoldsQuantum words.now × (length words.now ≡ 598) }
    ensures { Refuses words.now (amend_of a) result }
{
    let t = a.t;
    let price = a.price;
    let volume = a.volume;
    first_of(
        refuses_cancel(words, t, a.id),
        number_where(
            fails(in_range(price, volume)),
            Refusal::PriceOrVolumeOutOfRange,
        ),
    )
}

// The add of a G after its cancel, where that is taken: 10, 12 or 0. The time is the cancel's, and there is room.
fn refuses_add(words: &[u32], t: Millis, orig: u32, order: Order) -> u32
    requires { HoldsQuantum words.now × (length words.now ≡ 598) }
    ensures { RefusesThen words.now (Cancel t orig) (add_of t order) result }
{
    let price = order.price;
    let volume = order.volume;
    let id = order.id;
    first_of(
        number_where(
            both(differ(id, orig), has_order(words, id)),
            Refusal::IdLive,
        ),
        number_where(
            fails(in_range(price, volume)),
            Refusal::PriceOrVolumeOutOfRange,
        ),
    )
}

// ---- the three messages

fn order_of(id: u32, side: Side, volume: Contracts, price: Steps) -> Order
    ensures { result ≡ record { id = id; side = side; price = price; volume = volume } }
{
    Order {
        id,
        side,
        price,
        volume,
    }
}

// An order as an add.
fn add_of(t: Millis, order: Order) -> Event
    ensures { result ≡ add_of t order }
{
    let side = order.side;
    let price = order.price;
    let volume = order.volume;
    Event::Add {
        t,
        id: order.id,
        side,
        price,
        volume,
    }
}

// D: an order more.
fn new_order(words: &mut [u32], hints: &mut [u8], when: Moment, order: Order) -> u32
    requires { HoldsMonth words.old × (2464 ≤ length words.old) × (length hints.old ≡ 2048) }
    ensures { MessageChanges words.old (new_at order) (timely when) words.new result × (0 < result → hints.new ≡ hints.old) }
{
    match when {
        Moment::At(t) => {
            month_in_place::send(words, hints, record::event_fields(add_of(t, order)))
        }
        Moment::Before => none_open_or(words[0], Refusal::TimeBackwards),
        Moment::Late => none_open_or(words[0], Refusal::TimePastEnd),
    }
}

// F: the order that 41 names goes.
fn cancel_order(words: &mut [u32], hints: &mut [u8], when: Moment, id: u32, orig: u32) -> u32
    requires { HoldsMonth words.old × (2464 ≤ length words.old) × (length hints.old ≡ 2048) }
    ensures { MessageChanges words.old (λ t. cancel_order id orig t) (timely when) words.new result × (0 < result → hints.new ≡ hints.old) }
{
    match when {
        Moment::At(t) => month_in_place::send(
            words,
            hints,
            record::event_fields(Event::Cancel { t, id: orig }),
        ),
        Moment::Before => none_open_or(words[0], Refusal::TimeBackwards),
        Moment::Late => none_open_or(words[0], Refusal::TimePastEnd),
    }
}

// The cancel and the add of a G, both or neither: what refuses the add is known before the cancel is made.
fn both_or_neither(words: &mut [u32], hints: &mut [u8], t: Millis, orig: u32, order: Order) -> u32
    requires { HoldsMonth words.old × (2464 ≤ length words.old) × (length hints.old ≡ 2048) }
    ensures { BothOrNeither words.old t orig order words.new result × (0 < result → hints.new ≡ hints.old) }
{
    if words[0] == 0 {
        return u32::from(Refusal::NoQuantumOpen);
    }
    let second = refuses_add(&words[QUANTUM_AT..CELLS_AT], t, orig, order);
    if 0 < second {
        return first_of(
            refuses_cancel(&words[QUANTUM_AT..CELLS_AT], t, orig),
            second,
        );
    }
    let first = month_in_place::send(
        words,
        hints,
        record::event_fields(Event::Cancel { t, id: orig }),
    );
    if 0 < first {
        return first;
    }
    month_in_place::send(words, hints, record::event_fields(add_of(t, order)))
}

// G: that cancel and an add. Its side is that of the order that 41 names, where there is one.
fn replace_order(words: &mut [u32], hints: &mut [u8], when: Moment, orig: u32, order: Order) -> u32
    requires { HoldsMonth words.old × (2464 ≤ length words.old) × (length hints.old ≡ 2048) }
    ensures { MessageChanges words.old (replaced_at order orig) (timely when) words.new result × (0 < result → hints.new ≡ hints.old) }
{
    let side = order.side;
    if other_side(&words[QUANTUM_AT..CELLS_AT], side, orig) {
        return u32::from(Refusal::FieldWrong);
    }
    match when {
        Moment::At(t) => both_or_neither(words, hints, t, orig, order),
        Moment::Before => none_open_or(words[0], Refusal::TimeBackwards),
        Moment::Late => none_open_or(words[0], Refusal::TimePastEnd),
    }
}

// A message that was read, at its time: its one or two events.
fn taken(words: &mut [u32], hints: &mut [u8], timed: Timed) -> u32
    requires { HoldsMonth words.old × (2464 ≤ length words.old) × (length hints.old ≡ 2048) }
    ensures { TimedChanges words.old (timed_shown timed) words.new result × (0 < result → hints.new ≡ hints.old) }
{
    let when = timed.when;
    match timed.message {
        Message::New {
            id,
            side,
            volume,
            price,
            ..
        } => new_order(words, hints, when, order_of(id, side, volume, price)),
        Message::Cancel { id, orig, .. } => cancel_order(words, hints, when, id, orig),
        Message::Replace {
            id,
            orig,
            side,
            volume,
            price,
            ..
        } => replace_order(words, hints, when, orig, order_of(id, side, volume, price)),
    }
}

// A FIX message, with the quantum's start: its one or two events. Answers the refusal's number, or 0. A refusal leaves the hints.
pub fn message(words: &mut [u32], hints: &mut [u8], start: &[u8], message: &[u8]) -> u32
    requires { HoldsMonth words.old × (2464 ≤ length words.old) × (length hints.old ≡ 2048) }
    ensures { ChangesMonth words.old (B.Message start.now message.now) words.new result × (0 < result → hints.new ≡ hints.old) }
{
    match fix_reader::read_from(start, message) {
        Ok(timed) => taken(words, hints, timed),
        Err(refusal) => u32::from(refusal),
    }
}

// ---- commit

// An amendment as an event.
fn amend_of(a: Amendment) -> Event
    ensures { result ≡ amend_of a }
{
    let t = a.t;
    let price = a.price;
    let volume = a.volume;
    Event::Amend {
        t,
        id: a.id,
        price,
        volume,
    }
}

// Exactly that amendment, if its ticket is the present one: the amendment's own causes come first. Answers the refusal's number, or 0. A
// refusal leaves the hints.
pub fn commit(words: &mut [u32], hints: &mut [u8], a: Amendment, ticket: Ticket) -> u32
    requires { HoldsMonth words.old × (2464 ≤ length words.old) × (length hints.old ≡ 2048) }
    ensures { ChangesMonth words.old (B.Commit a ticket) words.new result × (0 < result → hints.new ≡ hints.old) }
{
    if words[0] == 0 {
        return u32::from(Refusal::NoQuantumOpen);
    }
    let count = lent::wide(words[4], words[5]);
    if ticket::is_present(ticket, a, count) {
        return month_in_place::send(words, hints, record::event_fields(amend_of(a)));
    }
    first_of(
        refuses_amendment(&words[QUANTUM_AT..CELLS_AT], a),
        u32::from(Refusal::WrongTicket),
    )
}
