// Calls on a month's words in place (month/specs/Words has their layout): an event changes the words of the open quantum and of the
// count, a look reads the ten words of its cell, and an ask tries its amendment on a copy of the quantum's words. No cell is copied.
#![tactic(auto)]

ghost use Rattle.std.specs.Prelude.{◌≡◌, true, List, [], ◌∷◌, ℕ, ◌+◌, ◌*◌, ◌≤◌, ◌<◌, ltb, length, get_or};
ghost use Rattle.rules.specs.declared.Event.{Event};
ghost use Rattle.rules.specs.declared.Cell.{Cell};
ghost use Rattle.rules.specs.Cells.{good_cell, place_of, cell_at};
ghost use Rattle.rules.specs.Answers.{refused, shown_looked, shown_asked};
ghost use Rattle.rules.specs.Calls.{Send, Look, Ask, amend_of};
ghost use Rattle.rules.specs.Changes.{following};
ghost use Rattle.lent.specs.Words.{low, high, cells_words};
ghost use Rattle.record.specs.Fields.{fields_for};
ghost use Rattle.quantum.specs.declared.Quantum.{Quantum};
ghost use Rattle.quantum.specs.Words.{quantum_words, Sized};
ghost use Rattle.month.specs.Internal.{Previewed};
ghost use Rattle.month.specs.Words.{HoldsMonth};
ghost use Rattle.quantum_in_place.specs.Events.{HoldsQuantum, SaysEvent};
ghost use Rattle.month_in_place.specs.Entry.{may_be_month};
ghost use Rattle.month_in_place.specs.Events.{ChangesMonth, ShowsMonth};

use month::{CELLS_AT, MONTH_WORDS, QUANTUM_AT};
use quantum::{NOTES_AT, TABLE_AT};
use record::Fields;
use rules::{Amendment, Cell, CellView, Preview, Refusal, Side, Ticket};

// ---- words that a caller lends

// More orders than a month has.
fn too_many(buys: u32, sells: u32) -> bool
    ensures { result ≡ ltb 64 (buys + sells) }
{
    64 < u64::from(buys) + u64::from(sells)
}

// Whether words can be a month's, by the few that every call rests on (specs/Entry). A month's always can.
pub fn may_be_month(words: &[u32]) -> bool
    requires { 2464 ≤ length words.now }
    ensures { (result ≡ may_be_month words.now) × (HoldsMonth words.now → result ≡ true) }
{
    if too_many(words[208], words[464]) {
        return false;
    }
    if 186 <= words[1] {
        return false;
    }
    0 < words[6]
}

// ---- the calls

// One more accepted call, in the count's two words.
pub fn count_on(words: &mut [u32])
    requires { length words.old ≡ 2 }
    ensures { words.new ≡ low (following (get_or words.old 0 0 + 4294967296 * get_or words.old 1 0)) ∷ high (following (get_or words.old 0 0 + 4294967296 * get_or words.old 1 0)) ∷ [] }
{
    let count = ticket::next(lent::wide(words[0], words[1]));
    words[0] = lent::low(count);
    words[1] = lent::high(count);
}

// An event, by its fields, on the words of a month: the refusal's number, or 0. A refusal leaves the hints.
pub fn send(words: &mut [u32], hints: &mut [u8], f: Fields) -> u32
    requires { HoldsMonth words.old × (2464 ≤ length words.old) × (length hints.old ≡ 2048) × SaysEvent f }
    ensures { ((e : Event) → f ≡ fields_for e → ChangesMonth words.old (Send e) words.new result) × (0 < result → hints.new ≡ hints.old) }
{
    if words[0] == 0 {
        return 7;
    }
    let n = quantum_in_place::step(&mut words[QUANTUM_AT..CELLS_AT], hints, f);
    if 0 < n {
        return n;
    }
    count_on(&mut words[4..6]);
    0
}

// The named cell, from the words of the cells.
fn cell_named(words: &[u32], day: u32, expiry: u32, quantum: u32) -> Cell
    requires { (length words.now ≡ 1860) × (good_cell day expiry quantum ≡ true) }
    ensures { (cells : List Cell) → words.now ≡ cells_words cells → result ≡ cell_at cells (place_of day expiry quantum) }
{
    cells_in_place::at(words, cells::place_of(day, expiry, quantum))
}

// A look: the cell with verdict and weight. The words are as they were.
pub fn look(words: &[u32], day: u32, expiry: u32, quantum: u32) -> Result<CellView, Refusal>
    requires { HoldsMonth words.now × (2464 ≤ length words.now) }
    ensures { ShowsMonth words.now (Look day expiry quantum) (shown_looked result) }
{
    if !ranges::cell(day, expiry, quantum) {
        return Err(Refusal::ArgumentOutOfRange);
    }
    let cell = cell_named(&words[CELLS_AT..MONTH_WORDS], day, expiry, quantum);
    if verdict::is_filled(cell) {
        return Ok(verdict::view(cell));
    }
    Err(Refusal::CellBlank)
}

// The amendment as an event's fields.
fn amend_fields(a: Amendment) -> Fields
    ensures { result ≡ fields_for (amend_of a) }
{
    let t = a.t;
    let price = a.price;
    let volume = a.volume;
    Fields {
        kind: 3,
        t,
        id: a.id,
        price,
        volume,
    }
}

// What an accepted ask shows: the best quotes in a quantum's words, and the ticket.
fn preview(words: &[u32], a: Amendment, count: u64) -> Preview
    requires { HoldsQuantum words.now × (length words.now ≡ 598) }
    ensures { (q : Quantum) → Sized q → words.now ≡ quantum_words q → Previewed q a count result }
{
    let bid = order_table::best(&words[TABLE_AT..NOTES_AT], Side::Buy);
    let ask = order_table::best(&words[TABLE_AT..NOTES_AT], Side::Sell);
    Preview {
        bid,
        ask,
        ticket: Ticket {
            amendment: a,
            count,
        },
    }
}

// An ask: the amendment is tried on a copy of the quantum's words. The month's words are as they were, and where it is refused the hints
// too.
pub fn ask(words: &[u32], hints: &mut [u8], a: Amendment) -> Result<Preview, Refusal>
    requires { HoldsMonth words.now × (2464 ≤ length words.now) × (length hints.old ≡ 2048) }
    ensures { ShowsMonth words.now (Ask a) (shown_asked result) × ((n : ℕ) → shown_asked result ≡ refused n → hints.new ≡ hints.old) }
{
    if words[0] == 0 {
        return Err(Refusal::NoQuantumOpen);
    }
    let count = lent::wide(words[4], words[5]);
    let mut copy = [0u32; 598];
    copy.copy_from_slice(&words[QUANTUM_AT..CELLS_AT]);
    let n = quantum_in_place::amend(&mut copy, hints, amend_fields(a));
    if 0 < n {
        return Err(rules::refusal_of(n));
    }
    Ok(preview(&copy, a, count))
}
