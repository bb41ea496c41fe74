// The live orders' ids in the order in which they were added, in 64 lent words (specs/Arrivals): kept in step with the table after an
// accepted event, for whoever shows the orders as they came. The table itself has them by side. After them are the row and the terms of the
// spread limit (specs/Notes), which an open quantum's clock and table do not hold.
//
// Whether an order came or went is seen by the number of live orders before and after the event, so the notes need not know how an event
// is decided. They are the month's alone: a session has none.
#![tactic(auto)]

ghost use Rattle.std.specs.Prelude.{◌≡◌, List, [], ◌∷◌, ◌++◌, ℕ, ◌-◌, ◌≤◌, ◌<◌, length, take, get_or, if◌then◌else◌};
ghost use Rattle.rules.specs.declared.Row.{Row};
ghost use Rattle.rules.specs.declared.Event.{Event};
ghost use Rattle.rules.specs.Orders.{live};
ghost use Rattle.order_side.specs.Slots.{seen_from};
ghost use Rattle.order_side.specs.Internal.{shifted};
ghost use Rattle.order_arrivals.specs.Arrivals.{arrivals_of, Follows, Notable};
ghost use Rattle.order_arrivals.specs.Notes.{spread_words, notes_of};

use rules::{Row, SpreadRule};

// What the spread limit depends on, in five words.
fn spread_words(spread: SpreadRule) -> [u32; 5]
    ensures { result ≡ spread_words spread }
{
    match spread {
        SpreadRule::Settled(sp) => [0, words::from_steps(sp), 0, 0, 0],
        SpreadRule::OfStrike(s) => [1, s.a, s.difference, s.days, s.b],
    }
}

// The notes of a quantum that opens: no orders yet.
pub fn opened(row: Row, spread: SpreadRule) -> [u32; 76]
    ensures { result ≡ notes_of row spread [] }
{
    let length = row.length;
    let minimum = row.minimum;
    let five = spread_words(spread);
    let twelve = [
        row.expiry,
        row.quantum,
        length.0,
        minimum.0,
        row.a,
        row.b,
        row.share,
        five[0],
        five[1],
        five[2],
        five[3],
        five[4],
    ];
    let mut notes = [0u32; 76];
    notes[64..76].copy_from_slice(&twelve);
    notes
}

// 1 + the place of an id that is there. The words after the ids are 0, so an id that is not 0 is looked for in whole groups of eight.
fn place_in(ids: &[u32], count: u32, id: u32) -> u32
    requires { (length ids.now ≡ 64) × (count ≤ 64) × ((j : ℕ) → count ≤ j → get_or ids.now j 0 ≡ 0) }
    ensures { result ≡ seen_from 1 id (take count ids.now) }
{
    if id == 0 {
        return order_side::scan(&ids[0..count as usize], id);
    }
    let to = order_side::room(count);
    order_side::scan(&ids[0..to], id)
}

// What is after a place moves up to it, as `order_side::shift` does it in three columns, but from the first place on: the same work
// wherever the place is, with nothing for the processor to guess.
fn close_up(ids: &mut [u32], place: u32, last: usize)
    requires { (place ≤ last) × (last < length ids.old) × (last < 64) }
    ensures { ids.new ≡ shifted ids.old place last }
{
    for i in 0..last {
        let here = ids[i];
        let next = ids[i + 1];
        ids[i] = if (i as u32) < place { here } else { next };
    }
    ids[last] = 0;
}

// The id goes; those after it move up, in whole groups of eight.
fn remove(ids: &mut [u32], count: u32, id: u32)
    requires { (length ids.old ≡ 64) × (count ≤ 64) × (1 ≤ seen_from 1 id (take count ids.old)) × (seen_from 1 id (take count ids.old) ≤ count) × ((j : ℕ) → count ≤ j → get_or ids.old j 0 ≡ 0) }
    ensures { ids.new ≡ shifted ids.old (seen_from 1 id (take count ids.old) - 1) (count - 1) }
{
    let found = place_in(ids, count, id);
    let to = order_side::room(count);
    close_up(ids, found.saturating_sub(1), to - 1);
}

// After an accepted event, by the numbers of live orders before and after it: one more is put after the others, one less is removed.
pub fn note(ids: &mut [u32], before: u32, after: u32, id: u32)
    requires { Notable ids.old before after id }
    ensures { (row : Row) (events : List Event) (e : Event) → Follows row events e ids.old before after id → ids.new ≡ arrivals_of (live (events ++ (e ∷ []))) }
{
    if before < after {
        ids[before as usize] = id;
        return;
    }
    if after < before {
        remove(ids, before, id);
    }
}
