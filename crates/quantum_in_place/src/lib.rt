// An event on the words of an open quantum, in place (quantum/specs/Words has their layout): the table is changed where it is, and the
// clock's words are put back. A tick reads no order, and an amendment that is only asked about leaves the notes.
//
// The clock is put back whether an event is taken or not, a tick aside: a refused one leaves the clock and the table as they were, so the
// five words are written without a test. A tick has a way of its own: it reads neither table nor notes.
#![tactic(auto)]

ghost use Rattle.std.specs.Prelude.{◌≡◌, ◌<◌, length};
ghost use Rattle.rules.specs.declared.Event.{Event};
ghost use Rattle.rules.specs.declared.Event.TheVariants.{Tick};
ghost use Rattle.record.specs.Fields.{fields_for, read_fields};
ghost use Rattle.quantum_in_place.specs.Events.{HoldsFront, HoldsQuantum, SaysEvent, StepsFrontRead, StepsWords, StepsRead};

use quantum::{NOTES_AT, OPENING_AT, TABLE_AT};
use record::Fields;
use rules::Millis;

// An event, by its fields, on the 522 words of an open quantum that stand before its notes: the clock's are put back, whether it is taken
// or not. Answers the refusal's number, or 0.
fn step_front(words: &mut [u32], hints: &mut [u8], f: Fields) -> u32
    requires { HoldsFront words.old × (length words.old ≡ 522) × (length hints.old ≡ 2048) }
    ensures { StepsFrontRead words.old (read_fields f) words.new result × (0 < result → hints.new ≡ hints.old) }
{
    let duty = clock::duty_in(&words[0..3]);
    let clock = clock::clock_in(&words[3..8]);
    let stepped = events::step_fields(duty, clock, &mut words[TABLE_AT..NOTES_AT], hints, f);
    let after = stepped.clock;
    let refusal = stepped.refusal;
    clock::put_clock(after, &mut words[3..8]);
    refusal
}

// A tick, on all 598 words: it reads no order and changes the clock alone.
fn tick(words: &mut [u32], t: Millis) -> u32
    requires { HoldsQuantum words.old × (length words.old ≡ 598) }
    ensures { StepsWords words.old (Tick t) words.new result }
{
    let duty = clock::duty_in(&words[0..3]);
    let clock = clock::clock_in(&words[3..8]);
    let now = clock.time;
    let end = duty.length;
    if t.0 < now.0 {
        return 8;
    }
    if end.0 < t.0 {
        return 9;
    }
    let next = clock::onward(clock, t, clock.keeps);
    clock::put_clock(next, &mut words[3..8]);
    0
}

// An amendment, on all 598 words, for an ask: no order comes or goes, so the notes stay.
pub fn amend(words: &mut [u32], hints: &mut [u8], f: Fields) -> u32
    requires { HoldsQuantum words.old × (length words.old ≡ 598) × (length hints.old ≡ 2048) × SaysEvent f × (f.kind ≡ 3) }
    ensures { ((e : Event) → f ≡ fields_for e → StepsWords words.old e words.new result) × (0 < result → hints.new ≡ hints.old) }
{
    step_front(&mut words[0..NOTES_AT], hints, f)
}

// Any event, on all 598 words: the notes follow one that is taken.
fn step_noted(words: &mut [u32], hints: &mut [u8], f: Fields) -> u32
    requires { HoldsQuantum words.old × (length words.old ≡ 598) × (length hints.old ≡ 2048) }
    ensures { StepsRead words.old (read_fields f) words.new result × (0 < result → hints.new ≡ hints.old) }
{
    let had = order_table::count(&words[TABLE_AT..NOTES_AT]);
    let refusal = step_front(&mut words[0..NOTES_AT], hints, f);
    if 0 < refusal {
        return refusal;
    }
    let has = order_table::count(&words[TABLE_AT..NOTES_AT]);
    order_arrivals::note(&mut words[NOTES_AT..OPENING_AT], had, has, f.id);
    0
}

// An event, by its kind: a tick need not look at the notes. Fields that say no event are refused by 15. An amendment goes the same way as
// the others, so that `step_front` has one caller here and the compiler inlines it.
pub fn step(words: &mut [u32], hints: &mut [u8], f: Fields) -> u32
    requires { HoldsQuantum words.old × (length words.old ≡ 598) × (length hints.old ≡ 2048) }
    ensures { StepsRead words.old (read_fields f) words.new result × (0 < result → hints.new ≡ hints.old) }
{
    let kind = f.kind;
    let t = f.t;
    if kind == 6 {
        if record::is_good(f) {
            return tick(words, t);
        }
        return 15;
    }
    step_noted(words, hints, f)
}
