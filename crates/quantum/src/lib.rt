// An open quantum by value, for the month: its duty, its clock, the table of its live orders and its notes.
#![tactic(auto)]

ghost use Rattle.std.specs.Prelude.{◌≡◌, List, [], ◌∷◌, ◌++◌, true, not, ◌&&◌, length};
ghost use Rattle.rules.specs.declared.Event.{Event};
ghost use Rattle.rules.specs.declared.Row.{Row};
ghost use Rattle.rules.specs.declared.Order.{Order};
ghost use Rattle.rules.specs.Terms.{paper};
ghost use Rattle.rules.specs.declared.SpreadRule.{SpreadRule};
ghost use Rattle.rules.specs.Rows.{good_row_for};
ghost use Rattle.lists.specs.Lists.{any};
ghost use Rattle.rules.specs.Orders.{has_id, live as liveOrders};
ghost use Rattle.rules.specs.Quotes.{same, best as bestQuote};
ghost use Rattle.rules.specs.Kept.{best_bid, best_ask, kept_below};
ghost use Rattle.rules.specs.Lapses.{lapses_below};
ghost use Rattle.rules.specs.Calls.{Idle};
ghost use Rattle.rules.specs.Causes.{good_spread_rule};
ghost use Rattle.rules.specs.Bounds.{EventBounds};
ghost use Rattle.order_arrivals.specs.Notes.{notes_of};
ghost use Rattle.quantum.specs.Represents.{quantum_of, quantum_in, OfEvents, Reached, Answered};
ghost use Rattle.quantum.specs.declared.Quantum.{Quantum};
ghost use Rattle.quantum.specs.Words.{quantum_words, Sized};
ghost use Rattle.quantum.specs.Internal.{Accepts, Noting};

use clock::{Clock, Duty, Totals};
use rules::{Contracts, Event, Millis, Refusal, Row, Side, SpreadRule, Steps};

// Where the parts of an open quantum's words start (specs/Words): the table, the notes and, last among these, the row and what the spread
// limit depends on; and how many words it has.
pub const TABLE_AT: usize = 10;

pub const NOTES_AT: usize = 522;

pub const OPENING_AT: usize = 586;

pub const QUANTUM_WORDS: usize = 598;

// The notes are what a view of the quantum shows and the others do not hold (crate `order_arrivals`).
#[derive(Clone, Copy)]
pub struct Quantum {
    duty: Duty,
    clock: Clock,
    table: [u32; 512],
    notes: [u32; 76],
}

// What an event hands back of a quantum.
#[derive(Clone, Copy)]
pub struct Sent {
    pub quantum: Quantum,
    pub answer: Result<(), Refusal>,
}

// The notes after an accepted event, by the tables before and after it.
fn noted(old: [u32; 512], new: [u32; 512], notes: [u32; 76], e: Event) -> [u32; 76]
    requires { Noting old new notes e }
    ensures { (row : Row) (sp : SpreadRule) (events : List Event) → Accepts row sp events e old new notes → result ≡ notes_of row sp (liveOrders (events ++ (e ∷ []))) }
{
    let f = record::event_fields(e);
    let had = order_table::count(&old);
    let has = order_table::count(&new);
    let mut next = notes;
    order_arrivals::note(&mut next[0..64], had, has, f.id);
    next
}

// An event on the table of a quantum, lent with hints that say nothing yet.
fn stepped_on(duty: Duty, clock: Clock, table: [u32; 512], notes: [u32; 76], e: Event) -> Sent
    requires { Reached (record { duty = duty; clock = clock; table = table; notes = notes }) }
    ensures { Answered (record { duty = duty; clock = clock; table = table; notes = notes }) e result }
{
    let mut next = table;
    let mut hints = [0u8; 2048];
    let stepped = events::step(duty, clock, &mut next, &mut hints, e);
    let after = stepped.clock;
    let n = stepped.refusal;
    if 0 < n {
        return Sent {
            quantum: Quantum {
                duty,
                clock,
                table,
                notes,
            },
            answer: Err(rules::refusal_of(n)),
        };
    }
    let notes = noted(table, next, notes, e);
    Sent {
        quantum: Quantum {
            duty,
            clock: after,
            table: next,
            notes,
        },
        answer: Ok(()),
    }
}

impl Quantum {
    // A quantum opens with no orders, at time 0.
    pub fn opened(row: Row, spread: SpreadRule) -> Quantum
        requires { (good_row_for paper spread row ≡ true) × (good_spread_rule spread ≡ true) }
        ensures { result ≡ quantum_of row spread [] }
    {
        let duty = clock::duty_of(row, spread);
        let clock = clock::started();
        let table = order_table::empty();
        let notes = order_arrivals::opened(row, spread);
        Quantum {
            duty,
            clock,
            table,
            notes,
        }
    }

    // The quantum's value while none is open.
    pub fn idle() -> Quantum
        ensures { result ≡ quantum_in Idle }
    {
        let row = Row {
            expiry: 1,
            quantum: 0,
            length: Millis(1000),
            minimum: Contracts(1),
            a: 0,
            b: 0,
            share: 1,
        };
        Quantum::opened(row, SpreadRule::Settled(Steps(0)))
    }

    // An event: taken, or refused with the quantum as it was. `Reached` is required here and no fact of the type: `of_words` hands back a
    // quantum for any 598 words.
    pub fn send(self, e: Event) -> Sent
        requires { Reached self }
        ensures { Answered self e result }
    {
        let duty = self.duty;
        let clock = self.clock;
        let table = self.table;
        let notes = self.notes;
        stepped_on(duty, clock, table, notes, e)
    }

    // Kept time and lapses at the quantum's end.
    pub fn ended(self) -> Totals
        requires { Reached self }
        ensures { OfEvents self (λ row sp events. (result.kept.0 ≡ kept_below row sp events row.length.0) × (result.lapses ≡ lapses_below row sp events row.length.0)) }
    {
        let duty = self.duty;
        let clock = self.clock;
        clock::ended(duty, clock)
    }

    pub fn whole(self) -> Millis
        ensures { result ≡ self.duty.length }
    {
        let duty = self.duty;
        duty.length
    }

    // What an outlook depends on.
    pub fn duty(self) -> Duty
        ensures { result ≡ self.duty }
    {
        self.duty
    }

    pub fn clock(self) -> Clock
        ensures { result ≡ self.clock }
    {
        self.clock
    }

    // What a report shows.
    pub fn now(self) -> Millis
        ensures { result ≡ self.clock.time }
    {
        let clock = self.clock;
        clock.time
    }

    pub fn kept_so_far(self) -> Millis
        ensures { result ≡ self.clock.kept }
    {
        let clock = self.clock;
        clock.kept
    }

    pub fn lapses_so_far(self) -> u32
        ensures { result ≡ self.clock.lapses }
    {
        let clock = self.clock;
        clock.lapses
    }

    // The best quote of a side.
    fn best(self, side: Side) -> Option<Steps>
        requires { Reached self }
        ensures { OfEvents self (λ row sp events. result ≡ bestQuote side row.minimum.0 (liveOrders events)) }
    {
        let table = self.table;
        order_table::best(&table, side)
    }

    pub fn best_bid(self) -> Option<Steps>
        requires { Reached self }
        ensures { OfEvents self (λ row sp events. result ≡ best_bid row (liveOrders events)) }
    {
        self.best(Side::Buy)
    }

    pub fn best_ask(self) -> Option<Steps>
        requires { Reached self }
        ensures { OfEvents self (λ row sp events. result ≡ best_ask row (liveOrders events)) }
    {
        self.best(Side::Sell)
    }

    // Whether a live order of the other side has the id.
    pub fn on_other_side(self, side: Side, id: u32) -> bool
        requires { Reached self }
        ensures { OfEvents self (λ row sp events. result ≡ any (λ (o : Order). has_id id o && not (same side o.side)) (liveOrders events)) }
    {
        let table = self.table;
        order_table::on_other_side(&table, side, id)
    }

    pub fn live(self) -> u32
        requires { Reached self }
        ensures { OfEvents self (λ row sp events. result ≡ length (liveOrders events)) }
    {
        let table = self.table;
        order_table::count(&table)
    }

    // Its 598 words: the duty's, the clock's, two zeros, the table's, the notes'.
    pub fn to_words(self, words: &mut [u32])
        requires { length words.old ≡ 598 }
        ensures { words.new ≡ quantum_words self }
    {
        let duty = self.duty;
        let clock = self.clock;
        let table = self.table;
        let notes = self.notes;
        let length = duty.length;
        let minimum = duty.minimum;
        let three = [length.0, minimum.0, duty.widest];
        let zeros = [0u32; 2];
        words[0..3].copy_from_slice(&three);
        clock::put_clock(clock, &mut words[3..8]);
        words[8..10].copy_from_slice(&zeros);
        words[TABLE_AT..NOTES_AT].copy_from_slice(&table);
        words[NOTES_AT..QUANTUM_WORDS].copy_from_slice(&notes);
    }

    // The quantum whose words these are.
    pub fn of_words(words: &[u32]) -> Quantum
        requires { length words.now ≡ 598 }
        ensures { (q : Quantum) → Sized q → words.now ≡ quantum_words q → result ≡ q }
    {
        let duty = clock::duty_in(&words[0..3]);
        let clock = clock::clock_in(&words[3..8]);
        let mut table = [0u32; 512];
        let mut notes = [0u32; 76];
        table.copy_from_slice(&words[TABLE_AT..NOTES_AT]);
        notes.copy_from_slice(&words[NOTES_AT..QUANTUM_WORDS]);
        Quantum {
            duty,
            clock,
            table,
            notes,
        }
    }
}
