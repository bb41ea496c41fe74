// The month and its calls. Each takes the month by value and hands back the month after it.
//
// Calls that show nothing end in one function where they are accepted, in another where they are refused (`accepted`, `refused`); the count
// of W5 is moved in the first. A commit works its amend out on a copy and looks at the ticket only where that is accepted, so amend's own
// refusals come first by construction.
#![tactic(auto)]

ghost use Rattle.std.specs.Prelude.{◌≡◌, List, [], ◌++◌, true, ℕ, ◌≤◌, ◌<◌, length, take, drop};
ghost use Rattle.rules.specs.declared.Event.TheVariants.{Add, Amend, Cancel, Deal, Tick};
ghost use Rattle.rules.specs.Terms.{paper};
ghost use Rattle.rules.specs.declared.SpreadRule.TheVariants.{OfStrike};
ghost use Rattle.rules.specs.Rows.{good_row_for, row_of};
ghost use Rattle.rules.specs.Answers.{shown_answer, shown_looked, shown_asked, shown_report, shown_outlook};
ghost use Rattle.rules.specs.Book.{after};
ghost use Rattle.rules.specs.Calls as B;
ghost use Rattle.quantum.specs.Represents as Q;
ghost use Rattle.month.specs.Represents.{month_of, Reached, Answered};
ghost use Rattle.month.specs.declared.Month.{Month};
ghost use Rattle.month.specs.Words.{month_words, Fits, HoldsMonth};
ghost use Rattle.month.specs.Internal.{with_cell, without_quantum, counted, Previewed};

use quantum::Quantum;
use rules::{
    Amendment, Cell, CellView, Contracts, Event, Kopecks, Millis, Opening, Outlook, Preview,
    Refusal, Report, Row, Side, SpreadRule, Steps, Strike, Ticket,
};

// Where the parts of a month's words start (specs/Words), the open quantum and the cells, and how many words it has.
pub const QUANTUM_AT: usize = 6;

pub const CELLS_AT: usize = 604;

pub const MONTH_WORDS: usize = 2464;

// A month, which only these calls make: whether a quantum is open, and then its cell's place, p and lapse limit; the count of accepted
// calls (W5); the open quantum, or an idle one in its place; the cells.
#[derive(Clone, Copy)]
pub struct Month {
    running: bool,
    place: usize,
    share: u32,
    allowed: u32,
    count: u64,
    quantum: Quantum,
    // Cell structs, blank or filled, in one array: the exchange's scope names the form.
    cells: [Cell; 186],
}

// What a call hands back: the month after it, and its answer.
#[derive(Clone, Copy)]
pub struct After<A> {
    pub month: Month,
    pub answer: A,
}

// Of a call that shows nothing.
pub type AfterCall = After<Result<(), Refusal>>;

pub type LookedAt = After<Result<CellView, Refusal>>;

pub type AskedAbout = After<Result<Preview, Refusal>>;

pub type Reported = After<Report>;

pub type AfterOutlook = After<Result<Outlook, Refusal>>;

// Every refused call ends here, with the month as it was ..
fn refused(month: Month, refusal: Refusal) -> AfterCall
    ensures { (result.month ≡ month) × (result.answer ≡ Err refusal) }
{
    After {
        month,
        answer: Err(refusal),
    }
}

// .. and every accepted one here, counted.
fn accepted(month: Month) -> AfterCall
    ensures { (result.month ≡ counted month) × (result.answer ≡ (Ok tt)) }
{
    let count = ticket::next(month.count);
    After {
        month: Month { count, ..month },
        answer: Ok(()),
    }
}

// An ask ends here, with the month as it was whatever the answer.
fn asked(month: Month, answer: Result<Preview, Refusal>) -> AskedAbout
    ensures { (result.month ≡ month) × (result.answer ≡ answer) }
{
    After { month, answer }
}

// What an accepted ask shows: the quotes of the quantum with the amendment taken, and the ticket.
fn preview(
    after: Quantum,
    t: Millis,
    id: u32,
    price: Steps,
    volume: Contracts,
    count: u64,
) -> Preview
    requires { Q.Reached after }
    ensures { Previewed after (record { t = t; id = id; price = price; volume = volume }) count result }
{
    let bid = after.best_bid();
    let ask = after.best_ask();
    let amendment = Amendment {
        t,
        id,
        price,
        volume,
    };
    Preview {
        bid,
        ask,
        ticket: Ticket { amendment, count },
    }
}

impl Month {
    // The fresh month: no quantum open, 186 blank cells.
    pub fn fresh() -> Month
        ensures { result ≡ month_of (after paper []) }
    {
        let blank = cells::blank_cell();
        let quantum = Quantum::idle();
        let cells = [blank; 186];
        Month {
            running: false,
            place: 0,
            share: 0,
            allowed: 0,
            count: 0,
            quantum,
            cells,
        }
    }

    // The month with another cell at a place.
    fn with_cell(self, place: usize, cell: Cell) -> Month
        requires { place < 186 }
        ensures { result ≡ with_cell self place cell }
    {
        let mut next = self;
        next.cells[place] = cell;
        next
    }

    // The month with no quantum open.
    fn without_quantum(self) -> Month
        ensures { result ≡ without_quantum self }
    {
        let cells = self.cells;
        let quantum = Quantum::idle();
        Month {
            running: false,
            place: 0,
            share: 0,
            allowed: 0,
            count: self.count,
            quantum,
            cells,
        }
    }

    // A row that was read: the other causes of open, then the quantum opens.
    fn open_row(self, row: Row, day: u32, opening: Opening) -> AfterCall
        requires { Reached self × (good_row_for paper opening.spread row ≡ true) }
        ensures { (words : List ℕ) → length words ≡ 7 → row_of words ≡ row → Answered self (B.Open words day opening) result.month (shown_answer result.answer) }
    {
        let spread = opening.spread;
        if !(ranges::between(1, 31, day) & ranges::settlement(spread)) {
            return refused(self, Refusal::ArgumentOutOfRange);
        }
        let place = cells::place_of(day, row.expiry, row.quantum);
        let cells = self.cells;
        let cell = cells::at(cells, place);
        if cell.filled {
            return refused(self, Refusal::CellFilled);
        }
        if self.running {
            return refused(self, Refusal::QuantumOpen);
        }
        if !ranges::lapse_limit(opening.allowed) {
            return refused(self, Refusal::LapseLimitOutOfRange);
        }
        if !strike::in_range(spread) {
            return refused(self, Refusal::StrikesOutOfRange);
        }
        let quantum = Quantum::opened(row, spread);
        accepted(Month {
            running: true,
            place,
            share: row.share,
            allowed: opening.allowed,
            count: self.count,
            quantum,
            cells,
        })
    }

    // The named cell's quantum opens with no orders, at time 0.
    pub fn open(self, words: &[u32], day: u32, opening: Opening) -> AfterCall
        requires { Reached self }
        ensures { Answered self (B.Open words.now day opening) result.month (shown_answer result.answer) }
    {
        let spread = opening.spread;
        let read = row::read(words, spread);
        match read {
            Ok(row) => self.open_row(row, day, opening),
            Err(r) => refused(self, r),
        }
    }

    // The same for a strike, whose four numbers replace SP.
    pub fn open_strike(self, words: &[u32], day: u32, strike: Strike, allowed: u32) -> AfterCall
        requires { Reached self }
        ensures { Answered self (B.Open words.now day (record { spread = OfStrike strike; allowed = allowed })) result.month (shown_answer result.answer) }
    {
        let spread = SpreadRule::OfStrike(strike);
        self.open(words, day, Opening { spread, allowed })
    }

    // An event of the open quantum. With none open it is refused; else the quantum decides.
    pub fn send(self, e: Event) -> AfterCall
        requires { Reached self }
        ensures { Answered self (B.Send e) result.month (shown_answer result.answer) }
    {
        if !self.running {
            return refused(self, Refusal::NoQuantumOpen);
        }
        let before = self.quantum;
        let sent = before.send(e);
        let answer = sent.answer;
        let quantum = sent.quantum;
        match answer {
            Ok(()) => {
                let mut next = self;
                next.quantum = quantum;
                accepted(next)
            }
            Err(r) => refused(self, r),
        }
    }

    // An order under a new id.
    pub fn add(self, t: Millis, id: u32, side: Side, price: Steps, volume: Contracts) -> AfterCall
        requires { Reached self }
        ensures { Answered self (B.Send (Add t id side price volume)) result.month (shown_answer result.answer) }
    {
        self.send(Event::Add {
            t,
            id,
            side,
            price,
            volume,
        })
    }

    // Keeps id and side, and puts the new price and volume in place of the old.
    pub fn amend(self, t: Millis, id: u32, price: Steps, volume: Contracts) -> AfterCall
        requires { Reached self }
        ensures { Answered self (B.Send (Amend t id price volume)) result.month (shown_answer result.answer) }
    {
        self.send(Event::Amend {
            t,
            id,
            price,
            volume,
        })
    }

    // A FIX message, with the quantum's start: its one or two calls.
    pub fn message(self, start: &[u8], message: &[u8]) -> AfterCall
        requires { Reached self }
        ensures { Answered self (B.Message start.now message.now) result.month (shown_answer result.answer) }
    {
        let before = self.quantum;
        let sent = fix_events::message(before, self.running, start, message);
        let answer = sent.answer;
        let taken = sent.quantum;
        match answer {
            Ok(()) => {
                let count = ticket::further(self.count, sent.second);
                let mut next = self;
                next.quantum = taken;
                next.count = count;
                accepted(next)
            }
            Err(r) => refused(self, r),
        }
    }

    // What that amend would do: its refusal, or both best quotes after it and a ticket. The month is as it was.
    pub fn ask(self, t: Millis, id: u32, price: Steps, volume: Contracts) -> AskedAbout
        requires { Reached self }
        ensures { (result.month ≡ self) × Answered self (B.Ask (record { t = t; id = id; price = price; volume = volume })) result.month (shown_asked result.answer) }
    {
        if !self.running {
            return asked(self, Err(Refusal::NoQuantumOpen));
        }
        let before = self.quantum;
        let sent = before.send(Event::Amend {
            t,
            id,
            price,
            volume,
        });
        let answer = sent.answer;
        let after = sent.quantum;
        match answer {
            Ok(()) => {
                let shown = preview(after, t, id, price, volume, self.count);
                asked(self, Ok(shown))
            }
            Err(r) => asked(self, Err(r)),
        }
    }

    // Exactly that amend, if its ticket is the present one: amend's own causes first.
    pub fn commit(
        self,
        t: Millis,
        id: u32,
        price: Steps,
        volume: Contracts,
        ticket: Ticket,
    ) -> AfterCall
        requires { Reached self }
        ensures { Answered self (B.Commit (record { t = t; id = id; price = price; volume = volume }) ticket) result.month (shown_answer result.answer) }
    {
        let amendment = Amendment {
            t,
            id,
            price,
            volume,
        };
        let present = ticket::is_present(ticket, amendment, self.count);
        let amended = self.amend(t, id, price, volume);
        let answer = amended.answer;
        match answer {
            Ok(()) => {
                if present {
                    return amended;
                }
                refused(self, Refusal::WrongTicket)
            }
            Err(own) => refused(self, own),
        }
    }

    // The order is removed; its place and id can be used again.
    pub fn cancel(self, t: Millis, id: u32) -> AfterCall
        requires { Reached self }
        ensures { Answered self (B.Send (Cancel t id)) result.month (shown_answer result.answer) }
    {
        self.send(Event::Cancel { t, id })
    }

    // Lessens the order, and removes it at nothing left.
    pub fn deal(self, t: Millis, id: u32, volume: Contracts) -> AfterCall
        requires { Reached self }
        ensures { Answered self (B.Send (Deal t id volume)) result.month (shown_answer result.answer) }
    {
        self.send(Event::Deal { t, id, volume })
    }

    // Nothing but the time moves.
    pub fn tick(self, t: Millis) -> AfterCall
        requires { Reached self }
        ensures { Answered self (B.Send (Tick t)) result.month (shown_answer result.answer) }
    {
        self.send(Event::Tick { t })
    }

    // Time runs on to L, and the cell is filled with kept time, L, p, the lapse limit, the lapses, A and P.
    pub fn close(self, active: Kopecks, passive: Kopecks) -> AfterCall
        requires { Reached self }
        ensures { Answered self (B.Close active passive) result.month (shown_answer result.answer) }
    {
        if !cells::both_charges(active, passive) {
            return refused(self, Refusal::ArgumentOutOfRange);
        }
        if !self.running {
            return refused(self, Refusal::NoQuantumOpen);
        }
        let q = self.quantum;
        let totals = q.ended();
        let kept = totals.kept;
        let cell = Cell {
            filled: true,
            kept,
            length: q.whole(),
            share: self.share,
            allowed: self.allowed,
            lapses: totals.lapses,
            active,
            passive,
        };
        let place = self.place;
        accepted(self.with_cell(place, cell).without_quantum())
    }

    // The open quantum is forgotten.
    pub fn drop(self) -> AfterCall
        requires { Reached self }
        ensures { Answered self B.Drop result.month (shown_answer result.answer) }
    {
        if !self.running {
            return refused(self, Refusal::NoQuantumOpen);
        }
        accepted(self.without_quantum())
    }

    // New charges in place of a filled cell's old ones.
    pub fn charge(
        self,
        day: u32,
        expiry: u32,
        quantum: u32,
        active: Kopecks,
        passive: Kopecks,
    ) -> AfterCall
        requires { Reached self }
        ensures { Answered self (B.Charge day expiry quantum active passive) result.month (shown_answer result.answer) }
    {
        if !cells::both_charges(active, passive) {
            return refused(self, Refusal::ArgumentOutOfRange);
        }
        let cells = self.cells;
        match cells::find(cells, day, expiry, quantum) {
            Ok((place, cell)) => {
                accepted(self.with_cell(place, cells::recharged(cell, active, passive)))
            }
            Err(refusal) => refused(self, refusal),
        }
    }

    // The cell is blank again.
    pub fn withdraw(self, day: u32, expiry: u32, quantum: u32) -> AfterCall
        requires { Reached self }
        ensures { Answered self (B.Withdraw day expiry quantum) result.month (shown_answer result.answer) }
    {
        let cells = self.cells;
        match cells::find(cells, day, expiry, quantum) {
            Ok((place, _)) => accepted(self.with_cell(place, cells::blank_cell())),
            Err(refusal) => refused(self, refusal),
        }
    }

    // The cell with verdict and weight.
    pub fn look(self, day: u32, expiry: u32, quantum: u32) -> LookedAt
        requires { Reached self }
        ensures { (result.month ≡ self) × Answered self (B.Look day expiry quantum) result.month (shown_looked result.answer) }
    {
        let cells = self.cells;
        match cells::find(cells, day, expiry, quantum) {
            Ok((_, cell)) => After {
                month: self,
                answer: Ok(verdict::view(cell)),
            },
            Err(refusal) => After {
                month: self,
                answer: Err(refusal),
            },
        }
    }

    // Open or not, time, live orders, best quotes, kept time and lapses of the open quantum; the failure counts and the fee.
    pub fn report(self) -> Reported
        requires { Reached self }
        ensures { (result.month ≡ self) × Answered self B.Report result.month (shown_report result.answer) }
    {
        let cells = self.cells;
        let q = self.quantum;
        let failures = pay::failures(&cells);
        let fee = pay::fee(&cells);
        let time = q.now();
        let orders = q.live();
        let bid = q.best_bid();
        let ask = q.best_ask();
        let kept = q.kept_so_far();
        let lapses = q.lapses_so_far();
        After {
            month: self,
            answer: Report {
                running: self.running,
                time,
                orders,
                bid,
                ask,
                kept,
                lapses,
                failures,
                fee,
            },
        }
    }

    // The state of the open quantum, and whether the maker may rest. The month does not change.
    pub fn outlook(self) -> AfterOutlook
        requires { Reached self }
        ensures { (result.month ≡ self) × Answered self B.Outlook result.month (shown_outlook result.answer) }
    {
        if !self.running {
            return After {
                month: self,
                answer: Err(Refusal::NoQuantumOpen),
            };
        }
        let q = self.quantum;
        let seen = outlook::of(q.duty(), q.clock(), self.share, self.allowed);
        After {
            month: self,
            answer: Ok(seen),
        }
    }

    // Its 2,464 words; those after them keep their contents.
    pub fn to_words(self, words: &mut [u32])
        requires { Fits self × (2464 ≤ length words.old) }
        ensures { words.new ≡ month_words self ++ drop 2464 words.old }
    {
        let count = self.count;
        let quantum = self.quantum;
        let cells = self.cells;
        let six = [
            u32::from(self.running),
            self.place as u32,
            self.share,
            self.allowed,
            lent::low(count),
            lent::high(count),
        ];
        words[0..6].copy_from_slice(&six);
        quantum.to_words(&mut words[QUANTUM_AT..CELLS_AT]);
        lent::put_cells(cells, &mut words[CELLS_AT..MONTH_WORDS]);
    }

    // The month whose words these are.
    pub fn of_words(words: &[u32]) -> Month
        requires { HoldsMonth words.now × (2464 ≤ length words.now) }
        ensures { (m : Month) → Fits m → take 2464 words.now ≡ month_words m → result ≡ m }
    {
        let running = words[0] == 1;
        let place = words[1] as usize;
        let count = lent::wide(words[4], words[5]);
        let quantum = Quantum::of_words(&words[QUANTUM_AT..CELLS_AT]);
        let cells = lent::cells_in(&words[CELLS_AT..MONTH_WORDS]);
        Month {
            running,
            place,
            share: words[2],
            allowed: words[3],
            count,
            quantum,
            cells,
        }
    }
}
