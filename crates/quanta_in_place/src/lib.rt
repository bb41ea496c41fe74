// Calls on a month's words in place that open, close or drop its quantum, change one of its cells, or show its state: open, close,
// drop, charge, withdraw, report and outlook. None copies the cells or the quantum.
#![tactic(auto)]

ghost use Rattle.std.specs.Prelude.{◌≡◌, true, List, [], ◌∷◌, ℕ, ◌≤◌, length, replicate};
ghost use Rattle.rules.specs.Terms.{paper};
ghost use Rattle.rules.specs.Rows.{good_row_for, row_of};
ghost use Rattle.rules.specs.Causes.{good_spread_rule};
ghost use Rattle.rules.specs.Answers.{shown_report, shown_outlook};
ghost use Rattle.rules.specs.Calls.{Idle};
ghost use Rattle.rules.specs.Calls as B;
ghost use Rattle.quantum.specs.Represents.{quantum_of, quantum_in, idle_row};
ghost use Rattle.quantum.specs.Words.{quantum_words};
ghost use Rattle.month.specs.Words.{words_after, HoldsMonth};
ghost use Rattle.month_in_place.specs.Events.{ChangesMonth, ShowsMonth};
ghost use Rattle.quanta_in_place.specs.Internal.{restarted};

use month::{CELLS_AT, MONTH_WORDS, QUANTUM_AT};
use numbers::both;
use quantum::{NOTES_AT, QUANTUM_WORDS, TABLE_AT};
use rules::{
    Cell, Contracts, Kopecks, Millis, Opening, Outlook, Refusal, Report, Row, Side, SpreadRule,
    Steps,
};

// ---- the words before the cells

fn clear(words: &mut [u32])
    ensures { words.new ≡ replicate (length words.old) 0 }
{
    words.fill(0);
}

// The 598 words of a quantum that opens with no orders, at time 0.
fn put_opened(words: &mut [u32], row: Row, spread: SpreadRule)
    requires { (length words.old ≡ 598) × (good_row_for paper spread row ≡ true) × (good_spread_rule spread ≡ true) }
    ensures { words.new ≡ quantum_words (quantum_of row spread []) }
{
    let duty = clock::duty_of(row, spread);
    let clock = clock::started();
    let notes = order_arrivals::opened(row, spread);
    let length = duty.length;
    let minimum = duty.minimum;
    let three = [length.0, minimum.0, duty.widest];
    let zeros = [0u32; 2];
    lent::copy(&three, &mut words[0..3]);
    clock::put_clock(clock, &mut words[3..8]);
    lent::copy(&zeros, &mut words[8..10]);
    clear(&mut words[TABLE_AT..NOTES_AT]);
    lent::copy(&notes, &mut words[NOTES_AT..QUANTUM_WORDS]);
}

// One accepted call more, and a quantum that has just opened: its words, and in front of the count whether it is open, its cell's place, p
// and its lapse limit.
fn restart(
    words: &mut [u32],
    running: u32,
    place: u32,
    share: u32,
    allowed: u32,
    row: Row,
    spread: SpreadRule,
)
    requires { (2464 ≤ length words.old) × (good_row_for paper spread row ≡ true) × (good_spread_rule spread ≡ true) }
    ensures { words.new ≡ restarted words.old (running ∷ place ∷ share ∷ allowed ∷ []) (quantum_of row spread []) }
{
    let four = [running, place, share, allowed];
    lent::copy(&four, &mut words[0..4]);
    month_in_place::count_on(&mut words[4..6]);
    put_opened(&mut words[QUANTUM_AT..CELLS_AT], row, spread);
}

// The row of the quantum that the words have while none is open.
fn idle_row() -> Row
    ensures { result ≡ idle_row }
{
    Row {
        expiry: 1,
        quantum: 0,
        length: Millis(1000),
        minimum: Contracts(1),
        a: 0,
        b: 0,
        share: 1,
    }
}

// One accepted call more, and no quantum is open: zeros, and the idle quantum (quantum/specs/Represents) in its place.
fn forget(words: &mut [u32])
    requires { 2464 ≤ length words.old }
    ensures { words.new ≡ restarted words.old (0 ∷ 0 ∷ 0 ∷ 0 ∷ []) (quantum_in Idle) }
{
    let row = idle_row();
    restart(words, 0, 0, 0, 0, row, SpreadRule::Settled(Steps(0)));
}

// The fresh month: all words 0, and the idle quantum in its place.
pub fn fresh(words: &mut [u32])
    requires { length words.old ≡ 2464 }
    ensures { words.new ≡ words_after [] }
{
    let row = idle_row();
    clear(words);
    put_opened(
        &mut words[QUANTUM_AT..CELLS_AT],
        row,
        SpreadRule::Settled(Steps(0)),
    );
}

// ---- calls that change the month: each answers the refusal's number, or 0

// The open quantum is forgotten.
pub fn drop(words: &mut [u32]) -> u32
    requires { HoldsMonth words.old × (2464 ≤ length words.old) }
    ensures { ChangesMonth words.old B.Drop words.new result }
{
    if words[0] == 0 {
        return u32::from(Refusal::NoQuantumOpen);
    }
    forget(words);
    0
}

// Time runs on to L, and the cell is filled with kept time, L, p, the lapse limit, the lapses, A and P; no quantum is open then.
pub fn close(words: &mut [u32], active: Kopecks, passive: Kopecks) -> u32
    requires { HoldsMonth words.old × (2464 ≤ length words.old) }
    ensures { ChangesMonth words.old (B.Close active passive) words.new result }
{
    if !cells::both_charges(active, passive) {
        return u32::from(Refusal::ArgumentOutOfRange);
    }
    if words[0] == 0 {
        return u32::from(Refusal::NoQuantumOpen);
    }
    let duty = clock::duty_in(&words[6..9]);
    let clock = clock::clock_in(&words[9..14]);
    let totals = clock::ended(duty, clock);
    let kept = totals.kept;
    let length = duty.length;
    let cell = Cell {
        filled: true,
        kept,
        length,
        share: words[2],
        allowed: words[3],
        lapses: totals.lapses,
        active,
        passive,
    };
    let place = numbers::length(words[1]);
    cells_in_place::put(&mut words[CELLS_AT..MONTH_WORDS], place, cell);
    forget(words);
    0
}

// A row that was read: the other causes of open, then the quantum opens.
fn open_row(words: &mut [u32], row: Row, day: u32, opening: Opening) -> u32
    requires { HoldsMonth words.old × (2464 ≤ length words.old) × (good_row_for paper opening.spread row ≡ true) }
    ensures { (read : List ℕ) → length read ≡ 7 → row_of read ≡ row → ChangesMonth words.old (B.Open read day opening) words.new result }
{
    let spread = opening.spread;
    if !both(ranges::between(1, 31, day), ranges::settlement(spread)) {
        return u32::from(Refusal::ArgumentOutOfRange);
    }
    let place = cells::place_of(day, row.expiry, row.quantum);
    let cell = cells_in_place::at(&words[CELLS_AT..MONTH_WORDS], place);
    if cell.filled {
        return u32::from(Refusal::CellFilled);
    }
    if words[0] != 0 {
        return u32::from(Refusal::QuantumOpen);
    }
    if !ranges::lapse_limit(opening.allowed) {
        return u32::from(Refusal::LapseLimitOutOfRange);
    }
    if !strike::in_range(spread) {
        return u32::from(Refusal::StrikesOutOfRange);
    }
    restart(
        words,
        1,
        place as u32,
        row.share,
        opening.allowed,
        row,
        spread,
    );
    0
}

// The named cell's quantum opens with no orders, at time 0.
pub fn open(words: &mut [u32], row: &[u32], day: u32, opening: Opening) -> u32
    requires { HoldsMonth words.old × (2464 ≤ length words.old) }
    ensures { ChangesMonth words.old (B.Open row.now day opening) words.new result }
{
    let spread = opening.spread;
    let read = row::read(row, spread);
    match read {
        Ok(good) => open_row(words, good, day, opening),
        Err(r) => u32::from(r),
    }
}

// New charges in place of a filled cell's old ones.
pub fn charge(
    words: &mut [u32],
    day: u32,
    expiry: u32,
    quantum: u32,
    active: Kopecks,
    passive: Kopecks,
) -> u32
    requires { HoldsMonth words.old × (2464 ≤ length words.old) }
    ensures { ChangesMonth words.old (B.Charge day expiry quantum active passive) words.new result }
{
    let n = cells_in_place::charge(
        &mut words[CELLS_AT..MONTH_WORDS],
        day,
        expiry,
        quantum,
        active,
        passive,
    );
    if 0 < n {
        return n;
    }
    month_in_place::count_on(&mut words[4..6]);
    0
}

// The cell is blank again.
pub fn withdraw(words: &mut [u32], day: u32, expiry: u32, quantum: u32) -> u32
    requires { HoldsMonth words.old × (2464 ≤ length words.old) }
    ensures { ChangesMonth words.old (B.Withdraw day expiry quantum) words.new result }
{
    let n = cells_in_place::withdraw(&mut words[CELLS_AT..MONTH_WORDS], day, expiry, quantum);
    if 0 < n {
        return n;
    }
    month_in_place::count_on(&mut words[4..6]);
    0
}

// ---- calls that show the state

// The state of the open quantum, and whether the maker may rest. The words do not change.
pub fn outlook(words: &[u32]) -> Result<Outlook, Refusal>
    requires { HoldsMonth words.now × (2464 ≤ length words.now) }
    ensures { ShowsMonth words.now B.Outlook (shown_outlook result) }
{
    if words[0] == 0 {
        return Err(Refusal::NoQuantumOpen);
    }
    let quantum = &words[QUANTUM_AT..CELLS_AT];
    let duty = clock::duty_in(&quantum[0..3]);
    let clock = clock::clock_in(&quantum[3..8]);
    Ok(outlook::of(duty, clock, words[2], words[3]))
}

// Open or not, time, live orders, best quotes, kept time and lapses of the open quantum; the failure counts and the fee. The words are as
// they were.
pub fn report(words: &[u32]) -> Report
    requires { HoldsMonth words.now × (2464 ≤ length words.now) }
    ensures { ShowsMonth words.now B.Report (shown_report result) }
{
    let quantum = &words[QUANTUM_AT..CELLS_AT];
    let clock = clock::clock_in(&quantum[3..8]);
    let time = clock.time;
    let kept = clock.kept;
    let orders = order_table::count(&quantum[TABLE_AT..NOTES_AT]);
    let bid = order_table::best(&quantum[TABLE_AT..NOTES_AT], Side::Buy);
    let ask = order_table::best(&quantum[TABLE_AT..NOTES_AT], Side::Sell);
    let failures = cells_in_place::failures(&words[CELLS_AT..MONTH_WORDS]);
    let fee = cells_in_place::fee(&words[CELLS_AT..MONTH_WORDS], failures);
    let running = lent::is_set(words[0]);
    Report {
        running,
        time,
        orders,
        bid,
        ask,
        kept,
        lapses: clock.lapses,
        failures,
        fee,
    }
}
