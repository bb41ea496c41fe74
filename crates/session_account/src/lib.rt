// The account run: where the time of a session went, as stretches of one state and the milliseconds of each state. Records go through one
// open quantum, twice where stretches are written, as in a session run.
//
// Two passes, as in the session run.
#![tactic(auto)]

ghost use Rattle.std.specs.Prelude.{◌≡◌, ℕ, ◌+◌, ◌≤◌, true, [], length, Err};
ghost use Rattle.rules.specs.Terms.{paper};
ghost use Rattle.rules.specs.Rows.{good_row_for};
ghost use Rattle.rules.specs.Causes.{good_spread_rule};
ghost use Rattle.rules.specs.Session.{most_records, records_of};
ghost use Rattle.rules.specs.Accounts.{account_records, account, account_ran, account_buffer};
ghost use Rattle.record_runs.specs.Internal.{book_of};
ghost use Rattle.session_account.specs.Shown.{shown_account, filled_by};
ghost use Rattle.session_account.specs.Internal.{put_part, longer_by, begun_at, added_to, Addable, MarksBounds, MarksAfter, Passed};
ghost use Rattle.session_account.specs.Gathered.{word_after, gathered_parts, onward_parts};

use clock::{Clock, Duty};
use record_runs::Gather;
use rules::{Millis, Refusal, Row, SpreadRule, Stopped};

// The milliseconds of each state.
#[derive(Clone, Copy)]
pub struct Times {
    pub kept: Millis,
    pub no_bid: Millis,
    pub no_ask: Millis,
    pub neither: Millis,
    pub crossed: Millis,
    pub wide: Millis,
}

// What an account run found: the milliseconds of each state and the number of stretches.
#[derive(Clone, Copy)]
pub struct Accounted {
    pub times: Times,
    pub stretches: u32,
}

// The stretches so far: how many, where the last one starts, its state's word (6 with none), and the milliseconds of each state.
#[derive(Clone, Copy)]
struct Marks {
    stretches: u32,
    start: u32,
    state: u32,
    times: Times,
}

// Writes the stretch counted n from 0, where it fits.
fn put_part(buffer: &mut [u32], n: usize, start: u32, length: u32, state: u32)
    requires { n ≤ 100000000 }
    ensures { buffer.new ≡ put_part buffer.old n start length state }
{
    let at = 3 * n;
    if at + 3 <= buffer.len() {
        buffer[at] = start;
        buffer[at + 1] = length;
        buffer[at + 2] = state;
    }
}

// Time that is more where it counts.
fn longer(time: Millis, counts: bool, more: u32) -> Millis
    requires { time.0 + more ≤ 86400000 }
    ensures { result ≡ longer_by time counts more }
{
    Millis(time.0 + (counts as u32) * more)
}

// The milliseconds of a state are more.
fn added(times: Times, state: u32, more: u32) -> Times
    requires { Addable times more }
    ensures { result ≡ added_to times state more }
{
    Times {
        kept: longer(times.kept, state == 0, more),
        no_bid: longer(times.no_bid, state == 1, more),
        no_ask: longer(times.no_ask, state == 2, more),
        neither: longer(times.neither, state == 3, more),
        crossed: longer(times.crossed, state == 4, more),
        wide: longer(times.wide, state == 5, more),
    }
}

// The marks when a state holds from a time on: in the last stretch where that has it, else in a new one.
fn begun(marks: Marks, from: Millis, state: u32) -> Marks
    requires { marks.stretches ≤ 100000000 }
    ensures { result ≡ begun_at marks from.0 state }
{
    if marks.state == state {
        return marks;
    }
    let times = marks.times;
    Marks {
        stretches: marks.stretches + 1,
        start: from.0,
        state,
        times,
    }
}

// Time runs on, all of it in one state.
fn grow(marks: Marks, from: Millis, to: Millis, state: u32, buffer: &mut [u32]) -> Marks
    requires { MarksBounds marks from to state }
    ensures { MarksAfter marks from to state result buffer.old buffer.new }
{
    if to.0 <= from.0 {
        return marks;
    }
    let next = begun(marks, from, state);
    let n = next.stretches - 1;
    let start = next.start;
    put_part(buffer, n as usize, start, to.0 - start, state);
    let times = marks.times;
    Marks {
        stretches: next.stretches,
        start,
        state,
        times: added(times, state, to.0 - from.0),
    }
}

impl Gather for Marks {
    type State = u32;

    ghost state_of = { word_after };

    ghost gathered = { gathered_parts };

    ghost onward = { onward_parts };

    fn begin() -> Marks {
        Marks {
            stretches: 0,
            start: 0,
            state: 6,
            times: Times {
                kept: Millis(0),
                no_bid: Millis(0),
                no_ask: Millis(0),
                neither: Millis(0),
                crossed: Millis(0),
                wide: Millis(0),
            },
        }
    }

    // The state is worked out before each event and at the end, from the two best keys of the table.
    fn state(duty: Duty, _clock: Clock, table: &[u32]) -> u32 {
        order_table::state(table, duty.widest)
    }

    fn grow(self, clock: Clock, state: u32, to: Millis, buffer: &mut [u32]) -> Marks {
        grow(self, clock.time, to, state, buffer)
    }
}

// One pass over the records: the first refusal, or the account, whose words are written as far as they fit.
fn run_records(
    most: u32,
    row: Row,
    spread: SpreadRule,
    records: &[u8],
    buffer: &mut [u32],
) -> Result<Accounted, Stopped>
    requires { (most ≤ 4000000) × (good_row_for paper spread row ≡ true) × (good_spread_rule spread ≡ true) }
    ensures { (cell : ℕ) → Passed (account_records paper most 1 (book_of cell row spread []) (records_of records.now)) buffer.old buffer.new result }
{
    let run = record_runs::run_over::<Marks>(most, row, spread, records, buffer)?;
    Ok(Accounted {
        times: run.marks.times,
        stretches: run.marks.stretches,
    })
}

fn refused(refusal: Refusal) -> Result<Accounted, Stopped>
    ensures { result ≡ Err (record { refusal = refusal; place = 0 }) }
{
    Err(Stopped { refusal, place: 0 })
}

// The row read and a quantum opened, then one pass over the records.
fn pass(
    most: u32,
    row: &[u32],
    spread: SpreadRule,
    records: &[u8],
    buffer: &mut [u32],
) -> Result<Accounted, Stopped>
    requires { most ≤ 4000000 }
    ensures { Passed (account paper most row.now spread records.now) buffer.old buffer.new result }
{
    match row::read(row, spread) {
        Err(refusal) => refused(refusal),
        Ok(good) => {
            if !ranges::settlement(spread) {
                return refused(Refusal::ArgumentOutOfRange);
            }
            if !strike::in_range(spread) {
                return refused(Refusal::StrikesOutOfRange);
            }
            run_records(most, good, spread, records, buffer)
        }
    }
}

// The words that a run has filled.
pub fn filled(answer: Result<Accounted, Stopped>) -> usize
    ensures { result ≡ filled_by answer }
{
    match answer {
        Ok(run) => 3 * (run.stretches as usize),
        Err(_) => 0,
    }
}

// Two passes: the first writes nothing of the caller's, the second only where nothing is refused and the stretches fit.
fn passes(
    most: u32,
    row: &[u32],
    spread: SpreadRule,
    records: &[u8],
    scratch: &mut [u32],
    buffer: &mut [u32],
) -> Result<Accounted, Stopped>
    requires { most ≤ 4000000 }
    ensures answer { shown_account result ≡ account_ran (length buffer.old) (account paper most row.now spread records.now) }
    ensures words { buffer.new ≡ account_buffer buffer.old (account paper most row.now spread records.now) }
{
    let first = pass(most, row, spread, records, scratch)?;
    if buffer.len() < 3 * (first.stretches as usize) {
        return refused(Refusal::BufferShort);
    }
    pass(most, row, spread, records, buffer)
}

// The first pass has a word of its own, where no stretch fits.
fn within(
    most: u32,
    row: &[u32],
    spread: SpreadRule,
    records: &[u8],
    buffer: &mut [u32],
) -> Result<Accounted, Stopped>
    requires { most ≤ 4000000 }
    ensures answer { shown_account result ≡ account_ran (length buffer.old) (account paper most row.now spread records.now) }
    ensures words { buffer.new ≡ account_buffer buffer.old (account paper most row.now spread records.now) }
{
    let mut none = [0u32; 1];
    passes(most, row, spread, records, &mut none, buffer)
}

// The account run. On success the front of the buffer has the stretches; on a refusal the buffer keeps its contents.
pub fn run(
    row: &[u32],
    spread: SpreadRule,
    records: &[u8],
    buffer: &mut [u32],
) -> Result<Accounted, Stopped>
    ensures answer { shown_account result ≡ account_ran (length buffer.old) (account paper most_records row.now spread records.now) }
    ensures words { buffer.new ≡ account_buffer buffer.old (account paper most_records row.now spread records.now) }
{
    within(4000000, row, spread, records, buffer)
}

// The same with fewer records at most.
pub fn run_within(
    most: u16,
    row: &[u32],
    spread: SpreadRule,
    records: &[u8],
    buffer: &mut [u32],
) -> Result<Accounted, Stopped>
    ensures answer { shown_account result ≡ account_ran (length buffer.old) (account paper most row.now spread records.now) }
    ensures words { buffer.new ≡ account_buffer buffer.old (account paper most row.now spread records.now) }
{
    within(most as u32, row, spread, records, buffer)
}
