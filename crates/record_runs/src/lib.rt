// A run over the records of a session, whatever it gathers (`Gather`): one quantum's clock and table, the records from a lent byte slice
// through them, and what the time between two events adds. The session run gathers kept pairs, the account run stretches of one state.
#![tactic(auto)]

ghost use Rattle.std.specs.Prelude.{◌≡◌, ℕ, ◌+◌, ◌/◌, ◌≤◌, List, [], ◌∷◌, ◌++◌, true, length, IfOk, IfErr, Err};
ghost use Rattle.rules.specs.declared.Row.{Row};
ghost use Rattle.rules.specs.declared.SpreadRule.{SpreadRule};
ghost use Rattle.rules.specs.declared.Event.{Event};
ghost use Rattle.rules.specs.Terms.{paper};
ghost use Rattle.rules.specs.Rows.{good_row_for};
ghost use Rattle.rules.specs.Orders.{time_of};
ghost use Rattle.rules.specs.Causes.{good_spread_rule, event_refusal};
ghost use Rattle.rules.specs.Bounds.{EventBounds};
ghost use Rattle.rules.specs.Answers.{number_of};
ghost use Rattle.rules.specs.Records.{read_record};
ghost use Rattle.rules.specs.Session.{records_of};
ghost use Rattle.events.specs.Represents.{Represents};
ghost use Rattle.record_runs.specs.Gather.{Growth, MayGrow, Reached, ReachedRun, Advanced, walked, Walked, RunEnds};

use clock::{Clock, Duty};
use rules::{Millis, Refusal, Row, SpreadRule, Stopped};

// What a run gathers of the time of a quantum, up to the last event that was accepted.
pub trait Gather: Copy {
    // What the time that follows an event counts as.
    type State: Copy;

    ghost state_of: { Row → SpreadRule → List Event → Self.State };

    // What the marks and a buffer, which was the first one before, have of the time below a number, after these events.
    ghost gathered: { Row → SpreadRule → List Event → ℕ → Self → List ℕ → List ℕ → Type 0 };

    // A quantum opens, and nothing is gathered.
    fn begin() -> Self
        ensures { (row : Row) (sp : SpreadRule) (base : List ℕ) → gathered row sp [] 0 result base base };

    fn state(duty: Duty, clock: Clock, table: &[u32]) -> Self::State
        requires { Reached duty clock table.now }
        ensures { (row : Row) (sp : SpreadRule) (es : List Event) → Represents row sp es duty clock table.now → result ≡ state_of row sp es };

    // Time runs on, all of it in one state.
    fn grow(self, clock: Clock, state: Self::State, to: Millis, buffer: &mut [u32]) -> Self
        requires { MayGrow state_of gathered self clock state to buffer.old }
        ensures { (row : Row) (sp : SpreadRule) (es : List Event) (base : List ℕ) → Growth state_of gathered self clock state to buffer.old row sp es base → gathered row sp es to.0 result base buffer.new };

    // The next event changes nothing of the time before it.
    ghost onward: { (row : Row) (sp : SpreadRule) (es : List Event) (e : Event) (marks : Self) (base buffer : List ℕ) → EventBounds row es → event_refusal row es e ≡ 0 → gathered row sp es (time_of e) marks base buffer → gathered row sp (es ++ (e ∷ [])) (time_of e) marks base buffer };
}

// A run so far.
#[derive(Clone, Copy)]
pub struct Run<M> {
    pub clock: Clock,
    pub marks: M,
}

// What a record hands back: the run after it, and the refusal's number or 0, as `events::ClockAfter` has it.
#[derive(Clone, Copy)]
pub struct RunAfter<M> {
    pub run: Run<M>,
    pub refusal: u32,
}

// The event of a record, and what the time up to it adds; or its refusal.
fn step<M: Gather>(
    run: Run<M>,
    bytes: &[u8],
    duty: Duty,
    table: &mut [u32],
    hints: &mut [u8],
    buffer: &mut [u32],
) -> RunAfter<M>
    requires { ReachedRun M.gathered run duty table.old hints.old buffer.old × (20 ≤ length bytes.now) }
    ensures { Advanced M.gathered run duty (read_record bytes.now) result table.old table.new buffer.old buffer.new }
{
    let clock = run.clock;
    let state = M::state(duty, clock, table);
    let stepped = events::step_fields(duty, clock, table, hints, record::fields_of(bytes));
    let refusal = stepped.refusal;
    if 0 < refusal {
        return RunAfter { run, refusal };
    }
    let next = stepped.clock;
    let marks = run.marks.grow(clock, state, next.time, buffer);
    RunAfter {
        run: Run { clock: next, marks },
        refusal: 0,
    }
}

// A refusal of the record that starts at a byte.
fn refused<M: Gather>(refusal: Refusal, at: usize) -> Result<Run<M>, Stopped>
    requires { at ≤ 80000000 }
    ensures { result ≡ Err (record { refusal = refusal; place = at / 20 + 1 }) }
{
    Err(Stopped {
        refusal,
        place: record::place_of(at),
    })
}

// A quantum opens, one pass over the records, and time runs on to the quantum's end: the first refusal, or the clock at the last event and
// what was gathered. Bytes after the full records and the limit are one more record, which is refused.
pub fn run_over<M: Gather>(
    most: u32,
    row: Row,
    spread: SpreadRule,
    records: &[u8],
    buffer: &mut [u32],
) -> Result<Run<M>, Stopped>
    requires { (most ≤ 4000000) × (good_row_for paper spread row ≡ true) × (good_spread_rule spread ≡ true) }
    ensures all { IfOk result (λ run. RunEnds M.gathered most row spread records.now buffer.old run buffer.new) }
    ensures stops { IfErr result (λ stop. walked most row 1 [] (records_of records.now) ≡ Walked.stopped (number_of stop.refusal) stop.place) }
{
    let duty = clock::duty_of(row, spread);
    let mut table = order_table::empty();
    let mut hints = [0u8; 2048];
    let mut run = Run {
        clock: clock::started(),
        marks: M::begin(),
    };
    let mut at = 0;
    let full = 20 * numbers::min_length(records.len() / 20, numbers::length(most));
    // The byte is counted by hand: with `for k in 0..full` a quiet session takes 119.8 instructions a record in place of 114.6.
    while at < full {
        let stepped = step(
            run,
            &records[at..at + 20],
            duty,
            &mut table,
            &mut hints,
            buffer,
        );
        let n = stepped.refusal;
        if 0 < n {
            return refused(rules::refusal_of(n), at);
        }
        run = stepped.run;
        at += 20;
    }
    if at < records.len() {
        return refused(Refusal::BadRecord, at);
    }
    let state = M::state(duty, run.clock, &table);
    let marks = run.marks.grow(run.clock, state, duty.length, buffer);
    Ok(Run {
        clock: run.clock,
        marks,
    })
}
