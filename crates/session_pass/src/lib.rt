// One pass over a session: the row read, a quantum opened, and the records from a lent byte slice through it.
#![tactic(auto)]

ghost use Rattle.std.specs.Prelude.{◌≡◌, ℕ, ◌≤◌, ◌<◌, true, [], Err};
ghost use Rattle.rules.specs.Terms.{paper};
ghost use Rattle.rules.specs.Rows.{good_row};
ghost use Rattle.rules.specs.Session.{records_of, run_records, session};
ghost use Rattle.session_pass.specs.Internal.{ReachedEnd, FinalAnswer, book_with, Passed};

use kept_pairs::Marks;
use record_runs::Run;
use rules::{Finished, Refusal, Row, SpreadRule, Steps, Stopped};

// K, w and the number of pairs of a run that has come to the quantum's end.
fn finish(run: Run<Marks>, row: Row) -> Finished
    requires { ReachedEnd run row }
    ensures { FinalAnswer run row result }
{
    let end = clock::onward(run.clock, row.length, 0);
    Finished {
        kept: end.kept,
        weight: verdict::weight_of(end.kept, row.length, row.share),
        pairs: run.marks.pairs,
    }
}

// One pass over the records: the first refusal, or K, w and the number of pairs, whose words are written as far as they fit.
fn run_records(
    most: u32,
    row: Row,
    sp: Steps,
    records: &[u8],
    buffer: &mut [u32],
) -> Result<Finished, Stopped>
    requires { (most ≤ 4000000) × (good_row paper row ≡ true) }
    ensures { (cell : ℕ) → cell < 186 → Passed (run_records paper most cell 1 (book_with cell row sp []) (records_of records.now)) buffer.old buffer.new result }
{
    let run = record_runs::run_over::<Marks>(most, row, SpreadRule::Settled(sp), records, buffer)?;
    Ok(finish(run, row))
}

fn refused(refusal: Refusal) -> Result<Finished, Stopped>
    ensures { result ≡ Err (record { refusal = refusal; place = 0 }) }
{
    Err(Stopped { refusal, place: 0 })
}

// The row read and a quantum opened, then one pass over the records.
pub fn pass(
    most: u32,
    row: &[u32],
    sp: Steps,
    records: &[u8],
    buffer: &mut [u32],
) -> Result<Finished, Stopped>
    requires { most ≤ 4000000 }
    ensures { Passed (session paper most row.now sp records.now) buffer.old buffer.new result }
{
    match row::read(row, SpreadRule::Settled(sp)) {
        Err(refusal) => refused(refusal),
        Ok(good) => {
            if ranges::price(sp) {
                return run_records(most, good, sp, records, buffer);
            }
            refused(Refusal::ArgumentOutOfRange)
        }
    }
}
