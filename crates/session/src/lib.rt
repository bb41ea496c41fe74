// The session run: one pass over the records, or two where pairs are written.
//
// The session runs on a quantum's duty, clock and table and not on the month, in two passes: the first finds the first refusal, K and the
// number of pairs and writes nothing; the second writes. The C call needs the first only. The definitions say it by the plain book; laws in
// crates/session_pass/proofs and crates/record_runs/proofs remove the book.
#![tactic(auto)]

ghost use Rattle.std.specs.Prelude.{◌≡◌, ◌≤◌, length, Err};
ghost use Rattle.rules.specs.declared.Refusal.TheVariants.{BufferShort};
ghost use Rattle.rules.specs.Terms.{paper};
ghost use Rattle.rules.specs.Session.{shown_session, most_records, session, session_bytes, ran, front as frontOf, buffer_after, one_number};
ghost use Rattle.session.specs.Internal.{filled_by, number_by};

use rules::{Finished, Refusal, Steps, Stopped};

// The words that a run has filled.
pub fn filled(answer: Result<Finished, Stopped>) -> usize
    ensures { result ≡ filled_by answer }
{
    match answer {
        Ok(run) => 2 * (run.pairs as usize),
        Err(_) => 0,
    }
}

fn too_short() -> Result<Finished, Stopped>
    ensures { result ≡ Err (record { refusal = BufferShort; place = 0 }) }
{
    Err(Stopped {
        refusal: Refusal::BufferShort,
        place: 0,
    })
}

// Two passes: the first writes nothing of the caller's, the second only where nothing is refused and the pairs fit.
fn passes(
    most: u32,
    row: &[u32],
    sp: Steps,
    records: &[u8],
    scratch: &mut [u32],
    buffer: &mut [u32],
) -> Result<Finished, Stopped>
    requires { most ≤ 4000000 }
    ensures answer { shown_session result ≡ ran (length buffer.old) (session paper most row.now sp records.now) }
    ensures words { buffer.new ≡ buffer_after buffer.old (session paper most row.now sp records.now) }
{
    let first = session_pass::pass(most, row, sp, records, scratch)?;
    if buffer.len() < 2 * (first.pairs as usize) {
        return too_short();
    }
    session_pass::pass(most, row, sp, records, buffer)
}

// The first pass has a word of its own, where no pair fits.
fn within(
    most: u32,
    row: &[u32],
    sp: Steps,
    records: &[u8],
    buffer: &mut [u32],
) -> Result<Finished, Stopped>
    requires { most ≤ 4000000 }
    ensures answer { shown_session result ≡ ran (length buffer.old) (session paper most row.now sp records.now) }
    ensures words { buffer.new ≡ buffer_after buffer.old (session paper most row.now sp records.now) }
{
    let mut none = [0u32; 1];
    passes(most, row, sp, records, &mut none, buffer)
}

// The first session call. On success the front of the buffer has the pairs; on a refusal the buffer keeps its contents.
pub fn run(row: &[u32], sp: Steps, records: &[u8], buffer: &mut [u32]) -> Result<Finished, Stopped>
    ensures answer { shown_session result ≡ ran (length buffer.old) (session paper most_records row.now sp records.now) }
    ensures words { buffer.new ≡ buffer_after buffer.old (session paper most_records row.now sp records.now) }
{
    within(4000000, row, sp, records, buffer)
}

// The same with fewer records at most.
pub fn run_within(
    most: u16,
    row: &[u32],
    sp: Steps,
    records: &[u8],
    buffer: &mut [u32],
) -> Result<Finished, Stopped>
    ensures answer { shown_session result ≡ ran (length buffer.old) (session paper most row.now sp records.now) }
    ensures words { buffer.new ≡ buffer_after buffer.old (session paper most row.now sp records.now) }
{
    within(most as u32, row, sp, records, buffer)
}

// The second session call: the filled front part of the buffer, empty on a refusal.
pub fn front<'a, 'b, 'c>(
    row: &'a [u32],
    sp: Steps,
    records: &'b [u8],
    buffer: &'c mut [u32],
) -> &'c mut [u32]
    ensures words { result.now ≡ frontOf (length buffer.old) (session paper most_records row.now sp records.now) }
    ensures place { result.ref_ptr ≡ buffer.entry.ref_ptr }
{
    let n = filled(run(row, sp, records, buffer));
    &mut buffer[..n]
}

fn one_number(answer: Result<Finished, Stopped>) -> u64
    ensures { result ≡ number_by (shown_session answer) }
{
    match answer {
        Ok(run) => u64::from(run.kept.0),
        Err(stop) => c_answers::refused_at(stop.refusal, stop.place),
    }
}

// What the C call answers: K, or 4,294,967,296 × refusal + place.
pub fn quoting_session(head: &[u8], records: &[u8]) -> u64
    ensures { result ≡ one_number (session_bytes paper most_records head.now records.now) }
{
    if head.len() != 32 {
        return c_answers::refused(1);
    }
    let row = row::leading_words(head);
    let sp = row::leading_price(head);
    let mut none = [0u32; 1];
    one_number(session_pass::pass(4000000, &row, sp, records, &mut none))
}
