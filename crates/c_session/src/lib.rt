// A session's K, w and pairs in a lent buffer, for C.
#![tactic(auto)]

ghost use Rattle.std.specs.Prelude.{◌≡◌, ℕ, ◌≤◌, ◌<◌, length};
ghost use Rattle.rules.specs.Terms.{paper};
ghost use Rattle.rules.specs.Session.{shown_session, most_records, session, session_bytes};
ghost use Rattle.c_session.specs.Sessions.{pairs_number, FillsPairs};
ghost use Rattle.c_session.specs.Internal.{short_number, ran_number, headed};

use rules::{Finished, Steps, Stopped};

fn short_number(answer: Result<Finished, Stopped>) -> u64
    ensures { result ≡ short_number (shown_session answer) }
{
    match answer {
        Ok(_) => c_answers::refused(16),
        Err(stop) => c_answers::refused_at(stop.refusal, stop.place),
    }
}

// A run whose buffer has no room for K, w and the number of pairs: 16, unless it is refused before.
fn run_short(row: &[u32], sp: Steps, records: &[u8]) -> u64
    ensures { (n : ℕ) → n < 3 → result ≡ pairs_number n (session paper most_records row.now sp records.now) }
{
    let mut none = [0u32; 1];
    short_number(session::run(row, sp, records, &mut none[..0]))
}

// K, w and the number of pairs before the pairs, which begin at the fourth word.
fn put_head(answer: Result<Finished, Stopped>, buffer: &mut [u32]) -> u64
    requires { 3 ≤ length buffer.old }
    ensures number { result ≡ ran_number (shown_session answer) }
    ensures words { buffer.new ≡ headed buffer.old (shown_session answer) }
{
    match answer {
        Ok(run) => {
            buffer[0] = run.kept.0;
            buffer[1] = run.weight;
            buffer[2] = run.pairs;
            3 + 2 * (run.pairs as u64)
        }
        Err(stop) => c_answers::refused_at(stop.refusal, stop.place),
    }
}

fn run_pairs(row: &[u32], sp: Steps, records: &[u8], buffer: &mut [u32]) -> u64
    requires { 3 ≤ length buffer.old }
    ensures { FillsPairs (session paper most_records row.now sp records.now) buffer.old buffer.new result }
{
    let answer = session::run(row, sp, records, &mut buffer[3..]);
    put_head(answer, buffer)
}

// K, w, the number of pairs and the pairs.
pub fn session_pairs(head: &[u8], records: &[u8], buffer: &mut [u32]) -> u64
    ensures { FillsPairs (session_bytes paper most_records head.now records.now) buffer.old buffer.new result }
{
    if head.len() != 32 {
        return c_answers::refused(1);
    }
    let row = row::leading_words(head);
    let sp = row::leading_price(head);
    if buffer.len() < 3 {
        return run_short(&row, sp, records);
    }
    run_pairs(&row, sp, records, buffer)
}
