// Event records on a month in lent words, for C: the one call of an archive of its own, so that the compiler inlines an event's step into
// the loop over the records.
#![tactic(auto)]

ghost use Rattle.std.specs.Prelude.{◌≡◌, true, ◌≤◌, length};
ghost use Rattle.rules.specs.Answers.{outcome_by, done};
ghost use Rattle.answer_words.specs.Words.{answer_words};
ghost use Rattle.month.specs.Words.{HoldsMonth};
ghost use Rattle.month_in_place.specs.Entry.{may_be_month};
ghost use Rattle.c_records.specs.Records.{entry_of, RecordsMonth};

// What refuses the lent buffers, or 0: the number that the call answers (the C interface).
fn entry(words: &[u32], hints: &[u8], answer: &[u32]) -> u64
    ensures { result ≡ entry_of words.now hints.now answer.now }
{
    if words.len() < 2464 {
        return c_answers::refused(16) + 1;
    }
    if !month_in_place::may_be_month(words) {
        return c_answers::refused(3) + 1;
    }
    if hints.len() < 2048 {
        return c_answers::refused(16) + 2;
    }
    if answer.len() < 20 {
        return c_answers::refused(16) + 3;
    }
    0
}

// The answer of an accepted call, or of a refused one.
fn put_answer(refusal: u32, answer: &mut [u32])
    requires { length answer.old ≡ 20 }
    ensures { answer.new ≡ answer_words (outcome_by refusal done) }
{
    if 0 < refusal {
        answer_words::put_refused(refusal, answer);
        return;
    }
    answer_words::put_accepted(answer);
}

// Records on the month whose words these are: how many were taken. The answer is an accepted call's, or that of the first record that was
// refused.
#[unsafe(no_mangle)]
pub extern "C" fn quoting_month_records(
    words: &mut [u32],
    hints: &mut [u8],
    records: &[u8],
    answer: &mut [u32],
) -> u64
    requires { 2464 ≤ length words.old → may_be_month words.old ≡ true → HoldsMonth words.old }
    ensures { RecordsMonth words.old hints.old answer.old records.now words.new hints.new answer.new result }
{
    let wrong = entry(words, hints, answer);
    if 0 < wrong {
        return wrong;
    }
    let taken = records_in_place::send(words, &mut hints[0..2048], records);
    put_answer(taken.refusal, &mut answer[0..20]);
    taken.count
}
