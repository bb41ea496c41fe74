// A month in lent words, for C: a fresh one, one call on it, and its view, each answered by one number.
#![tactic(auto)]

ghost use Rattle.std.specs.Prelude.{◌≡◌, true, [], ◌+◌, ◌≤◌, length, if◌then◌else◌};
ghost use Rattle.rules.specs.Answers.{accepted};
ghost use Rattle.c_answers.specs.Answers.{refused_number, Fills};
ghost use Rattle.c_month.specs.Internal.{error_number, view_error_number};
ghost use Rattle.c_month.specs.Months.{CallsMonth};
ghost use Rattle.month.specs.Words.{words_after, HoldsMonth};
ghost use Rattle.month_in_place.specs.Entry.{may_be_month};
ghost use Rattle.month_words.specs.Calling.{is_call};
ghost use Rattle.c_month.specs.Views.{ViewsMonth};

use month_view::ViewError;
use month_words::CallError;

// The fresh month.
pub fn fresh(words: &mut [u32]) -> u64
    ensures { Fills (accepted (words_after [])) words.old words.new result }
{
    if !month_words::fresh(words) {
        return c_answers::refused(16);
    }
    2464
}

// A buffer that is too short, unless the bytes are no call.
fn short_at(place: u32, call: &[u8]) -> u64
    ensures { result ≡ (if is_call call.now then refused_number 16 + place else refused_number 3) }
{
    if month_words::is_call(call) {
        return c_answers::refused(16) + (place as u64);
    }
    c_answers::refused(3)
}

// Words that are no month's, unless the bytes are no call.
fn no_month(call: &[u8]) -> u64
    ensures { result ≡ (if is_call call.now then refused_number 3 + 1 else refused_number 3) }
{
    if month_words::is_call(call) {
        return c_answers::refused(3) + 1;
    }
    c_answers::refused(3)
}

fn error_number(error: CallError, call: &[u8]) -> u64
    ensures { result ≡ error_number error (is_call call.now) }
{
    match error {
        CallError::WordsShort => short_at(1, call),
        CallError::NoMonth => no_month(call),
        CallError::HintsShort => short_at(2, call),
        CallError::AnswerShort => short_at(3, call),
        CallError::NoCall => c_answers::refused(3),
    }
}

// One call on the month whose words these are.
pub fn call(words: &mut [u32], hints: &mut [u8], call: &[u8], answer: &mut [u32]) -> u64
    requires { 2464 ≤ length words.old → may_be_month words.old ≡ true → HoldsMonth words.old }
    ensures { CallsMonth words.old hints.old answer.old call.now words.new hints.new answer.new result }
{
    match month_words::call(words, hints, call, answer) {
        Ok(()) => 20,
        Err(error) => error_number(error, call),
    }
}

fn view_error_number(error: ViewError) -> u64
    ensures { result ≡ view_error_number error }
{
    match error {
        ViewError::WordsShort => c_answers::refused(16) + 1,
        ViewError::NoMonth => c_answers::refused(3) + 1,
        ViewError::BufferShort => c_answers::refused(16) + 2,
    }
}

// The open quantum of the month whose words these are.
pub fn view(words: &[u32], buffer: &mut [u32]) -> u64
    requires { 2464 ≤ length words.now → may_be_month words.now ≡ true → HoldsMonth words.now }
    ensures { ViewsMonth words.now buffer.old buffer.new result }
{
    match month_view::view(words, buffer) {
        Ok(n) => n as u64,
        Err(error) => view_error_number(error),
    }
}
