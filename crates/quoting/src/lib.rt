// The library for programs in C. Each call takes numbers and lent slices, requires nothing of its caller but that a month's words are what
// these calls left, and answers by one number and by what it leaves in a lent buffer: a refused call leaves each as it was.
// include/quoting.h says word for word what each one does. Calls that must be fast are in crates of their own, an archive each (`c_call`,
// `c_records`, `c_scan`, `session_c`).
#![tactic(auto)]

ghost use Rattle.std.specs.Prelude.{◌≡◌, true, not, [], ◌≤◌, eqb, length};
ghost use Rattle.rules.specs.Terms.{paper};
ghost use Rattle.rules.specs.Answers.{accepted};
ghost use Rattle.rules.specs.Units.{steps};
ghost use Rattle.rules.specs.Records.{signed_of};
ghost use Rattle.rules.specs.Choosing.{chosen_row};
ghost use Rattle.rules.specs.Boards.{judged};
ghost use Rattle.rules.specs.Messages.{read_message};
ghost use Rattle.rules.specs.Session.{most_records, session_bytes, one_number};
ghost use Rattle.rules.specs.Accounts.{account};
ghost use Rattle.game.specs.Answers.{safe_minutes};
ghost use Rattle.sigma.specs.Sigmas.{last_sigma};
ghost use Rattle.volatile.specs.Answers.{inside_of};
ghost use Rattle.ease.specs.Easing.{eased_if};
ghost use Rattle.c_answers.specs.Answers.{value_number, test_number, Fills};
ghost use Rattle.c_fix.specs.Messages.{read_words, message_for, text_for};
ghost use Rattle.c_others.specs.Extras.{weighed, sigma_words, spread_for};
ghost use Rattle.c_session.specs.Sessions.{FillsPairs};
ghost use Rattle.c_account.specs.Accounts.{strike_of, rule_of, FillsAccount};
ghost use Rattle.quoting.specs.Lists.{AnswersCalls, words_outcome};
ghost use Rattle.c_standing.specs.Standings.{AnswersStanding};
ghost use Rattle.standing_rules.specs.Calls.{standing};
ghost use Rattle.month.specs.Words.{words_after, HoldsMonth};
ghost use Rattle.month_in_place.specs.Entry.{may_be_month};
ghost use Rattle.c_month.specs.Views.{ViewsMonth};

use standing_rules::Maker;

// ---- rows and weights

// The weight of K, L and p.
#[unsafe(no_mangle)]
pub extern "C" fn quoting_weight(kept: u32, length: u32, share: u32) -> u64
    ensures { result ≡ value_number (weighed kept length share) }
{
    c_others::weight_number(kept, length, share)
}

// The row for an expiry and a quantum from two tables of rows, seven words or none.
#[unsafe(no_mangle)]
pub extern "C" fn quoting_choose_row<'r, 'b>(
    usual: &'r [u32],
    holiday: &'r [u32],
    is_holiday: u32,
    expiry: u32,
    quantum: u32,
    buffer: &'b mut [u32],
) -> u64
    ensures { Fills (accepted (chosen_row (not (eqb is_holiday 0)) expiry quantum usual.now holiday.now)) buffer.old buffer.new result }
{
    c_others::fill_row(usual, holiday, is_holiday, expiry, quantum, buffer)
}

// ---- boards, volatile days, the game

// Whether a board of strikes, K and L each, is met.
#[unsafe(no_mangle)]
pub extern "C" fn quoting_board(strikes: &[[u32; 2]], first: u32, second: u32) -> u64
    ensures { result ≡ test_number (judged first second strikes.now) }
{
    c_others::board_met(strikes, first, second)
}

// The sigma of the last price's day, one word or none.
#[unsafe(no_mangle)]
pub extern "C" fn quoting_sigma(prices: &[i32], buffer: &mut [u32]) -> u64
    ensures { Fills (accepted (sigma_words (last_sigma prices.now))) buffer.old buffer.new result }
{
    c_others::last_sigma(prices, buffer)
}

// Whether the day after the last price is inside a period.
#[unsafe(no_mangle)]
pub extern "C" fn quoting_volatile(prices: &[i32], threshold: u32) -> u64
    ensures { result ≡ test_number (inside_of prices.now threshold) }
{
    c_others::day_inside(prices, threshold)
}

// The same, and the lent row eased where it is.
#[unsafe(no_mangle)]
pub extern "C" fn quoting_ease(row: &mut [u32], strike: u32, prices: &[i32], threshold: u32) -> u64
    ensures number { result ≡ test_number (inside_of prices.now threshold) }
    ensures words { row.new ≡ eased_if (inside_of prices.now threshold) (spread_for strike) row.old }
{
    c_others::ease_row(row, strike, prices, threshold)
}

// G of m minutes, h doubles and k knocks.
#[unsafe(no_mangle)]
pub extern "C" fn quoting_safe_minutes(m: u32, h: u32, k: u32) -> u64
    ensures { result ≡ value_number (safe_minutes m h k) }
{
    c_others::safe_minutes(m, h, k)
}

// ---- FIX messages

// The message that some bytes are.
#[unsafe(no_mangle)]
pub extern "C" fn quoting_fix(bytes: &[u8], buffer: &mut [u32]) -> u64
    ensures { Fills (read_words (read_message bytes.now)) buffer.old buffer.new result }
{
    c_fix::read_words(bytes, buffer)
}

// The bytes of a message that words say, with the bytes of its 60.
#[unsafe(no_mangle)]
pub extern "C" fn quoting_fix_write(fields: &[u32], sixty: &[u8], text: &mut [u8]) -> u64
    ensures { Fills (text_for (message_for fields.now sixty.now)) text.old text.new result }
{
    c_fix::write_text(fields, sixty, text)
}

// ---- sessions, and where their time went

// K, or 4,294,967,296 × refusal + place.
#[unsafe(no_mangle)]
pub extern "C" fn quoting_session(head: &[u8], records: &[u8]) -> u64
    ensures { result ≡ one_number (session_bytes paper most_records head.now records.now) }
{
    session::quoting_session(head, records)
}

// K, w, the number of pairs and the pairs.
#[unsafe(no_mangle)]
pub extern "C" fn quoting_session_pairs(head: &[u8], records: &[u8], buffer: &mut [u32]) -> u64
    ensures { FillsPairs (session_bytes paper most_records head.now records.now) buffer.old buffer.new result }
{
    c_session::session_pairs(head, records, buffer)
}

// The milliseconds of each state, the number of stretches of one state, and the stretches. SP is in two's complement.
#[unsafe(no_mangle)]
pub extern "C" fn quoting_account(
    row: &[u32],
    strike: u32,
    sp: u32,
    a: u32,
    difference: u32,
    days: u32,
    b: u32,
    records: &[u8],
    buffer: &mut [u32],
) -> u64
    ensures { FillsAccount (account paper most_records row.now (rule_of strike (steps (signed_of sp)) (strike_of a difference days b)) records.now) buffer.old buffer.new result }
{
    c_account::session_account(row, strike, sp, a, difference, days, b, records, buffer)
}

// ---- months in lent words

// The fresh month.
#[unsafe(no_mangle)]
pub extern "C" fn quoting_month_fresh(words: &mut [u32]) -> u64
    ensures { Fills (accepted (words_after [])) words.old words.new result }
{
    c_month::fresh(words)
}

// The open quantum of the month whose words these are.
#[unsafe(no_mangle)]
pub extern "C" fn quoting_month_view(words: &[u32], buffer: &mut [u32]) -> u64
    requires { 2464 ≤ length words.now → may_be_month words.now ≡ true → HoldsMonth words.now }
    ensures { ViewsMonth words.now buffer.old buffer.new result }
{
    c_month::view(words, buffer)
}

// ---- lists of calls

// A whole list of calls from a fresh month.
#[unsafe(no_mangle)]
pub extern "C" fn quoting_calls(calls: &[u8], answers: &mut [u32]) -> u64
    ensures { AnswersCalls calls.now answers.old answers.new result }
{
    if 17179869184 <= calls.len() {
        return c_answers::refused(3);
    }
    match call_list::run(calls, answers) {
        Ok(list) => list.calls as u64,
        Err(_) => c_answers::refused(16),
    }
}

// How many words of a list are calls, from the first on.
#[unsafe(no_mangle)]
pub extern "C" fn quoting_calls_words(calls: &[u8]) -> u64
    ensures { result ≡ value_number (words_outcome calls.now) }
{
    if 17179869184 <= calls.len() {
        return c_answers::refused(3);
    }
    let list = call_blocks::measure(calls);
    list.words as u64
}

// ---- the standing of makers

// A list of calls on lent records, of which the first ones are used.
#[unsafe(no_mangle)]
pub extern "C" fn quoting_standing(
    records: &mut [Maker],
    count: usize,
    calls: &[u32],
    outcomes: &mut [u32],
) -> u64
    ensures { AnswersStanding calls.now (standing records.old count) outcomes.old records.new outcomes.new result }
{
    let ran = standing::run(records, count, calls, outcomes);
    c_standing::standing_number(calls, ran)
}
