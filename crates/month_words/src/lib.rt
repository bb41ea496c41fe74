// A month that lives in lent words (month/specs/Words has their layout): `fresh` writes the fresh one, and `call` runs one call, a block
// of bytes, on it and writes its answer (answer_words/specs/Words).
//
// The buffers are checked before the call: words, hints, answer, then the bytes; none of these is a refusal of the book. An event's fields are
// read off the block's bytes, and `call_blocks::decode` is not called: with it a tick would take some 75 instructions more. What is read has to
// be right only where it says an event (`SaysBlock`). Every call goes in place: none copies the month.
#![tactic(auto)]

ghost use Rattle.std.specs.Prelude.{◌≡◌, IfSome, [], ◌++◌, true, false, ◌+◌, ◌*◌, ◌≤◌, ◌<◌, leb, length, drop, get_or, if◌then◌else◌};
ghost use Rattle.rules.specs.declared.Event.{Event};
ghost use Rattle.rules.specs.Terms.{paper};
ghost use Rattle.rules.specs.Answers.{outcome_by, done};
ghost use Rattle.rules.specs.Calls.{Open, Send, Message, Look, Ask, Report, Outlook};
ghost use Rattle.rules.specs.Book.{after};
ghost use Rattle.month.specs.Represents.{month_of};
ghost use Rattle.month.specs.Words.{month_words, HoldsMonth};
ghost use Rattle.record.specs.Fields.{fields_for};
ghost use Rattle.words.specs.Bytes.{words_in};
ghost use Rattle.answer_words.specs.Words.{answer_words};
ghost use Rattle.call_blocks.specs.Kinds.{steps_at, row_at, start_at, message_at, call_of};
ghost use Rattle.call_blocks.specs.Decoded.{call_with};
ghost use Rattle.quantum_in_place.specs.Events.{SaysEvent};
ghost use Rattle.month_in_place.specs.Entry.{may_be_month};
ghost use Rattle.month_in_place.specs.Events.{ChangesMonth};
ghost use Rattle.month_words.specs.Calling.{is_call, Calling, Performs};
ghost use Rattle.month_words.specs.Internal.{amend_in, cancel_in, deal_in, tick_in, SaysAdd, SaysBlock, ChangesShown, ShowsWords, LeavesLent, is_shown};

use call_blocks::Decoded;
use month::MONTH_WORDS;
use record::Fields;
use rules::{Amendment, Contracts, Event, Millis, Opening, Steps};

// How many bytes the hints have, and how many words an answer.
pub const HINTS: usize = 2048;

pub const ANSWER: usize = 20;

// Why a call is not made: the lent words are too few or no month's, the hints or the answer's words are too few, or the bytes are no call.
// Nothing is changed then.
#[derive(Clone, Copy, PartialEq, Eq, Debug)]
pub enum CallError {
    WordsShort,
    NoMonth,
    HintsShort,
    AnswerShort,
    NoCall,
}

// The fresh month, where its words fit.
pub fn fresh(words: &mut [u32]) -> bool
    ensures { (result ≡ leb 2464 (length words.old)) × (words.new ≡ (if result then month_words (month_of (after paper [])) ++ drop 2464 words.old else words.old)) }
{
    if words.len() < MONTH_WORDS {
        return false;
    }
    quanta_in_place::fresh(&mut words[0..MONTH_WORDS]);
    true
}

// Whether some bytes are one call's block, and nothing more.
pub fn is_call(bytes: &[u8]) -> bool
    ensures { result ≡ is_call bytes.now }
{
    match call_blocks::size(bytes) {
        Some(size) => (size == call_blocks::count(bytes)) & (bytes.len() % 4 == 0),
        None => false,
    }
}

// The answer of a call that shows nothing, by the refusal's number, or 0.
fn put_number(n: u32, answer: &mut [u32])
    requires { length answer.old ≡ 20 }
    ensures { answer.new ≡ answer_words (outcome_by n done) }
{
    if 0 < n {
        answer_words::put_refused(n, answer);
        return;
    }
    answer_words::put_accepted(answer);
}

// ---- an event

// A word of a block that is long enough for it.
fn word(bytes: &[u8], i: usize) -> u32
    requires { 4 * i + 4 ≤ length bytes.now }
    ensures { result ≡ get_or (words_in bytes.now) i 0 }
{
    words::word_at(bytes, 4 * i)
}

fn steps(bytes: &[u8], i: usize) -> Steps
    requires { 4 * i + 4 ≤ length bytes.now }
    ensures { result ≡ steps_at (words_in bytes.now) i }
{
    words::to_steps(word(bytes, i))
}

// An add's fields; another side than buy or sell is no event.
fn add_in(bytes: &[u8]) -> Option<Fields>
    requires { length bytes.now ≡ 24 }
    ensures { IfSome result (SaysAdd (words_in bytes.now)) }
{
    let side = word(bytes, 3);
    if (side == 1) | (side == 2) {
        return Some(Fields {
            kind: side,
            t: Millis(word(bytes, 1)),
            id: word(bytes, 2),
            price: steps(bytes, 4),
            volume: Contracts(word(bytes, 5)),
        });
    }
    None
}

fn amend_in(bytes: &[u8]) -> Fields
    requires { length bytes.now ≡ 20 }
    ensures { result ≡ fields_for (amend_in (words_in bytes.now)) }
{
    Fields {
        kind: 3,
        t: Millis(word(bytes, 1)),
        id: word(bytes, 2),
        price: steps(bytes, 3),
        volume: Contracts(word(bytes, 4)),
    }
}

fn cancel_in(bytes: &[u8]) -> Fields
    requires { length bytes.now ≡ 12 }
    ensures { result ≡ fields_for (cancel_in (words_in bytes.now)) }
{
    Fields {
        kind: 4,
        t: Millis(word(bytes, 1)),
        id: word(bytes, 2),
        price: Steps(0),
        volume: Contracts(0),
    }
}

fn deal_in(bytes: &[u8]) -> Fields
    requires { length bytes.now ≡ 16 }
    ensures { result ≡ fields_for (deal_in (words_in bytes.now)) }
{
    Fields {
        kind: 5,
        t: Millis(word(bytes, 1)),
        id: word(bytes, 2),
        price: Steps(0),
        volume: Contracts(word(bytes, 3)),
    }
}

fn tick_in(bytes: &[u8]) -> Fields
    requires { length bytes.now ≡ 8 }
    ensures { result ≡ fields_for (tick_in (words_in bytes.now)) }
{
    Fields {
        kind: 6,
        t: Millis(word(bytes, 1)),
        id: 0,
        price: Steps(0),
        volume: Contracts(0),
    }
}

// The fields of the event that is all these bytes say; none where they say something else, which `other` looks at.
fn event_in(bytes: &[u8]) -> Option<Fields>
    ensures { IfSome result (SaysBlock bytes.now) }
{
    let n = bytes.len();
    if n < 8 {
        return None;
    }
    let kind = word(bytes, 0);
    if (kind == 3) & (n == 20) {
        return Some(amend_in(bytes));
    }
    if (kind == 6) & (n == 8) {
        return Some(tick_in(bytes));
    }
    if (kind == 2) & (n == 24) {
        return add_in(bytes);
    }
    if (kind == 4) & (n == 12) {
        return Some(cancel_in(bytes));
    }
    if (kind == 5) & (n == 16) {
        return Some(deal_in(bytes));
    }
    None
}

// An event, in place.
fn send(words: &mut [u32], hints: &mut [u8], f: Fields, answer: &mut [u32])
    requires { HoldsMonth words.old × (2464 ≤ length words.old) × (length hints.old ≡ 2048) × SaysEvent f × (length answer.old ≡ 20) }
    ensures { (e : Event) → f ≡ fields_for e → ChangesShown words.old (Send e) words.new answer.new × LeavesLent words.old (Send e) hints.old hints.new }
{
    let n = month_in_place::send(words, hints, f);
    put_number(n, answer);
}

// ---- a call that is no event

// A look, at the cell's words in their place.
fn look(words: &[u32], day: u32, expiry: u32, quantum: u32, answer: &mut [u32])
    requires { HoldsMonth words.now × (2464 ≤ length words.now) × (length answer.old ≡ 20) }
    ensures { ShowsWords words.now (Look day expiry quantum) answer.new }
{
    let looked = month_in_place::look(words, day, expiry, quantum);
    match looked {
        Ok(view) => answer_words::put_cell(view, answer),
        Err(r) => answer_words::put_refused(u32::from(r), answer),
    }
}

// An ask, on a copy of the quantum's words.
fn ask(words: &[u32], hints: &mut [u8], a: Amendment, answer: &mut [u32])
    requires { HoldsMonth words.now × (2464 ≤ length words.now) × (length hints.old ≡ 2048) × (length answer.old ≡ 20) }
    ensures { ShowsWords words.now (Ask a) answer.new × LeavesLent words.now (Ask a) hints.old hints.new }
{
    let asked = month_in_place::ask(words, hints, a);
    match asked {
        Ok(preview) => answer_words::put_asked(preview, answer),
        Err(r) => answer_words::put_refused(u32::from(r), answer),
    }
}

// An outlook, by the quantum's words.
fn outlook(words: &[u32], answer: &mut [u32])
    requires { HoldsMonth words.now × (2464 ≤ length words.now) × (length answer.old ≡ 20) }
    ensures { ShowsWords words.now Outlook answer.new }
{
    let seen = quanta_in_place::outlook(words);
    match seen {
        Ok(outlook) => answer_words::put_outlook(outlook, answer),
        Err(r) => answer_words::put_refused(u32::from(r), answer),
    }
}

fn report(words: &[u32], answer: &mut [u32])
    requires { HoldsMonth words.now × (2464 ≤ length words.now) × (length answer.old ≡ 20) }
    ensures { ShowsWords words.now Report answer.new }
{
    let report = quanta_in_place::report(words);
    answer_words::put_report(report, answer);
}

// An open, with the row's words in a local array.
fn open(words: &mut [u32], bytes: &[u8], day: u32, opening: Opening) -> u32
    requires { HoldsMonth words.old × (2464 ≤ length words.old) }
    ensures { ChangesMonth words.old (Open (row_at (words_in bytes.now)) day opening) words.new result }
{
    let row = call_blocks::row(bytes);
    let n = call_step::handed_on(call_blocks::row_length(bytes));
    quanta_in_place::open(words, &row[..n], day, opening)
}

// A message, with the bytes that its block says.
fn message(words: &mut [u32], hints: &mut [u8], bytes: &[u8]) -> u32
    requires { HoldsMonth words.old × (2464 ≤ length words.old) × (length hints.old ≡ 2048) }
    ensures { ChangesMonth words.old (Message (start_at (words_in bytes.now)) (message_at (words_in bytes.now))) words.new result × (0 < result → hints.new ≡ hints.old) }
{
    let start = call_blocks::start(bytes);
    let message = call_blocks::message(bytes);
    messages_in_place::message(words, hints, start, message)
}

// An event that was decoded. `call` does events past this.
fn event(words: &mut [u32], hints: &mut [u8], e: Event) -> u32
    requires { HoldsMonth words.old × (2464 ≤ length words.old) × (length hints.old ≡ 2048) }
    ensures { ChangesMonth words.old (Send e) words.new result × (0 < result → hints.new ≡ hints.old) }
{
    let f = record::event_fields(e);
    month_in_place::send(words, hints, f)
}

// A call that changes the month and shows nothing: the refusal's number, or 0. One arm a call, since each takes other arguments and other lent
// buffers: as closures in a table they would be no plainer. Of a call that shows something it does nothing.
fn change(words: &mut [u32], hints: &mut [u8], bytes: &[u8], said: Decoded) -> u32
    requires { HoldsMonth words.old × (2464 ≤ length words.old) × (length hints.old ≡ 2048) }
    ensures { is_shown said ≡ false → ChangesMonth words.old (call_with (words_in bytes.now) said) words.new result × LeavesLent words.old (call_with (words_in bytes.now) said) hints.old hints.new }
{
    match said {
        Decoded::Open { day, opening } => open(words, bytes, day, opening),
        Decoded::Send(e) => event(words, hints, e),
        Decoded::Message => message(words, hints, bytes),
        Decoded::Commit(a, ticket) => messages_in_place::commit(words, hints, a, ticket),
        Decoded::Close(active, passive) => quanta_in_place::close(words, active, passive),
        Decoded::Drop => quanta_in_place::drop(words),
        Decoded::Charge {
            day,
            expiry,
            quantum,
            active,
            passive,
        } => quanta_in_place::charge(words, day, expiry, quantum, active, passive),
        Decoded::Withdraw {
            day,
            expiry,
            quantum,
        } => quanta_in_place::withdraw(words, day, expiry, quantum),
        _ => 0,
    }
}

// A call that shows something, or one that changes the month.
fn other(words: &mut [u32], hints: &mut [u8], bytes: &[u8], answer: &mut [u32])
    requires { HoldsMonth words.old × (2464 ≤ length words.old) × (length hints.old ≡ 2048) × (20 ≤ length answer.old) × (is_call bytes.now ≡ true) }
    ensures { Performs words.old answer.old bytes.now words.new answer.new × LeavesLent words.old (call_of (words_in bytes.now)) hints.old hints.new }
{
    let said = call_blocks::decode(bytes);
    match said {
        Decoded::Look {
            day,
            expiry,
            quantum,
        } => look(words, day, expiry, quantum, &mut answer[0..20]),
        Decoded::Ask(a) => ask(words, hints, a, &mut answer[0..20]),
        Decoded::Report => report(words, &mut answer[0..20]),
        Decoded::Outlook => outlook(words, &mut answer[0..20]),
        _ => {
            let n = change(words, hints, bytes, said);
            put_number(n, &mut answer[0..20]);
        }
    }
}

// ---- a call

// One call, on the month whose words these are. The hints only say where an id was last found: they may contain anything, and nothing that
// is answered or left in the words depends on it. A refused call leaves them; what an accepted call leaves in the first 2,048 bytes
// is free, and the bytes after these never change.
pub fn call(
    words: &mut [u32],
    hints: &mut [u8],
    bytes: &[u8],
    answer: &mut [u32],
) -> Result<(), CallError>
    requires { 2464 ≤ length words.old → may_be_month words.old ≡ true → HoldsMonth words.old }
    ensures { Calling words.old hints.old answer.old bytes.now words.new hints.new answer.new result }
{
    if words.len() < MONTH_WORDS {
        return Err(CallError::WordsShort);
    }
    if !month_in_place::may_be_month(words) {
        return Err(CallError::NoMonth);
    }
    if hints.len() < HINTS {
        return Err(CallError::HintsShort);
    }
    if answer.len() < ANSWER {
        return Err(CallError::AnswerShort);
    }
    if let Some(f) = event_in(bytes) {
        send(words, &mut hints[0..2048], f, &mut answer[0..20]);
        return Ok(());
    }
    if !is_call(bytes) {
        return Err(CallError::NoCall);
    }
    other(words, &mut hints[0..2048], bytes, answer);
    Ok(())
}
