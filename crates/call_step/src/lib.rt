// One step of a list of calls: the call that a block says, on the month by value (`block`). What a block says is read by `call_blocks`; a
// list runs by `call_list::run`, and a list that comes in pieces by the program `replay`.
//
// A block with an event goes its own way, past the choice between the other calls, and so does a message: the month is handed on by value,
// and the compiler copies it at each choice that it passes through (bench/README.md). Past the end of the words there is no call, as at it.
// What a block's call is answered says the plain book's answer (`outcome_of`). An open's row is words, so seven go into a local array; a row of
// another length is refused by 1 whatever it holds, and is handed on as no words at all.
#![tactic(auto)]

ghost use Rattle.std.specs.Prelude.{◌≡◌, ◌≤◌, Ok, Err, IsOkAnd, MatchResult, eqb, if◌then◌else◌};
ghost use Rattle.std.specs.Result.{ForOk};
ghost use Rattle.rules.specs.Answers.{shown_answer, shown_report};
ghost use Rattle.rules.specs.Calls as B;
ghost use Rattle.month.specs.Represents.{Reached, Answered};
ghost use Rattle.words.specs.Bytes.{words_in};
ghost use Rattle.call_blocks.specs.Kinds.{row_at, start_at, message_at};
ghost use Rattle.call_blocks.specs.Decoded.{call_with};
ghost use Rattle.call_step.specs.declared.Reply.TheVariants as R;
ghost use Rattle.call_step.specs.Blocks.{Performed, NextBlockPerformed};
ghost use Rattle.call_step.specs.Internal.{Tells};

use call_blocks::Decoded;
use month::{After, AfterCall, Month, Reported};
use rules::{CellView, Opening, Outlook, Preview, Refusal, Report};

// What an accepted call shows.
#[derive(Clone, Copy)]
pub enum Reply {
    Done,
    Cell(CellView),
    Asked(Preview),
    Report(Report),
    Outlook(Outlook),
}

// What a block hands back: the month, the place behind it, what the call shows.
#[derive(Clone, Copy)]
pub struct Done {
    pub month: Month,
    pub next: usize,
    pub shown: Result<Reply, Refusal>,
}

// ---- a call on the month

// What a call of the month hands back, told on: an accepted answer shows its values, by `reply`, and a refused one its refusal.
fn show<A, F: FnOnce(A) -> Reply>(after: After<Result<A, Refusal>>, next: usize, reply: F) -> Done
    requires { ForOk after.answer (F.pre reply) }
    ensures { (result.month ≡ after.month) × (result.next ≡ next) × MatchResult after.answer (λ x. IsOkAnd result.shown (F.post reply x)) (λ e. result.shown ≡ Err e) }
{
    Done {
        month: after.month,
        next,
        shown: after.answer.map(reply),
    }
}

fn tell(called: AfterCall, next: usize) -> Done
    ensures { Tells called.month next (shown_answer called.answer) result }
{
    show(called, next, |()| Reply::Done)
}

// A report is never refused.
fn tell_report(reported: Reported, next: usize) -> Done
    ensures { Tells reported.month next (shown_report reported.answer) result }
{
    Done {
        month: reported.month,
        next,
        shown: Ok(Reply::Report(reported.answer)),
    }
}

// As many words of an open's row as are handed on: a row of another length than seven is refused whatever it holds, so none are.
pub fn handed_on(length: usize) -> usize
    ensures { (result ≡ (if eqb length 7 then 7 else 0)) × (result ≤ 7) }
{
    if length == 7 {
        return 7;
    }
    0
}

fn open(month: Month, bytes: &[u8], day: u32, opening: Opening) -> AfterCall
    requires { Reached month }
    ensures { Answered month (B.Open (row_at (words_in bytes.now)) day opening) result.month (shown_answer result.answer) }
{
    let row = call_blocks::row(bytes);
    let n = handed_on(call_blocks::row_length(bytes));
    month.open(&row[..n], day, opening)
}

fn message(month: Month, bytes: &[u8]) -> AfterCall
    requires { Reached month }
    ensures { Answered month (B.Message (start_at (words_in bytes.now)) (message_at (words_in bytes.now))) result.month (shown_answer result.answer) }
{
    month.message(call_blocks::start(bytes), call_blocks::message(bytes))
}

// The call on the month, with the bytes of its block: one arm a call, each of which `Decoded` makes sure of; closures in a table would have to
// take every call's arguments alike, and would be no plainer. Events and messages are most of a list, and `block` does them past
// this choice: the compiler copies the month at each choice that it passes through.
fn call(month: Month, said: Decoded, bytes: &[u8], next: usize) -> Done
    requires { Reached month }
    ensures { (result.next ≡ next) × Performed month (call_with (words_in bytes.now) said) result.month result.shown }
{
    match said {
        Decoded::Open { day, opening } => tell(open(month, bytes, day, opening), next),
        Decoded::Send(e) => tell(month.send(e), next),
        Decoded::Message => tell(message(month, bytes), next),
        Decoded::Ask(a) => show(month.ask(a.t, a.id, a.price, a.volume), next, Reply::Asked),
        Decoded::Commit(a, ticket) => {
            tell(month.commit(a.t, a.id, a.price, a.volume, ticket), next)
        }
        Decoded::Close(active, passive) => tell(month.close(active, passive), next),
        Decoded::Drop => tell(month.drop(), next),
        Decoded::Charge {
            day,
            expiry,
            quantum,
            active,
            passive,
        } => tell(month.charge(day, expiry, quantum, active, passive), next),
        Decoded::Withdraw {
            day,
            expiry,
            quantum,
        } => tell(month.withdraw(day, expiry, quantum), next),
        Decoded::Look {
            day,
            expiry,
            quantum,
        } => show(month.look(day, expiry, quantum), next, Reply::Cell),
        Decoded::Report => tell_report(month.report(), next),
        Decoded::Outlook => show(month.outlook(), next, Reply::Outlook),
    }
}

fn no_call(month: Month, at: usize) -> Done
    ensures { (result.month ≡ month) × (result.next ≡ at) × (result.shown ≡ Ok R.Done) }
{
    Done {
        month,
        next: at,
        shown: Ok(Reply::Done),
    }
}

// One block of a list, at a place among its words: the call that it says, run on the month. Where there is no call, the month and the
// place are as they were.
pub fn block(month: Month, bytes: &[u8], at: usize) -> Done
    requires { Reached month }
    ensures { NextBlockPerformed month (words_in bytes.now) at result }
{
    if call_blocks::count(bytes) < at {
        return no_call(month, at);
    }
    let from = 4 * at;
    let rest = &bytes[from..];
    let Some(size) = call_blocks::size(rest) else {
        return no_call(month, at);
    };
    let said = call_blocks::decode(rest);
    let next = at + size;
    match said {
        Decoded::Send(e) => tell(month.send(e), next),
        Decoded::Message => tell(message(month, rest), next),
        _ => call(month, said, rest, next),
    }
}
