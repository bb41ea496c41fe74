// A FIX message (W11) on a quantum, open or idle: the one or two events that it means, both or neither.
#![tactic(auto)]

ghost use Rattle.std.specs.Prelude.{◌≡◌, ℕ, if◌then◌else◌};
ghost use Rattle.rules.specs.declared.Refusal.TheVariants.{NoQuantumOpen};
ghost use Rattle.rules.specs.Dates as D;
ghost use Rattle.rules.specs.Messages.{new_order, cancel_order, replace_order};
ghost use Rattle.rules.specs.Calls as B;
ghost use Rattle.rules.specs.Causes.{other_side_in};
ghost use Rattle.fix_dates.specs.Answers.{timely};
ghost use Rattle.fix_reader.specs.Answers.{timed_shown};
ghost use Rattle.fix_events.specs.Answers.{InBook, Reached, Answered};
ghost use Rattle.fix_events.specs.Internal.{unchanged, MessageAnswered, TimedAnswered, BothOrNeither};

use fix_dates::Moment;
use fix_reader::{Message, Timed};
use quantum::Quantum;
use rules::{Contracts, Event, Refusal, Side, Steps};

// What a message hands back: the quantum after it, the answer, and whether the accepted events are two.
#[derive(Clone, Copy)]
pub struct AfterMessage {
    pub quantum: Quantum,
    pub answer: Result<(), Refusal>,
    pub second: bool,
}

// A refused message ends here, with the quantum as it was.
fn refused(quantum: Quantum, refusal: Refusal) -> AfterMessage
    ensures { result ≡ unchanged quantum refusal }
{
    AfterMessage {
        quantum,
        answer: Err(refusal),
        second: false,
    }
}

// A message whose time is none of the quantum's: with none open that comes first.
fn untimely(quantum: Quantum, running: bool, refusal: Refusal) -> AfterMessage
    ensures { result ≡ unchanged quantum (if running then refusal else NoQuantumOpen) }
{
    if !running {
        return refused(quantum, Refusal::NoQuantumOpen);
    }
    refused(quantum, refusal)
}

// An event. With no quantum open it is refused; else the quantum judges it.
fn send(quantum: Quantum, running: bool, e: Event) -> AfterMessage
    requires { Reached quantum running }
    ensures { Answered quantum running (B.Send e) result }
{
    if !running {
        return refused(quantum, Refusal::NoQuantumOpen);
    }
    let sent = quantum.send(e);
    let next = sent.quantum;
    let answer = sent.answer;
    AfterMessage {
        quantum: next,
        answer,
        second: false,
    }
}

// D: an order more.
fn new_order(
    quantum: Quantum,
    running: bool,
    when: Moment,
    id: u32,
    side: Side,
    volume: Contracts,
    price: Steps,
) -> AfterMessage
    requires { Reached quantum running }
    ensures { MessageAnswered quantum running (λ t. new_order id side volume price t) (timely when) result }
{
    match when {
        Moment::At(t) => send(
            quantum,
            running,
            Event::Add {
                t,
                id,
                side,
                price,
                volume,
            },
        ),
        Moment::Before => untimely(quantum, running, Refusal::TimeBackwards),
        Moment::Late => untimely(quantum, running, Refusal::TimePastEnd),
    }
}

// F: the order that 41 names goes.
fn cancel_order(quantum: Quantum, running: bool, when: Moment, id: u32, orig: u32) -> AfterMessage
    requires { Reached quantum running }
    ensures { MessageAnswered quantum running (λ t. cancel_order id orig t) (timely when) result }
{
    match when {
        Moment::At(t) => send(quantum, running, Event::Cancel { t, id: orig }),
        Moment::Before => untimely(quantum, running, Refusal::TimeBackwards),
        Moment::Late => untimely(quantum, running, Refusal::TimePastEnd),
    }
}

// Two events, the second on the quantum after the first: both or neither.
fn both_or_neither(quantum: Quantum, running: bool, first: Event, second: Event) -> AfterMessage
    requires { Reached quantum running }
    ensures { BothOrNeither quantum running first second result }
{
    let sent = send(quantum, running, first);
    let answer = sent.answer;
    let between = sent.quantum;
    if let Err(of_first) = answer {
        return refused(quantum, of_first);
    }
    let further = send(between, running, second);
    let last = further.answer;
    let after = further.quantum;
    match last {
        Ok(()) => AfterMessage {
            quantum: after,
            answer: last,
            second: true,
        },
        Err(of_second) => refused(quantum, of_second),
    }
}

// Whether the live order that a G's 41 names is not of its side.
fn other_side(quantum: Quantum, running: bool, side: Side, id: u32) -> bool
    requires { Reached quantum running }
    ensures { (new : ℕ) (volume : Contracts) (price : Steps) (t : D.Moment) (b : B.Book) → InBook quantum running b → result ≡ other_side_in b.running (replace_order new id side volume price t) }
{
    quantum.on_other_side(side, id)
}

// G: that cancel and an add. Its side is that of the order that 41 names, where there is one.
fn replace_order(
    quantum: Quantum,
    running: bool,
    when: Moment,
    id: u32,
    orig: u32,
    side: Side,
    volume: Contracts,
    price: Steps,
) -> AfterMessage
    requires { Reached quantum running }
    ensures { MessageAnswered quantum running (λ t. replace_order id orig side volume price t) (timely when) result }
{
    if other_side(quantum, running, side, orig) {
        return refused(quantum, Refusal::FieldWrong);
    }
    match when {
        Moment::At(t) => both_or_neither(
            quantum,
            running,
            Event::Cancel { t, id: orig },
            Event::Add {
                t,
                id,
                side,
                price,
                volume,
            },
        ),
        Moment::Before => untimely(quantum, running, Refusal::TimeBackwards),
        Moment::Late => untimely(quantum, running, Refusal::TimePastEnd),
    }
}

// A message that was read, at its time: its one or two calls.
fn taken(q: Quantum, running: bool, timed: Timed) -> AfterMessage
    requires { Reached q running }
    ensures { TimedAnswered q running (timed_shown timed) result }
{
    let when = timed.when;
    match timed.message {
        Message::New {
            id,
            side,
            volume,
            price,
            ..
        } => new_order(q, running, when, id, side, volume, price),
        Message::Cancel { id, orig, .. } => cancel_order(q, running, when, id, orig),
        Message::Replace {
            id,
            orig,
            side,
            volume,
            price,
            ..
        } => replace_order(q, running, when, id, orig, side, volume, price),
    }
}

// A FIX message, with the quantum's start: its one or two calls.
pub fn message(q: Quantum, running: bool, start: &[u8], message: &[u8]) -> AfterMessage
    requires { Reached q running }
    ensures { Answered q running (B.Message start.now message.now) result }
{
    match fix_reader::read_from(start, message) {
        Ok(timed) => taken(q, running, timed),
        Err(refusal) => refused(q, refusal),
    }
}
