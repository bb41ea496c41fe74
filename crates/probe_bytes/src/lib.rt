// The cases of `probe` that read and write bytes: event records (case 3), and FIX messages (cases 9 to 11).
#![tactic(auto)]

ghost use Rattle.std.specs.Prelude.{◌≡◌};
ghost use Rattle.lists.specs.Lists.{within};

mod messages;

use console::{Case, CaseError, Hex};
use rules::{Contracts, Event, Millis, Steps};
use std::io;

// A record's kind, time, id, price and volume.
fn fields(
    rt: &impl Print,
    kind: u32,
    t: Millis,
    id: u32,
    p: Steps,
    volume: Contracts,
) -> io::Result<()> {
    println!(rt; "event {kind} {} {id} {} {}", t.0, p.0, volume.0)
}

// Read off the event and not off the written bytes, so that a writer's fault shows against it.
fn event_line(rt: &impl Print, event: Event) -> io::Result<()> {
    match event {
        Event::Add {
            t,
            id,
            side,
            price,
            volume,
        } => fields(rt, words::from_side(side), t, id, price, volume),
        Event::Amend {
            t,
            id,
            price,
            volume,
        } => fields(rt, 3, t, id, price, volume),
        Event::Cancel { t, id } => fields(rt, 4, t, id, Steps(0), Contracts(0)),
        Event::Deal { t, id, volume } => fields(rt, 5, t, id, Steps(0), volume),
        Event::Tick { t } => fields(rt, 6, t, 0, Steps(0), Contracts(0)),
    }
}

// `3`, then bytes that begin with a record.
pub fn record_case(rt: &impl Print, bytes: &[u8]) -> io::Result<()> {
    match record::read(bytes) {
        Ok(event) => {
            event_line(rt, event)?;
            println!(rt; "bytes{}", Hex(&record::write(event)))
        }
        Err(refusal) => println!(rt; "refused {}", u32::from(refusal)),
    }
}

pub fn is_message_kind(kind: u32) -> bool
    ensures { result ≡ within 9 11 kind }
{
    9 <= kind && kind <= 11
}

// A case of that kind. The number is the input's, and each arm names its case: an enum between them would name each of them twice more.
pub fn message_case(rt: &impl Print, kind: u32, case: Case<'_>) -> Result<(), CaseError> {
    match kind {
        9 => Ok(messages::read_case(rt, case.rest)?),
        10 => messages::write_case(rt, case),
        11 => messages::time_case(rt, case),
        _ => Err(CaseError::NoCase),
    }
}
