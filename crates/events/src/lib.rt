// An event of an open quantum, by the fields of its record, on a lent table: its causes in the order of their numbers, the orders, the
// clock.
//
// The session and the month share this function. What the session's loop carries holds numbers only: a bool or an enum beside words costs
// some 30 instructions a record. A refusal is its number here (0 where none); it becomes a `Refusal` after the loop (`rules::refusal_of`).
#![tactic(auto)]

ghost use Rattle.std.specs.Prelude.{◌≡◌, ◌<◌};
ghost use Rattle.record.specs.Fields.{read_fields};
ghost use Rattle.clock.specs.Clocks.{Onward};
ghost use Rattle.events.specs.Represents.{ReachedParts, EventStepped, FieldsStepped};
ghost use Rattle.events.specs.Internal.{InTime, untimely_by, ticked_by};

use clock::{Clock, Duty};
use record::Fields;
use rules::Event;

// What an event hands back: the clock after it, and the refusal's number or 0.
#[derive(Clone, Copy)]
pub struct ClockAfter {
    pub clock: Clock,
    pub refusal: u32,
}

fn refused(clock: Clock, refusal: u32) -> ClockAfter
    ensures { (result.clock ≡ clock) × (result.refusal ≡ refusal) }
{
    ClockAfter { clock, refusal }
}

// What refuses fields whose time is out of range. Fields that say no event have no time: 15 is their only cause.
fn untimely(clock: Clock, f: Fields) -> u32
    ensures { result ≡ untimely_by clock f }
{
    let now = clock.time;
    let t = f.t;
    if record::is_good(f) {
        if t.0 < now.0 {
            return 8;
        }
        return 9;
    }
    15
}

// A tick in time changes no order.
fn ticked(clock: Clock, f: Fields) -> ClockAfter
    requires { Onward clock f.t }
    ensures { result ≡ ticked_by clock f }
{
    if record::is_good(f) {
        let t = f.t;
        return ClockAfter {
            clock: clock::onward(clock, t, clock.keeps),
            refusal: 0,
        };
    }
    ClockAfter { clock, refusal: 15 }
}

// The orders and the best quotes after an event in time that is no tick, then the clock.
fn taken(duty: Duty, clock: Clock, table: &mut [u32], hints: &mut [u8], f: Fields) -> ClockAfter
    requires { ReachedParts duty clock table.old hints.old × InTime duty clock f.t × (f.kind ≡ 6 → ⊥) }
    ensures { FieldsStepped duty clock (read_fields f) table.old table.new result × (0 < result.refusal → hints.new ≡ hints.old) }
{
    let minimum = duty.minimum;
    match book::send(table, hints, f, minimum, duty.widest, clock.keeps) {
        Err(refusal) => refused(clock, u32::from(refusal)),
        Ok(sent) => {
            let t = f.t;
            ClockAfter {
                clock: clock::onward(clock, t, sent.keeps),
                refusal: 0,
            }
        }
    }
}

// An event by the fields of its record, with its causes in the order of their numbers; fields that say no event are refused by 15. The
// time is tested once, and 15 and the trader's causes by kind after it: only where the time is out of range is 15 looked for first.
pub fn step_fields(
    duty: Duty,
    clock: Clock,
    table: &mut [u32],
    hints: &mut [u8],
    f: Fields,
) -> ClockAfter
    requires { ReachedParts duty clock table.old hints.old }
    ensures { FieldsStepped duty clock (read_fields f) table.old table.new result × (0 < result.refusal → hints.new ≡ hints.old) }
{
    let kind = f.kind;
    let t = f.t;
    if clock::in_time(duty, clock, t) {
        if kind == 6 {
            return ticked(clock, f);
        }
        return taken(duty, clock, table, hints, f);
    }
    refused(clock, untimely(clock, f))
}

// An event, by its fields.
pub fn step(duty: Duty, clock: Clock, table: &mut [u32], hints: &mut [u8], e: Event) -> ClockAfter
    requires { ReachedParts duty clock table.old hints.old }
    ensures { EventStepped duty clock e table.old table.new result × (0 < result.refusal → hints.new ≡ hints.old) }
{
    step_fields(duty, clock, table, hints, record::event_fields(e))
}
