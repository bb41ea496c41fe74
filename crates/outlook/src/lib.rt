// The outlook on an open quantum, from its duty and its clock: how much must still be kept, until when nothing need be, and what the cell
// is worth if nothing more is kept or all that is left.
#![tactic(auto)]

ghost use Rattle.std.specs.Prelude.{◌≡◌, List, ◌-◌, ◌≤◌, if◌then◌else◌};
ghost use Rattle.rules.specs.declared.Event.{Event};
ghost use Rattle.rules.specs.declared.Opening.{Opening};
ghost use Rattle.rules.specs.declared.Row.{Row};
ghost use Rattle.rules.specs.Terms.{paper};
ghost use Rattle.rules.specs.Pay.{view_of};
ghost use Rattle.rules.specs.Outlook.{need_of, lapses_left, is_never, outlook_of};
ghost use Rattle.outlook.specs.Represents.{Represents, Outlooked};
ghost use Rattle.outlook.specs.Internal.{Sound, ending_cell, reached, full_of, by_of};

use clock::{Clock, Duty};
use rules::{Cell, CellView, Kopecks, LapsesLeft, Millis, Outlook};

// The cell at the quantum's end with its verdict, if the quotes keep from now on (1) or do not (0).
fn ending(duty: Duty, clock: Clock, keeps: u32, share: u32, allowed: u32) -> CellView
    requires { Sound duty clock share × (keeps ≤ 1) }
    ensures { result ≡ view_of paper (ending_cell duty clock keeps share allowed) }
{
    let length = duty.length;
    let now = Clock { keeps, ..clock };
    let end = clock::onward(now, length, 0);
    let total = end.kept;
    verdict::view(Cell {
        filled: true,
        kept: total,
        length,
        share,
        allowed,
        lapses: end.lapses,
        active: Kopecks(0),
        passive: Kopecks(0),
    })
}

// How many milliseconds more must be kept for a share in thousandths: the least whole number, so the division rounds up.
fn needed(kept: Millis, length: Millis, share: u32) -> u32
    requires { share ≤ 1000 }
    ensures { result ≡ need_of paper kept.0 length.0 share }
{
    let product = u64::from(share) * u64::from(length.0);
    let least = ((product + 999) / 1000) as u32;
    least.saturating_sub(kept.0)
}

fn reachable(n: u32, left: Millis, within: bool, can: bool) -> bool
    ensures { result ≡ reached n left.0 within can }
{
    (n <= left.0) & within & ((n == 0) | can)
}

fn full(n: u32, left: Millis, within: bool, can: bool) -> Option<Millis>
    ensures { result ≡ full_of n left.0 within can }
{
    if reachable(n, left, within, can) {
        return Some(Millis(n));
    }
    None
}

fn lapses_left(allowed: u32, lapses: u32) -> LapsesLeft
    ensures { result ≡ lapses_left allowed lapses }
{
    if allowed == 65535 {
        return LapsesLeft::Unlimited;
    }
    if lapses <= allowed {
        return LapsesLeft::Left(allowed - lapses);
    }
    LapsesLeft::Over
}

// The time from which all must be kept, where so many are needed.
fn start(end: Millis, need: u32) -> Millis
    ensures { result.0 ≡ end.0 - need }
{
    Millis(end.0.saturating_sub(need))
}

// Until when the maker may rest. `possible`: keeping everything from now on leaves a met cell; `waits`: the lapse of resting is none too
// many.
fn by(
    rest: bool,
    possible: bool,
    waits: bool,
    now: Millis,
    end: Millis,
    need: u32,
) -> Option<Millis>
    ensures { result ≡ by_of rest possible waits now end need }
{
    if rest {
        return Some(end);
    }
    if possible {
        if waits {
            return Some(start(end, need));
        }
        return Some(now);
    }
    None
}

fn is_never(p: Option<Millis>) -> bool
    ensures { result ≡ is_never p }
{
    match p {
        None => true,
        Some(_) => false,
    }
}

// The weight if all that is left is kept; where nothing can be, that of resting.
fn weight_keeping(can: bool, keeping: u32, resting: u32) -> u32
    ensures { result ≡ (if can then keeping else resting) }
{
    if can {
        return keeping;
    }
    resting
}

// The outlook. Something can be kept where the widest D is 1 at least.
pub fn of(duty: Duty, clock: Clock, share: u32, allowed: u32) -> Outlook
    requires { Outlooked duty clock share allowed }
    ensures { (row : Row) (opening : Opening) (events : List Event) → Represents row opening events duty clock share allowed → result ≡ outlook_of paper row opening events }
{
    let end = duty.length;
    let now = clock.time;
    let kept = clock.kept;
    let left = Millis(end.0.saturating_sub(now.0));
    let can = 1 <= duty.widest;
    let resting = ending(duty, clock, 0, share, allowed);
    let keeping = ending(duty, clock, 1, share, allowed);
    let rested = resting.cell;
    let need = needed(kept, end, share);
    let within = verdict::within_lapse_limit(allowed, clock.lapses);
    let waits = verdict::within_lapse_limit(allowed, rested.lapses);
    let possible = can & keeping.met;
    let by = by(resting.met, possible, waits, now, end, need);
    Outlook {
        need: Millis(need),
        left,
        by,
        full: full(needed(kept, end, 800), left, within, can),
        lapses: lapses_left(allowed, clock.lapses),
        rest: resting.met,
        lost: is_never(by),
        resting: resting.weight,
        keeping: weight_keeping(can, keeping.weight, resting.weight),
    }
}
