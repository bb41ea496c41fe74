// A quantum's duty and its clock (time, kept time, lapses, whether the quote is kept now): opened, running on, at the end, and in words.
//
// Time runs on in one function, `onward`. The clock has the number of lapses and whether the millisecond before the present is kept; a lapse
// starts where the quote is not kept and that millisecond is, or there is none.
#![tactic(auto)]

ghost use Rattle.std.specs.Prelude.{◌≡◌, List, [], true, ◌&&◌, ◌≤◌, leb, length};
ghost use Rattle.rules.specs.declared.Event.{Event};
ghost use Rattle.rules.specs.declared.Row.{Row};
ghost use Rattle.rules.specs.Terms.{paper};
ghost use Rattle.rules.specs.declared.SpreadRule.{SpreadRule};
ghost use Rattle.rules.specs.Rows.{good_row_for};
ghost use Rattle.rules.specs.Kept.{kept_below};
ghost use Rattle.rules.specs.Lapses.{lapses_below};
ghost use Rattle.rules.specs.Causes.{good_spread_rule};
ghost use Rattle.rules.specs.Bounds.{EventBounds};
ghost use Rattle.clock.specs.Clocks.{widest_for, duty_of, clock_of, Onward, starting_by, ran_on};
ghost use Rattle.clock.specs.declared.Duty.{Duty};
ghost use Rattle.clock.specs.declared.Clock.{Clock};
ghost use Rattle.clock.specs.Words.{duty_words, clock_words};

use rules::{Contracts, Millis, Row, SpreadRule};

// What a quantum is opened with: its length, the least volume of a quote, and the widest spread.
#[derive(Clone, Copy)]
pub struct Duty {
    pub length: Millis,
    pub minimum: Contracts,
    pub widest: u32,
}

// The time, the kept time, whether the live orders keep the quote from now on (1) or not (0), the number of lapses, and whether the
// millisecond before the present is kept (1) or not (0; also at time 0).
#[derive(Clone, Copy)]
pub struct Clock {
    pub time: Millis,
    pub kept: Millis,
    pub keeps: u32,
    pub lapses: u32,
    pub last: u32,
}

// Kept time and lapses of a whole quantum.
#[derive(Clone, Copy)]
pub struct Totals {
    pub kept: Millis,
    pub lapses: u32,
}

// ---- opening

// The greatest D that the spread test takes, by SP or of a strike.
fn widest_of(row: Row, spread: SpreadRule) -> u32
    requires { (good_row_for paper spread row ≡ true) × (good_spread_rule spread ≡ true) }
    ensures { result ≡ widest_for row spread }
{
    match spread {
        SpreadRule::Settled(sp) => price_keys::widest_for_price(row.a, row.b, sp),
        SpreadRule::OfStrike(s) => strike::widest(s),
    }
}

pub fn duty_of(row: Row, spread: SpreadRule) -> Duty
    requires { (good_row_for paper spread row ≡ true) × (good_spread_rule spread ≡ true) }
    ensures { result ≡ duty_of row spread }
{
    let length = row.length;
    let minimum = row.minimum;
    Duty {
        length,
        minimum,
        widest: widest_of(row, spread),
    }
}

// Time 0, nothing kept, no quote, no lapse yet.
pub fn started() -> Clock
    ensures { (row : Row) (sp : SpreadRule) → result ≡ clock_of row sp [] }
{
    Clock {
        time: Millis(0),
        kept: Millis(0),
        keeps: 0,
        lapses: 0,
        last: 0,
    }
}

// ---- time running on

// 1 where the time that follows starts a lapse: the quote is not kept, at the quantum's start or after a kept millisecond. It is
// worked out by numbers, so that the compiler leaves the count away where nothing reads it.
fn starting(clock: Clock) -> u32
    requires { (clock.keeps ≤ 1) × (clock.last ≤ 1) }
    ensures { (result ≡ starting_by clock) × (result ≤ 1) }
{
    if clock.time.0 == 0 {
        return numbers::difference(1, clock.keeps);
    }
    numbers::product(numbers::difference(1, clock.keeps), clock.last)
}

// Time runs on to t: the quotes of before count up to there, as kept time or as a lapse.
pub fn onward(clock: Clock, t: Millis, keeps: u32) -> Clock
    requires { Onward clock t }
    ensures { result ≡ ran_on clock t keeps }
{
    let time = clock.time;
    let kept = clock.kept;
    let more = numbers::product(clock.keeps, numbers::difference(t.0, time.0));
    let total = Millis(numbers::sum(kept.0, more));
    if time.0 < t.0 {
        let lapses = numbers::sum(clock.lapses, starting(clock));
        return Clock {
            time: t,
            kept: total,
            keeps,
            lapses,
            last: clock.keeps,
        };
    }
    Clock {
        time: t,
        kept: total,
        keeps,
        lapses: clock.lapses,
        last: clock.last,
    }
}

// Kept time and lapses at the quantum's end: time runs on to it.
pub fn ended(duty: Duty, clock: Clock) -> Totals
    requires { Onward clock duty.length }
    ensures { (row : Row) (sp : SpreadRule) (events : List Event) → EventBounds row events → duty ≡ duty_of row sp → clock ≡ clock_of row sp events → (result.kept.0 ≡ kept_below row sp events row.length.0) × (result.lapses ≡ lapses_below row sp events row.length.0) }
{
    let last = duty.length;
    let end = onward(clock, last, 0);
    let kept = end.kept;
    Totals {
        kept,
        lapses: end.lapses,
    }
}

// Whether a time can be that of the next event: neither backwards nor past the end.
pub fn in_time(duty: Duty, clock: Clock, t: Millis) -> bool
    ensures { result ≡ (leb clock.time.0 t.0 && leb t.0 duty.length.0) }
{
    let now = clock.time;
    let end = duty.length;
    (now.0 <= t.0) & (t.0 <= end.0)
}

// ---- in words

// The duty whose three words these are.
pub fn duty_in(words: &[u32]) -> Duty
    requires { length words.now ≡ 3 }
    ensures { (d : Duty) → words.now ≡ duty_words d → result ≡ d }
{
    let length = Millis(words[0]);
    let minimum = Contracts(words[1]);
    Duty {
        length,
        minimum,
        widest: words[2],
    }
}

// The clock's five words, and back.
pub fn put_clock(clock: Clock, words: &mut [u32])
    requires { length words.old ≡ 5 }
    ensures { words.new ≡ clock_words clock }
{
    let time = clock.time;
    let kept = clock.kept;
    let five = [time.0, kept.0, clock.keeps, clock.lapses, clock.last];
    words.copy_from_slice(&five);
}

pub fn clock_in(words: &[u32]) -> Clock
    requires { length words.now ≡ 5 }
    ensures { (c : Clock) → words.now ≡ clock_words c → result ≡ c }
{
    let time = Millis(words[0]);
    let kept = Millis(words[1]);
    Clock {
        time,
        kept,
        keeps: words[2],
        lapses: words[3],
        last: words[4],
    }
}
