// Times of the form YYYYMMDD-HH:MM:SS.sss, and the milliseconds from one to another.
#![tactic(auto)]

ghost use Rattle.std.specs.Prelude.{◌≡◌, true, ◌&&◌, ◌||◌, eqb, ◌+◌, ◌-◌, ◌≤◌, ◌<◌, length, get_or, if◌then◌else◌, Some};
ghost use Rattle.rules.specs.Digits.{is_digit, all_digits, number_from};
ghost use Rattle.rules.specs.Dates.{form, has_form, parts_of, is_leap, month_days, good_date, good_clock, time_in, days_of_years, days_of_months, days_before, instant_of, moment_between, moment_of, moment_from, since as sinceOf};
ghost use Rattle.fix_dates.specs.Answers.{shown_moment, shown_elapsed};
ghost use Rattle.fix_dates.specs.Times.{Timed};
ghost use Rattle.fix_dates.specs.Internal.{clock_of};

use fix_digits::is_digit;
use rules::{Millis, Refusal, Timestamp};

fn two_digits(v: &[u8], at: usize) -> bool
    requires { at + 1 < length v.now }
    ensures { result ≡ (is_digit (get_or v.now at 0) && is_digit (get_or v.now (at + 1) 0)) }
{
    is_digit(v[at]) & is_digit(v[at + 1])
}

// Digits and marks in their places.
fn formed(v: &[u8]) -> bool
    requires { length v.now ≡ 21 }
    ensures { result ≡ has_form form v.now }
{
    two_digits(v, 0)
        & two_digits(v, 2)
        & two_digits(v, 4)
        & two_digits(v, 6)
        & (v[8] == 45)
        & two_digits(v, 9)
        & (v[11] == 58)
        & two_digits(v, 12)
        & (v[14] == 58)
        & two_digits(v, 15)
        & (v[17] == 46)
        & two_digits(v, 18)
        & is_digit(v[20])
}

fn digit(b: u8) -> u32
    requires { is_digit b ≡ true }
    ensures { (result ≡ b - 48) × (result ≤ 9) }
{
    u32::from(b - 48)
}

// The number that at most four digits make.
fn number(digits: &[u8]) -> u32
    requires few { length digits.now ≤ 4 }
    requires digits { all_digits digits.now ≡ true }
    ensures { result ≡ number_from 0 digits.now }
{
    let mut n = 0;
    for b in digits {
        n = n * 10 + digit(*b);
    }
    n
}

fn parts(v: &[u8]) -> Timestamp
    requires length { length v.now ≡ 21 }
    requires formed { has_form form v.now ≡ true }
    ensures { result ≡ parts_of v.now }
{
    Timestamp {
        year: number(&v[0..4]),
        month: number(&v[4..6]),
        day: number(&v[6..8]),
        hour: number(&v[9..11]),
        minute: number(&v[12..14]),
        second: number(&v[15..17]),
        millis: number(&v[18..21]),
    }
}

fn leap(y: u32) -> bool
    ensures { result ≡ is_leap y }
{
    (y % 4 == 0) & ((y % 100 != 0) | (y % 400 == 0))
}

fn february(y: u32) -> u32
    ensures { result ≡ (if is_leap y then 29 else 28) }
{
    if leap(y) {
        return 29;
    }
    28
}

// April, June, September and November.
fn of_thirty(m: u32) -> bool
    ensures { result ≡ (eqb m 4 || eqb m 6 || eqb m 9 || eqb m 11) }
{
    (m == 4) | (m == 6) | (m == 9) | (m == 11)
}

fn month_days(y: u32, m: u32) -> u32
    ensures { result ≡ month_days y m }
{
    if m == 2 {
        return february(y);
    }
    if of_thirty(m) {
        return 30;
    }
    31
}

// A day of the calendar, from year 1 on.
fn date_good(s: Timestamp) -> bool
    ensures { result ≡ good_date s }
{
    let y = s.year;
    let m = s.month;
    let d = s.day;
    (1 <= y) & ((1 <= m) & (m <= 12)) & ((1 <= d) & (d <= month_days(y, m)))
}

fn clock_good(s: Timestamp) -> bool
    ensures { result ≡ good_clock s }
{
    let h = s.hour;
    let m = s.minute;
    let x = s.second;
    (h <= 23) & (m <= 59) & (x <= 59)
}

// The time that bytes say.
pub fn time_in(v: &[u8]) -> Option<Timestamp>
    ensures { result ≡ time_in v.now }
{
    if v.len() != 21 {
        return None;
    }
    if !formed(v) {
        return None;
    }
    let s = parts(v);
    if date_good(s) & clock_good(s) {
        return Some(s);
    }
    None
}

// The days from 1 January of year 1 to the first of a year.
fn before_year(y: u32) -> u32
    requires { (1 ≤ y) × (y ≤ 9999) }
    ensures { (result ≡ days_of_years (y - 1)) × (result ≤ 3652000) }
{
    let n = y - 1;
    365 * n + n / 4 - n / 100 + n / 400
}

fn leap_day(y: u32) -> u32
    ensures { (result ≡ (if is_leap y then 1 else 0)) × (result ≤ 1) }
{
    u32::from(leap(y))
}

// The days of a year before the first of a month.
fn before_month(y: u32, m: u32) -> u32
    requires { (1 ≤ m) × (m ≤ 12) }
    ensures { (result ≡ days_of_months y (m - 1)) × (result ≤ 335) }
{
    let l = leap_day(y);
    match m {
        1 => 0,
        2 => 31,
        3 => 59 + l,
        4 => 90 + l,
        5 => 120 + l,
        6 => 151 + l,
        7 => 181 + l,
        8 => 212 + l,
        9 => 243 + l,
        10 => 273 + l,
        11 => 304 + l,
        _ => 334 + l,
    }
}

// The days from 1 January of year 1.
fn days(s: Timestamp) -> u32
    requires { Timed s }
    ensures { (result ≡ days_before s) × (result ≤ 3652400) }
{
    let y = s.year;
    let m = s.month;
    let d = s.day;
    before_year(y) + before_month(y, m) + (d - 1)
}

// The milliseconds of the day.
fn in_day(s: Timestamp) -> u32
    requires { Timed s }
    ensures { (result ≡ clock_of s) × (result < 86400000) }
{
    ((s.hour * 60 + s.minute) * 60 + s.second) * 1000 + s.millis
}

// The milliseconds from the start of 1 January of year 1.
fn instant(s: Timestamp) -> u64
    requires { Timed s }
    ensures { result ≡ instant_of s }
{
    u64::from(days(s)) * 86400000 + u64::from(in_day(s))
}

// A time from a start: before it, so many milliseconds later, or more than 32 bits of them.
#[derive(Clone, Copy, PartialEq, Eq)]
pub enum Moment {
    Before,
    At(Millis),
    Late,
}

fn between(start: u64, time: u64) -> Moment
    ensures { shown_moment result ≡ moment_between start time }
{
    if time < start {
        return Moment::Before;
    }
    match u32::try_from(time - start) {
        Ok(t) => Moment::At(Millis(t)),
        Err(_) => Moment::Late,
    }
}

// One time from another, both as they are read.
fn moment_of(start: Timestamp, time: Timestamp) -> Moment
    requires { Timed start × Timed time }
    ensures { shown_moment result ≡ moment_of start time }
{
    between(instant(start), instant(time))
}

// A time from the quantum's start, whose bytes may say none.
pub fn after(start: &[u8], time: Timestamp) -> Result<Moment, Refusal>
    requires { Timed time }
    ensures { shown_elapsed result ≡ moment_from (time_in start.now) (Some time) }
{
    let from = time_in(start).ok_or(Refusal::FieldWrong)?;
    Ok(moment_of(from, time))
}

// The same where the time is bytes too.
pub fn since(start: &[u8], sixty: &[u8]) -> Result<Moment, Refusal>
    ensures { shown_elapsed result ≡ sinceOf start.now sixty.now }
{
    let time = time_in(sixty).ok_or(Refusal::FieldWrong)?;
    after(start, time)
}
