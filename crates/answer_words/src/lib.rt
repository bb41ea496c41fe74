// The answers to a month's calls as twenty words, each at its place (specs/Words).
#![tactic(auto)]

ghost use Rattle.std.specs.Prelude.{◌≡◌, length};
ghost use Rattle.rules.specs.Answers.{accepted, refused, done, cell, asked, report as reported, outlook as foreseen};
ghost use Rattle.answer_words.specs.Words.{quote_flag, quote_word, possible_flag, possible_word, lapses_kind, lapses_word, answer_words};

use lent::{high, low};
use rules::{CellView, LapsesLeft, Millis, Outlook, Preview, Report, Steps};

// Whether there is a quote, and the word of its price.
fn quoted(quote: Option<Steps>) -> u32
    ensures { result ≡ quote_flag quote }
{
    match quote {
        None => 0,
        Some(_) => 1,
    }
}

fn price_word(quote: Option<Steps>) -> u32
    ensures { result ≡ quote_word quote }
{
    match quote {
        None => 0,
        Some(p) => words::from_steps(p),
    }
}

// Whether there is a number of milliseconds or a time, and which.
fn possible(found: Option<Millis>) -> u32
    ensures { result ≡ possible_flag found }
{
    match found {
        None => 0,
        Some(_) => 1,
    }
}

fn possible_word(found: Option<Millis>) -> u32
    ensures { result ≡ possible_word found }
{
    match found {
        None => 0,
        Some(m) => m.0,
    }
}

// What the lapse limit leaves, and how many.
fn lapses_kind(left: LapsesLeft) -> u32
    ensures { result ≡ lapses_kind left }
{
    match left {
        LapsesLeft::Unlimited => 0,
        LapsesLeft::Over => 1,
        LapsesLeft::Left(_) => 2,
    }
}

fn lapses_word(left: LapsesLeft) -> u32
    ensures { result ≡ lapses_word left }
{
    match left {
        LapsesLeft::Unlimited => 0,
        LapsesLeft::Over => 0,
        LapsesLeft::Left(n) => n,
    }
}

#[tactic(auto, unfolding(crate::specs::Words::answer_words))]
pub fn accepted_words() -> [u32; 20]
    ensures { result ≡ answer_words (accepted done) }
{
    [0; 20]
}

#[tactic(auto, unfolding(crate::specs::Words::answer_words))]
pub fn refused_words(number: u32) -> [u32; 20]
    ensures { result ≡ answer_words (refused number) }
{
    [
        1, number, 0, 0, 0, 0, 0, 0, 0, 0, 0, 0, 0, 0, 0, 0, 0, 0, 0, 0,
    ]
}

#[tactic(auto, using(lent::proofs::Back::flag_is), unfolding(crate::specs::Words::answer_words, lent::specs::Words::cell_words))]
pub fn cell_words(view: CellView) -> [u32; 20]
    ensures { result ≡ answer_words (accepted (cell view)) }
{
    let c = view.cell;
    let kept = c.kept;
    let length = c.length;
    let active = c.active;
    let passive = c.passive;
    [
        2,
        0,
        u32::from(c.filled),
        kept.0,
        length.0,
        c.share,
        c.allowed,
        c.lapses,
        low(active.0),
        high(active.0),
        low(passive.0),
        high(passive.0),
        u32::from(view.met),
        view.weight,
        0,
        0,
        0,
        0,
        0,
        0,
    ]
}

#[tactic(auto, unfolding(crate::specs::Words::answer_words))]
pub fn asked_words(preview: Preview) -> [u32; 20]
    ensures { result ≡ answer_words (accepted (asked preview)) }
{
    let bid = preview.bid;
    let ask = preview.ask;
    let ticket = preview.ticket;
    let a = ticket.amendment;
    let t = a.t;
    let price = a.price;
    let volume = a.volume;
    let count = ticket.count;
    [
        3,
        0,
        quoted(bid),
        price_word(bid),
        quoted(ask),
        price_word(ask),
        t.0,
        a.id,
        words::from_steps(price),
        volume.0,
        low(count),
        high(count),
        0,
        0,
        0,
        0,
        0,
        0,
        0,
        0,
    ]
}

#[tactic(auto, using(lent::proofs::Back::flag_is), unfolding(crate::specs::Words::answer_words))]
pub fn report_words(report: Report) -> [u32; 20]
    ensures { result ≡ answer_words (accepted (reported report)) }
{
    let time = report.time;
    let bid = report.bid;
    let ask = report.ask;
    let kept = report.kept;
    let f = report.failures;
    let fee = report.fee;
    [
        4,
        0,
        u32::from(report.running),
        time.0,
        report.orders,
        quoted(bid),
        price_word(bid),
        quoted(ask),
        price_word(ask),
        kept.0,
        report.lapses,
        f[0],
        f[1],
        f[2],
        f[3],
        f[4],
        f[5],
        low(fee.0),
        high(fee.0),
        0,
    ]
}

#[tactic(auto, using(lent::proofs::Back::flag_is), unfolding(crate::specs::Words::answer_words))]
pub fn outlook_words(outlook: Outlook) -> [u32; 20]
    ensures { result ≡ answer_words (accepted (foreseen outlook)) }
{
    let need = outlook.need;
    let left = outlook.left;
    let by = outlook.by;
    let full = outlook.full;
    let lapses = outlook.lapses;
    [
        5,
        0,
        need.0,
        left.0,
        possible(by),
        possible_word(by),
        possible(full),
        possible_word(full),
        lapses_kind(lapses),
        lapses_word(lapses),
        u32::from(outlook.rest),
        u32::from(outlook.lost),
        outlook.resting,
        outlook.keeping,
        0,
        0,
        0,
        0,
        0,
        0,
    ]
}

// ---- the same into lent words, for the crates that still call these

pub fn put_accepted(answer: &mut [u32])
    requires { length answer.old ≡ 20 }
    ensures { answer.new ≡ answer_words (accepted done) }
{
    answer.copy_from_slice(&accepted_words());
}

pub fn put_refused(number: u32, answer: &mut [u32])
    requires { length answer.old ≡ 20 }
    ensures { answer.new ≡ answer_words (refused number) }
{
    answer.copy_from_slice(&refused_words(number));
}

pub fn put_cell(view: CellView, answer: &mut [u32])
    requires { length answer.old ≡ 20 }
    ensures { answer.new ≡ answer_words (accepted (cell view)) }
{
    answer.copy_from_slice(&cell_words(view));
}

pub fn put_asked(preview: Preview, answer: &mut [u32])
    requires { length answer.old ≡ 20 }
    ensures { answer.new ≡ answer_words (accepted (asked preview)) }
{
    answer.copy_from_slice(&asked_words(preview));
}

pub fn put_report(report: Report, answer: &mut [u32])
    requires { length answer.old ≡ 20 }
    ensures { answer.new ≡ answer_words (accepted (reported report)) }
{
    answer.copy_from_slice(&report_words(report));
}

pub fn put_outlook(outlook: Outlook, answer: &mut [u32])
    requires { length answer.old ≡ 20 }
    ensures { answer.new ≡ answer_words (accepted (foreseen outlook)) }
{
    answer.copy_from_slice(&outlook_words(outlook));
}
