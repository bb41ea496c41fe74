// The messages of a log: where each is, its type, and where the values of the wanted tags are.
#![tactic(auto)]

ghost use Rattle.std.specs.Prelude.{◌≡◌, ◌∷◌, ◌+◌, ◌-◌, ◌*◌, ◌≤◌, ◌<◌, length, drop, replicate};
ghost use Rattle.fix_scan_rules.specs.Rows.{row_in};
ghost use Rattle.fix_scan_rules.specs.Scans.{digits_front, size_in, begins, turn_by, row};
ghost use Rattle.fix_scan.specs.RowsDone.{RowsAsked, RowsDone};
ghost use Rattle.fix_scan.specs.Internal.{NextStart, PartIs, RowAsked, TurnDone};

use fix_digits::is_digit;

// 8=FIX.
fn starts(b: &[u8], at: usize) -> bool
    requires { at + 6 ≤ length b.now }
    ensures { result ≡ begins (drop at b.now) }
{
    (b[at] == 56)
        & (b[at + 1] == 61)
        & (b[at + 2] == 70)
        & (b[at + 3] == 73)
        & (b[at + 4] == 88)
        & (b[at + 5] == 46)
}

// The first place from a place on where 8=FIX. begins, with 26 bytes from there on; or the first with fewer.
fn next_start(b: &[u8], from: usize) -> usize
    requires { from ≤ length b.now }
    ensures { NextStart b.now from result }
{
    let end = b.len().saturating_sub(25);
    for i in from..end {
        if starts(b, i) {
            return i;
        }
    }
    if from < end {
        return end;
    }
    from
}

// The first byte from a byte on that is no digit, fourteen bytes on at most.
fn digits_end(b: &[u8], from: usize) -> usize
    requires { from + 14 ≤ length b.now }
    ensures { result ≡ from + length (digits_front 14 (drop from b.now)) }
{
    let most = from + 14;
    for i in from..most {
        if !is_digit(b[i]) {
            return i;
        }
    }
    most
}

fn whole_size(before: usize, n: u64) -> usize
    requires { (n ≤ 65535) × (before ≤ 100) }
    ensures { result ≡ before + 8 + n }
{
    before + 8 + (n as usize)
}

// All bytes of a message, as it says itself, or nothing that could be so.
// By a 9 of thirteen digits at most, and at most 65,535. The place has 26 bytes from there on.
fn size_at(b: &[u8], at: usize) -> Option<usize>
    requires { at + 26 ≤ length b.now }
    ensures { result ≡ size_in (drop at b.now) }
{
    if !fix_frame::head_good(&b[at..]) {
        return None;
    }
    let from = at + 12;
    let nine = digits_end(b, from);
    if from + 14 <= nine {
        return None;
    }
    if b[nine] != 1 {
        return None;
    }
    let n = fix_digits::number_in(&b[from..nine])?;
    if 65535 < n {
        return None;
    }
    Some(whole_size(nine - at, n))
}

// A message's bytes: whole, cut off by the end, or with no length to go by.
#[derive(Clone, Copy, PartialEq, Eq)]
pub enum Part {
    Whole(usize),
    Cut,
    Wrong,
}

fn part_at(b: &[u8], at: usize) -> Part
    requires { at + 26 ≤ length b.now }
    ensures { PartIs (drop at b.now) result }
{
    let Some(n) = size_at(b, at) else {
        return Part::Wrong;
    };
    if b.len() - at < n {
        return Part::Cut;
    }
    Part::Whole(n)
}

fn clear(words: &mut [u32])
    ensures { words.new ≡ replicate (length words.old) 0 }
{
    words.fill(0);
}

fn word(n: usize) -> u32
    requires { n < 4294967296 }
    ensures { result ≡ n }
{
    n as u32
}

// The row of a place where no message is.
fn put_wrong(at: usize, row: &mut [u32])
    requires { (4 ≤ length row.old) × (at < 4294967296) }
    ensures { row.new ≡ at ∷ 0 ∷ 20 ∷ 0 ∷ replicate (length row.old - 4) 0 }
{
    clear(row);
    row[0] = word(at);
    row[2] = 20;
}

// The row of what should be a message, and how far to go on.
fn put_row(m: &[u8], at: usize, tags: &[u32], slots: &[u8; 1000], words: &mut [u32]) -> usize
    requires { RowAsked tags.now slots.now words.old at × (length m.now < 2147483648) }
    ensures { turn_by tags.now at (length m.now) (row_in tags.now m.now) ≡ row words.new result }
{
    let Some(frame) = fix_any_frame::frame_any(m) else {
        put_wrong(at, words);
        return 1;
    };
    clear(words);
    if !fix_tag_spans::spans_any(m, frame.start, frame.end, tags, slots, &mut words[4..]) {
        put_wrong(at, words);
        return 1;
    }
    words[0] = word(at);
    words[1] = word(m.len());
    words[3] = frame.kind;
    m.len()
}

// The row of a place where 8=FIX. begins, and where the next one begins; the place itself, and no row, where the message is cut off.
fn turn(b: &[u8], at: usize, tags: &[u32], slots: &[u8; 1000], row: &mut [u32]) -> usize
    requires { RowAsked tags.now slots.now row.old at × (at + 26 ≤ length b.now) }
    ensures { TurnDone b.now tags.now at row.old row.new result }
{
    match part_at(b, at) {
        Part::Cut => at,
        Part::Wrong => {
            put_wrong(at, row);
            next_start(b, at + 1)
        }
        Part::Whole(n) => {
            let step = put_row(&b[at..at + n], at, tags, slots, row);
            next_start(b, at + step)
        }
    }
}

// After the last row, and the first byte that was not read.
#[derive(Clone, Copy, PartialEq, Eq)]
pub struct Stop {
    pub used: usize,
    pub at: usize,
}

// The rows of all messages, as long as words are left.
pub fn rows(b: &[u8], tags: &[u32], slots: &[u8; 1000], words: &mut [u32]) -> Stop
    requires { RowsAsked b.now tags.now slots.now words.old }
    ensures { RowsDone b.now tags.now words.old words.new result.used result.at }
{
    let width = 4 + 2 * tags.len();
    let mut at = next_start(b, 0);
    let mut used = 2;
    while (at + 26 <= b.len()) & (used + width <= words.len()) {
        let to = used + width;
        let next = turn(b, at, tags, slots, &mut words[used..to]);
        if next == at {
            return Stop { used, at };
        }
        at = next;
        used = to;
    }
    Stop { used, at }
}
