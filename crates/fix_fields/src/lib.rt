// The fields of a message, tag and value, one after the other in its bytes.
#![tactic(auto)]

ghost use Rattle.std.specs.Prelude.{◌≡◌, ◌+◌, ◌-◌, ◌<◌, eqb, length, get_or, replicate, if◌then◌else◌};
ghost use Rattle.fix_fields.specs.Ends.{ClosedFrom, EndOf, DigitsEnd};
ghost use Rattle.fix_fields.specs.Tags.{slot_number, TagAt, LongTag};
ghost use Rattle.fix_fields.specs.Spans.{noted, EndsAt, SpansFound};

use fix_digits::is_digit;

// Where a tag stands: the slot that it belongs to, and the byte behind its equals sign. Slot 7 is for no tag, and for those of the frame.
#[derive(Clone, Copy, PartialEq, Eq)]
pub struct Tag {
    pub slot: usize,
    pub next: usize,
}

// The slot of a tag below 100: 0 to 5 for those that are used, 6 for those that are skipped, 7 for 8, 9, 10 and 35.
fn slot_of(tag: u8) -> usize
    ensures { result ≡ slot_number tag }
{
    match tag {
        8 => 7,
        9 => 7,
        10 => 7,
        35 => 7,
        11 => 0,
        41 => 1,
        54 => 2,
        38 => 3,
        44 => 4,
        60 => 5,
        _ => 6,
    }
}

// The first byte from a byte on that is no digit. The last byte is none, so the search ends, and by index no turn tests the length.
pub fn digits_end(b: &[u8], from: usize) -> usize
    requires { ClosedFrom b.now from }
    ensures { DigitsEnd b.now from result }
{
    let mut i = from;
    while is_digit(b[i]) {
        i += 1;
    }
    i
}

// The rest of a tag of three digits or more.
fn long_tag(b: &[u8], from: usize) -> Tag
    requires { ClosedFrom b.now from }
    ensures { LongTag b.now from result.slot result.next }
{
    let i = digits_end(b, from);
    if b[i] == 61 {
        return Tag {
            slot: 6,
            next: i + 1,
        };
    }
    Tag { slot: 7, next: i }
}

// The tag that starts at a byte, with two more bytes behind it.
fn tag_at(b: &[u8], at: usize) -> Tag
    requires { (at + 3 < length b.now) × (get_or b.now (length b.now - 1) 0 ≡ 1) }
    ensures { TagAt b.now at result.slot result.next }
{
    let x = b[at];
    if (x < 49) | (57 < x) {
        return Tag { slot: 7, next: at };
    }
    let y = b[at + 1];
    if y == 61 {
        return Tag {
            slot: slot_of(x - 48),
            next: at + 2,
        };
    }
    if !is_digit(y) {
        return Tag { slot: 7, next: at };
    }
    if b[at + 2] == 61 {
        return Tag {
            slot: slot_of(10 * (x - 48) + (y - 48)),
            next: at + 3,
        };
    }
    long_tag(b, at + 2)
}

// The first byte 1 from a byte on, four bytes a turn; the last byte is one.
pub fn end_of(b: &[u8], from: usize) -> usize
    requires { ClosedFrom b.now from }
    ensures { EndOf b.now from result }
{
    let mut i = from;
    loop {
        if b[i] == 1 {
            return i;
        }
        if b[i + 1] == 1 {
            return i + 1;
        }
        if b[i + 2] == 1 {
            return i + 2;
        }
        if b[i + 3] == 1 {
            return i + 3;
        }
        i += 4;
    }
}

// Where a value begins, or 1 where its tag was met before.
fn begin(old: usize, from: usize) -> usize
    ensures { result ≡ (if eqb old 0 then from else 1) }
{
    if old == 0 {
        return from;
    }
    1
}

fn note(spans: &mut [usize; 16], slot: usize, from: usize, to: usize)
    requires { slot < 8 }
    ensures { spans.new ≡ noted spans.old slot from to }
{
    spans[slot] = begin(spans[slot], from);
    spans[slot + 8] = to;
}

// The fields from a byte on up to another, where 10 begins: where the values of the used tags stand.
pub fn spans_of(b: &[u8], start: usize, end: usize, spans: &mut [usize; 16]) -> bool
    requires { EndsAt b.now start end × (spans.old ≡ replicate 16 0) }
    ensures { SpansFound b.now start spans.new result }
{
    let mut at = start;
    while at < end {
        let tag = tag_at(b, at);
        let slot = tag.slot;
        let from = tag.next;
        if slot == 7 {
            return false;
        }
        if b[from] == 1 {
            return false;
        }
        let to = end_of(b, from + 1);
        note(spans, slot, from, to);
        at = to + 1;
    }
    at == end
}
