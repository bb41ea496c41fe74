// Where the values of wanted tags are in a message. A table says the slot of each tag below 1,000: 0 for a tag that is skipped, 255
// for those of the frame, else its place in the list of wanted tags, counted from 1.
#![tactic(auto)]

ghost use Rattle.std.specs.Prelude.{◌≡◌, true, ◌+◌, ◌-◌, ◌*◌, ◌≤◌, ◌<◌, length, get_or, replicate};
ghost use Rattle.fix_fields.specs.Ends.{ClosedFrom};
ghost use Rattle.fix_tag_spans.specs.Slots.{SlotsMade, SpansAsked, AnySpans};
ghost use Rattle.fix_tag_spans.specs.Internal.{AnyTag, LongTag, ThirdTag, noted_at};

use fix_digits::is_digit;

// The slot of a tag and the byte after its equals sign; slot 255 is for no tag, too.
#[derive(Clone, Copy, PartialEq, Eq)]
pub struct SlotTag {
    pub slot: u8,
    pub next: usize,
}

fn broken(at: usize) -> SlotTag
    ensures { (result.slot ≡ 255) × (result.next ≡ at) }
{
    SlotTag {
        slot: 255,
        next: at,
    }
}

fn digit(b: u8) -> usize
    requires { (48 ≤ b) × (b ≤ 57) }
    ensures { (result ≡ b - 48) × (result ≤ 9) }
{
    (b - 48) as usize
}

fn place(i: usize) -> u8
    requires { i ≤ 99 }
    ensures { result ≡ i + 1 }
{
    (i + 1) as u8
}

fn index(tag: u32) -> usize
    ensures { result ≡ tag }
{
    tag as usize
}

// The slots of the wanted tags; false where one is 0, above 999, of the frame, there twice, or past the hundredth.
pub fn slots_of(tags: &[u32], slots: &mut [u8; 1000]) -> bool
    requires { slots.old ≡ replicate 1000 0 }
    ensures { SlotsMade tags.now slots.new result }
{
    slots[35] = 255;
    slots[10] = 255;
    slots[9] = 255;
    slots[8] = 255;
    slots[0] = 255;
    for (i, &tag) in tags.iter().enumerate() {
        if 999 < tag {
            return false;
        }
        if 99 < i {
            return false;
        }
        let at = index(tag);
        if slots[at] != 0 {
            return false;
        }
        slots[at] = place(i);
    }
    true
}

// The rest of a tag of four digits or more.
fn long_tag(b: &[u8], from: usize) -> SlotTag
    requires { ClosedFrom b.now from }
    ensures { LongTag b.now from result.slot result.next }
{
    let i = fix_fields::digits_end(b, from);
    if b[i] == 61 {
        return SlotTag {
            slot: 0,
            next: i + 1,
        };
    }
    broken(i)
}

// The third digit of a tag and what follows; n is the number of the first two.
fn third(b: &[u8], at: usize, n: usize, slots: &[u8; 1000]) -> SlotTag
    requires { ClosedFrom b.now (at + 1) × (n ≤ 99) × (get_or b.now at 0 ≡ 61 → ⊥) }
    ensures { ThirdTag b.now slots.now n at result.slot result.next }
{
    let z = b[at];
    if !is_digit(z) {
        return broken(at);
    }
    if b[at + 1] == 61 {
        return SlotTag {
            slot: slots[n * 10 + digit(z)],
            next: at + 2,
        };
    }
    long_tag(b, at + 1)
}

// The tag that starts at a byte, with three more bytes after it.
fn slot_at(b: &[u8], at: usize, slots: &[u8; 1000]) -> SlotTag
    requires { (at + 3 < length b.now) × (get_or b.now (length b.now - 1) 0 ≡ 1) }
    ensures { AnyTag b.now slots.now at result.slot result.next }
{
    let x = b[at];
    if (x < 49) | (57 < x) {
        return broken(at);
    }
    let y = b[at + 1];
    if y == 61 {
        return SlotTag {
            slot: slots[digit(x)],
            next: at + 2,
        };
    }
    if !is_digit(y) {
        return broken(at);
    }
    let n = digit(x) * 10 + digit(y);
    if b[at + 2] == 61 {
        return SlotTag {
            slot: slots[n],
            next: at + 3,
        };
    }
    third(b, at + 2, n, slots)
}

fn word(n: usize) -> u32
    requires { n < 4294967296 }
    ensures { result ≡ n }
{
    n as u32
}

// A further value of a slot, whose two words are at a place: the first value stays, a second one adds 2^31 to its length.
fn note(spans: &mut [u32], at: usize, from: usize, to: usize)
    requires { (at + 1 < length spans.old) × (from ≤ to) × (to < 2147483648) }
    ensures { spans.new ≡ noted_at spans.old at from to }
{
    if spans[at] == 0 {
        spans[at] = word(from);
        spans[at + 1] = word(to - from);
        return;
    }
    if spans[at + 1] < 2147483648 {
        spans[at + 1] += 2147483648;
    }
}

// Where the two words of a slot are.
fn words_at(slot: u8) -> usize
    requires { (1 ≤ slot) × (slot ≤ 254) }
    ensures { result ≡ 2 * (slot - 1) }
{
    2 * ((slot - 1) as usize)
}

// The fields from a byte on up to another, where 10 begins: where the values of the wanted tags are, two words a tag, which are 0 before.
// The tags are those of the table; nothing reads them.
pub fn spans_any(
    b: &[u8],
    start: usize,
    end: usize,
    tags: &[u32],
    slots: &[u8; 1000],
    spans: &mut [u32],
) -> bool
    requires { SpansAsked b.now start end tags.now slots.now spans.old }
    ensures { AnySpans b.now start end tags.now spans.new result }
{
    let mut at = start;
    while at < end {
        let tag = slot_at(b, at, slots);
        let slot = tag.slot;
        let from = tag.next;
        if slot == 255 {
            return false;
        }
        if b[from] == 1 {
            return false;
        }
        let to = fix_fields::end_of(b, from + 1);
        if slot != 0 {
            note(spans, words_at(slot), from, to);
        }
        at = to + 1;
    }
    at == end
}
