// The frame of a message of any type: what is before and after its fields, with length and checksum.
#![tactic(auto)]

ghost use Rattle.std.specs.Prelude.{◌≡◌, ◌+◌, ◌-◌, ◌*◌, ◌≤◌, ◌<◌, length, get_or, take, drop};
ghost use Rattle.fix_scan_rules.specs.Rows.{packed};
ghost use Rattle.fix_any_frame.specs.AnyFrames.{type_begins, AnyFrameFound};

// A byte as a word.
fn wide(b: u8) -> u32
    ensures { (result ≡ b) × (result < 256) }
{
    u32::from(b)
}

// 35=, and a type of at least one byte
fn type_begins(b: &[u8], at: usize) -> bool
    requires { at + 4 ≤ length b.now }
    ensures { result ≡ type_begins b.now at }
{
    (b[at] == 51) & (b[at + 1] == 53) & (b[at + 2] == 61) & (b[at + 3] != 1)
}

// Two bytes as a word, the first one low.
fn two(b: &[u8], at: usize) -> u32
    requires { at + 2 ≤ length b.now }
    ensures { (result ≡ get_or b.now at 0 + 256 * get_or b.now (at + 1) 0) × (result < 65536) }
{
    wide(b[at]) + 256 * wide(b[at + 1])
}

// One to four bytes as a word, the first one low; 0 where there are more.
fn packed(b: &[u8], from: usize, to: usize) -> u32
    requires { (from ≤ to) × (to ≤ length b.now) }
    ensures { result ≡ packed (take (to - from) (drop from b.now)) }
{
    match to - from {
        1 => wide(b[from]),
        2 => two(b, from),
        3 => two(b, from) + 65536 * wide(b[from + 2]),
        4 => two(b, from) + 65536 * two(b, from + 2),
        _ => 0,
    }
}

// The type, packed; the fields after 35, which end where 10 begins.
#[derive(Clone, Copy, PartialEq, Eq)]
pub struct AnyFrame {
    pub kind: u32,
    pub start: usize,
    pub end: usize,
}

// What is before and after the fields, with length and checksum.
pub fn frame_any(bytes: &[u8]) -> Option<AnyFrame>
    ensures { AnyFrameFound bytes.now result }
{
    let n = bytes.len();
    if n < 26 {
        return None;
    }
    if bytes[n - 1] != 1 {
        return None;
    }
    if !fix_frame::head_good(bytes) {
        return None;
    }
    let nine = fix_fields::end_of(bytes, 12);
    if n - nine < 13 {
        return None;
    }
    let end = n - 7;
    if !type_begins(bytes, nine + 1) {
        return None;
    }
    let stop = fix_fields::end_of(bytes, nine + 5);
    if end <= stop {
        return None;
    }
    if !fix_frame::length_good(&bytes[12..nine], end - (nine + 1)) {
        return None;
    }
    if !fix_frame::tail_good(bytes, end, fix_digits::byte_sum(&bytes[..end])) {
        return None;
    }
    let kind = packed(bytes, nine + 4, stop);
    Some(AnyFrame {
        kind,
        start: stop + 1,
        end,
    })
}
