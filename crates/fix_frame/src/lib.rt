// The frame of a message: what is before and after its fields, with length and checksum.
#![tactic(auto)]

ghost use Rattle.std.specs.Prelude.{◌≡◌, ◌+◌, ◌≤◌, ◌<◌, length};
ghost use Rattle.lists.specs.Lists.{sum};
ghost use Rattle.rules.specs.Digits.{in_digits};
ghost use Rattle.rules.specs.Frame.{is_number};
ghost use Rattle.fix_frame.specs.Frames.{head_right, type_right, tail_right, is_kind, FrameFound};

// 8=FIX.4.4, byte 1, 9=
pub fn head_good(b: &[u8]) -> bool
    requires { 12 ≤ length b.now }
    ensures { result ≡ head_right b.now }
{
    (b[0] == 56)
        & (b[1] == 61)
        & (b[2] == 70)
        & (b[3] == 73)
        & (b[4] == 88)
        & (b[5] == 46)
        & (b[6] == 52)
        & (b[7] == 46)
        & (b[8] == 52)
        & (b[9] == 1)
        & (b[10] == 57)
        & (b[11] == 61)
}

// 35=, a type of one byte, byte 1
fn type_good(b: &[u8], at: usize) -> bool
    requires { at + 5 ≤ length b.now }
    ensures { result ≡ type_right b.now at }
{
    (b[at] == 51) & (b[at + 1] == 53) & (b[at + 2] == 61) & (b[at + 4] == 1)
}

// 10=, three digits of the sum, byte 1
pub fn tail_good(b: &[u8], at: usize, sum: u8) -> bool
    requires { at + 7 ≤ length b.now }
    ensures { result ≡ tail_right b.now at sum }
{
    (b[at] == 49)
        & (b[at + 1] == 48)
        & (b[at + 2] == 61)
        & (b[at + 3] == 48 + sum / 100)
        & (b[at + 4] == 48 + sum / 10 % 10)
        & (b[at + 5] == 48 + sum % 10)
        & (b[at + 6] == 1)
}

// The number of 9, against the length of the body.
pub fn length_good(v: &[u8], n: usize) -> bool
    requires { n < 9223372036854775808 }
    ensures { result ≡ is_number (in_digits v.now) n }
{
    fix_digits::number_in(v) == Some(n as u64)
}

// D, F or G
fn kind_good(kind: u8) -> bool
    ensures { result ≡ is_kind kind }
{
    (kind == 68) | (kind == 70) | (kind == 71)
}

// The type's byte; the fields behind 35, which end where 10 begins.
#[derive(Clone, Copy, PartialEq, Eq)]
pub struct Frame {
    pub kind: u8,
    pub start: usize,
    pub end: usize,
}

// What stands before and behind the fields, with length and sum.
pub fn frame_of(bytes: &[u8]) -> Option<Frame>
    ensures { FrameFound bytes.now result }
{
    let n = bytes.len();
    if n < 26 {
        return None;
    }
    if bytes[n - 1] != 1 {
        return None;
    }
    if !head_good(bytes) {
        return None;
    }
    let nine = fix_fields::end_of(bytes, 12);
    if n - nine < 13 {
        return None;
    }
    let end = n - 7;
    if !type_good(bytes, nine + 1) {
        return None;
    }
    let kind = bytes[nine + 4];
    if !kind_good(kind) {
        return None;
    }
    if !length_good(&bytes[12..nine], end - (nine + 1)) {
        return None;
    }
    if !tail_good(bytes, end, fix_digits::byte_sum(&bytes[..end])) {
        return None;
    }
    Some(Frame {
        kind,
        start: nine + 6,
        end,
    })
}
