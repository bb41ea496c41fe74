// FIX 4.4: NewOrderSingle, OrderCancelRequest and OrderCancelReplaceRequest, written as bytes with no other tags.
#![tactic(auto)]

ghost use Rattle.std.specs.Prelude.{◌≡◌, [], ◌∷◌, ◌++◌, ◌+◌, ◌≤◌, ◌<◌, length};
ghost use Rattle.rules.specs.Digits.{decimal_of, signed_decimal, three_digits};
ghost use Rattle.rules.specs.Fields.{field_bytes, fields_bytes};
ghost use Rattle.rules.specs.Frame.{type_tag, checksum_tag};
ghost use Rattle.rules.specs.Messages.{new_order, cancel_order, replace_order, side_tag, price_tag, time_tag, side_text, field_with, terms_fields};
ghost use Rattle.fix_writer.specs.Answers.{Writes};
ghost use Rattle.fix_writer.specs.Internal.{Laid, head_bytes, is_time, Closes};

use rules::{Contracts, Refusal, Side, Steps};

// A message's bytes up to the length, and zeros after them.
#[derive(Clone, Copy, PartialEq, Eq)]
pub struct MessageText {
    pub bytes: [u8; 114],
    pub length: usize,
}

// One byte; the place after it.
fn put_byte(out: &mut [u8; 114], at: usize, b: u8) -> usize
    requires { (length out.old ≡ 114) × (at < 114) }
    ensures { Laid out.old at (b ∷ []) result out.new }
{
    out[at] = b;
    at + 1
}

fn put_all(out: &mut [u8; 114], at: usize, v: &[u8]) -> usize
    requires { (length out.old ≡ 114) × (at + length v.now ≤ 114) }
    ensures { Laid out.old at v.now result out.new }
{
    // The values are short: std's `copy_from_slice` takes a quarter more for a message.
    for i in 0..v.len() {
        out[at + i] = v[i];
    }
    at + v.len()
}

fn digit(n: u32) -> u8
    requires { n ≤ 9 }
    ensures { result ≡ 48 + n }
{
    48 + n as u8
}

// A number without leading zeros: the digits before the last, then the last.
fn put_number(out: &mut [u8; 114], at: usize, n: u32) -> usize
    requires { (length out.old ≡ 114) × (at + length (decimal_of n) ≤ 114) }
    ensures { Laid out.old at (decimal_of n) result out.new }
{
    if n < 10 {
        return put_byte(out, at, digit(n));
    }
    let next = put_number(out, at, n / 10);
    put_byte(out, next, digit(n % 10))
}

// The same with a minus sign if it is negative.
fn put_signed(out: &mut [u8; 114], at: usize, x: i32) -> usize
    requires { (length out.old ≡ 114) × (at + 11 ≤ 114) }
    ensures { (Laid out.old at (signed_decimal x) result out.new) × (result ≤ at + 11) }
{
    let w = words::from_steps(Steps(x));
    if w < 2147483648 {
        return put_number(out, at, w);
    }
    let next = put_byte(out, at, 45);
    put_number(out, next, 4294967295 - w + 1)
}

// A tag of two digits with its equals sign, a number, byte 1.
fn put_word(out: &mut [u8; 114], at: usize, tag: &[u8; 3], n: u32) -> usize
    requires { (length out.old ≡ 114) × (length tag.now ≡ 3) × (at + 14 ≤ 114) }
    ensures { (Laid out.old at (tag.now ++ (decimal_of n ++ (1 ∷ []))) result out.new) × (result ≤ at + 14) }
{
    let a = put_all(out, at, tag);
    let b = put_number(out, a, n);
    put_byte(out, b, 1)
}

fn side_digit(side: Side) -> u8
    ensures { result ∷ [] ≡ side_text side }
{
    match side {
        Side::Buy => 49,
        Side::Sell => 50,
    }
}

fn put_side(out: &mut [u8; 114], at: usize, side: Side) -> usize
    requires { (length out.old ≡ 114) × (at + 5 ≤ 114) }
    ensures { (Laid out.old at (field_bytes (field_with side_tag (side_text side))) result out.new) × (result ≡ at + 5) }
{
    let a = put_all(out, at, b"54=");
    let b = put_byte(out, a, side_digit(side));
    put_byte(out, b, 1)
}

fn put_price(out: &mut [u8; 114], at: usize, p: Steps) -> usize
    requires { (length out.old ≡ 114) × (at + 15 ≤ 114) }
    ensures { (Laid out.old at (field_bytes (field_with price_tag (signed_decimal p.0))) result out.new) × (result ≤ at + 15) }
{
    let a = put_all(out, at, b"44=");
    let b = put_signed(out, a, p.0);
    put_byte(out, b, 1)
}

// 54, 38 and 44
fn put_terms(out: &mut [u8; 114], at: usize, side: Side, volume: Contracts, price: Steps) -> usize
    requires { (length out.old ≡ 114) × (at + 34 ≤ 114) }
    ensures { (Laid out.old at (fields_bytes (terms_fields side volume price)) result out.new) × (result ≤ at + 34) }
{
    let a = put_side(out, at, side);
    let b = put_word(out, a, b"38=", volume.0);
    put_price(out, b, price)
}

// 60 is the last field before 10.
fn put_time(out: &mut [u8; 114], at: usize, sixty: &[u8]) -> usize
    requires { (length out.old ≡ 114) × (length sixty.now ≡ 21) × (at + 25 ≤ 114) }
    ensures { (Laid out.old at (fields_bytes (field_with time_tag sixty.now ∷ [])) result out.new) × (result ≡ at + 25) }
{
    let a = put_all(out, at, b"60=");
    let b = put_all(out, a, sixty);
    put_byte(out, b, 1)
}

// 35 follows the 15 bytes of 8 and 9.
fn put_type(out: &mut [u8; 114], kind: u8) -> usize
    requires { length out.old ≡ 114 }
    ensures { (Laid out.old 15 (field_bytes (field_with type_tag (kind ∷ []))) result out.new) × (result ≡ 20) }
{
    let a = put_all(out, 15, b"35=");
    let b = put_byte(out, a, kind);
    put_byte(out, b, 1)
}

// 8 and 9, once the length is known: it has two digits.
fn put_head(out: &mut [u8; 114], n: usize) -> usize
    requires { (length out.old ≡ 114) × (10 ≤ n) × (n ≤ 99) }
    ensures { Laid out.old 0 (head_bytes n) result out.new }
{
    let a = put_all(out, 0, b"8=FIX.4.4\x019=");
    let b = put_number(out, a, n as u32);
    put_byte(out, b, 1)
}

// 10, three digits of the sum.
fn put_tail(out: &mut [u8; 114], at: usize, sum: u8) -> usize
    requires { (length out.old ≡ 114) × (at + 7 ≤ 114) }
    ensures { Laid out.old at (field_bytes (field_with checksum_tag (three_digits sum))) result out.new }
{
    let a = put_all(out, at, b"10=");
    let b = put_byte(out, a, 48 + sum / 100);
    let c = put_byte(out, b, 48 + sum / 10 % 10);
    let d = put_byte(out, c, 48 + sum % 10);
    put_byte(out, d, 1)
}

// The fields from 35 to 60, with 8 and 9 before them and 10 after.
fn closed(body: [u8; 114], end: usize) -> MessageText
    requires { (25 ≤ end) × (end ≤ 107) }
    ensures { Closes body end result }
{
    let mut bytes = body;
    put_head(&mut bytes, end - 15);
    let sum = fix_digits::byte_sum(&bytes[..end]);
    let length = put_tail(&mut bytes, end, sum);
    MessageText { bytes, length }
}

fn time_good(sixty: &[u8]) -> bool
    ensures { result ≡ is_time sixty.now }
{
    fix_dates::time_in(sixty).is_some()
}

// D
pub fn write_new(
    id: u32,
    side: Side,
    volume: Contracts,
    price: Steps,
    sixty: &[u8],
) -> Result<MessageText, Refusal>
    ensures { Writes (new_order id side volume price sixty.now) result }
{
    if !time_good(sixty) {
        return Err(Refusal::FieldWrong);
    }
    let mut bytes = [0u8; 114];
    let a = put_type(&mut bytes, 68);
    let b = put_word(&mut bytes, a, b"11=", id);
    let c = put_terms(&mut bytes, b, side, volume, price);
    let d = put_time(&mut bytes, c, sixty);
    Ok(closed(bytes, d))
}

// F
pub fn write_cancel(id: u32, orig: u32, sixty: &[u8]) -> Result<MessageText, Refusal>
    ensures { Writes (cancel_order id orig sixty.now) result }
{
    if !time_good(sixty) {
        return Err(Refusal::FieldWrong);
    }
    let mut bytes = [0u8; 114];
    let a = put_type(&mut bytes, 70);
    let b = put_word(&mut bytes, a, b"11=", id);
    let c = put_word(&mut bytes, b, b"41=", orig);
    let d = put_time(&mut bytes, c, sixty);
    Ok(closed(bytes, d))
}

// G
pub fn write_replace(
    id: u32,
    orig: u32,
    side: Side,
    volume: Contracts,
    price: Steps,
    sixty: &[u8],
) -> Result<MessageText, Refusal>
    ensures { Writes (replace_order id orig side volume price sixty.now) result }
{
    if !time_good(sixty) {
        return Err(Refusal::FieldWrong);
    }
    let mut bytes = [0u8; 114];
    let a = put_type(&mut bytes, 71);
    let b = put_word(&mut bytes, a, b"11=", id);
    let c = put_word(&mut bytes, b, b"41=", orig);
    let d = put_terms(&mut bytes, c, side, volume, price);
    let e = put_time(&mut bytes, d, sixty);
    Ok(closed(bytes, e))
}
