// FIX messages for C: read into words in a lent buffer, and written from words into lent bytes.
#![tactic(auto)]

ghost use Rattle.std.specs.Prelude.{◌≡◌, ◌∷◌, ◌≤◌, length, take};
ghost use Rattle.rules.specs.Answers.{accepted};
ghost use Rattle.rules.specs.Records.{add_kind, unsigned_of};
ghost use Rattle.rules.specs.Messages.{read_message};
ghost use Rattle.std.specs.Result.{ForOk};
ghost use Rattle.fix_reader.specs.Answers.{values_shown};
ghost use Rattle.fix_writer.specs.Answers.{shown_text, IsText};
ghost use Rattle.c_answers.specs.Answers.{Fills};
ghost use Rattle.c_fix.specs.Messages.{time_words, message_words, read_words, message_for, text_for};

use fix_reader::Message;
use fix_writer::MessageText;
use rules::{Contracts, Refusal, Side, Steps, Timestamp};

// The first six words of a message, then its time.
fn message(
    kind: u32,
    id: u32,
    orig: u32,
    side: u32,
    volume: u32,
    price: u32,
    time: Timestamp,
) -> [u32; 13]
    ensures { result ≡ kind ∷ id ∷ orig ∷ side ∷ volume ∷ price ∷ time_words time }
{
    [
        kind,
        id,
        orig,
        side,
        volume,
        price,
        time.year,
        time.month,
        time.day,
        time.hour,
        time.minute,
        time.second,
        time.millis,
    ]
}

// A new order or a replace as words in a lent buffer.
fn fill_order(
    kind: u32,
    id: u32,
    orig: u32,
    side: Side,
    volume: Contracts,
    price: Steps,
    time: Timestamp,
    buffer: &mut [u32],
) -> u64
    ensures { Fills (accepted (kind ∷ id ∷ orig ∷ add_kind side ∷ volume.0 ∷ unsigned_of price.0 ∷ time_words time)) buffer.old buffer.new result }
{
    let number = words::from_steps(price);
    let words = message(
        kind,
        id,
        orig,
        words::from_side(side),
        volume.0,
        number,
        time,
    );
    c_answers::fill_words(&words, buffer)
}

fn fill_cancel(id: u32, orig: u32, time: Timestamp, buffer: &mut [u32]) -> u64
    ensures { Fills (accepted (2 ∷ id ∷ orig ∷ 0 ∷ 0 ∷ 0 ∷ time_words time)) buffer.old buffer.new result }
{
    let words = message(2, id, orig, 0, 0, 0, time);
    c_answers::fill_words(&words, buffer)
}

// A message as words in a lent buffer.
fn fill_message(read: Message, buffer: &mut [u32]) -> u64
    ensures { Fills (accepted (message_words (values_shown read))) buffer.old buffer.new result }
{
    match read {
        Message::New {
            id,
            side,
            volume,
            price,
            time,
        } => fill_order(1, id, 0, side, volume, price, time, buffer),
        Message::Cancel { id, orig, time } => fill_cancel(id, orig, time, buffer),
        Message::Replace {
            id,
            orig,
            side,
            volume,
            price,
            time,
        } => fill_order(3, id, orig, side, volume, price, time, buffer),
    }
}

// The message that some bytes are.
pub fn read_words(bytes: &[u8], buffer: &mut [u32]) -> u64
    ensures { Fills (read_words (read_message bytes.now)) buffer.old buffer.new result }
{
    match fix_reader::read(bytes) {
        Ok(read) => fill_message(read, buffer),
        Err(refusal) => c_answers::refused(u32::from(refusal)),
    }
}

fn fill_front(bytes: [u8; 114], n: usize, text: &mut [u8]) -> u64
    requires { n ≤ 114 }
    ensures { Fills (accepted (take n bytes)) text.old text.new result }
{
    c_answers::fill_bytes(&bytes, n, text)
}

fn fill_text(written: Result<MessageText, Refusal>, text: &mut [u8]) -> u64
    requires { ForOk written IsText }
    ensures { Fills (shown_text written) text.old text.new result }
{
    match written {
        Ok(t) => fill_front(t.bytes, t.length, text),
        Err(refusal) => c_answers::refused(u32::from(refusal)),
    }
}

// The bytes of a message that words say, with the bytes of its 60. The first word is the message's kind, a number as C gives it.
pub fn write_text(fields: &[u32], sixty: &[u8], text: &mut [u8]) -> u64
    ensures { Fills (text_for (message_for fields.now sixty.now)) text.old text.new result }
{
    if fields.len() < 6 {
        return c_answers::refused(3);
    }
    let kind = fields[0];
    let id = fields[1];
    let orig = fields[2];
    let side = fields[3];
    let volume = Contracts(fields[4]);
    let price = words::to_steps(fields[5]);
    if kind == 2 {
        return fill_text(fix_writer::write_cancel(id, orig, sixty), text);
    }
    if !ranges::between(1, 2, side) {
        return c_answers::refused(3);
    }
    let side = words::to_side(side);
    if kind == 1 {
        return fill_text(fix_writer::write_new(id, side, volume, price, sixty), text);
    }
    if kind == 3 {
        return fill_text(
            fix_writer::write_replace(id, orig, side, volume, price, sixty),
            text,
        );
    }
    c_answers::refused(3)
}
