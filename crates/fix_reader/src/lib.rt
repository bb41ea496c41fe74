// FIX 4.4: NewOrderSingle, OrderCancelRequest and OrderCancelReplaceRequest, read from bytes.
#![tactic(auto)]

ghost use Rattle.std.specs.Prelude.{◌≡◌, ◌<◌, drop, option_map};
ghost use Rattle.rules.specs.Units.{steps};
ghost use Rattle.rules.specs.Digits.{word_in, steps_in};
ghost use Rattle.rules.specs.Dates.{time_in, since as sinceOf};
ghost use Rattle.rules.specs.Fields.{values_of};
ghost use Rattle.rules.specs.Frame.{new, cancel, replace, body_in};
ghost use Rattle.rules.specs.Messages.{price_tag, side_tag, time_tag, once, side_in, message_of, read_message};
ghost use Rattle.rules.specs.MessageCalls.{message_in};
ghost use Rattle.fix_dates.specs.Answers.{shown_elapsed};
ghost use Rattle.fix_fields.specs.Spans.{closed, slot_tag, EndsAt};
ghost use Rattle.fix_frame.specs.Frames.{kind_byte, body_with};
ghost use Rattle.fix_reader.specs.Answers.{values_shown, shown_message, shown_timed};
ghost use Rattle.fix_reader.specs.Internal.{Filled, Says, only, terms_in};

use fix_dates::Moment;
use fix_frame::Frame;
use rules::{Contracts, Refusal, Side, Steps, Timestamp};

// A message that was read.
#[derive(Clone, Copy, PartialEq, Eq)]
pub enum Message {
    New {
        id: u32,
        side: Side,
        volume: Contracts,
        price: Steps,
        time: Timestamp,
    },
    Cancel {
        id: u32,
        orig: u32,
        time: Timestamp,
    },
    Replace {
        id: u32,
        orig: u32,
        side: Side,
        volume: Contracts,
        price: Steps,
        time: Timestamp,
    },
}

impl Message {
    ghost use Rattle.rules.specs.Messages.{time_of};

    // What 60 says.
    pub fn time(self) -> Timestamp
        ensures { result ≡ time_of (values_shown self) }
    {
        match self {
            Message::New { time, .. } => time,
            Message::Cancel { time, .. } => time,
            Message::Replace { time, .. } => time,
        }
    }
}

// The one value of a slot, if there is one.
fn value_of<'a>(b: &'a [u8], spans: &[usize; 16], slot: usize) -> Option<&'a [u8]>
    requires slot { slot < 6 }
    requires filled { Filled b.now spans.now }
    ensures { Says b.now spans.now (option_map (λ v. v.now) result) (λ fs. only (values_of (slot_tag slot) fs)) }
{
    let from = spans[slot];
    let to = spans[slot + 8];
    if from < 2 {
        return None;
    }
    Some(&b[from..to])
}

// The number of 32 bits that the one value of a slot says.
fn word(b: &[u8], spans: &[usize; 16], slot: usize) -> Option<u32>
    requires slot { slot < 6 }
    requires filled { Filled b.now spans.now }
    ensures { Says b.now spans.now result (λ fs. once word_in (values_of (slot_tag slot) fs)) }
{
    fix_digits::word_in(value_of(b, spans, slot)?)
}

fn price(b: &[u8], spans: &[usize; 16]) -> Option<Steps>
    requires { Filled b.now spans.now }
    ensures { Says b.now spans.now result (λ fs. option_map steps (once steps_in (values_of price_tag fs))) }
{
    fix_digits::steps_in(value_of(b, spans, 4)?)
}

fn time(b: &[u8], spans: &[usize; 16]) -> Option<Timestamp>
    requires { Filled b.now spans.now }
    ensures { Says b.now spans.now result (λ fs. once time_in (values_of time_tag fs)) }
{
    fix_dates::time_in(value_of(b, spans, 5)?)
}

// 1 for buy, 2 for sell, and nothing else.
fn side_in(v: &[u8]) -> Option<Side>
    ensures { result ≡ side_in v.now }
{
    if v.len() != 1 {
        return None;
    }
    match v[0] {
        b'1' => Some(Side::Buy),
        b'2' => Some(Side::Sell),
        _ => None,
    }
}

fn side(b: &[u8], spans: &[usize; 16]) -> Option<Side>
    requires { Filled b.now spans.now }
    ensures { Says b.now spans.now result (λ fs. once side_in (values_of side_tag fs)) }
{
    side_in(value_of(b, spans, 2)?)
}

// What 54, 38 and 44 say.
#[derive(Clone, Copy, PartialEq, Eq)]
pub struct Terms {
    pub side: Side,
    pub volume: Contracts,
    pub price: Steps,
}

fn read_terms(b: &[u8], spans: &[usize; 16]) -> Option<Terms>
    requires { Filled b.now spans.now }
    ensures { Says b.now spans.now result terms_in }
{
    let side = side(b, spans)?;
    let volume = word(b, spans, 3)?;
    let price = price(b, spans)?;
    Some(Terms {
        side,
        volume: Contracts(volume),
        price,
    })
}

fn read_new(b: &[u8], spans: &[usize; 16]) -> Option<Message>
    requires { Filled b.now spans.now }
    ensures { Says b.now spans.now (option_map values_shown result) (message_of new) }
{
    let id = word(b, spans, 0)?;
    let terms = read_terms(b, spans)?;
    let time = time(b, spans)?;
    Some(Message::New {
        id,
        side: terms.side,
        volume: terms.volume,
        price: terms.price,
        time,
    })
}

fn read_cancel(b: &[u8], spans: &[usize; 16]) -> Option<Message>
    requires { Filled b.now spans.now }
    ensures { Says b.now spans.now (option_map values_shown result) (message_of cancel) }
{
    let id = word(b, spans, 0)?;
    let orig = word(b, spans, 1)?;
    let time = time(b, spans)?;
    Some(Message::Cancel { id, orig, time })
}

fn read_replace(b: &[u8], spans: &[usize; 16]) -> Option<Message>
    requires { Filled b.now spans.now }
    ensures { Says b.now spans.now (option_map values_shown result) (message_of replace) }
{
    let id = word(b, spans, 0)?;
    let orig = word(b, spans, 1)?;
    let terms = read_terms(b, spans)?;
    let time = time(b, spans)?;
    Some(Message::Replace {
        id,
        orig,
        side: terms.side,
        volume: terms.volume,
        price: terms.price,
        time,
    })
}

// What the fields say that are kept in the spans, by the type.
fn read_kind(b: &[u8], spans: &[usize; 16], kind: u8) -> Option<Message>
    requires { Filled b.now spans.now }
    ensures { Says b.now spans.now (option_map values_shown result) (message_of (kind_byte kind)) }
{
    if kind == b'D' {
        return read_new(b, spans);
    }
    if kind == b'F' {
        return read_cancel(b, spans);
    }
    read_replace(b, spans)
}

// What the fields between 35 and 10 say.
fn read_body(b: &[u8], frame: Frame) -> Result<Message, Refusal>
    requires { EndsAt b.now frame.start frame.end × (body_in b.now ≡ body_with (kind_byte frame.kind) (closed (drop frame.start b.now))) }
    ensures { shown_message result ≡ read_message b.now }
{
    let mut spans = [0usize; 16];
    if !fix_fields::spans_of(b, frame.start, frame.end, &mut spans) {
        return Err(Refusal::FrameWrong);
    }
    read_kind(b, &spans, frame.kind).ok_or(Refusal::FieldWrong)
}

// The message that the bytes are. It is refused where the frame, length, checksum or type is wrong; or where a used tag is absent, there
// twice, unreadable or past 32 bits.
pub fn read(bytes: &[u8]) -> Result<Message, Refusal>
    ensures { shown_message result ≡ read_message bytes.now }
{
    let frame = fix_frame::frame_of(bytes).ok_or(Refusal::FrameWrong)?;
    read_body(bytes, frame)
}

// A message that was read, and its time from the quantum's start.
#[derive(Clone, Copy, PartialEq, Eq)]
pub struct Timed {
    pub message: Message,
    pub when: Moment,
}

// The message that the bytes are, with its time from the quantum's start.
pub fn read_from(start: &[u8], bytes: &[u8]) -> Result<Timed, Refusal>
    ensures { shown_timed result ≡ message_in start.now bytes.now }
{
    let message = read(bytes)?;
    let when = fix_dates::after(start, message.time())?;
    Ok(Timed { message, when })
}

// The time of a 60 from the quantum's start, both as bytes.
pub fn since(start: &[u8], sixty: &[u8]) -> Result<Moment, Refusal>
    ensures { shown_elapsed result ≡ sinceOf start.now sixty.now }
{
    fix_dates::since(start, sixty)
}
