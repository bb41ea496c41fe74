// Event records of 20 bytes: their fields, the event that these say, the record of an event, and a record's place among others.
#![tactic(auto)]

ghost use Rattle.std.specs.Prelude.{◌≡◌, ◌+◌, ◌/◌, ◌≤◌, length};
ghost use Rattle.rules.specs.Answers.{shown_record};
ghost use Rattle.rules.specs.Records.{field_bytes, record_of, read_record};
ghost use Rattle.record.specs.Fields.{fields_in, fields_for, good_fields, event_by, read_fields};
ghost use Rattle.record.specs.Internal.{low_kind};

use rules::{Contracts, Event, Millis, Refusal, Side, Steps};

// The fields of a record. The kind is its whole first word, so it is 1 to 6 only where the three bytes after the kind's own are zero.
// It stays a number: the session's loop hands these fields on. With an `Option<Kind>` a record of a quiet session takes 147.3 instructions and
// of a busy one 258.6, with an enum that has a variant for no kind 132.6 and 244.8, and with the number 130.1 and 241.4 (callgrind).
#[derive(Clone, Copy)]
pub struct Fields {
    pub kind: u32,
    pub t: Millis,
    pub id: u32,
    pub price: Steps,
    pub volume: Contracts,
}

// ---- reading

// The fields in the first 20 bytes.
pub fn fields_of(bytes: &[u8]) -> Fields
    requires { 20 ≤ length bytes.now }
    ensures fields { result ≡ fields_in bytes.now }
    ensures read { read_fields result ≡ read_record bytes.now }
{
    Fields {
        kind: words::word_at(bytes, 0),
        t: Millis(words::word_at(bytes, 4)),
        id: words::word_at(bytes, 8),
        price: words::to_steps(words::word_at(bytes, 12)),
        volume: Contracts(words::word_at(bytes, 16)),
    }
}

// A known kind, and the fields that the call of that kind doesn't take are zero.
#[tactic(auto, unfolding(crate::specs::Fields::good_fields, rules::specs::Records::unused_zero))]
pub fn is_good(f: Fields) -> bool
    ensures { result ≡ good_fields f }
{
    let no_price = words::from_steps(f.price) == 0;
    let no_volume = f.volume.0 == 0;
    match f.kind {
        4 => no_price & no_volume,
        5 => no_price,
        6 => (f.id == 0) & no_price & no_volume,
        kind => (1 <= kind) & (kind <= 6),
    }
}

// The event that good fields say.
#[tactic(auto, unfolding(crate::specs::Fields::event_by))]
fn event_of(f: Fields) -> Event
    ensures { result ≡ event_by f }
{
    let Fields {
        kind,
        t,
        id,
        price,
        volume,
    } = f;
    match kind {
        1 => Event::Add {
            t,
            id,
            side: Side::Buy,
            price,
            volume,
        },
        2 => Event::Add {
            t,
            id,
            side: Side::Sell,
            price,
            volume,
        },
        3 => Event::Amend {
            t,
            id,
            price,
            volume,
        },
        4 => Event::Cancel { t, id },
        5 => Event::Deal { t, id, volume },
        _ => Event::Tick { t },
    }
}

// The event that the first 20 bytes say, or the refusal.
pub fn read(bytes: &[u8]) -> Result<Event, Refusal>
    ensures { shown_record result ≡ read_record bytes.now }
{
    if bytes.len() < 20 {
        return Err(Refusal::BadRecord);
    }
    let f = fields_of(bytes);
    if is_good(f) {
        return Ok(event_of(f));
    }
    Err(Refusal::BadRecord)
}

// ---- writing

// The fields of an event.
pub fn event_fields(event: Event) -> Fields
    ensures { result ≡ fields_for event }
{
    match event {
        Event::Add {
            t,
            id,
            side,
            price,
            volume,
        } => Fields {
            kind: words::from_side(side),
            t,
            id,
            price,
            volume,
        },
        Event::Amend {
            t,
            id,
            price,
            volume,
        } => Fields {
            kind: 3,
            t,
            id,
            price,
            volume,
        },
        Event::Cancel { t, id } => Fields {
            kind: 4,
            t,
            id,
            price: Steps(0),
            volume: Contracts(0),
        },
        Event::Deal { t, id, volume } => Fields {
            kind: 5,
            t,
            id,
            price: Steps(0),
            volume,
        },
        Event::Tick { t } => Fields {
            kind: 6,
            t,
            id: 0,
            price: Steps(0),
            volume: Contracts(0),
        },
    }
}

// The 20 bytes of some fields, their kind in the first alone.
#[tactic(auto, unfolding(rules::specs::Records::field_bytes, rules::specs::Records::word_bytes))]
fn field_bytes(f: Fields) -> [u8; 20]
    ensures { result ≡ field_bytes (low_kind f) }
{
    let [kind, _, _, _] = f.kind.to_le_bytes();
    let [t0, t1, t2, t3] = f.t.0.to_le_bytes();
    let [id0, id1, id2, id3] = f.id.to_le_bytes();
    let [p0, p1, p2, p3] = words::from_steps(f.price).to_le_bytes();
    let [v0, v1, v2, v3] = f.volume.0.to_le_bytes();
    [
        kind, 0, 0, 0, t0, t1, t2, t3, id0, id1, id2, id3, p0, p1, p2, p3, v0, v1, v2, v3,
    ]
}

// The record of an event.
pub fn write(event: Event) -> [u8; 20]
    ensures { result ≡ record_of event }
{
    field_bytes(event_fields(event))
}

// The place of the record that starts at a byte, counted from 1.
pub fn place_of(at: usize) -> u32
    requires { at ≤ 80000000 }
    ensures { result ≡ at / 20 + 1 }
{
    (at / 20 + 1) as u32
}
