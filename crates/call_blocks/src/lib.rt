// The format of a list of calls: 32-bit words in a string of bytes, one block a call (docs/FORMATS.md). How many words a block has, which
// call it says, and how many calls and words are read from a list. The words are those of `words_in`: all that is read of the bytes goes
// through `word`, `part` and `count`.
//
// One more kind of block is a variant of `Kind` with its word, one arm of `due_words` and one of `decode`, with a variant of `Decoded` if it
// says a call that has none; in specs/ a clause of `word_of`, of `due` and of `call_by`, `call_with`, `words_of` and `CallFits`; in `call_step`
// an arm of `call`.
#![tactic(auto)]

ghost use Rattle.std.specs.Prelude.{◌≡◌, ◌+◌, ◌*◌, ◌/◌, ◌≤◌, ◌<◌, length, get_or, take, drop};
ghost use Rattle.rules.specs.Units.{millis, contracts};
ghost use Rattle.words.specs.Bytes.{words_in, bytes_of};
ghost use Rattle.call_blocks.specs.Kinds.{add_due, due_at, row_at, start_at, message_at, steps_at, opening_at, strike_at, strike_opening_at, wide_at, charge_at, amendment_at, ticket_at, call_by, call_of};
ghost use Rattle.words.specs.Sides.{side_by};
ghost use Rattle.call_blocks.specs.Named.{word_of, SaysKind};
ghost use Rattle.call_blocks.specs.Pieces.{telling, is_told};
ghost use Rattle.call_blocks.specs.Measures.{SaysSize, Measures};
ghost use Rattle.call_blocks.specs.Decoded.{call_with};
ghost use Rattle.call_blocks.specs.Internal.{Place};

use rules::{
    Amendment, Contracts, Event, Kopecks, Millis, Opening, Side, SpreadRule, Steps, Strike, Ticket,
};

// A list's number of calls, and of words that they take.
#[derive(Clone, Copy)]
pub struct Measured {
    pub calls: usize,
    pub words: usize,
}

// What kind of call a block says, by its first word.
#[derive(Clone, Copy, PartialEq, Eq, Debug)]
pub enum Kind {
    Open,
    Add,
    Amend,
    Cancel,
    Deal,
    Tick,
    Close,
    Drop,
    Charge,
    Withdraw,
    Look,
    Report,
    OpenStrike,
    Ask,
    Commit,
    Message,
    Outlook,
}

// A word that says no kind.
#[derive(Clone, Copy, PartialEq, Eq, Debug)]
pub struct NoKind(pub u32);

impl TryFrom<u32> for Kind {
    type Error = NoKind;

    ghost try_from_gives = { SaysKind };

    fn try_from(word: u32) -> Result<Self, NoKind> {
        match word {
            1 => Ok(Kind::Open),
            2 => Ok(Kind::Add),
            3 => Ok(Kind::Amend),
            4 => Ok(Kind::Cancel),
            5 => Ok(Kind::Deal),
            6 => Ok(Kind::Tick),
            7 => Ok(Kind::Close),
            8 => Ok(Kind::Drop),
            9 => Ok(Kind::Charge),
            10 => Ok(Kind::Withdraw),
            11 => Ok(Kind::Look),
            12 => Ok(Kind::Report),
            13 => Ok(Kind::OpenStrike),
            14 => Ok(Kind::Ask),
            15 => Ok(Kind::Commit),
            16 => Ok(Kind::Message),
            17 => Ok(Kind::Outlook),
            _ => Err(NoKind(word)),
        }
    }
}

// The call that a block says, by its arguments. An open's row and a message's bytes are not among them: they are read where they are needed,
// as `row`, `start` and `message` of the block's bytes.
#[derive(Clone, Copy)]
pub enum Decoded {
    Open {
        day: u32,
        opening: Opening,
    },
    Send(Event),
    Message,
    Ask(Amendment),
    Commit(Amendment, Ticket),
    Close(Kopecks, Kopecks),
    Drop,
    Charge {
        day: u32,
        expiry: u32,
        quantum: u32,
        active: Kopecks,
        passive: Kopecks,
    },
    Withdraw {
        day: u32,
        expiry: u32,
        quantum: u32,
    },
    Look {
        day: u32,
        expiry: u32,
        quantum: u32,
    },
    Report,
    Outlook,
}

// The number of words.
pub fn count(bytes: &[u8]) -> usize
    ensures { (result ≡ length (words_in bytes.now)) × (4 * result ≤ length bytes.now) }
{
    bytes.len() / 4
}

// The word at a place, 0 past the end.
fn word(bytes: &[u8], i: usize) -> u32
    ensures { result ≡ get_or (words_in bytes.now) i 0 }
{
    if i < count(bytes) {
        return words::word_at(bytes, 4 * i);
    }
    0
}

// ---- how many words a block has

// An add has six words, with another side than 1 and 2 none.
fn add_due(side: u32) -> usize
    ensures { result ≡ add_due side }
{
    match side {
        1 => 6,
        2 => 6,
        _ => 0,
    }
}

// A message has three words and those of its bytes, filled up to whole words.
fn message_due(s: u32, m: u32) -> usize
    ensures { result ≡ 3 + (s + m + 3) / 4 }
{
    3 + (s as usize + m as usize + 3) / 4
}

// The kind of the block at the front.
fn first_kind(bytes: &[u8]) -> Result<Kind, NoKind>
    ensures { SaysKind (get_or (words_in bytes.now) 0 0) result }
{
    Kind::try_from(word(bytes, 0))
}

// How many words the block at the front is due.
pub fn due_words(bytes: &[u8]) -> usize
    ensures { result ≡ due_at (words_in bytes.now) }
{
    let Ok(kind) = first_kind(bytes) else {
        return 0;
    };
    match kind {
        // as many row words as the second word says
        Kind::Open => 5 + word(bytes, 1) as usize,
        Kind::OpenStrike => 8 + word(bytes, 1) as usize,
        Kind::Add => add_due(word(bytes, 3)),
        Kind::Amend => 5,
        Kind::Cancel => 3,
        Kind::Deal => 4,
        Kind::Tick => 2,
        Kind::Close => 5,
        Kind::Drop => 1,
        Kind::Charge => 8,
        Kind::Withdraw => 4,
        Kind::Look => 4,
        Kind::Report => 1,
        Kind::Ask => 5,
        Kind::Commit => 11,
        Kind::Message => message_due(word(bytes, 1), word(bytes, 2)),
        Kind::Outlook => 1,
    }
}

// How many words tell the length of the block at the front: an open's second, an add's side, a message's two lengths.
fn telling_words(bytes: &[u8]) -> usize
    ensures { result ≡ telling (get_or (words_in bytes.now) 0 0) }
{
    let Ok(kind) = first_kind(bytes) else {
        return 1;
    };
    match kind {
        Kind::Open => 2,
        Kind::Add => 4,
        Kind::OpenStrike => 2,
        Kind::Message => 3,
        _ => 1,
    }
}

// Whether the words that are there tell how many the block at the front is due, whatever comes behind them.
pub fn told(bytes: &[u8]) -> bool
    ensures { result ≡ is_told (words_in bytes.now) }
{
    telling_words(bytes) <= count(bytes)
}

// The number of words of the call at the front, where there is one.
pub fn size(bytes: &[u8]) -> Option<usize>
    ensures { SaysSize (words_in bytes.now) result }
{
    let n = due_words(bytes);
    if n == 0 || count(bytes) < n {
        return None;
    }
    Some(n)
}

// The same, of the words from a place on.
fn size_at(bytes: &[u8], at: usize) -> Option<usize>
    requires { 4 * at ≤ length bytes.now }
    ensures { SaysSize (drop at (words_in bytes.now)) result }
{
    let from = 4 * at;
    let rest = &bytes[from..];
    size(rest)
}

// How many calls and words are read from a list.
pub fn measure(bytes: &[u8]) -> Measured
    ensures { Measures (words_in bytes.now) result }
{
    let mut calls: usize = 0;
    let mut at: usize = 0;
    while let Some(size) = size_at(bytes, at) {
        calls += 1;
        at += size;
    }
    Measured { calls, words: at }
}

// ---- a block's arguments

fn millis_at(bytes: &[u8], i: usize) -> Millis
    ensures { result ≡ millis (get_or (words_in bytes.now) i 0) }
{
    Millis(word(bytes, i))
}

fn contracts_at(bytes: &[u8], i: usize) -> Contracts
    ensures { result ≡ contracts (get_or (words_in bytes.now) i 0) }
{
    Contracts(word(bytes, i))
}

fn steps_at(bytes: &[u8], i: usize) -> Steps
    ensures { result ≡ steps_at (words_in bytes.now) i }
{
    words::to_steps(word(bytes, i))
}

// Where an open's row ends: the words behind the first two, as many as the second says.
fn row_end(bytes: &[u8]) -> usize
    ensures { (result ≡ 2 + get_or (words_in bytes.now) 1 0) × (result < 4294967298) }
{
    2 + word(bytes, 1) as usize
}

// How many words an open's row has.
pub fn row_length(bytes: &[u8]) -> usize
    ensures { result ≡ length (row_at (words_in bytes.now)) }
{
    let end = row_end(bytes).min(count(bytes));
    let start = end.min(2);
    end - start
}

// An open's row, where it has seven words.
pub fn row(bytes: &[u8]) -> [u32; 7]
    ensures { length (row_at (words_in bytes.now)) ≡ 7 → result ≡ row_at (words_in bytes.now) }
{
    [
        word(bytes, 2),
        word(bytes, 3),
        word(bytes, 4),
        word(bytes, 5),
        word(bytes, 6),
        word(bytes, 7),
        word(bytes, 8),
    ]
}

// So many bytes from a place on, of those behind a block's first three words, as far as there are whole words.
fn part(bytes: &[u8], at: usize, n: usize) -> &[u8]
    requires { (at < 4294967296) × (n < 4294967296) }
    ensures { result.now ≡ take n (drop at (bytes_of (drop 3 (words_in bytes.now)))) }
{
    let end = (12 + at + n).min(4 * count(bytes));
    let start = (12 + at).min(end);
    &bytes[start..end]
}

// The quantum's start that is given with a message.
pub fn start(bytes: &[u8]) -> &[u8]
    ensures { result.now ≡ start_at (words_in bytes.now) }
{
    part(bytes, 0, word(bytes, 1) as usize)
}

// The message.
pub fn message(bytes: &[u8]) -> &[u8]
    ensures { result.now ≡ message_at (words_in bytes.now) }
{
    let at = word(bytes, 1) as usize;
    let n = word(bytes, 2) as usize;
    part(bytes, at, n)
}

// SP and the lapse limit, which stand one behind the other.
fn opening_at(bytes: &[u8], i: usize) -> Opening
    requires { Place i }
    ensures { result ≡ opening_at (words_in bytes.now) i }
{
    let sp = steps_at(bytes, i);
    let allowed = word(bytes, i + 1);
    let spread = SpreadRule::Settled(sp);
    Opening { spread, allowed }
}

// A strike's four numbers.
fn strike_at(bytes: &[u8], i: usize) -> Strike
    requires { Place i }
    ensures { result ≡ strike_at (words_in bytes.now) i }
{
    let a = word(bytes, i);
    let difference = word(bytes, i + 1);
    let days = word(bytes, i + 2);
    let b = word(bytes, i + 3);
    Strike {
        a,
        difference,
        days,
        b,
    }
}

// A strike's four numbers and the lapse limit.
fn strike_opening_at(bytes: &[u8], i: usize) -> Opening
    requires { Place i }
    ensures { result ≡ strike_opening_at (words_in bytes.now) i }
{
    let strike = strike_at(bytes, i);
    let allowed = word(bytes, i + 4);
    let spread = SpreadRule::OfStrike(strike);
    Opening { spread, allowed }
}

// A number of 64 bits from its two words, the low one first.
fn wide_at(bytes: &[u8], i: usize) -> u64
    requires { Place i }
    ensures { result ≡ wide_at (words_in bytes.now) i }
{
    let low = u64::from(word(bytes, i));
    let high = u64::from(word(bytes, i + 1));
    low + 4294967296 * high
}

fn charge_at(bytes: &[u8], i: usize) -> Kopecks
    requires { Place i }
    ensures { result ≡ charge_at (words_in bytes.now) i }
{
    Kopecks(wide_at(bytes, i))
}

fn amendment_at(bytes: &[u8], i: usize) -> Amendment
    requires { Place i }
    ensures { result ≡ amendment_at (words_in bytes.now) i }
{
    let t = millis_at(bytes, i);
    let id = word(bytes, i + 1);
    let price = steps_at(bytes, i + 2);
    let volume = contracts_at(bytes, i + 3);
    Amendment {
        t,
        id,
        price,
        volume,
    }
}

fn ticket_at(bytes: &[u8], i: usize) -> Ticket
    requires { i < 8 }
    ensures { result ≡ ticket_at (words_in bytes.now) i }
{
    let amendment = amendment_at(bytes, i);
    let count = wide_at(bytes, i + 4);
    Ticket { amendment, count }
}

fn side_at(bytes: &[u8], i: usize) -> Side
    ensures { result ≡ side_by (get_or (words_in bytes.now) i 0) }
{
    words::to_side(word(bytes, i))
}

// ---- the call that a block says, by its kind

// Kinds 1 and 13: the day stands behind the row.
fn open(bytes: &[u8], opening: Opening) -> Decoded
    ensures { result ≡ Decoded.Open (get_or (words_in bytes.now) (2 + get_or (words_in bytes.now) 1 0) 0) opening }
{
    let day = word(bytes, row_end(bytes));
    Decoded::Open { day, opening }
}

fn add(bytes: &[u8]) -> Decoded
    ensures { call_with (words_in bytes.now) result ≡ call_by 2 (words_in bytes.now) }
{
    let t = millis_at(bytes, 1);
    let id = word(bytes, 2);
    let side = side_at(bytes, 3);
    let price = steps_at(bytes, 4);
    let volume = contracts_at(bytes, 5);
    Decoded::Send(Event::Add {
        t,
        id,
        side,
        price,
        volume,
    })
}

fn amend(bytes: &[u8]) -> Decoded
    ensures { call_with (words_in bytes.now) result ≡ call_by 3 (words_in bytes.now) }
{
    let t = millis_at(bytes, 1);
    let id = word(bytes, 2);
    let price = steps_at(bytes, 3);
    let volume = contracts_at(bytes, 4);
    Decoded::Send(Event::Amend {
        t,
        id,
        price,
        volume,
    })
}

fn cancel(bytes: &[u8]) -> Decoded
    ensures { call_with (words_in bytes.now) result ≡ call_by 4 (words_in bytes.now) }
{
    let t = millis_at(bytes, 1);
    let id = word(bytes, 2);
    Decoded::Send(Event::Cancel { t, id })
}

fn deal(bytes: &[u8]) -> Decoded
    ensures { call_with (words_in bytes.now) result ≡ call_by 5 (words_in bytes.now) }
{
    let t = millis_at(bytes, 1);
    let id = word(bytes, 2);
    let volume = contracts_at(bytes, 3);
    Decoded::Send(Event::Deal { t, id, volume })
}

fn tick(bytes: &[u8]) -> Decoded
    ensures { call_with (words_in bytes.now) result ≡ call_by 6 (words_in bytes.now) }
{
    let t = millis_at(bytes, 1);
    Decoded::Send(Event::Tick { t })
}

fn close(bytes: &[u8]) -> Decoded
    ensures { call_with (words_in bytes.now) result ≡ call_by 7 (words_in bytes.now) }
{
    Decoded::Close(charge_at(bytes, 1), charge_at(bytes, 3))
}

fn charge(bytes: &[u8]) -> Decoded
    ensures { call_with (words_in bytes.now) result ≡ call_by 9 (words_in bytes.now) }
{
    Decoded::Charge {
        day: word(bytes, 1),
        expiry: word(bytes, 2),
        quantum: word(bytes, 3),
        active: charge_at(bytes, 4),
        passive: charge_at(bytes, 6),
    }
}

fn withdraw(bytes: &[u8]) -> Decoded
    ensures { call_with (words_in bytes.now) result ≡ call_by 10 (words_in bytes.now) }
{
    Decoded::Withdraw {
        day: word(bytes, 1),
        expiry: word(bytes, 2),
        quantum: word(bytes, 3),
    }
}

fn look(bytes: &[u8]) -> Decoded
    ensures { call_with (words_in bytes.now) result ≡ call_by 11 (words_in bytes.now) }
{
    Decoded::Look {
        day: word(bytes, 1),
        expiry: word(bytes, 2),
        quantum: word(bytes, 3),
    }
}

fn ask(bytes: &[u8]) -> Decoded
    ensures { call_with (words_in bytes.now) result ≡ call_by 14 (words_in bytes.now) }
{
    Decoded::Ask(amendment_at(bytes, 1))
}

fn commit(bytes: &[u8]) -> Decoded
    ensures { call_with (words_in bytes.now) result ≡ call_by 15 (words_in bytes.now) }
{
    Decoded::Commit(amendment_at(bytes, 1), ticket_at(bytes, 5))
}

// The call that the block at the front says, where there is one.
pub fn decode(bytes: &[u8]) -> Decoded
    ensures { call_with (words_in bytes.now) result ≡ call_of (words_in bytes.now) }
{
    let Ok(kind) = first_kind(bytes) else {
        return Decoded::Report;
    };
    let behind = row_end(bytes) + 1;
    match kind {
        Kind::Open => open(bytes, opening_at(bytes, behind)),
        Kind::Add => add(bytes),
        Kind::Amend => amend(bytes),
        Kind::Cancel => cancel(bytes),
        Kind::Deal => deal(bytes),
        Kind::Tick => tick(bytes),
        Kind::Close => close(bytes),
        Kind::Drop => Decoded::Drop,
        Kind::Charge => charge(bytes),
        Kind::Withdraw => withdraw(bytes),
        Kind::Look => look(bytes),
        Kind::Report => Decoded::Report,
        Kind::OpenStrike => open(bytes, strike_opening_at(bytes, behind)),
        Kind::Ask => ask(bytes),
        Kind::Commit => commit(bytes),
        Kind::Message => Decoded::Message,
        Kind::Outlook => Decoded::Outlook,
    }
}
