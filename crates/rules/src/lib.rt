// The types that the meter's crates pass to each other, and the refusal's number. In specs/ documents 01 and 02 are definitions.
#![tactic(auto)]

ghost use Rattle.std.specs.Prelude.{◌≡◌, ◌≤◌};
ghost use Rattle.rules.specs.Answers.{number_of};

// Units: milliseconds, price steps, contracts and kopecks.
#[derive(Clone, Copy, PartialEq, Eq, PartialOrd, Ord)]
pub struct Millis(pub u32);

#[derive(Clone, Copy, PartialEq, Eq, PartialOrd, Ord)]
pub struct Steps(pub i32);

#[derive(Clone, Copy, PartialEq, Eq, PartialOrd, Ord)]
pub struct Contracts(pub u32);

#[derive(Clone, Copy, PartialEq, Eq, PartialOrd, Ord)]
pub struct Kopecks(pub u64);

#[derive(Clone, Copy, PartialEq, Eq)]
pub enum Side {
    Buy,
    Sell,
}

// A live order.
#[derive(Clone, Copy, PartialEq, Eq)]
pub struct Order {
    pub id: u32,
    pub side: Side,
    pub price: Steps,
    pub volume: Contracts,
}

// A row of the programme's table: length is L, minimum M, share p; b counts price steps and is never negative.
#[derive(Clone, Copy, PartialEq, Eq)]
pub struct Row {
    pub expiry: u32,
    pub quantum: u32,
    pub length: Millis,
    pub minimum: Contracts,
    pub a: u32,
    pub b: u32,
    pub share: u32,
}

// What a strike's open takes in place of SP: a in tenths, the premium difference in price steps, the days, b in price steps.
#[derive(Clone, Copy, PartialEq, Eq)]
pub struct Strike {
    pub a: u32,
    pub difference: u32,
    pub days: u32,
    pub b: u32,
}

// What a quantum's spread limit depends on: SP, beside the row's a and b, or a strike's four numbers.
#[derive(Clone, Copy, PartialEq, Eq)]
pub enum SpreadRule {
    Settled(Steps),
    OfStrike(Strike),
}

// What open is given besides the row and the day: what the spread limit depends on, and the lapse limit.
#[derive(Clone, Copy, PartialEq, Eq)]
pub struct Opening {
    pub spread: SpreadRule,
    pub allowed: u32,
}

// A cell of the month: kept is K, length L, share p, allowed the lapse limit, lapses their count, active A, passive P.
#[derive(Clone, Copy, PartialEq, Eq)]
pub struct Cell {
    pub filled: bool,
    pub kept: Millis,
    pub length: Millis,
    pub share: u32,
    pub allowed: u32,
    pub lapses: u32,
    pub active: Kopecks,
    pub passive: Kopecks,
}

#[derive(Clone, Copy, PartialEq, Eq)]
pub enum Event {
    Add {
        t: Millis,
        id: u32,
        side: Side,
        price: Steps,
        volume: Contracts,
    },
    Amend {
        t: Millis,
        id: u32,
        price: Steps,
        volume: Contracts,
    },
    Cancel {
        t: Millis,
        id: u32,
    },
    Deal {
        t: Millis,
        id: u32,
        volume: Contracts,
    },
    Tick {
        t: Millis,
    },
}

// What an amend, an ask and a commit name.
#[derive(Clone, Copy, PartialEq, Eq)]
pub struct Amendment {
    pub t: Millis,
    pub id: u32,
    pub price: Steps,
    pub volume: Contracts,
}

// What an ask gives and a commit takes: the amendment and the month's count of accepted calls.
#[derive(Clone, Copy, PartialEq, Eq)]
pub struct Ticket {
    pub amendment: Amendment,
    pub count: u64,
}

// Why a call is refused, in the order of the numbers 1 to 21.
#[derive(Clone, Copy, PartialEq, Eq)]
pub enum Refusal {
    RowNotSevenWords,
    RowWordOutOfRange,
    ArgumentOutOfRange,
    CellFilled,
    CellBlank,
    QuantumOpen,
    NoQuantumOpen,
    TimeBackwards,
    TimePastEnd,
    IdLive,
    IdNotLive,
    PriceOrVolumeOutOfRange,
    TooManyOrders,
    DealAboveLeft,
    BadRecord,
    BufferShort,
    LapseLimitOutOfRange,
    StrikesOutOfRange,
    WrongTicket,
    FrameWrong,
    FieldWrong,
}

// A filled cell with its verdict and weight.
#[derive(Clone, Copy, PartialEq, Eq)]
pub struct CellView {
    pub cell: Cell,
    pub met: bool,
    pub weight: u32,
}

// Both best quotes after the amendment that was asked about, and its ticket.
#[derive(Clone, Copy, PartialEq, Eq)]
pub struct Preview {
    pub bid: Option<Steps>,
    pub ask: Option<Steps>,
    pub ticket: Ticket,
}

// The answer of report: it is never refused. The six failure counts are those of expiry 1, quantum 0, 1, 2, then expiry 2.
#[derive(Clone, Copy, PartialEq, Eq)]
pub struct Report {
    pub running: bool,
    pub time: Millis,
    pub orders: u32,
    pub bid: Option<Steps>,
    pub ask: Option<Steps>,
    pub kept: Millis,
    pub lapses: u32,
    pub failures: [u32; 6],
    pub fee: Kopecks,
}

// How many lapses more the lapse limit allows: any number, none even of those that were, or so many.
#[derive(Clone, Copy, PartialEq, Eq)]
pub enum LapsesLeft {
    Unlimited,
    Over,
    Left(u32),
}

// The outlook on an open quantum: how many milliseconds must still be kept, and how many are left; the latest time until which nothing
// need be kept; how many must still be kept for the full weight; the lapses left; whether the cell is met if nothing more is kept, and
// whether it is failed whatever comes; the weights if nothing more is kept, and if all that is left is.
#[derive(Clone, Copy, PartialEq, Eq)]
pub struct Outlook {
    pub need: Millis,
    pub left: Millis,
    pub by: Option<Millis>,
    pub full: Option<Millis>,
    pub lapses: LapsesLeft,
    pub rest: bool,
    pub lost: bool,
    pub resting: u32,
    pub keeping: u32,
}

// What a session run leaves: K, w and the number of pairs.
#[derive(Clone, Copy, PartialEq, Eq)]
pub struct Finished {
    pub kept: Millis,
    pub weight: u32,
    pub pairs: u32,
}

// Where a run stopped: the refusal, and its place.
#[derive(Clone, Copy, PartialEq, Eq)]
pub struct Stopped {
    pub refusal: Refusal,
    pub place: u32,
}

// A time to the millisecond, as FIX writes it.
#[derive(Clone, Copy, PartialEq, Eq)]
pub struct Timestamp {
    pub year: u32,
    pub month: u32,
    pub day: u32,
    pub hour: u32,
    pub minute: u32,
    pub second: u32,
    pub millis: u32,
}

// The refusal's number in documents 01 and 02.
impl From<Refusal> for u32 {
    ghost from_gives = { λ refusal n. n ≡ number_of refusal };

    fn from(refusal: Refusal) -> u32 {
        match refusal {
            Refusal::RowNotSevenWords => 1,
            Refusal::RowWordOutOfRange => 2,
            Refusal::ArgumentOutOfRange => 3,
            Refusal::CellFilled => 4,
            Refusal::CellBlank => 5,
            Refusal::QuantumOpen => 6,
            Refusal::NoQuantumOpen => 7,
            Refusal::TimeBackwards => 8,
            Refusal::TimePastEnd => 9,
            Refusal::IdLive => 10,
            Refusal::IdNotLive => 11,
            Refusal::PriceOrVolumeOutOfRange => 12,
            Refusal::TooManyOrders => 13,
            Refusal::DealAboveLeft => 14,
            Refusal::BadRecord => 15,
            Refusal::BufferShort => 16,
            Refusal::LapseLimitOutOfRange => 17,
            Refusal::StrikesOutOfRange => 18,
            Refusal::WrongTicket => 19,
            Refusal::FrameWrong => 20,
            Refusal::FieldWrong => 21,
        }
    }
}

// The refusal of a number that an event of a record can have.
pub fn refusal_of(n: u32) -> Refusal
    requires { (8 ≤ n) × (n ≤ 15) }
    ensures { number_of result ≡ n }
{
    match n {
        8 => Refusal::TimeBackwards,
        9 => Refusal::TimePastEnd,
        10 => Refusal::IdLive,
        11 => Refusal::IdNotLive,
        12 => Refusal::PriceOrVolumeOutOfRange,
        13 => Refusal::TooManyOrders,
        14 => Refusal::DealAboveLeft,
        _ => Refusal::BadRecord,
    }
}
