// A maker's record in the standing, and the work of join, change and leave on records by value: the order of two records, one step of a
// look through the used ones, what a call is answered and where its record moves. The calls themselves are in `standing`.
#![tactic(auto)]

ghost use Rattle.std.specs.Prelude.{◌≡◌, IfSome, is_some, not, ◌&&◌, ◌||◌, ◌+◌, ◌≤◌, ◌<◌, ◌^◌, leb, ltb, if◌then◌else◌};
ghost use Rattle.standing_rules.specs.Order.{above};
ghost use Rattle.standing_rules.specs.Calls.{number_of};
ghost use Rattle.standing_rules.specs.Internal.{look_of, back_to, marked, is_behind, check_of, record_of, judged, planned, plan_by};

#[repr(C)]
#[derive(Clone, Copy)]
pub struct Maker {
    pub number: u32,
    pub rating: u32,
}

// A call: a maker joins or changes with a rating, or leaves.
#[derive(Clone, Copy)]
pub enum Call {
    Join(Maker),
    Change(Maker),
    Leave(u32),
}

impl Call {
    ghost use Rattle.standing_rules.specs.Calls.{call_of};

    // The call that three words say: the kind, 1 join, 2 change, any other leave; the maker's number; the rating, which a leave does not use.
    #[tactic(auto, unfolding(crate::specs::Calls::call_of))]
    pub fn from_words(kind: u32, number: u32, rating: u32) -> Call
        ensures { result ≡ call_of kind number rating }
    {
        match kind {
            1 => Call::Join(Maker { number, rating }),
            2 => Call::Change(Maker { number, rating }),
            _ => Call::Leave(number),
        }
    }
}

// Why a call is refused: a count above the records lent, used ones out of order or a maker twice; a join of a present maker, a change or leave
// of an absent one; a join with every record used.
#[derive(Clone, Copy, Debug, PartialEq, Eq)]
pub enum CallError {
    WrongRecords,
    WrongMaker,
    EveryRecordUsed,
}

// The refusal's number in document 02.
impl From<CallError> for u32 {
    ghost from_gives = { λ error n. n ≡ number_of error };

    fn from(error: CallError) -> u32 {
        match error {
            CallError::WrongRecords => 23,
            CallError::WrongMaker => 24,
            CallError::EveryRecordUsed => 25,
        }
    }
}

// What is found of a record among used ones: the place of its maker's, if there is one; how many records of other makers stand above it.
#[derive(Clone, Copy)]
pub struct Seen {
    pub place: Option<usize>,
    pub above: usize,
}

// What is found of the order of used records: whether each stands behind the one before it, no maker twice; the last of them, if there is one.
#[derive(Clone, Copy)]
pub struct Checked {
    pub good: bool,
    pub last: Option<Maker>,
}

// What an accepted call does: the record leaves the place `from`, and stands at `to`; the new count.
#[derive(Clone, Copy)]
pub struct Move {
    pub from: usize,
    pub to: usize,
    pub count: usize,
}

// The greater rating stands above, with equal ratings the lower number.
fn is_above(a: Maker, b: Maker) -> bool
    ensures { result ≡ above a b }
{
    if a.rating == b.rating {
        return a.number < b.number;
    }
    b.rating < a.rating
}

// One record more of those among which `m` is looked for.
pub fn look_at(s: Seen, i: usize, r: Maker, m: Maker) -> Seen
    requires { (s.above ≤ i) × (i < 2 ^ 63) }
    ensures { result ≡ look_of s i r m }
{
    if r.number == m.number {
        return Seen {
            place: Some(i),
            above: s.above,
        };
    }
    if is_above(r, m) {
        return Seen {
            place: s.place,
            above: s.above + 1,
        };
    }
    s
}

// How many of the records before are to be looked through for another one of the maker: none where no record before has left this mark,
// and all j where one has. A record's mark is its number modulo 65,536, so that numbers below that never meet. The record leaves its own.
pub fn look_back(marks: &mut [bool; 65536], j: usize, number: u32) -> usize
    ensures { (result ≡ back_to marks.old 65536 j number) × (marks.new ≡ marked marks.old 65536 number) }
{
    let slot = (number % 65536) as usize;
    let met = marks[slot];
    marks[slot] = true;
    if met {
        return j;
    }
    0
}

// Order is seen from neighbours: the record r stands behind the last before it. `twice`: its maker has a record before.
#[tactic(auto, unfolding(crate::specs::Internal::check_of))]
pub fn check(s: Checked, r: Maker, twice: bool) -> Checked
    ensures { result ≡ check_of s r twice }
{
    let behind = is_behind(s.last, r);
    Checked {
        good: s.good && (behind && !twice),
        last: Some(r),
    }
}

fn is_behind(last: Option<Maker>, r: Maker) -> bool
    ensures { result ≡ is_behind last r }
{
    match last {
        Some(before) => is_above(before, r),
        None => true,
    }
}

// The record that a call puts in its place: a leave's, past the count, has no rating.
#[tactic(auto, unfolding(crate::specs::Internal::record_of))]
pub fn record_of(call: Call) -> Maker
    ensures { result ≡ record_of call }
{
    match call {
        Call::Join(m) | Call::Change(m) => m,
        Call::Leave(number) => Maker { number, rating: 0 },
    }
}

// Whether 23 refuses: by the count, and by whether the used records are in order, no maker twice.
pub fn is_wrong(size: usize, count: usize, good: bool) -> bool
    ensures { result ≡ (ltb size count || not good) }
{
    size < count || !good
}

// What a call does, with `size` records lent, by whether its records are wrong and by what is found of its maker among the used ones.
#[tactic(auto, unfolding(crate::specs::Internal::judged, crate::specs::Internal::planned, crate::specs::Internal::accepted))]
pub fn decide(call: Call, size: usize, count: usize, bad: bool, s: Seen) -> Result<Move, CallError>
    requires { IfSome s.place (λ at. 0 < count) }
    ensures { plan_by count result ≡ planned call (judged call bad (is_some s.place) (leb size count)) count s }
{
    if bad {
        return Err(CallError::WrongRecords);
    }
    match call {
        Call::Join(_) => {
            if s.place.is_some() {
                return Err(CallError::WrongMaker);
            }
            if size <= count {
                return Err(CallError::EveryRecordUsed);
            }
            Ok(Move {
                from: count,
                to: s.above, // behind those above it
                count: count + 1,
            })
        }
        Call::Change(_) => Ok(Move {
            from: s.place.ok_or(CallError::WrongMaker)?,
            to: s.above, // among the other makers
            count,
        }),
        Call::Leave(_) => Ok(Move {
            from: s.place.ok_or(CallError::WrongMaker)?,
            to: count - 1,
            count: count - 1,
        }),
    }
}
