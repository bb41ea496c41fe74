// The standing of makers in a lent list of records with a count of those used: join, change and leave. The work on records by value is in
// `standing_rules`.
//
// One function works all three calls (`apply`), and join, change and leave are thin over it. It judges the records (`judge`), looks through the used
// ones, decides, and moves one record (`shift`, in either direction): a join moves from the first free place to its own, a change from the
// old place to the new one, a leave from its place to the last used one. Nothing is sorted again. "a maker twice" cannot be seen from
// neighbours: a local array of 65,536 marks over the maker number modulo its length says whether a number like this one was met before. It
// goes on to the end where a fault is found, so a refused call costs what an accepted one does.
#![tactic(auto)]

ghost use Rattle.std.specs.Prelude.{◌≡◌, ◌+◌, ◌*◌, ◌≤◌, ◌<◌, length};
ghost use Rattle.standing_rules.specs.declared.Call.TheVariants.{Join, Change, Leave};
ghost use Rattle.standing_rules.specs.Calls.{standing, wrong, step, answer_by, answer_of};
ghost use Rattle.standing_rules.specs.Internal.{seen_in, shifted};
ghost use Rattle.standing.specs.Words.{is_call, readable};
ghost use Rattle.standing.specs.Claim.{ListAnswers};
ghost use Rattle.standing.specs.Internal.{measured, call_at, ready_of};

use standing_rules::{Call, CallError, Checked, Maker, Seen};

// What a list of calls hands back: the count, and whether it ran.
#[derive(Clone, Copy)]
pub struct Ran {
    pub count: usize,
    pub fits: bool,
}

// What is found of `m` among the first records.
fn scan(list: &[Maker], upto: usize, m: Maker) -> Seen
    requires { upto ≤ length list.now }
    ensures { result ≡ seen_in list.now m upto }
{
    let mut s = Seen {
        place: None,
        above: 0,
    };
    for i in 0..upto {
        s = standing_rules::look_at(s, i, list[i], m);
    }
    s
}

// The record at `from` is taken out, those between move by one place, and `m` stands at `to`.
fn shift(list: &mut [Maker], from: usize, to: usize, m: Maker)
    requires { (from < length list.old) × (to < length list.old) }
    ensures { list.new ≡ shifted list.old from to m }
{
    if from < to {
        list.copy_within(from + 1..to + 1, from);
        list[to] = m;
    } else {
        list.copy_within(to..from, to + 1);
        list[to] = m;
    }
}

// Whether 23 refuses every call: a count above the records lent, or used ones out of order or a maker twice. Order is seen from
// neighbours. A maker twice is looked for only among the records before one whose mark was there (`standing_rules::look_back`), so that numbers
// with a mark of their own cost one look each.
fn judge(list: &[Maker], count: usize) -> bool
    ensures { result ≡ wrong (standing list.now count) }
{
    let size = list.len();
    let mut marks = [false; 65536];
    let mut s = Checked {
        good: true,
        last: None,
    };
    for j in 0..count.min(size) {
        let m = list[j];
        let before = standing_rules::look_back(&mut marks, j, m.number);
        let seen = scan(list, before, m);
        s = standing_rules::check(s, m, seen.place.is_some());
    }
    standing_rules::is_wrong(size, count, s.good)
}

// Any call on records that were judged: the used ones are looked through, the answer and the move are decided, and where it is not
// refused the record moves. `works` of `standing_rules` says that this is what the call is to do.
fn work(list: &mut [Maker], count: usize, bad: bool, call: Call) -> Result<usize, CallError>
    requires { bad ≡ wrong (standing list.old count) }
    ensures { (answer_by count result ≡ answer_of (standing list.old count) call) × (list.new ≡ (step (standing list.old count) call).records) }
{
    let size = list.len();
    let m = standing_rules::record_of(call);
    let seen = scan(list, count.min(size), m);
    let p = standing_rules::decide(call, size, count, bad, seen)?;
    shift(list, p.from, p.to, m);
    Ok(p.count)
}

// Any call: the records are judged, and the call is worked.
pub fn apply(list: &mut [Maker], count: usize, call: Call) -> Result<usize, CallError>
    ensures { (answer_by count result ≡ answer_of (standing list.old count) call) × (list.new ≡ (step (standing list.old count) call).records) }
{
    let bad = judge(list, count);
    work(list, count, bad, call)
}

// A maker joins with a rating. This, `change` and `leave` are `apply` at one call.
pub fn join(list: &mut [Maker], count: usize, m: Maker) -> Result<usize, CallError>
    ensures { (answer_by count result ≡ answer_of (standing list.old count) (Join m)) × (list.new ≡ (step (standing list.old count) (Join m)).records) }
{
    apply(list, count, Call::Join(m))
}

// A maker's rating becomes another.
pub fn change(list: &mut [Maker], count: usize, m: Maker) -> Result<usize, CallError>
    ensures { (answer_by count result ≡ answer_of (standing list.old count) (Change m)) × (list.new ≡ (step (standing list.old count) (Change m)).records) }
{
    apply(list, count, Call::Change(m))
}

// A maker leaves.
pub fn leave(list: &mut [Maker], count: usize, number: u32) -> Result<usize, CallError>
    ensures { (answer_by count result ≡ answer_of (standing list.old count) (Leave number)) × (list.new ≡ (step (standing list.old count) (Leave number)).records) }
{
    apply(list, count, Call::Leave(number))
}

// ---- a list of calls, as words

// Whether a kind and a rating are a call's.
#[tactic(auto, unfolding(crate::specs::Words::is_call))]
pub fn is_call(kind: u32, rating: u32) -> bool
    ensures { result ≡ is_call kind rating }
{
    match kind {
        1 | 2 => true,
        3 => rating == 0,
        _ => false,
    }
}

// How many calls some words are; none where they are no list of calls.
fn measure(words: &[u32]) -> Option<usize>
    ensures { result ≡ measured words.now }
{
    let calls = words.len() / 3;
    for k in 0..calls {
        if !is_call(words[3 * k], words[3 * k + 2]) {
            return None;
        }
    }
    if 3 * calls != words.len() {
        return None;
    }
    Some(calls)
}

// Whether some words are a list of calls.
pub fn is_list(words: &[u32]) -> bool
    ensures { result ≡ readable words.now }
{
    measure(words).is_some()
}

// How many calls run, with a word for each outcome: all of a list, or none.
fn count_ready(words: &[u32], room: usize) -> Option<usize>
    ensures { result ≡ ready_of words.now room }
{
    let calls = measure(words)?;
    if room < calls {
        return None;
    }
    Some(calls)
}

// A call is three words where C lends them.
fn call_at(words: &[u32], k: usize) -> Call
    requires { 3 * k + 2 < length words.now }
    ensures { result ≡ call_at words.now k }
{
    Call::from_words(words[3 * k], words[3 * k + 1], words[3 * k + 2])
}

// Runs a list of calls, each on the records and the count that the one before left, and writes each call's outcome, 0 or the refusal's
// number. All run, or none where the words are no list of calls or the outcomes do not fit. The records are judged once: 23 refuses all
// calls of a list or none (`wrong-after` of `standing_rules`).
pub fn run(list: &mut [Maker], count: usize, words: &[u32], outcomes: &mut [u32]) -> Ran
    ensures { ListAnswers words.now (standing list.old count) outcomes.old list.new outcomes.new result }
{
    let Some(calls) = count_ready(words, outcomes.len()) else {
        return Ran { count, fits: false };
    };
    let bad = judge(list, count);
    let mut c = count;
    for k in 0..calls {
        outcomes[k] = match work(list, c, bad, call_at(words, k)) {
            Ok(after) => {
                c = after;
                0
            }
            Err(error) => u32::from(error),
        };
    }
    Ran {
        count: c,
        fits: true,
    }
}
