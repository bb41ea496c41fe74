// Whether a day is inside a disturbed period, from the prices before it. The code goes over the prices once.
//
// The thirty sigmas are in a ring with their running sum, zeros before the first; the average is looked at only where a period begins with
// thirty before it.
#![tactic(auto)]

ghost use Rattle.std.specs.Prelude.{◌≡◌, ◌≤◌, ◌<◌, nat_abs};
ghost use Rattle.volatile.specs.Answers.{inside_of, shown_day};
ghost use Rattle.volatile.specs.Internal.{Roomy, pushed, begun, phase_after, sigma_with, judged, state_after, fresh, Ready, early};

// Prices that give no answer: a previous price of zero, a change that is too great, or a period that begins with fewer than thirty sigmas
// before it.
#[derive(Clone, Copy, Debug, PartialEq, Eq)]
pub struct UnusablePrices;

impl UnusablePrices {
    // The refusal's number in document 02.
    pub fn number(self) -> u32
        ensures { result ≡ 22 }
    {
        22
    }
}

// The last thirty sigmas in a ring, the number of sigmas so far, and the sum of the thirty.
#[derive(Clone, Copy)]
struct Window {
    recent: [u32; 30],
    day: usize,
    sum: u32,
}

// The period that a day is in: its first day and its average.
#[derive(Clone, Copy)]
struct Disturbed {
    first: usize,
    average: u32,
}

// The last two R with the days so far, and the next day's period.
#[derive(Clone, Copy)]
struct State {
    older: i32,
    newer: i32,
    window: Window,
    phase: Option<Disturbed>,
}

// A sigma more, in the place of the oldest.
fn push(w: Window, sigma: u32) -> Window
    requires { Roomy w × (sigma < 4194304) }
    ensures { result ≡ pushed w sigma }
{
    let mut recent = w.recent;
    let at = w.day % 30;
    let sum = w.sum + sigma - recent[at];
    recent[at] = sigma;
    Window {
        recent,
        day: w.day + 1,
        sum,
    }
}

// The period that begins after a day with this sigma, if one does. The sum is that of the thirty sigmas up to it.
fn begun(day: usize, sigma: u32, threshold: u32, sum: u32) -> Option<Disturbed>
    requires { day < 9223372036854775807 }
    ensures { result ≡ begun day sigma threshold sum }
{
    if sigma < threshold {
        return None;
    }
    Some(Disturbed {
        first: day + 1,
        average: sum / 30,
    })
}

// The period of the next day, by the sigma of this one.
fn after(
    phase: Option<Disturbed>,
    day: usize,
    sigma: u32,
    threshold: u32,
    sum: u32,
) -> Option<Disturbed>
    requires { day < 9223372036854775807 }
    ensures { result ≡ phase_after phase day sigma threshold sum }
{
    let Some(period) = phase else {
        return begun(day, sigma, threshold, sum);
    };
    if period.first < day && sigma <= period.average {
        return None; // no sigma of a period's days begins another
    }
    phase
}

// A day with a sigma.
fn judge(s: State, r: i32, threshold: u32) -> State
    requires { Ready s × (nat_abs r ≤ 1000000) }
    ensures { (result ≡ judged s r threshold) × (sigma_with s r < 4194304) }
{
    let day = s.window.day;
    let sigma = sigma::sigma(s.older, s.newer, r);
    let window = push(s.window, sigma);
    let phase = after(s.phase, day, sigma, threshold, window.sum);
    State {
        older: s.newer,
        newer: r,
        window,
        phase,
    }
}

// A day with an R, the i-th from 0: it has a sigma from the third on.
fn turn(s: State, i: usize, r: i32, threshold: u32) -> State
    requires { Ready s × (nat_abs r ≤ 1000000) }
    ensures { (result ≡ state_after s i r threshold) × (2 ≤ i → sigma_with s r < 4194304) }
{
    if i < 2 {
        return State {
            older: s.newer,
            newer: r,
            window: s.window,
            phase: s.phase,
        };
    }
    judge(s, r, threshold)
}

// An R is 0 where there is none yet.
fn start() -> State
    ensures { result ≡ fresh }
{
    State {
        older: 0,
        newer: 0,
        window: Window {
            recent: [0; 30],
            day: 0,
            sum: 0,
        },
        phase: None,
    }
}

// A period that began with fewer than thirty sigmas before it.
fn is_early(phase: Option<Disturbed>) -> bool
    ensures { result ≡ early phase }
{
    match phase {
        None => false,
        Some(period) => period.first < 30,
    }
}

// Whether the day after the last price is inside a period.
pub fn inside(prices: &[i32], threshold: u32) -> Result<bool, UnusablePrices>
    ensures { shown_day result ≡ inside_of prices.now threshold }
{
    let mut state = start();
    for i in 1..prices.len() {
        let Some(r) = sigma::change_of(prices[i - 1], prices[i]) else {
            return Err(UnusablePrices);
        };
        state = turn(state, i - 1, r, threshold);
        if is_early(state.phase) {
            return Err(UnusablePrices);
        }
    }
    Ok(state.phase.is_some())
}
