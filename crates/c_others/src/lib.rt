// For C, as one number or as words in a lent buffer: weights, the choice of a row, boards, sigmas, volatile days and a row eased on one,
// safe minutes.
#![tactic(auto)]

ghost use Rattle.std.specs.Prelude.{◌≡◌, not, eqb, length};
ghost use Rattle.rules.specs.Answers.{accepted};
ghost use Rattle.rules.specs.Choosing.{chosen_row};
ghost use Rattle.rules.specs.Boards.{judged};
ghost use Rattle.board.specs.Answers.{shown_board};
ghost use Rattle.game.specs.Answers.{safe_minutes, shown_safe};
ghost use Rattle.volatile.specs.Answers.{inside_of, shown_day};
ghost use Rattle.ease.specs.Easing.{eased_if};
ghost use Rattle.c_answers.specs.Answers.{value_number, test_number, Fills};
ghost use Rattle.sigma.specs.Sigmas.{last_sigma};
ghost use Rattle.c_others.specs.Extras.{weighed, sigma_words, spread_for};

use game::AboveSixty;
use rules::{Millis, Refusal, SpreadRule, Steps, Strike};
use volatile::UnusablePrices;

// The weight of K, L and p.
pub fn weight_number(kept: u32, length: u32, share: u32) -> u64
    ensures { result ≡ value_number (weighed kept length share) }
{
    if !(row::is_length(length) & ranges::between(1, 799, share)) {
        return c_answers::refused(2);
    }
    if length < kept {
        return c_answers::refused(3);
    }
    u64::from(verdict::weight_of(Millis(kept), Millis(length), share))
}

// The row for an expiry and a quantum from two tables of rows, seven words or none.
pub fn fill_row<'r, 'b>(
    usual: &'r [u32],
    holiday: &'r [u32],
    is_holiday: u32,
    expiry: u32,
    quantum: u32,
    buffer: &'b mut [u32],
) -> u64
    ensures { Fills (accepted (chosen_row (not (eqb is_holiday 0)) expiry quantum usual.now holiday.now)) buffer.old buffer.new result }
{
    let row = row::choose(usual, holiday, is_holiday != 0, expiry, quantum);
    c_answers::fill_words(row, buffer)
}

fn board_number(answer: Result<bool, Refusal>) -> u64
    ensures { result ≡ test_number (shown_board answer) }
{
    match answer {
        Ok(met) => u64::from(met),
        Err(refusal) => c_answers::refused(u32::from(refusal)),
    }
}

// Whether a board of strikes, K and L each, is met.
pub fn board_met(strikes: &[[u32; 2]], first: u32, second: u32) -> u64
    ensures { result ≡ test_number (judged first second strikes.now) }
{
    board_number(board::judge(strikes, first, second))
}

fn fill_sigma(answer: Option<u32>, buffer: &mut [u32]) -> u64
    ensures { Fills (accepted (sigma_words answer)) buffer.old buffer.new result }
{
    match answer {
        None => 0,
        Some(n) => {
            let word = [n];
            c_answers::fill_words(&word, buffer)
        }
    }
}

// The sigma of the last price's day, one word or none.
pub fn last_sigma(prices: &[i32], buffer: &mut [u32]) -> u64
    ensures { Fills (accepted (sigma_words (last_sigma prices.now))) buffer.old buffer.new result }
{
    fill_sigma(sigma::last_sigma(prices), buffer)
}

fn day_number(answer: Result<bool, UnusablePrices>) -> u64
    ensures { result ≡ test_number (shown_day answer) }
{
    match answer {
        Ok(inside) => u64::from(inside),
        Err(unusable) => c_answers::refused(unusable.number()),
    }
}

// Whether the day after the last price is inside a period.
pub fn day_inside(prices: &[i32], threshold: u32) -> u64
    ensures { result ≡ test_number (inside_of prices.now threshold) }
{
    day_number(volatile::inside(prices, threshold))
}

fn spread_for(strike: u32) -> SpreadRule
    ensures { result ≡ spread_for strike }
{
    if strike == 0 {
        return SpreadRule::Settled(Steps(0));
    }
    SpreadRule::OfStrike(Strike {
        a: 0,
        difference: 0,
        days: 0,
        b: 0,
    })
}

// The same, and the lent row eased where it is.
pub fn ease_row(row: &mut [u32], strike: u32, prices: &[i32], threshold: u32) -> u64
    ensures number { result ≡ test_number (inside_of prices.now threshold) }
    ensures words { row.new ≡ eased_if (inside_of prices.now threshold) (spread_for strike) row.old }
{
    day_number(ease::ease_if_inside(row, spread_for(strike), prices, threshold))
}

fn safe_number(answer: Result<u32, AboveSixty>) -> u64
    ensures { result ≡ value_number (shown_safe answer) }
{
    match answer {
        Ok(g) => u64::from(g),
        Err(above_sixty) => c_answers::refused(above_sixty.number()),
    }
}

// G of m minutes, h doubles and k knocks.
pub fn safe_minutes(m: u32, h: u32, k: u32) -> u64
    ensures { result ≡ value_number (safe_minutes m h k) }
{
    safe_number(game::safe_minutes(m, h, k))
}
