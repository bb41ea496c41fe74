// The row eased for a day inside a period: cases 6, 13 and 14.
use super::days::Day;
use console::{Case, CaseError, Words};
use rules::{SpreadRule, Steps, Strike};

// What the open is given. Easing needs only which of the two it is.
fn spread_rule(of_strike: bool) -> SpreadRule {
    if of_strike {
        SpreadRule::OfStrike(Strike {
            a: 0,
            difference: 0,
            days: 0,
            b: 0,
        })
    } else {
        SpreadRule::Settled(Steps(0))
    }
}

// `6 m`, then m words of a row and nothing else.
pub fn row_case(rt: &impl Print, case: Case<'_>) -> Result<(), CaseError> {
    eased_case(rt, case, false)
}

// `13 strike m`, then m words and nothing else.
pub fn strike_case(rt: &impl Print, mut case: Case<'_>) -> Result<(), CaseError> {
    let of_strike = case.flag()?;
    eased_case(rt, case, of_strike)
}

fn eased_case(rt: &impl Print, mut case: Case<'_>, of_strike: bool) -> Result<(), CaseError> {
    let m = case.count(16)?;
    let mut row = case.words(m)?;
    case.end()?;
    ease::ease(&mut row, spread_rule(of_strike));
    println!(rt; "row{}", Words(&row))?;
    Ok(())
}

// `14 strike threshold n m`, then n prices and m words of a row, and nothing else: whether the day after them is inside, and the row then.
pub fn inside_case(rt: &impl Print, mut case: Case<'_>) -> Result<(), CaseError> {
    let of_strike = case.flag()?;
    let threshold = case.word()?;
    let n = case.count(4096)?;
    let m = case.count(16)?;
    let prices = case.prices(n)?;
    let mut row = case.words(m)?;
    case.end()?;
    let answer = ease::ease_if_inside(&mut row, spread_rule(of_strike), &prices, threshold);
    println!(rt; "{}", Day(answer))?;
    println!(rt; "row{}", Words(&row))?;
    Ok(())
}
