// Volatile days: cases 5 and 12.
use console::{Case, CaseError};
use std::fmt;
use volatile::UnusablePrices;

// Whether a day is inside a period, in words.
#[derive(Clone, Copy)]
pub struct Day(pub Result<bool, UnusablePrices>);

impl fmt::Display for Day {
    fn fmt<W: fmt::Write>(&self, f: &mut fmt::Formatter<W>) -> fmt::Result {
        match self.0 {
            Ok(true) => write!(f, "inside yes"),
            Ok(false) => write!(f, "inside no"),
            Err(refusal) => write!(f, "refused {}", refusal.number()),
        }
    }
}

#[derive(Clone, Copy)]
struct Sigma(Option<u32>);

impl fmt::Display for Sigma {
    fn fmt<W: fmt::Write>(&self, f: &mut fmt::Formatter<W>) -> fmt::Result {
        match self.0 {
            None => write!(f, "none"),
            Some(s) => write!(f, "{s}"),
        }
    }
}

// `threshold n`, then n prices and nothing else.
fn prices(mut case: Case<'_>) -> Result<(u32, Vec<i32>), CaseError> {
    let threshold = case.word()?;
    let n = case.count(4096)?;
    let prices = case.prices(n)?;
    case.end()?;
    Ok((threshold, prices))
}

// `5`, and the answer for the day after the last price.
pub fn day_case(rt: &impl Print, case: Case<'_>) -> Result<(), CaseError> {
    let (threshold, prices) = prices(case)?;
    println!(rt; "{}", Day(volatile::inside(&prices, threshold)))?;
    Ok(())
}

// `12`, and a line for each price's day, and one for the day after the last.
pub fn days_case(rt: &impl Print, case: Case<'_>) -> Result<(), CaseError> {
    let (threshold, prices) = prices(case)?;
    for day in 0..prices.len() {
        let inside = Day(volatile::inside(&prices[..day], threshold));
        let sigma = Sigma(sigma::last_sigma(&prices[..day + 1]));
        println!(rt; "day {day} {inside} sigma {sigma}")?;
    }
    println!(rt;
        "day {} {}",
        prices.len(),
        Day(volatile::inside(&prices, threshold))
    )?;
    Ok(())
}
