// Maker against taker: the case `8 m h k`.
use console::{Case, CaseError};

pub fn safe_case(rt: &impl Print, mut case: Case<'_>) -> Result<(), CaseError> {
    let m = case.word()?;
    let h = case.word()?;
    let k = case.word()?;
    case.end()?;
    match game::safe_minutes(m, h, k) {
        Ok(minutes) => println!(rt; "safe {minutes}")?,
        Err(refusal) => println!(rt; "refused {}", refusal.number())?,
    }
    Ok(())
}
