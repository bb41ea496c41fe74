// A board of strikes: the case `4 first second n`, then n words, a K and an L a strike.
use console::{Case, CaseError};
use rules::Refusal;
use std::alloc::{AllocError, Global};

// Each strike's K and L.
fn strikes(alloc: Global, words: &[u32]) -> Result<Vec<[u32; 2]>, AllocError> {
    let mut strikes = Vec::new(alloc);
    for pair in words.chunks_exact(2) {
        strikes.push([pair[0], pair[1]])?;
    }
    Ok(strikes)
}

// Words that are no pairs are refused here, since no board has them.
pub fn board_case(rt: &impl Print, mut case: Case<'_>) -> Result<(), CaseError> {
    let first = case.word()?;
    let second = case.word()?;
    let n = case.count(128)?;
    let words = case.words(n)?;
    case.end()?;
    let answer = if n % 2 == 1 {
        Err(Refusal::StrikesOutOfRange)
    } else {
        board::judge(&strikes(case.alloc, &words)?, first, second)
    };
    match answer {
        Ok(true) => println!(rt; "board met")?,
        Ok(false) => println!(rt; "board failed")?,
        Err(refusal) => println!(rt; "refused {}", u32::from(refusal))?,
    }
    Ok(())
}
