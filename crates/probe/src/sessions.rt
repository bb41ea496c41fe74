// A session run on a lent buffer: the case `1 n fill m`, m row words, SP, then records.
use console::{Case, CaseError, Words};
use rules::{Finished, Stopped};
use std::io;

fn answer_line(rt: &impl Print, answer: Result<Finished, Stopped>) -> io::Result<()> {
    match answer {
        Err(stop) => println!(rt; "refused {} at {}", u32::from(stop.refusal), stop.place),
        Ok(run) => println!(rt;
            "kept {} weight {} pairs {}",
            run.kept.0, run.weight, run.pairs
        ),
    }
}

// Each call has a buffer of its own, so that the second does not meet what the first wrote.
pub fn session_case(rt: &impl Print, mut case: Case<'_>) -> Result<(), CaseError> {
    let n = case.count(4096)?;
    let fill = case.word()?;
    let m = case.count(16)?;
    let row = case.words(m)?;
    let sp = case.price()?;
    let mut first = vec![in case.alloc; fill; n]?;
    let mut second = vec![in case.alloc; fill; n]?;
    answer_line(rt, session::run(&row, sp, case.rest, &mut first))?;
    println!(rt; "buffer{}", Words(&first))?;
    let front = session::front(&row, sp, case.rest, &mut second);
    println!(rt; "front{}", Words(front))?;
    Ok(())
}
