// The account run on a lent buffer: the case `15 n fill m`, m row words, `0 SP` or `1 a difference days b`, then records.
use console::{Case, CaseError, Words};
use rules::{SpreadRule, Stopped, Strike};
use session_account::Accounted;
use std::io;

fn answer_line(rt: &impl Print, answer: Result<Accounted, Stopped>) -> io::Result<()> {
    match answer {
        Err(stop) => println!(rt; "refused {} at {}", u32::from(stop.refusal), stop.place),
        Ok(run) => {
            let times = run.times;
            print!(rt;
                "account {} {} {}",
                run.stretches, times.kept.0, times.no_bid.0
            )?;
            print!(rt; " {} {}", times.no_ask.0, times.neither.0)?;
            println!(rt; " {} {}", times.crossed.0, times.wide.0)
        }
    }
}

fn spread_rule(case: &mut Case<'_>) -> Result<SpreadRule, CaseError> {
    if !case.flag()? {
        return Ok(SpreadRule::Settled(case.price()?));
    }
    let a = case.word()?;
    let difference = case.word()?;
    let days = case.word()?;
    let b = case.word()?;
    Ok(SpreadRule::OfStrike(Strike {
        a,
        difference,
        days,
        b,
    }))
}

pub fn account_case(rt: &impl Print, mut case: Case<'_>) -> Result<(), CaseError> {
    let n = case.count(4096)?;
    let fill = case.word()?;
    let m = case.count(16)?;
    let row = case.words(m)?;
    let spread = spread_rule(&mut case)?;
    let mut buffer = vec![in case.alloc; fill; n]?;
    let answer = session_account::run(&row, spread, case.rest, &mut buffer);
    answer_line(rt, answer)?;
    println!(rt; "buffer{}", Words(&buffer))?;
    Ok(())
}
