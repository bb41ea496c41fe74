// Reads one case from standard input, runs the public calls that it names, and writes what they answer.
#![tactic(auto)]

mod accounted;
mod sessions;

use console::{Case, CaseError, Words};
use std::io;

// The longest case.
const MOST: usize = 1048576;

// `2 holiday expiry quantum u h`, then the two tables and nothing else.
fn row_case(rt: &impl Print, mut case: Case<'_>) -> Result<(), CaseError> {
    let is_holiday = case.flag()?;
    let expiry = case.word()?;
    let quantum = case.word()?;
    let u = case.count(4096)?;
    let h = case.count(4096 - u)?;
    let usual = case.words(u)?;
    let holiday = case.words(h)?;
    case.end()?;
    let row = row::choose(&usual, &holiday, is_holiday, expiry, quantum);
    println!(rt; "row{}", Words(row))?;
    Ok(())
}

// The case that the first word names. An enum of the cases would name each twice more.
fn run_case(rt: &impl Print, mut case: Case<'_>) -> Result<(), CaseError> {
    let kind = case.word()?;
    match kind {
        1 => sessions::session_case(rt, case),
        2 => row_case(rt, case),
        3 => Ok(probe_bytes::record_case(rt, case.rest)?),
        _ if probe_bytes::is_message_kind(kind) => probe_bytes::message_case(rt, kind, case),
        15 => accounted::account_case(rt, case),
        _ => probe_extras::case(rt, kind, case),
    }
}

// One byte more than a case may have shows that there are more.
fn main(rt: HostRuntime) -> io::Result<()> {
    let alloc = rt.alloc();
    let input = console::input(&rt, alloc, MOST as u64 + 1)?;
    if MOST < input.len() {
        return println!(rt; "bad case");
    }
    let case = Case {
        alloc,
        rest: &input,
    };
    if let Err(e) = run_case(&rt, case) {
        return e.report(&rt);
    }
    Ok(())
}
