// The safe minutes of m minutes for all stocks: reads m, a word, and writes a line for each h from 0 to 60, in it G for each k from 0 to 60.
//
// A program of its own, since one run of `probe` is one case: by it all 226,981 triples are compared with the recurrence in a few seconds.
#![tactic(auto)]

use console::{Case, CaseError};
use game::AboveSixty;
use std::{fmt, io};

// One number, or that the call is refused.
#[derive(Clone, Copy)]
struct Cell(Result<u32, AboveSixty>);

impl fmt::Display for Cell {
    fn fmt<W: fmt::Write>(&self, f: &mut fmt::Formatter<W>) -> fmt::Result {
        match self.0 {
            Ok(minutes) => write!(f, "{minutes}"),
            Err(refusal) => write!(f, "refused {}", refusal.number()),
        }
    }
}

// The row of h minutes, for each k.
#[derive(Clone, Copy)]
struct Row {
    m: u32,
    h: u32,
}

impl fmt::Display for Row {
    fn fmt<W: fmt::Write>(&self, f: &mut fmt::Formatter<W>) -> fmt::Result {
        let Row { m, h } = *self;
        write!(f, "{}", Cell(game::safe_minutes(m, h, 0)))?;
        for k in 1..61 {
            write!(f, " {}", Cell(game::safe_minutes(m, h, k)))?;
        }
        Ok(())
    }
}

fn table(rt: &impl Print, mut case: Case<'_>) -> Result<(), CaseError> {
    let m = case.word()?;
    case.end()?;
    if 60 < m {
        println!(rt; "{}", Cell(game::safe_minutes(m, 0, 0)))?;
        return Ok(());
    }
    for h in 0..61 {
        rt.println(Row { m, h })?;
    }
    Ok(())
}

fn main(rt: HostRuntime) -> io::Result<()> {
    let alloc = rt.alloc();
    let input = console::input(&rt, alloc, 5)?;
    let case = Case {
        alloc,
        rest: &input,
    };
    if let Err(e) = table(&rt, case) {
        return e.report(&rt);
    }
    Ok(())
}
