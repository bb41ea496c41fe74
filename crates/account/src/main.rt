// Prints where the time of one session went: 32 leading bytes and the records from standard input, 1,600 records at most.
#![tactic(auto)]

use rules::SpreadRule;
use session_account::Times;
use std::io;

// The leading bytes and the records of a session.
const MOST: u64 = 32 + 20 * 1600;

// A state by its word.
fn state(word: u32) -> &'static str {
    match word {
        0 => "kept",
        1 => "no-bid",
        2 => "no-ask",
        3 => "neither",
        4 => "crossed",
        _ => "wide",
    }
}

fn totals(rt: &impl Print, times: Times) -> io::Result<()> {
    println!(rt; "total kept {}", times.kept.0)?;
    println!(rt; "total no-bid {}", times.no_bid.0)?;
    println!(rt; "total no-ask {}", times.no_ask.0)?;
    println!(rt; "total neither {}", times.neither.0)?;
    println!(rt; "total crossed {}", times.crossed.0)?;
    println!(rt; "total wide {}", times.wide.0)
}

// The account of 32 leading bytes and the records after them. 1,601 stretches are the most that 1,600 records give.
fn account(rt: &impl Print, input: &[u8]) -> io::Result<()> {
    if input.len() < 32 {
        return println!(rt; "refused 1 at 0");
    }
    let row = row::leading_words(input);
    let sp = row::leading_price(input);
    let spread = SpreadRule::Settled(sp);
    let mut buffer = [0u32; 4803];
    let answer = session_account::run_within(1600, &row, spread, &input[32..], &mut buffer);
    match answer {
        Err(stop) => println!(rt; "refused {} at {}", u32::from(stop.refusal), stop.place),
        Ok(run) => {
            let n = session_account::filled(answer);
            for stretch in buffer[..n].chunks_exact(3) {
                println!(rt;
                    "from {} for {} {}",
                    stretch[0],
                    stretch[1],
                    state(stretch[2])
                )?;
            }
            totals(rt, run.times)
        }
    }
}

// One byte more than the records that an account takes shows that there are more.
fn main(rt: HostRuntime) -> io::Result<()> {
    let input = console::input(&rt, rt.alloc(), MOST + 1)?;
    account(&rt, &input)
}
