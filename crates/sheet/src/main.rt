// Prints the sheet of one session: 32 leading bytes and the records from standard input, 1,600 records at most.
#![tactic(auto)]

use rules::{Cell, Kopecks, Millis};
use std::io;

// The leading bytes and the records of a session.
const MOST: u64 = 32 + 20 * 1600;

// A session has no lapse limit, so no count of lapses is too many.
fn verdict(kept: Millis, length: Millis, share: u32) -> &'static str {
    let cell = Cell {
        filled: true,
        kept,
        length,
        share,
        allowed: 65535,
        lapses: 0,
        active: Kopecks(0),
        passive: Kopecks(0),
    };
    if verdict::met(cell) { "met" } else { "failed" }
}

// The sheet of 32 leading bytes and the records after them.
fn sheet(rt: &impl Print, input: &[u8]) -> io::Result<()> {
    if input.len() < 32 {
        return println!(rt; "refused 1 at 0");
    }
    let row = row::leading_words(input);
    let length = Millis(row[2]);
    let share = row[6];
    let sp = row::leading_price(input);
    let mut buffer = [0u32; 1600];
    let answer = session::run_within(1600, &row, sp, &input[32..], &mut buffer);
    match answer {
        Err(stop) => println!(rt; "refused {} at {}", u32::from(stop.refusal), stop.place),
        Ok(run) => {
            println!(rt; "kept {} of {}", run.kept.0, length.0)?;
            let n = session::filled(answer);
            for pair in buffer[..n].chunks_exact(2) {
                println!(rt; "pair {} {}", pair[0], pair[1])?;
            }
            println!(rt; "verdict {}", verdict(run.kept, length, share))?;
            println!(rt; "weight {}", run.weight)
        }
    }
}

// One byte more than the records that a sheet takes shows that there are more.
fn main(rt: HostRuntime) -> io::Result<()> {
    let input = console::input(&rt, rt.alloc(), MOST + 1)?;
    sheet(&rt, &input)
}
