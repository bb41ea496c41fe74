// Standing of makers: join, change and leave on records and a count that the case gives.
ghost use Rattle.std.specs.Prelude.{◌≤◌, ◌<◌, length};

use console::{Case, CaseError};
use standing_rules::{Call, CallError, Maker};
use std::io;

// The records of the case, two words each.
fn records(words: &[u32]) -> [Maker; 512]
    requires { length words.now ≤ 1024 }
{
    let mut records = [Maker {
        number: 0,
        rating: 0,
    }; 512];
    for (i, pair) in words.chunks_exact(2).enumerate() {
        records[i] = Maker {
            number: pair[0],
            rating: pair[1],
        };
    }
    records
}

fn answer_line(rt: &impl Print, answer: Result<usize, CallError>) -> io::Result<()> {
    match answer {
        Ok(count) => println!(rt; "accepted {count}"),
        Err(error) => println!(rt; "refused {}", u32::from(error)),
    }
}

// `standing` and the used records; `standing` alone where the count is above the records.
fn standing_line(rt: &impl Print, records: &[Maker], count: usize) -> io::Result<()> {
    print!(rt; "standing")?;
    if count <= records.len() {
        for m in &records[..count] {
            print!(rt; " {} {}", m.number, m.rating)?;
        }
    }
    println!(rt; "")
}

// A line a call, each on what the one before left, and then the standing.
fn run_calls(
    rt: &impl Print,
    records: [Maker; 512],
    size: usize,
    given: usize,
    calls: &[u32],
) -> io::Result<()>
    requires { size ≤ 512 }
{
    let mut list = records;
    let mut count = given;
    for call in calls.chunks_exact(3) {
        let call = Call::from_words(call[0], call[1], call[2]);
        let left = standing_array::apply(list, size, count, call);
        list = left.records;
        count = left.answer.unwrap_or(count);
        answer_line(rt, left.answer)?;
    }
    standing_line(rt, &list[..size], count)
}

// `7 size count`, then the records, `n` and n calls, and nothing else.
pub fn standing_case(rt: &impl Print, mut case: Case<'_>) -> Result<(), CaseError> {
    let size = case.count(512)?;
    let count = case.word()? as usize;
    let words = case.words(2 * size)?;
    let n = case.count(512)?;
    let calls = case.words(3 * n)?;
    case.end()?;
    for call in calls.chunks_exact(3) {
        if !standing::is_call(call[0], call[2]) {
            return Err(CaseError::NoCase);
        }
    }
    run_calls(rt, records(&words), size, count, &calls)?;
    Ok(())
}
