// Reads calls from standard input, four bytes a word, low byte first, as they come, and writes a line for each call's answer as soon as its
// block is complete.
//
// One read a turn, and no wait for more while there is something to answer. What remains of a piece moves to the front of the buffer, each
// byte once at most. Past the last word that has come a word is read as 0, so a length that is not known yet must not be used. Lines are
// written as they are made, with no buffer: a line must be out before the next read in any case.
#![tactic(auto)]

ghost use Rattle.std.specs.Prelude.{◌≡◌, ◌*◌, ◌≤◌, length};
ghost use Rattle.month.specs.Represents.{Reached};
ghost use Rattle.words.specs.Bytes.{words_in};
ghost use Rattle.replay.specs.Pieces.{Plays, Answers};

use call_step::Reply;
use month::Month;
use replay_lines::{AskedLine, CellLine, OutlookLine, ReportLine};
use replay_pieces::Stuck;
use rules::Refusal;
use std::io;
use std::io::Read;

// Room for the longest block.
const ROOM: usize = 262144;

fn line(rt: &impl Print, shown: Result<Reply, Refusal>) -> io::Result<()> {
    match shown {
        Ok(Reply::Done) => println!(rt; "accepted"),
        Ok(Reply::Cell(view)) => rt.println(CellLine(view)),
        Ok(Reply::Asked(preview)) => rt.println(AskedLine(preview)),
        Ok(Reply::Report(report)) => rt.println(ReportLine(report)),
        Ok(Reply::Outlook(outlook)) => rt.println(OutlookLine(outlook)),
        Err(refusal) => println!(rt; "refused {}", u32::from(refusal)),
    }
}

// What a piece of the input leaves: the month, and how many of its words are read.
#[derive(Clone, Copy)]
struct Played {
    month: Month,
    words: usize,
}

// Runs the calls of a piece on a month, and shows each answer. A `loop`, since it counts nothing: the next place is what the block says.
fn play<F: FnMut(Result<Reply, Refusal>)>(from: Month, bytes: &[u8], mut show: F) -> Played
    requires month { Reached from }
    requires show { F.IsAlwaysCallable show }
    ensures { Plays from (words_in bytes.now) result × (4 * result.words ≤ length bytes.now) }
{
    let mut month = from;
    let mut at: usize = 0;
    loop {
        let done = call_step::block(month, bytes, at);
        let next = done.next;
        if next == at {
            return Played { month, words: at };
        }
        show(done.shown);
        month = done.month;
        at = next;
    }
}

// Runs the calls that are whole among the bytes before an end, and moves what is left of those bytes to the front.
fn answer<F: FnMut(Result<Reply, Refusal>)>(
    month: Month,
    bytes: &mut [u8],
    end: usize,
    show: F,
) -> Played
    requires month { Reached month }
    requires end { end ≤ length bytes.old }
    requires show { F.IsAlwaysCallable show }
    ensures { Answers month end bytes.old bytes.new result }
{
    let done = play(month, &bytes[..end], show);
    let read = done.words;
    replay_pieces::to_front(bytes, 4 * read, end);
    done
}

fn stopped(rt: &impl Print, word: u64) -> io::Result<()> {
    println!(rt; "stopped at word {word}")
}

// Reads what has come, after what is held in the buffer and not answered yet, and answers the calls that are whole, to the end of the input
// or to what is no call. A read that fails counts as the end. `word` is the first word held, counted from 1.
fn stream(rt: &impl Print, input: &mut impl Read, bytes: &mut [u8]) -> io::Result<()> {
    let room = bytes.len() / 4;
    let mut month = Month::fresh();
    let mut held: usize = 0;
    let mut word: u64 = 1;
    for _ in 0..u64::MAX {
        let got = input.read(&mut bytes[held..]).unwrap_or(0);
        if got == 0 {
            break;
        }
        let end = held + got;
        let mut written = Ok(());
        let done = answer(month, bytes, end, |shown| {
            if written.is_ok() {
                written = line(rt, shown);
            }
        });
        written?;
        month = done.month;
        held = end - 4 * done.words;
        word = word.saturating_add(done.words as u64);
        match replay_pieces::rest_is(&bytes[..held], room) {
            Ok(()) => {}
            Err(Stuck::NoCall) => return stopped(rt, word),
            Err(Stuck::TooLong) => return println!(rt; "too long"),
        }
    }
    // A block is cut short where some of it is held.
    if 0 < held { stopped(rt, word) } else { Ok(()) }
}

fn main(rt: HostRuntime) -> io::Result<()> {
    let mut bytes = vec![in rt.alloc(); 0u8; ROOM]?;
    stream(&rt, &mut rt.stdin(), &mut bytes)
}
