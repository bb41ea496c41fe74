// FIX messages: case 9 reads one, case 10 writes one, case 11 takes the time from a start.
ghost use Rattle.std.specs.Prelude.{◌≡◌, length, IfOk};
ghost use Rattle.fix_writer.specs.Answers.{IsText};

use console::{Case, CaseError, Hex};
use fix_dates::Moment;
use fix_reader::Message;
use fix_writer::MessageText;
use rules::{Contracts, Refusal, Side, Steps, Timestamp};
use std::{fmt, io};

// A time as 60 has it, as 20261127-09:30:00.000.
#[derive(Clone, Copy)]
struct Time(Timestamp);

impl fmt::Display for Time {
    fn fmt<W: fmt::Write>(&self, f: &mut fmt::Formatter<W>) -> fmt::Result {
        let t = self.0;
        write!(f, "{:04}{:02}{:02}-", t.year, t.month, t.day)?;
        write!(
            f,
            "{:02}:{:02}:{:02}.{:03}",
            t.hour, t.minute, t.second, t.millis
        )
    }
}

// What 54, 38 and 44 say.
#[derive(Clone, Copy)]
struct Terms(Side, Contracts, Steps);

impl fmt::Display for Terms {
    fn fmt<W: fmt::Write>(&self, f: &mut fmt::Formatter<W>) -> fmt::Result {
        let side = words::from_side(self.0);
        let volume = self.1;
        let price = self.2;
        write!(f, "54 {side} 38 {} 44 {}", volume.0, price.0)
    }
}

// `9`, then a message.
pub fn read_case(rt: &impl Print, bytes: &[u8]) -> io::Result<()> {
    match fix_reader::read(bytes) {
        Ok(
            Message::New {
                id,
                side,
                volume,
                price,
                time,
            },
        ) => println!(rt;
            "message D 11 {id} {} 60 {}",
            Terms(side, volume, price),
            Time(time)
        ),
        Ok(Message::Cancel { id, orig, time }) => {
            println!(rt; "message F 11 {id} 41 {orig} 60 {}", Time(time))
        }
        Ok(
            Message::Replace {
                id,
                orig,
                side,
                volume,
                price,
                time,
            },
        ) => println!(rt;
            "message G 11 {id} 41 {orig} {} 60 {}",
            Terms(side, volume, price),
            Time(time)
        ),
        Err(refusal) => println!(rt; "refused {}", u32::from(refusal)),
    }
}

fn is_side(side: u32) -> bool {
    side == 1 || side == 2
}

// `10 kind id orig side volume price`, then the bytes of 60. A word that the kind does not take is 0.
fn written(words: &[u32], sixty: &[u8]) -> Result<Result<MessageText, Refusal>, CaseError>
    requires { length words.now ≡ 6 }
    ensures { IfOk result (λ text. IfOk text IsText) }
{
    let id = words[1];
    let orig = words[2];
    let side = words[3];
    let volume = words[4];
    let price = words[5];
    let terms = (
        words::to_side(side),
        Contracts(volume),
        words::to_steps(price),
    );
    match words[0] {
        1 if orig == 0 && is_side(side) => Ok(fix_writer::write_new(
            id, terms.0, terms.1, terms.2, sixty,
        )),
        2 if side == 0 && volume == 0 && price == 0 => Ok(fix_writer::write_cancel(
            id, orig, sixty,
        )),
        3 if is_side(side) => Ok(fix_writer::write_replace(
            id, orig, terms.0, terms.1, terms.2, sixty,
        )),
        _ => Err(CaseError::NoCase),
    }
}

pub fn write_case(rt: &impl Print, mut case: Case<'_>) -> Result<(), CaseError> {
    let words = case.words(6)?;
    match written(&words, case.rest)? {
        Ok(text) => println!(rt; "bytes{}", Hex(&text.bytes[..text.length]))?,
        Err(refusal) => println!(rt; "refused {}", u32::from(refusal))?,
    }
    Ok(())
}

// `11 s`, s bytes of a start, then the other time.
pub fn time_case(rt: &impl Print, mut case: Case<'_>) -> Result<(), CaseError> {
    let s = case.word()? as usize;
    let start = case.bytes(s)?;
    match fix_reader::since(start, case.rest) {
        Ok(Moment::At(t)) => println!(rt; "time {}", t.0)?,
        Ok(Moment::Before) => println!(rt; "refused 8")?,
        Ok(Moment::Late) => println!(rt; "refused 9")?,
        Err(refusal) => println!(rt; "refused {}", u32::from(refusal))?,
    }
    Ok(())
}
