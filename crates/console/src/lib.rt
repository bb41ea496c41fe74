// What the programs share: standard input, the words and prices of a case in it, and words and bytes as text. No contract can say which
// bytes a program reads or writes, so what prints promises no more than that it is safe and ends.
#![tactic(auto)]

ghost use Rattle.std.specs.Prelude.{◌≡◌, ◌+◌, ◌*◌, ◌≤◌, length, vec_len, IfOk};
ghost use Rattle.rules.specs.Records.{signed_of, word_at};
ghost use Rattle.words.specs.Bytes.{words_from};
ghost use Rattle.console.specs.Reading.{prices_from};

mod case;
mod shown;

pub use case::{Case, CaseError};
pub use shown::{Hex, Words};
use std::alloc::Global;
use std::io;
use std::io::{Input, Read};

// Fills the lent bytes from a reader, as far as it gives any: the number of bytes that are put at the front. A `while`, since each read says
// how far it came.
fn fill(reader: &mut impl Read, bytes: &mut [u8]) -> usize
    ensures { result ≤ length bytes.new }
{
    let mut done = 0;
    while done < bytes.len() {
        let got = reader.read(&mut bytes[done..]).unwrap_or(0);
        if got == 0 {
            break;
        }
        done += got;
    }
    done
}

// Standard input, as far as there is room: the number of bytes that are put at the front. Each read asks for all that are still missing, and
// one that fails counts as the end. No contract can say which bytes come.
pub fn read(rt: &impl Input, bytes: &mut [u8]) -> usize
    ensures { result ≤ length bytes.new }
{
    fill(&mut rt.reader(), bytes)
}

// The same, as far as so many bytes. Memory for all of them is taken at once.
pub fn input(rt: &impl Input, alloc: Global, most: u64) -> io::Result<Vec<u8>>
    ensures { IfOk result (λ bytes. vec_len bytes ≤ most) }
{
    let mut bytes = vec![in alloc; 0u8; most as usize]?;
    let n = read(rt, &mut bytes);
    bytes.truncate(n);
    Ok(bytes)
}

// Fills the lent words with those that start at a byte.
pub fn read_words(bytes: &[u8], from: usize, words: &mut [u32])
    requires { from + 4 * length words.old ≤ length bytes.now }
    ensures { words.new ≡ words_from bytes.now from (length words.old) }
{
    for i in 0..words.len() {
        words[i] = words::word_at(bytes, from + 4 * i);
    }
}

fn price_at(bytes: &[u8], at: usize) -> i32
    requires { at + 4 ≤ length bytes.now }
    ensures { result ≡ signed_of (word_at bytes.now at) }
{
    words::to_steps(words::word_at(bytes, at)).0
}

// Fills the lent prices with those that start at a byte.
pub fn read_prices(bytes: &[u8], from: usize, prices: &mut [i32])
    requires { from + 4 * length prices.old ≤ length bytes.now }
    ensures { prices.new ≡ prices_from bytes.now from (length prices.old) }
{
    for i in 0..prices.len() {
        prices[i] = price_at(bytes, from + 4 * i);
    }
}

// What needs memory succeeds: no clause can say that there is some.
#[cfg(test)]
mod tests {
    use super::*;

    #[test]
    fn words_and_prices(rt: HostRuntime) {
        let bytes = [7, 0, 0, 1, 255, 255, 255, 255];
        let mut case = Case {
            alloc: rt.alloc(),
            rest: &bytes,
        };
        let words = case.words(1).expect(&rt, "memory and a case");
        let prices = case.prices(1).expect(&rt, "memory and a case");
        assert_eq!(rt; words[0], 16777223);
        assert_eq!(rt; prices[0], -1);
        assert!(rt; case.end().is_ok());
    }

    #[test]
    fn input_at_most(rt: HostRuntime) {
        let bytes = input(&rt, rt.alloc(), 3).expect(&rt, "memory and a case");
        assert!(rt; bytes.len() <= 3);
    }
}
