// What a call for C answers: one number, and the words or bytes that it puts at the front of a lent buffer.
#![tactic(auto)]

ghost use Rattle.std.specs.Prelude.{◌≡◌, ◌+◌, ◌≤◌, length, take};
ghost use Rattle.rules.specs.Answers.{number_of, accepted};
ghost use Rattle.c_answers.specs.Answers.{refused_number, Fills};

use rules::Refusal;

// A refusal by its number, as a C caller gets it (include/quoting.h): some numbers are of groups of calls that have no enum of their own.
pub fn refused(n: u32) -> u64
    ensures { result ≡ refused_number n }
{
    4294967296 * u64::from(n)
}

// A refusal and its place.
pub fn refused_at(refusal: Refusal, place: u32) -> u64
    ensures { result ≡ refused_number (number_of refusal) + place }
{
    refused(u32::from(refusal)) + u64::from(place)
}

// Words into as many others. A loop and not std's `copy_from_slice`, for which the archive for C would ask for `memmove`.
fn copy(from: &[u32], to: &mut [u32])
    requires { length to.old ≡ length from.now }
    ensures { to.new ≡ from.now }
{
    for i in 0..from.len() {
        to[i] = from[i];
    }
}

pub fn fill_words(words: &[u32], buffer: &mut [u32]) -> u64
    ensures { Fills (accepted words.now) buffer.old buffer.new result }
{
    let n = words.len();
    if buffer.len() < n {
        return refused(16);
    }
    copy(words, &mut buffer[..n]);
    n as u64
}

pub fn fill_bytes(bytes: &[u8], n: usize, text: &mut [u8]) -> u64
    requires { n ≤ length bytes.now }
    ensures { Fills (accepted (take n bytes.now)) text.old text.new result }
{
    if text.len() < n {
        return refused(16);
    }
    text[..n].copy_from_slice(&bytes[..n]);
    n as u64
}
