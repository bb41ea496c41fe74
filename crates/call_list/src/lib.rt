// A list of calls run from a fresh month, each call's answer in twenty words of a lent buffer (answer_words/specs/Words). Demand 3 is about
// this runner (specs/Demand).
//
// The month's words and its hints are two local arrays, and each call goes in place.
#![tactic(auto)]

ghost use Rattle.std.specs.Prelude.{◌≡◌, ◌≤◌, length, drop};
ghost use Rattle.words.specs.Bytes.{words_in};
ghost use Rattle.month.specs.Words.{HoldsMonth};
ghost use Rattle.call_blocks.specs.Kinds.{block_size};
ghost use Rattle.call_list.specs.Listing.{ListAnswered};
ghost use Rattle.call_list.specs.Internal.{NextCalled};

use call_blocks::Measured;

// The lent buffer has fewer than twenty words for each of the calls that were read.
#[derive(Clone, Copy)]
pub struct AnswersShort {
    pub list: Measured,
}

// The call of the block at a place of a list, in place: the place after it.
fn next(month: &mut [u32], hints: &mut [u8], bytes: &[u8], at: usize, answer: &mut [u32]) -> usize
    requires { HoldsMonth month.old × (length month.old ≡ 2464) × (length hints.old ≡ 2048) × (length answer.old ≡ 20) × (at ≤ length (words_in bytes.now)) × (block_size (drop at (words_in bytes.now)) ≡ 0 → ⊥) }
    ensures { NextCalled month.old (words_in bytes.now) at month.new answer.new result }
{
    let from = 4 * at;
    let rest = &bytes[from..];
    let Some(size) = call_blocks::size(rest) else {
        return at;
    };
    let to = 4 * size;
    // It is made: the bytes are one block, and the buffers are long enough.
    let _ = month_words::call(month, hints, &rest[..to], answer);
    at + size
}

// Each call goes to the month that the one before left, and its answer after those before it.
pub fn run(bytes: &[u8], answers: &mut [u32]) -> Result<Measured, AnswersShort>
    ensures { ListAnswered (words_in bytes.now) answers.old answers.new result }
{
    let list = call_blocks::measure(bytes);
    let calls = list.calls;
    if answers.len() / 20 < calls {
        return Err(AnswersShort { list });
    }
    let mut month = [0u32; 2464];
    let mut hints = [0u8; 2048];
    month_words::fresh(&mut month);
    let mut at: usize = 0;
    for k in 0..calls {
        let from = 20 * k;
        let to = from + 20;
        at = next(&mut month, &mut hints, bytes, at, &mut answers[from..to]);
    }
    Ok(list)
}
