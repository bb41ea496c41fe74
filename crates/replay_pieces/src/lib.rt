// A list of calls that comes in pieces: what follows the calls of a piece, and what remains of it moved to the front of its buffer.
#![tactic(auto)]

ghost use Rattle.std.specs.Prelude.{◌≡◌, ◌-◌, ◌≤◌, length, take, drop};
ghost use Rattle.words.specs.Bytes.{words_in};
ghost use Rattle.replay_pieces.specs.Rests.{rest_of};

// Why what stands behind the calls that are read can't become a call: it is none, or its block is longer than the buffer.
#[derive(Clone, Copy, Debug)]
pub enum Stuck {
    NoCall,
    TooLong,
}

// Whether what is left of a piece may become a call, in a buffer of so many words.
pub fn rest_is(bytes: &[u8], room: usize) -> Result<(), Stuck>
    ensures { result ≡ rest_of room (words_in bytes.now) }
{
    if !call_blocks::told(bytes) {
        return Ok(());
    }
    let due = call_blocks::due_words(bytes);
    if due == 0 {
        return Err(Stuck::NoCall);
    }
    if room < due {
        return Err(Stuck::TooLong);
    }
    Ok(())
}

// Moves the bytes from a place to an end to the front. A block that stands there stays, so that a long one in small pieces moves once.
pub fn to_front(bytes: &mut [u8], from: usize, end: usize)
    requires { (from ≤ end) × (end ≤ length bytes.old) }
    ensures { take (end - from) bytes.new ≡ take (end - from) (drop from bytes.old) }
{
    if 0 < from {
        bytes.copy_within(from..end, 0);
    }
}
