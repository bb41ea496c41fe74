// What a list of calls on the standing of makers answers to C, as one number.
#![tactic(auto)]

ghost use Rattle.std.specs.Prelude.{◌≡◌};
ghost use Rattle.c_standing.specs.Standings.{count_number, standing_number};
ghost use Rattle.standing.specs.Words.{readable};

use standing::Ran;

// The count, or the greatest number that is no refusal.
fn count_number(count: usize) -> u64
    ensures { result ≡ count_number count }
{
    (count as u64).min(4294967295)
}

pub fn standing_number(calls: &[u32], ran: Ran) -> u64
    ensures { result ≡ standing_number (readable calls.now) ran.fits ran.count }
{
    if ran.fits {
        return count_number(ran.count);
    }
    if standing::is_list(calls) {
        return c_answers::refused(16);
    }
    c_answers::refused(3)
}
