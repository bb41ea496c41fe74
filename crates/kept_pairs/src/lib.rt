// The pairs of a session as time runs on, all of it kept or none: what touches the last pair lengthens it, and each is written where it
// fits.
#![tactic(auto)]

ghost use Rattle.std.specs.Prelude.{◌≡◌, ◌≤◌};
ghost use Rattle.kept_pairs.specs.Internal.{put_pair, begun_at, MarksBounds, MarksAfter};
ghost use Rattle.kept_pairs.specs.Gathered.{keeps_after, gathered_pairs, onward_pairs};

use clock::{Clock, Duty};
use record_runs::Gather;
use rules::Millis;

// The pairs so far: how many, and where the last one starts. The clock says whether it reaches the present.
#[derive(Clone, Copy)]
pub struct Marks {
    pub pairs: u32,
    pub start: u32,
}

// Writes the pair counted n from 0, where it fits.
fn put_pair(buffer: &mut [u32], n: usize, start: u32, length: u32)
    requires { n ≤ 100000000 }
    ensures { buffer.new ≡ put_pair buffer.old n start length }
{
    let at = 2 * n;
    if at + 2 <= buffer.len() {
        buffer[at] = start;
        buffer[at + 1] = length;
    }
}

// The marks when what is kept goes on from a time: in the last pair where it reaches it, else in a new one.
fn begun(marks: Marks, from: Millis, reaches: bool) -> Marks
    requires { marks.pairs ≤ 100000000 }
    ensures { result ≡ begun_at marks from.0 reaches }
{
    if reaches {
        return marks;
    }
    Marks {
        pairs: marks.pairs + 1,
        start: from.0,
    }
}

// Time runs on, and all of it is kept or none. The last pair reaches the time that it runs on from, or not.
pub fn grow(
    marks: Marks,
    from: Millis,
    to: Millis,
    keeps: bool,
    reaches: bool,
    buffer: &mut [u32],
) -> Marks
    requires { MarksBounds marks from to reaches }
    ensures { MarksAfter marks from to keeps reaches result buffer.old buffer.new }
{
    if to.0 <= from.0 {
        return marks;
    }
    if keeps {
        let next = begun(marks, from, reaches);
        let n = next.pairs - 1;
        let start = next.start;
        put_pair(buffer, n as usize, start, to.0 - start);
        return next;
    }
    marks
}

impl Gather for Marks {
    type State = bool;

    ghost state_of = { keeps_after };

    ghost gathered = { gathered_pairs };

    ghost onward = { onward_pairs };

    fn begin() -> Marks {
        Marks { pairs: 0, start: 0 }
    }

    fn state(_duty: Duty, clock: Clock, _table: &[u32]) -> bool {
        clock.keeps == 1
    }

    fn grow(self, clock: Clock, state: bool, to: Millis, buffer: &mut [u32]) -> Marks {
        grow(self, clock.time, to, state, clock.last == 1, buffer)
    }
}
