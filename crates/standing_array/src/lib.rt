// The standing in an array of 512 records by value, for programs: its front part is lent to `standing::apply`, and the array is handed
// back. It requires that at most 512 records are lent.
#![tactic(auto)]

ghost use Rattle.std.specs.Prelude.{◌≡◌, ◌++◌, ◌≤◌, take, drop};
ghost use Rattle.standing_rules.specs.Calls.{standing, step, answer_by, answer_of};

use standing_rules::{Call, CallError, Maker};

// The records after a call, and its answer.
#[derive(Clone, Copy)]
pub struct Left {
    pub records: [Maker; 512],
    pub answer: Result<usize, CallError>,
}

// Any call on the first `size` records; those after them stay.
pub fn apply(records: [Maker; 512], size: usize, count: usize, call: Call) -> Left
    requires { size ≤ 512 }
    ensures { (answer_by count result.answer ≡ answer_of (standing (take size records) count) call) × (result.records ≡ (step (standing (take size records) count) call).records ++ drop size records) }
{
    let mut l = records;
    let answer = standing::apply(&mut l[..size], count, call);
    Left { records: l, answer }
}
