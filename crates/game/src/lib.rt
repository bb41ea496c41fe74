// Maker against taker: the minutes that a maker can force to stay unvoided. The game is in specs/, the theorem in proofs/Theorem.
//
// The function computes the closed form, in five lines, and keeps no table. The closed form is proved equal to the recurrence for all
// numbers, so the limit of 60 is only a refusal. The maker's strategy: double until the doubles are used, then single. The taker's voids
// every single minute that he can, and a double one only if he keeps a knock for each minute that must still be single.
#![tactic(auto)]

ghost use Rattle.std.specs.Prelude.{◌≡◌, ◌||◌};
ghost use Rattle.game.specs.Value.{value};
ghost use Rattle.game.specs.Answers.{is_above, safe_minutes, shown_safe};

// A number above 60.
#[derive(Clone, Copy, Debug, PartialEq, Eq)]
pub struct AboveSixty;

impl AboveSixty {
    // The refusal's number in document 02.
    pub fn number(self) -> u32
        ensures { result ≡ 26 }
    {
        26
    }
}

fn any_above(m: u32, h: u32, k: u32) -> bool
    ensures { result ≡ is_above m || is_above h || is_above k }
{
    60 < m || 60 < h || 60 < k
}

// G by its closed form: the taker voids singles first, then doubles.
fn forced(m: u32, h: u32, k: u32) -> u32
    ensures { result ≡ value m h k }
{
    let d = h.min(m);
    let s = m - d;
    let v = k.min(s);
    let q = (k - v) / 2;
    (m - v).saturating_sub(q)
}

// G of m minutes, h doubles and k knocks, or refusal 26.
pub fn safe_minutes(m: u32, h: u32, k: u32) -> Result<u32, AboveSixty>
    ensures { shown_safe result ≡ safe_minutes m h k }
{
    if any_above(m, h, k) {
        return Err(AboveSixty);
    }
    Ok(forced(m, h, k))
}
