// The verdict and the weight of a cell.
#![tactic(auto)]

ghost use Rattle.std.specs.Prelude.{◌≡◌, true, ◌^◌, ◌≤◌};
ghost use Rattle.rules.specs.Terms.{paper};
ghost use Rattle.rules.specs.Bounds.{CellBounds};
ghost use Rattle.rules.specs.Pay.{cell_met, cell_weight, view_of};
ghost use Rattle.rules.specs.Pay as P;
ghost use Rattle.rules.specs.Lapses.{within_lapse_limit};

use rules::{Cell, CellView, Millis};

// Whether 1000 × K ≥ p × L.
fn reaches(kept: Millis, length: Millis, share: u32) -> bool
    ensures { result ≡ P.met paper kept.0 length.0 share }
{
    let l = length.0 as u64;
    let k = kept.0 as u64;
    let needed = (share as u64) * l;
    let held = 1000 * k;
    needed <= held
}

// Whether a count of lapses is none too many. 65,535 is no number here: it says that there is no limit.
pub fn within_lapse_limit(allowed: u32, lapses: u32) -> bool
    ensures { result ≡ within_lapse_limit allowed lapses }
{
    if allowed == 65535 {
        return true;
    }
    lapses <= allowed
}

// Whether a cell is filled. A filled one has an L, which is divided by: in words that no call wrote it may be 0, and then the cell counts as
// blank.
pub fn is_filled(cell: Cell) -> bool
    requires { cell.filled ≡ true → CellBounds paper cell }
    ensures { result ≡ cell.filled }
{
    let length = cell.length;
    cell.filled & (0 < length.0)
}

// The verdict on a cell: its share and its lapses.
pub fn met(cell: Cell) -> bool
    ensures { result ≡ cell_met paper cell }
{
    let kept = cell.kept;
    let length = cell.length;
    reaches(kept, length, cell.share) && within_lapse_limit(cell.allowed, cell.lapses)
}

// The kept share f, in thousandths.
fn thousandths(kept: Millis, length: Millis) -> u64
    requires { 1 ≤ length.0 }
    ensures { result ≡ P.thousandths kept.0 length.0 }
{
    1000 * (kept.0 as u64) / (length.0 as u64)
}

// Below 3.3 × 10^14, so that 10,000 times it still fits.
fn fifth(x: u64) -> u64
    requires { x ≤ 800 }
    ensures { result ≡ x ^ 5 }
{
    x.pow(5)
}

// The weight of a quantum that is met, by its f.
fn weight_met(f: u64, share: u32) -> u32
    requires { (share ≤ 799) × (share ≤ f) }
    ensures { result ≡ P.weight_met paper f share }
{
    if 800 <= f {
        return 20000;
    }
    let required = share as u64;
    let n = f - required;
    let d = 800 - required;
    let top = fifth(n);
    let bottom = fifth(d);
    10000 + (10000 * top / bottom) as u32
}

// The weight of a kept time K in a length L with a required share p, with no lapse limit. On the shares of the card it is looked up.
pub fn weight_of(kept: Millis, length: Millis, share: u32) -> u32
    requires { (1 ≤ length.0) × (share ≤ 799) }
    ensures { result ≡ P.weight paper kept.0 length.0 share }
{
    let f = thousandths(kept, length);
    if weights::has(share) {
        return weights::look_up(f, share);
    }
    if reaches(kept, length, share) {
        weight_met(f, share)
    } else {
        0
    }
}

// The weight of a filled cell: 0 with too many lapses.
pub fn weight(cell: Cell) -> u32
    requires { CellBounds paper cell }
    ensures { result ≡ cell_weight paper cell }
{
    let kept = cell.kept;
    let length = cell.length;
    if within_lapse_limit(cell.allowed, cell.lapses) {
        return weight_of(kept, length, cell.share);
    }
    0
}

// A filled cell with its verdict and weight.
pub fn view(cell: Cell) -> CellView
    requires { CellBounds paper cell }
    ensures { result ≡ view_of paper cell }
{
    let met = met(cell);
    let weight = weight(cell);
    CellView { cell, met, weight }
}
