// The six failure counts and the fee of a month's cells.
#![tactic(auto)]

ghost use Rattle.std.specs.Prelude.{◌≡◌, true, ℕ, ◌/◌, ◌≤◌, ◌<◌, min, ltb, length, List, map, if◌then◌else◌};
ghost use Rattle.rules.specs.declared.Cell.{Cell};
ghost use Rattle.lists.specs.Lists.{sum, any};
ghost use Rattle.rules.specs.Units.{kopecks};
ghost use Rattle.rules.specs.Terms.{paper};
ghost use Rattle.rules.specs.Bounds.{CellBounds};
ghost use Rattle.rules.specs.Pay.{cell_failed, all_failures};
ghost use Rattle.rules.specs.Pay as P;
ghost use Rattle.rules.specs.Cells.{cell_at};
ghost use Rattle.pay.specs.Months.{HoldsGood, many_of};

use rules::{Cell, Kopecks};

// 1 for a filled cell that is failed.
pub fn tally(cell: Cell) -> u32
    ensures { (result ≡ (if cell_failed paper cell then 1 else 0)) × (result ≤ 1) }
{
    let filled = cell.filled;
    if !filled {
        return 0;
    }
    if verdict::met(cell) { 0 } else { 1 }
}

// Where a month's 186 cells are read from, one at a time: their array here, and their words in `cells_in_place`.
pub trait MonthCells {
    // Whether a cell can be read.
    ghost readable: { Self → Type 0 };

    // Whether these are the cells.
    ghost holds: { Self → List Cell → Type 0 };

    // The cell at a place.
    fn at(&self, place: usize) -> Cell
        requires readable { readable self.now }
        requires inside { place < 186 }
        ensures { (cells : List Cell) → holds self.now cells → result ≡ cell_at cells place };

    ghost many: { (m : Self) (cells : List Cell) → readable m → holds m cells → length cells ≡ 186 };
}

impl MonthCells for [Cell; 186] {
    ghost readable = { λ cells. length cells ≡ 186 };

    ghost holds = { λ array cells. array ≡ cells };

    ghost many = { many_of };

    fn at(&self, place: usize) -> Cell {
        self[place]
    }
}

// The failure count of one series: its cells are 6 apart, one for each day.
fn failed_in<M: MonthCells>(month: &M, expiry: u32, quantum: u32) -> u32
    requires readable { M.readable month.now }
    requires series { (1 ≤ expiry) × (expiry ≤ 2) × (quantum ≤ 2) }
    ensures { (cells : List Cell) → M.holds month.now cells → result ≡ P.failures paper cells expiry quantum }
{
    let first = (expiry as usize - 1) * 3 + quantum as usize;
    let mut count: u32 = 0;
    for day in 0..31 {
        count += tally(month.at(day * 6 + first));
    }
    count
}

// Each series' failure count: expiry 1, quantum 0, 1, 2, then expiry 2.
pub fn failures<M: MonthCells>(month: &M) -> [u32; 6]
    requires { M.readable month.now }
    ensures { (cells : List Cell) → M.holds month.now cells → result ≡ all_failures paper cells }
{
    let a = failed_in(month, 1, 0);
    let b = failed_in(month, 1, 1);
    let c = failed_in(month, 1, 2);
    let d = failed_in(month, 2, 0);
    let e = failed_in(month, 2, 1);
    let f = failed_in(month, 2, 2);
    [a, b, c, d, e, f]
}

// Whether a series has more than 15 failed cells.
pub fn too_many(counts: [u32; 6]) -> bool
    ensures { result ≡ any (λ (n : ℕ). ltb 15 n) counts }
{
    counts.iter().any(|&n| 15 < n)
}

// A charge, in the 37 bits that its range needs: so that what the cells earn fits 64 bits, whatever words a caller lends.
fn charge(k: Kopecks) -> u64
    requires { k.0 ≤ 100000000000 }
    ensures { result ≡ k.0 }
{
    k.0 % 137438953472
}

// (2A + 3P) × w of a filled cell, 0 of a blank one.
pub fn earned(cell: Cell) -> u64
    requires { cell.filled ≡ true → CellBounds paper cell }
    ensures { (result ≡ P.earned paper cell) × (result ≤ 10000000000000000) }
{
    if verdict::is_filled(cell) {
        let active = cell.active;
        let passive = cell.passive;
        let charges = 2 * charge(active) + 3 * charge(passive);
        charges * (verdict::weight(cell) as u64)
    } else {
        0
    }
}

// What all cells earn together, not yet divided.
fn earned_in<M: MonthCells>(month: &M) -> u64
    requires readable { M.readable month.now }
    requires good { HoldsGood (M.holds month.now) }
    ensures { (cells : List Cell) → M.holds month.now cells → result ≡ sum (map (P.earned paper) cells) }
{
    let mut total: u64 = 0;
    for i in 0..186 {
        total += earned(month.at(i));
    }
    total
}

// The fee by what all cells earn together, rounded down once and capped.
pub fn fee_of(sum: u64) -> Kopecks
    ensures { result ≡ kopecks (min (sum / 80000) 120000000) }
{
    Kopecks((sum / 80000).min(120000000))
}

// The month's fee, by its failure counts: rounded down once, for all cells together.
pub fn fee_by<M: MonthCells>(month: &M, counts: [u32; 6]) -> Kopecks
    requires readable { M.readable month.now }
    requires good { HoldsGood (M.holds month.now) }
    ensures { (cells : List Cell) → M.holds month.now cells → counts ≡ all_failures paper cells → result ≡ kopecks (P.fee paper cells) }
{
    if too_many(counts) {
        return Kopecks(0);
    }
    fee_of(earned_in(month))
}

// The month's fee.
pub fn fee<M: MonthCells>(month: &M) -> Kopecks
    requires readable { M.readable month.now }
    requires good { HoldsGood (M.holds month.now) }
    ensures { (cells : List Cell) → M.holds month.now cells → result ≡ kopecks (P.fee paper cells) }
{
    fee_by(month, failures(month))
}
