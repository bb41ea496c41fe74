// The cells of a month in their 1,860 lent words, ten a cell: one read, one written, one with new charges, one blank again, and what a report
// says of all of them. No more than one cell is copied at a time.
#![tactic(auto)]

ghost use Rattle.std.specs.Prelude.{◌≡◌, ◌&&◌, List, map, ◌≤◌, ◌<◌, length, set};
ghost use Rattle.rules.specs.declared.Cell.{Cell};
ghost use Rattle.lists.specs.Lists.{sum};
ghost use Rattle.rules.specs.Units.{kopecks};
ghost use Rattle.rules.specs.Terms.{paper};
ghost use Rattle.rules.specs.Cells.{blank_cell, good_cell, place_of, cell_at};
ghost use Rattle.rules.specs.Causes.{good_charges};
ghost use Rattle.rules.specs.Changes.{charged};
ghost use Rattle.rules.specs.Pay as P;
ghost use Rattle.lent.specs.Words.{cells_words};
ghost use Rattle.cells_in_place.specs.Cells.{HoldsCells, ChangesCell, many_in};

use pay::MonthCells;
use rules::{Cell, Kopecks, Refusal};

// ---- one cell

// The cell at a place.
pub fn at(words: &[u32], place: usize) -> Cell
    requires { (length words.now ≡ 1860) × (place < 186) }
    ensures { (cells : List Cell) → words.now ≡ cells_words cells → result ≡ cell_at cells place }
{
    let from = 10 * place;
    let to = from + 10;
    lent::cell_in(&words[from..to])
}

// Another cell at a place.
pub fn put(words: &mut [u32], place: usize, cell: Cell)
    requires { (length words.old ≡ 1860) × (place < 186) }
    ensures { (cells : List Cell) → words.old ≡ cells_words cells → words.new ≡ cells_words (set cells place cell) }
{
    let from = 10 * place;
    let to = from + 10;
    lent::put_cell(cell, &mut words[from..to]);
}

// New charges in place of a filled cell's old ones: the refusal's number, or 0.
pub fn charge(
    words: &mut [u32],
    day: u32,
    expiry: u32,
    quantum: u32,
    active: Kopecks,
    passive: Kopecks,
) -> u32
    requires { length words.old ≡ 1860 }
    ensures { ChangesCell words.old (good_cell day expiry quantum && good_charges paper active passive) (place_of day expiry quantum) (charged active passive) words.new result }
{
    if !cells::both_charges(active, passive) {
        return u32::from(Refusal::ArgumentOutOfRange);
    }
    if !ranges::cell(day, expiry, quantum) {
        return u32::from(Refusal::ArgumentOutOfRange);
    }
    let place = cells::place_of(day, expiry, quantum);
    let cell = at(words, place);
    if !cell.filled {
        return u32::from(Refusal::CellBlank);
    }
    put(words, place, cells::recharged(cell, active, passive));
    0
}

// The cell is blank again: the refusal's number, or 0.
pub fn withdraw(words: &mut [u32], day: u32, expiry: u32, quantum: u32) -> u32
    requires { length words.old ≡ 1860 }
    ensures { ChangesCell words.old (good_cell day expiry quantum) (place_of day expiry quantum) (λ (_ : Cell). blank_cell) words.new result }
{
    if !ranges::cell(day, expiry, quantum) {
        return u32::from(Refusal::ArgumentOutOfRange);
    }
    let place = cells::place_of(day, expiry, quantum);
    let cell = at(words, place);
    if !cell.filled {
        return u32::from(Refusal::CellBlank);
    }
    put(words, place, cells::blank_cell());
    0
}

// ---- all of them

// The cells, as `pay` reads them.
#[derive(Clone, Copy)]
struct CellWords<'a> {
    words: &'a [u32],
}

impl<'a> MonthCells for CellWords<'a> {
    ghost readable = { λ m. length m.words.now ≡ 1860 };

    ghost holds = { λ m cells. m.words.now ≡ cells_words cells };

    ghost many = { λ m cells. many_in m.words.now cells };

    fn at(&self, place: usize) -> Cell {
        at(self.words, place)
    }
}

// Each series' failure count, as `pay::failures` has them.
pub fn failures(words: &[u32]) -> [u32; 6]
    requires { length words.now ≡ 1860 }
    ensures { (cells : List Cell) → words.now ≡ cells_words cells → result ≡ P.all_failures paper cells }
{
    pay::failures(&CellWords { words })
}

// The month's fee, by its failure counts.
pub fn fee(words: &[u32], counts: [u32; 6]) -> Kopecks
    requires { HoldsCells words.now × (length words.now ≡ 1860) }
    ensures { (cells : List Cell) → words.now ≡ cells_words cells → counts ≡ P.all_failures paper cells → result ≡ kopecks (P.fee paper cells) }
{
    pay::fee_by(&CellWords { words }, counts)
}
