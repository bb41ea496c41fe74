// A cell of the month by itself: while it is blank, and with new charges in place of its old ones; and the named one among the 186.
#![tactic(auto)]

ghost use Rattle.std.specs.Prelude.{◌≡◌, true, ◌<◌};
ghost use Rattle.rules.specs.Terms.{paper};
ghost use Rattle.rules.specs.Cells.{blank_cell, good_cell, place_of, cell_at};
ghost use Rattle.rules.specs.Changes.{charged};
ghost use Rattle.rules.specs.Causes.{good_charges};
ghost use Rattle.cells.specs.Named.{named_in};

use rules::{Cell, Kopecks, Millis, Refusal};

// A cell as it is at first, and after withdraw.
pub fn blank_cell() -> Cell
    ensures { result ≡ blank_cell }
{
    Cell {
        filled: false,
        kept: Millis(0),
        length: Millis(0),
        share: 0,
        allowed: 0,
        lapses: 0,
        active: Kopecks(0),
        passive: Kopecks(0),
    }
}

// Whether A and P are in their range.
pub fn both_charges(active: Kopecks, passive: Kopecks) -> bool
    ensures { result ≡ good_charges paper active passive }
{
    ranges::charge(active) & ranges::charge(passive)
}

// A cell with new charges in place of its old ones.
pub fn recharged(cell: Cell, active: Kopecks, passive: Kopecks) -> Cell
    ensures { result ≡ charged active passive cell }
{
    Cell {
        active,
        passive,
        ..cell
    }
}

// The place of a cell among the 186.
pub fn place_of(day: u32, expiry: u32, quantum: u32) -> usize
    requires { good_cell day expiry quantum ≡ true }
    ensures { result ≡ place_of day expiry quantum }
{
    ((day - 1) * 6 + ((expiry - 1) * 3 + quantum)) as usize
}

// The cell at a place.
pub fn at(cells: [Cell; 186], place: usize) -> Cell
    requires { place < 186 }
    ensures { result ≡ cell_at cells place }
{
    cells[place]
}

// The filled cell that a day, an expiry and a quantum name, and its place.
pub fn find(
    cells: [Cell; 186],
    day: u32,
    expiry: u32,
    quantum: u32,
) -> Result<(usize, Cell), Refusal>
    ensures { result ≡ named_in cells day expiry quantum }
{
    if !ranges::cell(day, expiry, quantum) {
        return Err(Refusal::ArgumentOutOfRange);
    }
    let place = place_of(day, expiry, quantum);
    let cell = at(cells, place);
    if !cell.filled {
        return Err(Refusal::CellBlank);
    }
    Ok((place, cell))
}
