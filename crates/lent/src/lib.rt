// Values in words that a caller lends: a number of 64 bits in two words, a cell in ten, the month's 186 cells one after the other. Each is written at fixed places and read back.
#![tactic(auto)]

ghost use Rattle.std.specs.Prelude.{◌≡◌, List, ◌+◌, ◌*◌, eqb, length};
ghost use Rattle.rules.specs.declared.Cell.{Cell};
ghost use Rattle.lent.specs.Words.{flag_word, low as low_of, high as high_of, cell_words, cells_words};

use rules::{Cell, Kopecks, Millis};

// A number of 64 bits as two words, and back.
pub fn low(n: u64) -> u32
    ensures { result ≡ low_of n }
{
    (n % 4294967296) as u32
}

pub fn high(n: u64) -> u32
    ensures { result ≡ high_of n }
{
    (n / 4294967296) as u32
}

pub fn wide(low: u32, high: u32) -> u64
    ensures { result ≡ low + 4294967296 * high }
{
    u64::from(low) + 4294967296 * u64::from(high)
}

// ---- std has these: they go as soon as the crates that still call them say it by `u32::from`, `== 1` and `copy_from_slice`

#[tactic(auto, using(crate::proofs::Back::flag_is))]
pub fn flag(b: bool) -> u32
    ensures { result ≡ flag_word b }
{
    u32::from(b)
}

pub fn is_set(word: u32) -> bool
    ensures { result ≡ eqb word 1 }
{
    word == 1
}

// The words of one slice into another of the same length.
pub fn copy(from: &[u32], to: &mut [u32])
    requires { length to.old ≡ length from.now }
    ensures { to.new ≡ from.now }
{
    to.copy_from_slice(from);
}

// ---- cells

pub fn put_cell(cell: Cell, words: &mut [u32])
    requires { length words.old ≡ 10 }
    ensures { words.new ≡ cell_words cell }
{
    let kept = cell.kept;
    let length = cell.length;
    let active = cell.active;
    let passive = cell.passive;
    let ten = [
        u32::from(cell.filled),
        kept.0,
        length.0,
        cell.share,
        cell.allowed,
        cell.lapses,
        low(active.0),
        high(active.0),
        low(passive.0),
        high(passive.0),
    ];
    words.copy_from_slice(&ten);
}

pub fn cell_in(words: &[u32]) -> Cell
    requires { length words.now ≡ 10 }
    ensures { (c : Cell) → words.now ≡ cell_words c → result ≡ c }
{
    let kept = Millis(words[1]);
    let length = Millis(words[2]);
    let active = Kopecks(wide(words[6], words[7]));
    let passive = Kopecks(wide(words[8], words[9]));
    Cell {
        filled: words[0] == 1,
        kept,
        length,
        share: words[3],
        allowed: words[4],
        lapses: words[5],
        active,
        passive,
    }
}

pub fn put_cells(cells: [Cell; 186], words: &mut [u32])
    requires { length words.old ≡ 1860 }
    ensures { words.new ≡ cells_words cells }
{
    for i in 0..186 {
        let at = 10 * i;
        put_cell(cells[i], &mut words[at..at + 10]);
    }
}

pub fn cells_in(words: &[u32]) -> [Cell; 186]
    requires { length words.now ≡ 1860 }
    ensures { (cells : List Cell) → words.now ≡ cells_words cells → result ≡ cells }
{
    let first = cell_in(&words[0..10]);
    let mut cells = [first; 186];
    for i in 0..186 {
        let at = 10 * i;
        cells[i] = cell_in(&words[at..at + 10]);
    }
    cells
}
