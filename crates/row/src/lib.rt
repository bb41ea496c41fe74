// The row: read from words or from the leading bytes of a session, and chosen from the two lent tables.
#![tactic(auto)]

ghost use Rattle.std.specs.Prelude.{◌≡◌, ◌+◌, ◌*◌, ◌≤◌, length, MatchOption};
ghost use Rattle.rules.specs.Terms.{paper};
ghost use Rattle.rules.specs.Rows.{good_length, good_row, as_read};
ghost use Rattle.rules.specs.Answers.{shown_row};
ghost use Rattle.rules.specs.Causes.{read_row};
ghost use Rattle.rules.specs.Session.{leading_words, leading_price};
ghost use Rattle.rules.specs.Choosing.{row_words, is_for, first_row, chosen_row};
ghost use Rattle.row.specs.Starts.{start_in, chosen_start};
ghost use Rattle.row.specs.Internal.{NoRowFor, FirstRowAt};

use ranges::between;
use rules::{Contracts, Millis, Refusal, Row, SpreadRule, Steps};

// Whether L is in a row's range.
pub fn is_length(l: u32) -> bool
    ensures { result ≡ good_length l }
{
    between(1000, 86400000, l) & (l % 1000 == 0)
}

// Whether each word of a row is in its range.
fn is_good(row: Row) -> bool
    ensures { result ≡ good_row paper row }
{
    let length = row.length;
    let minimum = row.minimum;
    between(1, 2, row.expiry)
        & (row.quantum <= 2)
        & is_length(length.0)
        & between(1, 100000, minimum.0)
        & (row.a <= 100000)
        & (row.b <= 1000000)
        & between(1, 799, row.share)
}

// The row as open reads it: a strike's leaves a and b unread.
fn as_read(row: Row, spread: SpreadRule) -> Row
    ensures { result ≡ as_read spread row }
{
    match spread {
        SpreadRule::Settled(_) => row,
        SpreadRule::OfStrike(_) => Row { a: 0, b: 0, ..row },
    }
}

// Reading a row for an open that is given SP or a strike: the row, or refusal 1 or 2.
pub fn read(words: &[u32], spread: SpreadRule) -> Result<Row, Refusal>
    ensures { shown_row result ≡ read_row paper spread words.now }
{
    if words.len() != 7 {
        return Err(Refusal::RowNotSevenWords);
    }
    let row = Row {
        expiry: words[0],
        quantum: words[1],
        length: Millis(words[2]),
        minimum: Contracts(words[3]),
        a: words[4],
        b: words[5],
        share: words[6],
    };
    if is_good(as_read(row, spread)) {
        return Ok(row);
    }
    Err(Refusal::RowWordOutOfRange)
}

// The head of a session, 32 bytes: the row's seven words, then SP.
pub fn leading_words(head: &[u8]) -> [u32; 7]
    requires { 32 ≤ length head.now }
    ensures { result ≡ leading_words head.now }
{
    [
        words::word_at(head, 0),
        words::word_at(head, 4),
        words::word_at(head, 8),
        words::word_at(head, 12),
        words::word_at(head, 16),
        words::word_at(head, 20),
        words::word_at(head, 24),
    ]
}

// SP in the head of a session, in two's complement.
pub fn leading_price(head: &[u8]) -> Steps
    requires { 32 ≤ length head.now }
    ensures { result ≡ leading_price head.now }
{
    words::to_steps(words::word_at(head, 28))
}

// Whether the row counted k from 0 has that expiry and quantum.
fn is_for(table: &[u32], k: usize, expiry: u32, quantum: u32) -> bool
    requires { 7 * k + 7 ≤ length table.now }
    ensures { result ≡ is_for expiry quantum (row_words table.now k) }
{
    let at = 7 * k;
    (table[at] == expiry) & (table[at + 1] == quantum)
}

// The first full row with that expiry and quantum, counted from 0.
fn find(table: &[u32], expiry: u32, quantum: u32) -> Option<usize>
    ensures { MatchOption result (NoRowFor expiry quantum table.now) (FirstRowAt expiry quantum table.now) }
{
    for k in 0..table.len() / 7 {
        if is_for(table, k, expiry, quantum) {
            return Some(k);
        }
    }
    None
}

// The seven words of that row, or an empty part.
fn first(table: &[u32], expiry: u32, quantum: u32) -> &[u32]
    ensures words { result.now ≡ first_row expiry quantum table.now }
    ensures place { result.ref_ptr ≡ start_in expiry quantum table.entry.ref_ptr table.now }
{
    match find(table, expiry, quantum) {
        None => &table[0..0],
        Some(k) => &table[7 * k..7 * k + 7],
    }
}

// Choosing the row: seven words of one of two lent tables, or an empty part; and of which table it is a part, and where it starts.
pub fn choose<'r>(
    usual: &'r [u32],
    holiday: &'r [u32],
    is_holiday: bool,
    expiry: u32,
    quantum: u32,
) -> &'r [u32]
    ensures words { result.now ≡ chosen_row is_holiday expiry quantum usual.now holiday.now }
    ensures place { result.ref_ptr ≡ chosen_start is_holiday expiry quantum usual.entry.ref_ptr usual.now holiday.entry.ref_ptr holiday.now }
{
    if !is_holiday {
        return first(usual, expiry, quantum);
    }
    let part = first(holiday, expiry, quantum);
    if part.is_empty() {
        return first(usual, expiry, quantum);
    }
    part
}
