// Event records, one after the other, on the words of a month, in place: the same as that many event calls, up to the first one that is
// refused.
//
// The records go through `quantum_in_place::step`, as an event call does, and the count of accepted calls moves once, after the last one.
#![tactic(auto)]

ghost use Rattle.std.specs.Prelude.{◌≡◌, [], ◌∷◌, ◌+◌, ◌*◌, ◌/◌, ◌≤◌, eqb, length, get_or, if◌then◌else◌};
ghost use Rattle.rules.specs.Changes.{count_after};
ghost use Rattle.lent.specs.Words.{low, high};
ghost use Rattle.quantum_in_place.specs.Events.{HoldsQuantum};
ghost use Rattle.month.specs.Words.{HoldsMonth};
ghost use Rattle.records_in_place.specs.Records.{SendsRecords};
ghost use Rattle.records_in_place.specs.Internal.{RunsQuantum};

use month::{CELLS_AT, QUANTUM_AT};

// How many records were taken, and the number of what refused the next one, or 0.
#[derive(Clone, Copy)]
pub struct Taken {
    pub count: u64,
    pub refusal: u32,
}

// The records before a byte are taken, and the next one is refused, or none is left.
fn ended(at: usize, refusal: u32) -> Taken
    ensures { (result.count ≡ at / 20) × (result.refusal ≡ refusal) }
{
    Taken {
        count: (at / 20) as u64,
        refusal,
    }
}

// The records on the 598 words of an open quantum. Bytes after the full records, and after the limit, are one more record, which 15
// refuses.
fn run(words: &mut [u32], hints: &mut [u8], records: &[u8]) -> Taken
    requires { HoldsQuantum words.old × (length words.old ≡ 598) × (length hints.old ≡ 2048) }
    ensures { RunsQuantum words.old records.now words.new result × (result.count ≤ 4000000000) × (result.count ≡ 0 → hints.new ≡ hints.old) }
{
    let mut at: usize = 0;
    let full = 20 * numbers::min_length(records.len() / 20, 4000000000);
    while at < full {
        let fields = record::fields_of(&records[at..at + 20]);
        let n = quantum_in_place::step(words, hints, fields);
        if 0 < n {
            return ended(at, n);
        }
        at += 20;
    }
    if at < records.len() {
        return ended(at, 15);
    }
    ended(at, 0)
}

// The count of accepted calls with so many more, modulo 2^64.
fn counted(count: u64, more: u64) -> u64
    ensures { result ≡ count_after more count }
{
    count.wrapping_add(more)
}

// So many more accepted calls, in the count's two words.
fn count_on(words: &mut [u32], more: u64)
    requires { length words.old ≡ 2 }
    ensures { words.new ≡ low (count_after more (get_or words.old 0 0 + 4294967296 * get_or words.old 1 0)) ∷ high (count_after more (get_or words.old 0 0 + 4294967296 * get_or words.old 1 0)) ∷ [] }
{
    let count = counted(lent::wide(words[0], words[1]), more);
    words[0] = lent::low(count);
    words[1] = lent::high(count);
}

// With no quantum open the first record is refused by 7, whatever its bytes.
fn idle(records: &[u8]) -> Taken
    ensures { (result.count ≡ 0) × (result.refusal ≡ (if eqb (length records.now) 0 then 0 else 7)) }
{
    if records.len() == 0 {
        return Taken {
            count: 0,
            refusal: 0,
        };
    }
    Taken {
        count: 0,
        refusal: 7,
    }
}

// The records on the words of a month. Where none is taken the hints are as they were.
pub fn send(words: &mut [u32], hints: &mut [u8], records: &[u8]) -> Taken
    requires { HoldsMonth words.old × (2464 ≤ length words.old) × (length hints.old ≡ 2048) }
    ensures { SendsRecords words.old records.now words.new result × (result.count ≤ 4000000000) × (result.count ≡ 0 → hints.new ≡ hints.old) }
{
    if words[0] == 0 {
        return idle(records);
    }
    let taken = run(&mut words[QUANTUM_AT..CELLS_AT], hints, records);
    let more = taken.count;
    count_on(&mut words[4..6], more);
    taken
}
