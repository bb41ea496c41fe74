// A log of FIX messages for C: the rows of its messages as words in a lent buffer.
#![tactic(auto)]

ghost use Rattle.std.specs.Prelude.{◌≡◌, ◌<◌, length};
ghost use Rattle.c_answers.specs.Answers.{Fills};
ghost use Rattle.c_scan.specs.Scans.{scan_outcome};

fn word(n: usize) -> u32
    requires { n < 4294967296 }
    ensures { result ≡ n }
{
    n as u32
}

// Word 0: how many rows; word 1: the first byte that was not read; then the rows.
#[unsafe(no_mangle)]
pub extern "C" fn quoting_fix_scan(bytes: &[u8], tags: &[u32], words: &mut [u32]) -> u64
    ensures { Fills (scan_outcome tags.now (length words.old) bytes.now) words.old words.new result }
{
    let mut slots = [0u8; 1000];
    if !fix_tag_spans::slots_of(tags, &mut slots) {
        return c_answers::refused(3);
    }
    if 4294967295 < bytes.len() {
        return c_answers::refused(3);
    }
    let width = 4 + 2 * tags.len();
    if words.len() < 2 + width {
        return c_answers::refused(16);
    }
    let stop = fix_scan::rows(bytes, tags, &slots, words);
    let used = stop.used;
    let at = stop.at;
    words[0] = word((used - 2) / width);
    words[1] = word(at);
    used as u64
}
