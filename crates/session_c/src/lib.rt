// The session's C call, in an archive of its own: here the compiler finds one caller of what it runs, and inlines it.
#![tactic(auto)]

ghost use Rattle.std.specs.Prelude.{◌≡◌};
ghost use Rattle.rules.specs.Terms.{paper};
ghost use Rattle.rules.specs.Session.{most_records, session_bytes, one_number};

// K, or 4,294,967,296 × refusal + place.
#[unsafe(no_mangle)]
pub extern "C" fn quoting_session(head: &[u8], records: &[u8]) -> u64
    ensures { result ≡ one_number (session_bytes paper most_records head.now records.now) }
{
    session::quoting_session(head, records)
}
