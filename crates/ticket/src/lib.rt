// Tickets: the month's count of accepted calls, and whether a ticket is the present one.
//
// A crate of its own, so that an edit of the test of a ticket proves little again.
#![tactic(auto)]

ghost use Rattle.std.specs.Prelude.{◌≡◌, if◌then◌else◌};
ghost use Rattle.rules.specs.Causes.{good_ticket};
ghost use Rattle.rules.specs.Changes.{following};

use rules::{Amendment, Ticket};

// The count with one more accepted call, modulo 2^64.
pub fn next(count: u64) -> u64
    ensures { result ≡ following count }
{
    count.wrapping_add(1)
}

// The count with one more where there is one.
pub fn further(count: u64, more: bool) -> u64
    ensures { result ≡ (if more then following count else count) }
{
    if more { next(count) } else { count }
}

// Whether the ticket's amendment is the one named and its count the present one.
pub fn is_present(ticket: Ticket, amendment: Amendment, count: u64) -> bool
    ensures { result ≡ good_ticket ticket amendment count }
{
    (ticket.amendment == amendment) & (ticket.count == count)
}
