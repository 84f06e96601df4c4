//! From which number on the tickets of services are numbered.
ghost use Rattle.std.specs.Prelude.{◌≡◌, ◌≤◌};
ghost use Rattle.service_profile.specs.Limits.{greatest_number};
ghost use Rattle.sidecar_server.specs.Numbering.{IsFirstTicket, first_ticket_by};

use http_front::Clock;
use service_file::Tickets;

/// How many numbers a millisecond has. A service issues fewer tickets in one, on average from a start to the next.
const TICKETS_A_MS: u64 = 1_024;

/// The last moment that has numbers of its own, in milliseconds since 1970. It is in the year 2248, and its numbers are
/// the last below 2^53: readers of JSON that hold numbers as floats read all of them.
const LAST_MOMENT: u64 = (1 << 43) - 1;

/// The number of the first ticket of a start at a moment, in milliseconds since 1970.
fn first_ticket_by(moment: u64) -> u64
    ensures by { result ≡ first_ticket_by moment }
    ensures least { 1 ≤ result }
    ensures most { result ≤ greatest_number }
{
    (moment.min(LAST_MOMENT) * TICKETS_A_MS).max(1)
}

/// The number of the first ticket of each service. The clock is read only where it is asked for.
pub(crate) fn first_ticket<C: Clock>(tickets: Tickets, clock: &mut C) -> u64
    ensures first { IsFirstTicket C.ticks tickets clock.old result clock.new }
    ensures least { 1 ≤ result }
    ensures most { result ≤ greatest_number }
{
    match tickets {
        Tickets::FromOne => 1,
        Tickets::ByTheClock => first_ticket_by(clock.now_ms()),
    }
}
