//! How a service stands, as plain data.
use book::{OpenTicket, Reading, State};

/// How a service with the default classifier stands in CLOSED, with the first rates not shown yet.
pub const FRESH: Reading = Reading {
    state: State::Closed,
    period: 1,
    version: 1,
    budget: 6,
    total: 0,
    failed: 0,
    slow: 0,
    failure_rate: None,
    slow_rate: None,
    open_tickets: 0,
    free: 25,
    not_permitted: 0,
    entries: 0,
    oldest_ticket: None,
};

/// A part of a reading.
#[derive(Clone, Copy)]
pub enum Shown {
    In(State),
    Period(u64),
    Version(u64),
    Budget(u32),
    Total(u64),
    Failed(u64),
    /// Both rates are shown: that of failures, and that of slow calls.
    Rates(u64, u64),
    OpenTickets(u64),
    Free(u64),
    Refusals(u64),
    Last(u64),
    /// The open ticket of version 1 that was issued first: its number, its period and its moment.
    Oldest(u64, u64, u64),
}

/// The reading that differs from a fresh service's in these parts.
pub fn reading(parts: &[Shown]) -> Reading {
    let mut reading = FRESH;
    for part in parts {
        reading = with_part(reading, *part);
    }
    reading
}

fn with_part(reading: Reading, part: Shown) -> Reading {
    let mut reading = reading;
    match part {
        Shown::In(state) => reading.state = state,
        Shown::Period(period) => reading.period = period,
        Shown::Version(version) => reading.version = version,
        Shown::Budget(budget) => reading.budget = budget,
        Shown::Total(total) => reading.total = total,
        Shown::Failed(failed) => reading.failed = failed,
        Shown::Rates(failure_rate, slow_rate) => {
            reading.failure_rate = Some(failure_rate);
            reading.slow_rate = Some(slow_rate);
        }
        Shown::OpenTickets(open_tickets) => reading.open_tickets = open_tickets,
        Shown::Free(free) => reading.free = free,
        Shown::Refusals(not_permitted) => reading.not_permitted = not_permitted,
        Shown::Last(entries) => reading.entries = entries,
        Shown::Oldest(number, period, moment) => {
            reading.oldest_ticket = Some(OpenTicket {
                number,
                version: 1,
                period,
                moment,
            });
        }
    }
    reading
}
