//! What a book shows of itself.

use crate::states::State;
use crate::tickets::OpenTicket;

/// How a service stands.
#[derive(Clone, Copy, Debug, PartialEq, Eq)]
pub struct Reading {
    pub state: State,
    pub period: u64,
    /// The version of new tickets, and the budget of its program.
    pub version: u64,
    pub budget: u32,
    /// The notes in the window, those that failed, and those that were slow.
    pub total: u64,
    pub failed: u64,
    pub slow: u64,
    /// Whole percent of the notes, rounded down; None where there are fewer notes than the
    /// minimum, or no note at all.
    pub failure_rate: Option<u64>,
    pub slow_rate: Option<u64>,
    /// How many tickets are open, and how many places are free.
    pub open_tickets: u64,
    pub free: u64,
    /// How many calls the breaker refused in this period.
    pub not_permitted: u64,
    /// The number of the last entry, 0 before the first.
    pub entries: u64,
    /// The open ticket that was issued first, where any is open.
    pub oldest_ticket: Option<OpenTicket>,
}
