//! Tickets.

/// A ticket that was issued and has not ended: its number, the version of the program that judges
/// under it, and the period in which it was issued, at which moment, in milliseconds.
#[derive(Clone, Copy, Debug, PartialEq, Eq)]
pub struct OpenTicket {
    pub number: u64,
    pub version: u64,
    pub period: u64,
    pub moment: u64,
}
