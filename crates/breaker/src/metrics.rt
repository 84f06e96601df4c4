//! What a breaker shows of itself.
use service_profile::State;

/// How a breaker stands, and what it counts.
#[derive(Clone, Copy, Debug, PartialEq, Eq)]
pub struct Metrics {
    pub state: State,
    pub period: u64,
    /// When the period began, in milliseconds.
    pub since: u64,
    /// The notes that count, those that failed, and those that were slow.
    pub total: u64,
    pub failed: u64,
    pub slow: u64,
    /// Whole percent of the notes, rounded down; None where there are fewer notes than the
    /// minimum, or no note at all.
    pub failure_rate: Option<u64>,
    pub slow_rate: Option<u64>,
}
