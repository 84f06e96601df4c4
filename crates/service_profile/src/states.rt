//! The states of a circuit breaker.

/// A state of the CircuitBreaker of the Resilience4j documentation.
#[derive(Clone, Copy, Debug, PartialEq, Eq)]
pub enum State {
    /// Calls are permitted, and their outcomes are counted.
    Closed,
    /// Calls are refused until the wait is over.
    Open,
    /// A few calls are permitted, and their outcomes decide.
    HalfOpen,
    /// Calls are permitted, and nothing is counted.
    Disabled,
    /// Calls are permitted and counted, and the state stays.
    MetricsOnly,
    /// Calls are refused.
    ForcedOpen,
}
