//! A circuit breaker without tickets (CircuitBreaker in the Resilience4j documentation): where it stands, a
//! sliding window over the notes of its period, and the permissions of the period that are held.
#![tactic(auto)]

mod calls;
mod counters;
pub mod laws;
mod machine;
mod metrics;
mod permissions;
mod rates;
mod sliding;

pub use machine::Breaker;
pub use metrics::Metrics;
pub use service_profile::{Config, Fate, Note, Permission, Standing, State, Totals};
pub use sliding::SlidingWindow;
