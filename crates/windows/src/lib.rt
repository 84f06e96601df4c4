//! Sliding windows over the notes that a circuit breaker makes of calls (CircuitBreaker in the Resilience4j
//! documentation: count-based and time-based sliding window).
#![tactic(auto)]

mod buckets;
mod count;
mod outcomes;
mod sums;
mod time;
mod window;

pub use buckets::Bucket;
pub use count::CountWindow;
pub use outcomes::Outcome;
pub use service_profile::{Note, Totals};
pub use time::TimeWindow;
pub use window::Window;
