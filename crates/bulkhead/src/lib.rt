//! A bulkhead: at most so many calls at once (Bulkhead in the Resilience4j documentation, with a maximum
//! wait of 0).
#![tactic(auto)]

mod places;

pub use places::Bulkhead;
