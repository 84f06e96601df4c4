//! Laws of services in the words of those who use them: what is true of every legal history of a circuit breaker, its
//! bulkhead, its tickets and its journal.
#![tactic(auto)]

pub mod laws;
