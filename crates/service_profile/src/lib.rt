//! Services, as their definitions and the plain types that the crates above share: states of a circuit breaker,
//! configurations, notes, tickets, replies, and in `specs/` the documented machine and legal histories
//! (CircuitBreaker and Bulkhead in the Resilience4j documentation).
#![tactic(auto)]

mod configuration;
mod decisions;
pub mod laws;
mod limits;
mod notes;
mod readings;
mod replies;
mod standings;
mod states;
mod tickets;

pub use configuration::{BadConfig, Config, ConfigField, ConfigParts, Range, SlidingWindowType};
pub use decisions::{Decision, Judgement, Permission};
pub use limits::{GREATEST_NUMBER, MOST_ENTRIES, MOST_NOTES, MOST_PAGE_ENTRIES, MOST_VERSIONS};
pub use notes::{Note, Totals};
pub use readings::Reading;
pub use replies::{Fate, Reply};
pub use standings::Standing;
pub use states::State;
pub use tickets::OpenTicket;
