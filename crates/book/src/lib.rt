//! The book of a service: its circuit breaker, its bulkhead, its open tickets and its journal, as one
//! legal history.
#![tactic(auto)]

mod acceptance;
mod books;
mod calls;
mod changes;
mod cutting;
mod events;
mod found;
pub mod laws;
mod machine;
mod paging;
mod parts;
mod plans;
mod rolling;
mod settling;

pub use acceptance::Acceptance;
pub use books::Book;
pub use calls::{Apply, Call, Cut, Look, Page, Read, Roll};
pub use events::{Entry, Event};
pub use service_profile::{
    BadConfig, Config, ConfigField, ConfigParts, Fate, Note, OpenTicket, Reading, Reply,
    SlidingWindowType, State, Totals,
};
