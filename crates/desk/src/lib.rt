//! Services that many threads ask at once. Each service's book lies behind a lock of its own, and what all
//! callers count together is just what all journals have.
#![tactic(auto)]

mod calls;
mod closing;
mod desks;
mod kept;
mod offered;
mod reports;
mod seats;
mod service_place;
mod tokens;

pub use closing::Unclosed;
pub use desks::{Desk, ServiceId};
pub use offered::Offered;
pub use seats::Seat;
pub use service::Gate;
pub use service_place::ServicePlace;
