//! Services that many threads ask at once, without locks. Each service's book lies in a slot, from which whoever calls it takes
//! it by one exchange; and each seat knows what it has seen of each service.
#![tactic(auto)]

mod calls;
mod closing;
mod desks;
pub mod laws;
mod reports;
mod seats;
mod service_place;
mod services;
mod sitting;
mod trying;

pub use book_slot::{Busy, Held};
pub use closing::Unclosed;
pub use desks::Desk;
pub use seats::Seat;
pub use service::Gate;
pub use service_place::ServicePlace;
pub use services::ServiceId;
