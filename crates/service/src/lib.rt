//! What a service does that is asked: each front, whether it reads lines or HTTP, asks here, and so does whoever holds
//! a service's book, whether it is the book itself or a seat of a desk.
#![tactic(auto)]

mod asking;
mod calls;
mod gate;
mod heard;
pub mod laws;
mod log;
mod request;
mod response;
mod upkeep;

pub use asking::{ask, report};
pub use calls::{BookCalls, ONLY_SEAT};
pub use gate::{Gate, OpenGate};
pub use log::{Log, News};
pub use request::{Report, Request};
pub use response::Response;
pub use upkeep::{Journal, Upkeep, upkeep_at};
