//! The services of a desk, as an answerer over HTTP: each worker asks by a seat of its own. A desk keeps its books behind
//! locks or in slots.
#![tactic(auto)]

mod locks;
mod seated;
mod seats;
mod slots;

pub use seated::SeatedAnswerer;
pub use seats::DeskSeat;
