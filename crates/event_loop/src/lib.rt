//! An event loop: a worker serves many connections of a listener, each in turns, as it becomes ready.
#![tactic(auto)]

mod accepting;
mod departing;
mod due;
mod failure;
mod hub;
mod limits;
mod linger;
mod listening;
mod meeting;
mod opened;
mod patience;
mod waits;
mod working;

pub use departing::{Cause, Closing, Departures};
pub use failure::ListenerFailed;
pub use limits::{Limits, SharedCounts};
pub use listening::{Accepted, Listener};
pub use meeting::Meeting;
pub use working::work;
