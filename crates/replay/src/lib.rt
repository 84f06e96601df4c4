//! Replays: events of a service, one a line, and what each is answered with.
#![tactic(auto)]

mod answering;
mod asking;
mod error;
mod lines;
mod replaying;

pub use error::ReplayError;
pub use replaying::{ReplayEnded, replay, replay_with};
