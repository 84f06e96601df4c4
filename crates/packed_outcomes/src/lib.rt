//! Outcomes of guarded calls as they are kept: what is 0 or empty in them takes no memory.
#![tactic(auto)]

mod kept;
mod outcome;
mod spread;
mod words;

pub use outcome::PackedOutcome;
