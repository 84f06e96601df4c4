//! The commands of the program `sidecar`, but for `serve`: those on classifier programs, and the replay of
//! a service's events.
#![tactic(auto)]

mod commands;

pub use classifier_commands::Status;
pub use commands::command;
