//! What a server prints before it serves, how it ended, and listening on an address.
#![tactic(auto)]

mod lines;
mod listening;
mod status;

pub use lines::{notify_lost_output, print_text, refuse, refuse_for};
pub use listening::listen;
pub use status::ServerStatus;
