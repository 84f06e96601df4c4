//! The server of the program `sidecar`: it opens the services of a file, listens, and serves connections, by one
//! worker or by many.
#![tactic(auto)]

mod at_seats;
mod clock;
mod notices;
mod numbering;
mod opening;
mod pooling;
mod serving;

pub use clock::SystemClock;
pub use server_output::{ServerStatus, notify_lost_output};
pub use service_log::LogLines;
pub use serving::{ServerEnd, serve_file, serve_path};
