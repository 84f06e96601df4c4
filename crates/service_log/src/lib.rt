//! The log of a server: a line on standard error for each change of a service that an operator wants to know of. It is told
//! behind the calls of a service's book, where no lock and no slot is held.
#![tactic(auto)]

mod lines;
mod quota;
mod service_log;
mod sink;

pub use service_log::ServiceLog;
pub use sink::LogLines;
