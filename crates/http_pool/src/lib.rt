//! Workers: serving the connections of a listener, by one answerer and clock, or by many at once, each of which serves
//! many connections in turns.
#![tactic(auto)]

mod starting;
mod workers;

pub use event_loop::{Limits, ListenerFailed};
pub use starting::threads_at_once;
pub use workers::{DEFAULT_OPEN, Worker, pool, pool_within, serve_connections};
