//! Reading and writing with counts of how the calls ended: by readers and writers that wait (`Counted`), and by streams whose
//! calls answer at once, also where they would have to wait (`Wire`).
#![tactic(auto)]

mod calls;
mod counted;
pub mod laws;
mod polling;
mod streams;
mod transports;
mod whole;
mod wires;

pub use counted::Counted;
pub use polling::Polling;
pub use streams::{Halves, Stream};
pub use transports::Transport;
pub use wires::Wire;
