//! The abstract state of the machine before an instruction, over any domain, and the transfer function that
//! says what the instruction makes of it.
#![tactic(auto)]

mod calls;
pub mod laws;
mod state;
mod transfer;

pub use state::AbsState;
