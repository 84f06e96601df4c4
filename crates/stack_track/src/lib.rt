//! The abstract state of the stack, over any domain: 64 cells of eight bytes, and the effect of loads and
//! stores on them.
#![tactic(auto)]

mod accesses;
mod cell;
pub mod laws;
mod masks;
mod stack;
mod stretches;

pub use cell::Cell;
pub use stack::StackState;
