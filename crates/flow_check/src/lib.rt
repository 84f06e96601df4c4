//! The flow of a program: where control may go on after each slot, why a flow is refused, and how
//! many steps a program takes at most. All jumps go forward, which is this product's own convention
//! and not RFC 9669's.
#![tactic(auto)]

mod edges;
mod entered;
mod error;
mod faults;
mod flow;

pub use edges::Successors;
pub use error::FlowError;
pub use flow::{Flow, check, check_decoded};
