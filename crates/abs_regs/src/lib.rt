//! The abstract state of the eleven registers, over any domain: abstract values, the effect of arithmetic
//! instructions on them, and their refinement by conditional jumps.
#![tactic(auto)]

mod address;
mod arithmetic;
mod branches;
pub mod laws;
mod operands;
mod registers;
mod value;

pub use address::Address;
pub use registers::RegFile;
pub use value::AbsVal;
