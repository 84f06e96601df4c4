//! What the operations and the comparisons make of words, for all that run programs: the plain machine
//! and the fast one.
#![tactic(auto)]

mod jumps;
mod operations;

pub use jumps::{holds, target_of};
pub use operations::{
    arithmetic, converted, extended, low32, moved_signed, negation, sign_extended,
};
