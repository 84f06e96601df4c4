//! The tagged machine of the BPF profile, run plainly: one function for each definition, written to be
//! read beside it. What runs programs fast is compared with it.
#![tactic(auto)]

mod arithmetic;
mod calls;
mod cells;
mod ending;
mod jumps;
pub mod laws;
mod machine;
mod memory;
mod progress;
mod registers;
mod step;
mod tracing;

pub use bpf_profile::TrapReason;
pub use ending::End;
pub use tracing::trace;
