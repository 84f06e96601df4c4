//! Runs verified programs on outcomes' records, and ties what was judged to its program and record.
#![tactic(auto)]

mod access;
mod calls;
mod continuation;
mod effect;
mod execution;
mod machine;
mod memory;
mod registers;
mod stackless;
mod step;
mod work;

pub use bpf_profile::Verdict;
pub use execution::run;
pub use work::{Judged, judge};
