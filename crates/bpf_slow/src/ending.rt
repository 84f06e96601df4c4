//! How a run ends.
use bpf_profile::TrapReason;

/// How a run of a program ends, or that it goes on.
#[derive(Clone, Copy, Debug, PartialEq, Eq)]
pub enum End {
    /// The program ended with this answer, from 0 to 2, after so many instructions, the exit
    /// among them.
    Done(u64, u32),
    /// The step at this slot trapped. Where no instruction stands there, control reached a tail or
    /// left the program; a jump to before slot 0 leads to a word close to 2^64.
    Trap(u64, TrapReason),
    /// The program was still running after as many instructions as the limit allows.
    OutOfSteps,
}
