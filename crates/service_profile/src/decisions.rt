//! What is decided of an event, and the parts of which that is made.

use crate::replies::Reply;
use crate::standings::Standing;
use bpf_profile::Verdict;

/// A reply, and where the breaker stands after it.
#[derive(Clone, Copy, Debug, PartialEq, Eq)]
pub struct Decision {
    pub reply: Reply,
    pub next: Standing,
}

/// Whether a call is permitted, and where the breaker stands then.
#[derive(Clone, Copy, Debug, PartialEq, Eq)]
pub struct Permission {
    pub given: bool,
    pub standing: Standing,
}

/// The verdict of a program on an outcome, and how many instructions it executed.
#[derive(Clone, Copy, Debug, PartialEq, Eq)]
pub struct Judgement {
    pub verdict: Verdict,
    pub steps: u32,
}
