//! Why the verifier refuses a program, in words for people.
//!
//! What is refused is decided by `verifier`. Where it has refused a program, this says why: the instruction at the slot of
//! the refusal, what the analysis knew before it, and the rule that is broken. Nothing is decided by it.
#![tactic(auto)]

mod instructions;
mod reads;
mod reasons;
mod rules;
mod stack_bytes;
mod states;
mod values;

pub use reasons::fault_reason;
