//! Programs of the BPF profile as bytes, slots and instructions, both ways, with the laws of both ways.
#![tactic(auto)]

mod encoding;
mod error;
mod instructions;
pub mod laws;
mod opcode;
mod program;
mod reading;
mod writing;

pub use bpf_profile::Slot;
pub use encoding::Encoded;
pub use error::DecodeError;
pub use instructions::Decoded;
pub use program::Program;
