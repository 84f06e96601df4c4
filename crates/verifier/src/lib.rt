//! Accepts the programs that are safe on every outcome's record: each ends within its stated budget,
//! with an answer of at most 2, whatever the record.
#![tactic(auto)]

mod analysis;
mod awaited;
mod classifier;
mod counted;
pub mod laws;
mod nones;
mod passes;
mod refusal;
mod sending;
mod verified;
mod width;

pub use analysis::{States, analyse};
pub use classifier::default_classifier;
pub use counted::verify_counted;
pub use refusal::Refusal;
pub use verified::{Verified, verify};
