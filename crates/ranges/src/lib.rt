//! The domain of ranges: a word lies between two unsigned bounds.
#![tactic(auto)]

mod range;

pub use range::Range;
