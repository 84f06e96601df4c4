//! A list that only proofs read: what a program gave away, piece after piece, is remembered by it without
//! a byte.
#![tactic(auto)]

mod list;

pub use list::GhostList;
