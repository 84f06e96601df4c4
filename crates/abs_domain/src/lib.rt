//! Abstract domains over 64-bit words, for an analysis that covers all runs of a program at once.
//!
//! A value of a domain (an abstract value) stands for a set of words below 2^64, those that it contains.
//! Each operation is sound: its result contains whatever the same operation of RFC 9669 makes of contained
//! words. How precise the result is, the table of each domain in its `specs/` says.
#![tactic(auto)]

pub mod arithmetic;
pub mod branches;
#[cfg(test)]
mod checks;
mod domain;
mod flat;
pub mod laws;
mod operations;
mod product;
mod reduction;
#[cfg(test)]
mod tests;
pub mod words;

pub use domain::Domain;
pub use flat::Flat;
pub use operations::{Binary, Bits, Bounds, Conversion, Relation, Shift};
pub use product::Both;
