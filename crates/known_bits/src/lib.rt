//! The domain of known bits: each bit of a word is known to be 0, known to be 1, or unknown.
//!
//! `KnownBits` is a domain over the words of RFC 9669, section 4.1, which are below 2^64. Sums,
//! differences and products keep the lowest bits that both operands know; quotients and remainders
//! are known of known words alone; and, or, exclusive or, shifts and conversions go bit by bit.
#![tactic(auto)]

mod bitwise;
mod domain;
mod known;

pub use known::KnownBits;
