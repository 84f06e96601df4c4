//! The record of an outcome of a guarded call, as a classifier program sees it, built of its parts, and the helper
//! functions that a program may call on it.
#![tactic(auto)]

mod bytes;
mod fields;
mod record;
mod tag;
mod writer;

pub use fields::{Fields, Kind, Method};
pub use record::Record;
pub use tag::Tag;
