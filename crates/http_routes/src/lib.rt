//! The routes of the HTTP interface: which one a request's target asks for, on which service, and by
//! which method.
#![tactic(auto)]

pub mod laws;
mod matching;
mod numbers;
mod paths;
mod table;

pub use matching::{Destination, Routes};
pub use numbers::entry_number;
pub use paths::query_of;
pub use table::Route;
