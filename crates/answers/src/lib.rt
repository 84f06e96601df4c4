//! The text of what services answer, exact to the byte: replies, readings, refusals and pages as
//! compact JSON, with the HTTP status of each, the entries of the journal, and the list of services.
#![tactic(auto)]

mod entries;
pub mod laws;
mod listing;
mod members;
mod names;
mod pages;
mod responses;
mod values;

pub use listing::services_body;
pub use names::state_name;
pub use responses::{body, status};
