//! What is wrong with a configuration, with the file of `sidecar serve`, or with the report of an outcome, in words for people.
//!
//! What can be used is decided by `requests` and `service_file`. The mistake that these answer gets its words here: which
//! key of which service, what stands there, and what is allowed. Nothing is decided here.
#![tactic(auto)]

mod configurations;
mod files;
mod reports;
mod services;
mod values;

pub use configurations::config_mistake;
pub use files::file_mistake;
pub use reports::report_mistake;
