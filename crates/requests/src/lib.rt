//! What services are asked for and configured by, as JSON: values under keys, configurations, and requests with their
//! reports, programs, layouts and states.
#![tactic(auto)]

mod asking;
mod configurations;
mod keys;
mod layouts;
mod programs;
mod reports;
mod transitions;
mod values;

pub use asking::{RequestKind, request};
pub use configurations::{CONFIG_KEYS, ConfigMistake, config, config_key, window};
pub use keys::{has_known_keys, is_one_of};
pub use layouts::layout;
pub use programs::program;
pub use reports::report;
pub use transitions::state;
pub use values::{number_at, text_at};
