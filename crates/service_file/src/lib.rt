//! The file of `sidecar serve`: a JSON object with the address to listen on, the workers, how they keep the books, how
//! tickets are numbered, what its log tells, and the services with their configurations and programs.
#![tactic(auto)]

mod file;
mod journals;
mod keepers;
mod limits;
mod logging;
mod mistakes;
mod names;
mod numbering;
mod services;
mod settings;

pub use file::FILE_KEYS;
pub use keepers::Keeper;
pub use limits::OPEN_LIMITS;
pub use logging::Logging;
pub use mistakes::{FileMistake, ServiceMistake};
pub use names::COUNTS;
pub use numbering::Tickets;
pub use services::SERVICE_KEYS;
pub use settings::{ServiceSettings, Settings, read_settings};
