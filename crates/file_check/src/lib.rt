//! The command `check` of the program `sidecar`: whether a server can serve by a file. It opens no service, and listens
//! nowhere.
#![tactic(auto)]

mod checking;

pub use checking::{check_path, check_text};
