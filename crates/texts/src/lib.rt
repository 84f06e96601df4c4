//! Texts that several crates read or print: JSON, hexadecimal, the outcomes that JSON describes, and the words for
//! verdicts.
#![tactic(auto)]

mod hexadecimal;
mod json_reader;
mod json_text;
mod outcomes;
mod owned_values;
mod padded_bytes;
mod verdicts;

pub use hexadecimal::hex_bytes;
pub use json_reader::JsonReader;
pub use json_text::json;
pub use outcomes::{BadField, read_outcome};
pub use verdicts::verdict_name;
