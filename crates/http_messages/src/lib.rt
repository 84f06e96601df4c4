//! The messages of HTTP/1.0 and HTTP/1.1 (RFC 9112) at the front of bytes: where the head is, how long the
//! body is, what is refused, and whether a further read is made behind the message.
#![tactic(auto)]

mod fields;
mod front;
pub mod laws;
mod lengths;

pub use front::{Fault, Front, Head, HeadParser, is_head_method};
pub use lengths::decimal;
