//! The commands on classifier programs: `verify` and `judge`, which verify a program and judge an
//! outcome by it, and `asm` and `dis`, which assemble and disassemble one.
#![tactic(auto)]

mod answer;
mod assembling;
mod commands;
mod error;
mod explaining;
mod hexadecimal;
mod input;
mod judging;
mod printing;

pub use answer::{Answer, CommandRefusal};
pub use commands::{Status, command};
pub use error::CommandError;
pub use printing::print;
