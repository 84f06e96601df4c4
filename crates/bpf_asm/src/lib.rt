//! The assembler's text of programs of the BPF profile, both ways.
//!
//! An instruction is a line: its word, a blank, and its operands with a comma and a blank between
//! them, as `jge r2, 500, +2`, `ldxw r2, [r1+4]`, `stw [r10-8], -1` or `exit`. Numbers are decimal. An
//! immediate is signed, that of `lddw` and the number of a helper are unsigned, and an offset always
//! has its sign. The words, from RFC 9669's operations (sections 4 and 5), are in `words`; those of the
//! classes ALU and JMP32 end in `32`.
//!
//! The reader also takes blanks and tabs between any two tokens, a carriage return at a line's end,
//! empty lines, comments from a semicolon on, capitals, hexadecimal behind `0x`, an offset with no
//! plus, an immediate up to 4294967295 (its 32 bits), and -2^63 to 2^64-1 for `lddw`. The distance of
//! `ja32` is an offset of 32 bits.
#![tactic(auto)]

mod arguments;
mod assembly;
mod disassembly;
mod error;
pub mod laws;
mod printing;
mod reading;
mod tokens;
mod words;

pub use assembly::assemble;
pub use disassembly::disassemble;
pub use error::AsmError;
