//! The BPF profile of RFC 9669 that classifiers are written in: its definitions, in `specs/`, and
//! the plain types that the crates above share.
#![tactic(auto)]

mod fields;
mod helper;
mod instruction;
pub mod laws;
mod layout;
mod limits;
mod machine;
mod opcode;
mod register;
mod slot;

pub use helper::Helper;
pub use instruction::{
    ByteOrder, Comparison, Extension, Instruction, Operand, Operation, Size, Width,
};
pub use layout::Layout;
pub use limits::{
    FACT_COUNT, FRONT_OFFSET, FRONT_SIZE, MOST_SLOTS, MOST_TAG_BYTES, RECORD_SIZE, STACK_SIZE,
};
pub use machine::{Cell, Region, TrapReason, Value, Verdict};
pub use opcode::{Opcode, Source};
pub use register::Register;
pub use slot::{Slot, instruction_at};
