//! The instruction at a slot of bytes that are perhaps no program.
use bpf_asm::disassemble;
use bpf_decode::Program;
use bpf_profile::{Instruction, Operand, instruction_at};
use refusals::RefusalNumber;
use std::alloc::{AllocError, Global};

/// How many bytes a slot has.
pub(crate) const SLOT_BYTES: usize = 8;

/// The opcode of a wide immediate, which takes two slots (RFC 9669, section 5.4).
const WIDE_IMMEDIATE: u8 = 0x18;

/// Returns the bytes of the slot at an index, and all behind it.
fn from_slot(bytes: &[u8], slot: u32) -> &[u8] {
    bytes.get(SLOT_BYTES * slot as usize..).unwrap_or(&[])
}

/// Returns the bytes of the instruction that these begin with: those of one slot, or of two. Fewer are all that there are.
fn one_instruction(bytes: &[u8]) -> &[u8] {
    let slots = match bytes.first() {
        Some(&WIDE_IMMEDIATE) => 2,
        _ => 1,
    };
    bytes.get(..SLOT_BYTES * slots).unwrap_or(bytes)
}

/// Returns the program of a single instruction, or nothing where the bytes are none.
fn program_of(alloc: Global, bytes: &[u8]) -> Result<Option<Program>, AllocError> {
    match Program::decode(alloc, bytes) {
        Ok(program) => Ok(Some(program)),
        Err(error) if error.number == RefusalNumber::ProgramOutOfMemory => Err(AllocError),
        Err(_) => Ok(None),
    }
}

/// The line of a slot, which has an end: of its instruction, or of its bytes where they are none.
#[derive(Drop)]
pub(crate) struct SlotLine {
    pub instruction: Option<Instruction>,
    pub line: String,
}

/// Returns the line of a program of one instruction.
fn instruction_line(alloc: Global, program: &Program) -> Result<SlotLine, AllocError> {
    let line = disassemble(alloc, program)?;
    let instruction = instruction_at(program.slots(), 0);
    Ok(SlotLine { instruction, line })
}

/// Returns the line of bytes that are no instruction.
fn bytes_line(alloc: Global, bytes: &[u8]) -> Result<SlotLine, AllocError> {
    let digits = hex::encode(alloc, bytes)?;
    let line = format!(in alloc; "the bytes {digits}\n")?;
    Ok(SlotLine {
        instruction: None,
        line,
    })
}

/// Returns the line of the slot at an index of a program's bytes.
pub(crate) fn slot_line(alloc: Global, bytes: &[u8], slot: u32) -> Result<SlotLine, AllocError> {
    let bytes = from_slot(bytes, slot);
    match program_of(alloc, one_instruction(bytes))? {
        Some(program) => instruction_line(alloc, &program),
        None => bytes_line(alloc, bytes.get(..SLOT_BYTES).unwrap_or(bytes)),
    }
}
