//! What the analysis knew before a slot.
use crate::instructions::SLOT_BYTES;
use crate::reads::reads;
use crate::stack_bytes::push_stack;
use crate::values::push_register;
use abs_domain::Both;
use abs_states::AbsState;
use bpf_decode::Program;
use bpf_profile::{Instruction, Layout};
use flow_check::check;
use known_bits::KnownBits;
use ranges::Range;
use refusals::RefusalNumber;
use std::alloc::{AllocError, Global};
use verifier::{Refusal, States, analyse};

/// The domain of numbers over which programs are verified.
type Numbers = Both<Range, KnownBits>;

/// The bytes of `mov r0, 0`.
const MOVE: &[u8] = b"\xb7\0\0\0\0\0\0\0";

/// The bytes of `exit`.
const EXIT: &[u8] = b"\x95\0\0\0\0\0\0\0";

/// Returns a program without its instructions from a slot on: `mov r0, 0` and then `exit` stand in their place. Jumps go
/// forward alone: so each that stood before the slot still leads to an instruction, and the analysis knows before the slot
/// what it knew there.
fn cut(alloc: Global, bytes: &[u8], slot: u32) -> Result<Vec<u8>, AllocError> {
    let slot = slot as usize;
    let size = SLOT_BYTES * slot;
    let mut program = Vec::from_slice(alloc, bytes.get(..size).unwrap_or(bytes))?;
    program.extend_from_slice(MOVE)?;
    for _at in slot + 2..bytes.len() / SLOT_BYTES {
        program.extend_from_slice(MOVE)?;
    }
    program.extend_from_slice(EXIT)?;
    Ok(program)
}

/// Returns the states of a program, or why it is refused.
fn analysed(alloc: Global, bytes: &[u8], layout: Layout) -> Result<States<Numbers>, Refusal> {
    let program = Program::decode(alloc, bytes)?;
    let flow = check(alloc, &program)?;
    analyse(alloc, &program, &flow, layout)
}

/// Appends a line on each register that an instruction reads, and on the bytes of the stack.
fn push_state(
    text: &mut String,
    state: &AbsState<Numbers>,
    instruction: &Instruction,
) -> Result<(), AllocError> {
    let [first, second] = reads(instruction);
    if let Some(register) = first {
        push_register(text, register, state.registers.get(register))?;
    }
    if let Some(register) = second {
        push_register(text, register, state.registers.get(register))?;
    }
    push_stack(text, state, instruction)
}

/// Appends lines on what the analysis knew of what an instruction reads, which stands at a slot of a program that the
/// analysis refused there.
pub(crate) fn push_known(
    text: &mut String,
    alloc: Global,
    bytes: &[u8],
    layout: Layout,
    slot: u32,
    instruction: &Instruction,
) -> Result<(), AllocError> {
    let program = cut(alloc, bytes, slot)?;
    let states = match analysed(alloc, &program, layout) {
        Ok(states) => states,
        Err(refusal) if refusal.number == RefusalNumber::ProgramOutOfMemory => {
            return Err(AllocError);
        }
        Err(_) => return Ok(()),
    };
    match states.at(slot as usize) {
        Some(state) => push_state(text, state, instruction),
        None => Ok(()),
    }
}
