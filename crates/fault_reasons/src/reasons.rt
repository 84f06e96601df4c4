//! Why a program is refused.
use crate::instructions::{SlotLine, slot_line};
use crate::rules::push_rule;
use crate::states::push_known;
use bpf_profile::Layout;
use refusals::RefusalNumber;
use std::alloc::{AllocError, Global};
use verifier::Refusal;

/// Whether a refusal is one of the analysis.
fn is_of_analysis(number: RefusalNumber) -> bool {
    matches!(
        number,
        RefusalNumber::UnsetRegister
            | RefusalNumber::PointerUsed
            | RefusalNumber::BadPointerSum
            | RefusalNumber::NotPointer
            | RefusalNumber::OutOfBounds
            | RefusalNumber::Misaligned
            | RefusalNumber::ContextWrite
            | RefusalNumber::UnsetStack
            | RefusalNumber::HelperUnknown
            | RefusalNumber::HelperArgument
            | RefusalNumber::AnswerRange
    )
}

/// Returns the lines on a slot at which a program is refused.
fn slot_reason(
    alloc: Global,
    bytes: &[u8],
    layout: Layout,
    refusal: Refusal,
) -> Result<String, AllocError> {
    let slot = refusal.slot;
    let SlotLine { instruction, line } = slot_line(alloc, bytes, slot)?;
    let mut text = format!(in alloc; "slot {slot}: {line}")?;
    if let Some(instruction) = &instruction
        && is_of_analysis(refusal.number)
    {
        push_known(&mut text, alloc, bytes, layout, slot, instruction)?;
    }
    push_rule(&mut text, refusal.number, layout, instruction.as_ref())?;
    Ok(text)
}

/// Returns why `verify` refused a program's bytes on records of a layout, as
///
/// ```text
/// slot 0: ldxdw r2, [r10-8]
/// r10 points to the stack, at 0
/// stack bytes -8 to -1: may be unset
/// rule: bytes of the stack are set on every path before they are loaded
/// ```
///
/// Each line has an end. The lines are the instruction at the slot, or the slot's bytes where they are none; where the analysis
/// refused it, what that knew of the registers and of the bytes of the stack that the instruction reads; and the rule
/// that is broken. Nothing is returned where memory ran out for `verify`. The error is want of memory.
pub fn fault_reason(
    alloc: Global,
    bytes: &[u8],
    layout: Layout,
    refusal: Refusal,
) -> Result<Option<String>, AllocError> {
    match refusal.number {
        RefusalNumber::ProgramOutOfMemory => Ok(None),
        RefusalNumber::Length => {
            let count = bytes.len();
            Ok(Some(format!(in alloc;
                "the program has {count} bytes\nrule: a program has 1 to 4096 slots of eight bytes\n"
            )?))
        }
        _ => Ok(Some(slot_reason(alloc, bytes, layout, refusal)?)),
    }
}
