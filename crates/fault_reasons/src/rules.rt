//! The rules that refused programs break, in words.
use bpf_profile::{FRONT_OFFSET, Helper, Instruction, Layout};
use refusals::RefusalNumber;
use std::alloc::AllocError;

/// Returns the rule that a refusal of a program is about, where it depends on nothing else.
fn plain_rule(number: RefusalNumber) -> Option<&'static str> {
    Some(match number {
        RefusalNumber::UnknownOpcode => {
            "the opcode is one of RFC 9669, and the second slot of lddw stands behind the first"
        }
        RefusalNumber::BadField => {
            "fields that the instruction doesn't use are zero, and the others have listed values"
        }
        RefusalNumber::BadRegister => "the registers are r0 to r10, and r10 is not written",
        RefusalNumber::BadTail => "lddw has a second slot",
        RefusalNumber::LeftOut => "the instruction is one that the profile has",
        RefusalNumber::BackJump => "jumps go forward",
        RefusalNumber::JumpOut => "jumps stay in the program",
        RefusalNumber::IntoTail => "no jump leads to the second slot of lddw",
        RefusalNumber::FallsOff => "each path ends with exit",
        RefusalNumber::Unreachable =>
            "each instruction is reached, from the one before or by a jump",
        RefusalNumber::UnsetRegister => "a register is set on every path before it is read",
        RefusalNumber::PointerUsed => {
            "a pointer is no number, and is stored and loaded as a whole"
        }
        RefusalNumber::BadPointerSum => "a pointer to the stack moves by known numbers alone",
        RefusalNumber::NotPointer => "loads and stores go through pointers",
        RefusalNumber::Misaligned => "the place of an access is a multiple of its size",
        RefusalNumber::ContextWrite => "the context is read only",
        RefusalNumber::UnsetStack =>
            "bytes of the stack are set on every path before they are loaded",
        RefusalNumber::HelperUnknown => "the helper functions are 1 to 4",
        RefusalNumber::AnswerRange => "at exit r0 is a number of at most 2",
        _ => return None,
    })
}

/// Appends which arguments a helper function takes.
fn push_arguments(text: &mut String, helper: u32, layout: Layout) -> Result<(), AllocError> {
    let bytes = "a pointer to the stack, and r2 a known number from 1 to 32, of bytes in the stack";
    match Helper::with_number(helper) {
        Some(Helper::Fact) => writeln!(text, "rule: for call 1, r1 is a number of at most 15"),
        Some(Helper::FrontByte) => {
            let most = layout.context_size() - FRONT_OFFSET as u64 - 1;
            writeln!(text, "rule: for call 2, r1 is a number of at most {most}")
        }
        Some(Helper::CopyTag) => writeln!(text, "rule: for call 3, r1 is {bytes}"),
        Some(Helper::TagStarts) => writeln!(text, "rule: for call 4, r1 is {bytes} that are set"),
        None => Ok(()),
    }
}

/// Appends a line on the rule that a refusal is about, where an instruction stands at its slot.
pub(crate) fn push_rule(
    text: &mut String,
    number: RefusalNumber,
    layout: Layout,
    instruction: Option<&Instruction>,
) -> Result<(), AllocError> {
    if let Some(rule) = plain_rule(number) {
        return writeln!(text, "rule: {rule}");
    }
    match (number, instruction) {
        (RefusalNumber::OutOfBounds, _) => {
            let last = layout.context_size() - 1;
            writeln!(
                text,
                "rule: the context has the bytes 0 to {last}, the stack -512 to -1"
            )
        }
        (RefusalNumber::HelperArgument, Some(Instruction::Call { helper })) => {
            push_arguments(text, *helper, layout)
        }
        _ => Ok(()),
    }
}
