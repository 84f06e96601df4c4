//! Some instructions in a row, each from what is known after the one before.
use super::{CONTEXT_SIZE, Found, at_entry, minus, register};
use crate::checks::is_refusal;
use abs_states::AbsState;
use bpf_profile::{Comparison, Extension, Instruction, Operand, Operation, Register, Size, Width};
use refusals::RefusalNumber;
use std::alloc::Global;
use std::process::Abort;

/// A store of one byte so many bytes before the stack's end.
fn store_byte(bytes_before: u64, byte: u64) -> Instruction {
    Instruction::Store {
        size: Size::Byte,
        base: Register::new(10),
        offset: minus(bytes_before),
        operand: Operand::Immediate(byte),
    }
}

fn arithmetic(operation: Operation, destination: Register, operand: Operand) -> Instruction {
    Instruction::Arithmetic {
        operation,
        width: Width::Bits64,
        destination,
        operand,
    }
}

/// What is known after all of these instructions, on the way to the next slot each.
fn followed(rt: &impl Abort, alloc: Global, instructions: &[Instruction]) -> Found {
    let mut state = at_entry(rt, alloc);
    for instruction in instructions {
        state.transfer(CONTEXT_SIZE, false, instruction)?;
    }
    Ok(state)
}

fn refusal_of(found: Found) -> Option<RefusalNumber> {
    match found {
        Ok(_) => None,
        Err(refusal) => Some(refusal),
    }
}

/// Checks why some instructions are refused, if they are.
fn ends(
    rt: &impl Abort,
    alloc: Global,
    instructions: &[Instruction],
    wanted: Option<RefusalNumber>,
) {
    is_refusal(rt, refusal_of(followed(rt, alloc, instructions)), wanted);
}

/// The last eight bytes of the stack are pointed at by R1.
fn point() -> Instruction {
    arithmetic(Operation::Move, Register::new(1), register(10))
}

/// R1 points eight bytes further down.
fn go_down() -> Instruction {
    let distance = Operand::Immediate(minus(8));
    arithmetic(Operation::Add, Register::new(1), distance)
}

/// There are two bytes to compare.
fn count_two() -> Instruction {
    arithmetic(Operation::Move, Register::new(2), Operand::Immediate(2))
}

#[test]
fn a_tag_is_compared_with_two_bytes(rt: HostRuntime) {
    let alloc = rt.alloc();
    ends(
        &rt,
        alloc,
        &[
            store_byte(8, 112),
            store_byte(7, 97),
            point(),
            go_down(),
            count_two(),
            Instruction::Call { helper: 4 },
        ],
        None,
    );
    // Without the second byte.
    ends(
        &rt,
        alloc,
        &[
            store_byte(8, 112),
            point(),
            go_down(),
            count_two(),
            Instruction::Call { helper: 4 },
        ],
        Some(RefusalNumber::HelperArgument),
    );
}

/// A load of a byte or a word from the context.
fn load(size: Size, destination: Register, base: Register, offset: u64) -> Instruction {
    Instruction::Load {
        size,
        extension: Extension::Zero,
        destination,
        base,
        offset,
    }
}

/// A comparison of R0 with the word 1.
fn branch(comparison: Comparison) -> Instruction {
    Instruction::Branch {
        comparison,
        width: Width::Bits64,
        left: Register::new(0),
        right: Operand::Immediate(1),
        distance: 1,
    }
}

/// Checks whether a byte may be the answer once it is compared.
fn answers(rt: &impl Abort, alloc: Global, comparison: Comparison, wanted: Option<RefusalNumber>) {
    let load = load(Size::Byte, Register::new(0), Register::new(1), 64);
    ends(
        rt,
        alloc,
        &[load, branch(comparison), Instruction::Exit],
        wanted,
    );
}

#[test]
fn an_answer_is_known_where_it_was_compared(rt: HostRuntime) {
    let alloc = rt.alloc();
    answers(&rt, alloc, Comparison::NotEqual, None);
    answers(
        &rt,
        alloc,
        Comparison::Equal,
        Some(RefusalNumber::AnswerRange),
    );
}

/// Checks whether the context is still at hand in a register, once R6 keeps it and a helper is called.
fn is_kept(rt: &impl Abort, alloc: Global, base: Register, wanted: Option<RefusalNumber>) {
    let keep = arithmetic(Operation::Move, Register::new(6), register(1));
    let fact = arithmetic(Operation::Move, Register::new(1), Operand::Immediate(15));
    let call = Instruction::Call { helper: 1 };
    let load = load(Size::DoubleWord, Register::new(7), base, 8);
    ends(rt, alloc, &[keep, fact, call, load], wanted);
}

#[test]
fn the_context_is_kept_over_a_call(rt: HostRuntime) {
    let alloc = rt.alloc();
    is_kept(&rt, alloc, Register::new(6), None);
    is_kept(
        &rt,
        alloc,
        Register::new(1),
        Some(RefusalNumber::UnsetRegister),
    );
}
