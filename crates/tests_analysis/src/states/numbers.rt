//! Instructions that compute, move and convert (RFC 9669, sections 4.1, 4.2 and 5.4), and jumps.
ghost use Rattle.std.specs.Prelude.{◌<◌};

use super::{
    CONTEXT, CONTEXT_SIZE, MINUS_1, MINUS_8, STACK, makes, minus, number, register, sample,
    sample_with, with,
};
use crate::checks::is_true_at;
use abs_domain::Flat;
use abs_regs::AbsVal;
use bpf_profile::{ByteOrder, Instruction, Operand, Operation, Register, Size, Width};
use refusals::RefusalNumber;
use std::alloc::Global;
use std::process::Abort;

/// Checks what an instruction puts into its destination.
fn has_result(
    rt: &impl Abort,
    alloc: Global,
    instruction: &Instruction,
    destination: Register,
    value: AbsVal<Flat>,
) {
    let wanted = Ok(sample_with(rt, alloc, destination, value));
    let found = makes(
        rt,
        alloc,
        &sample(rt, alloc),
        CONTEXT_SIZE,
        instruction,
        &wanted,
    );
    is_true_at(rt, found, value);
}

/// Checks why an instruction is refused.
fn is_refused(rt: &impl Abort, alloc: Global, instruction: &Instruction, refusal: RefusalNumber) {
    let found = makes(
        rt,
        alloc,
        &sample(rt, alloc),
        CONTEXT_SIZE,
        instruction,
        &Err(refusal),
    );
    is_true_at(rt, found, refusal);
}

/// An operation, the registers of its destination and of its operand, and its result of 64 bits.
type OfRegisters = (Operation, u8, u8, AbsVal<Flat>);

/// Checks what operations make of two registers.
fn registers_are_computed(rt: &impl Abort, alloc: Global, rows: &[OfRegisters]) {
    for row in rows {
        let (operation, destination, source, wanted) = *row;
        assert!(rt; destination < 11);
        assert!(rt; source < 11);
        let destination = Register::new(destination);
        let instruction = Instruction::Arithmetic {
            operation,
            width: Width::Bits64,
            destination,
            operand: register(source),
        };
        has_result(rt, alloc, &instruction, destination, wanted);
    }
}

/// An operation, its width, the register of its destination, a word, and the result.
type OfWords = (Operation, Width, u8, u64, u64);

/// Checks what operations make of a register and a word.
fn words_are_computed(rt: &impl Abort, alloc: Global, rows: &[OfWords]) {
    for row in rows {
        let (operation, width, destination, word, wanted) = *row;
        assert!(rt; destination < 11);
        let destination = Register::new(destination);
        let instruction = Instruction::Arithmetic {
            operation,
            width,
            destination,
            operand: Operand::Immediate(word),
        };
        has_result(rt, alloc, &instruction, destination, number(wanted));
    }
}

/// -16 as a word.
const MINUS_16: u64 = 0xffff_ffff_ffff_fff0;

/// 8 bytes before the stack's end.
const BEFORE_8: AbsVal<Flat> = AbsVal::Stack(MINUS_8);

/// 24 bytes before the stack's end.
const BEFORE_24: AbsVal<Flat> = AbsVal::Stack(0xffff_ffff_ffff_ffe8);

#[test]
fn a_result_is_in_its_destination(rt: HostRuntime) {
    let alloc = rt.alloc();
    words_are_computed(
        &rt,
        alloc,
        &[
            (Operation::Add, Width::Bits64, 2, 4, 12),
            (Operation::Add, Width::Bits64, 2, MINUS_16, MINUS_8),
            (Operation::Add, Width::Bits32, 2, MINUS_16, 0xffff_fff8),
            (Operation::Move, Width::Bits64, 3, 7, 7),
            (Operation::Move, Width::Bits32, 6, MINUS_1, 0xffff_ffff),
        ],
    );
    registers_are_computed(
        &rt,
        alloc,
        &[
            (Operation::ShiftLeft, 2, 2, AbsVal::Number(Flat::One(0x800))),
            (Operation::Add, 4, 2, BEFORE_8),
            (Operation::Add, 2, 4, BEFORE_8),
            (Operation::Subtract, 4, 2, BEFORE_24),
            (Operation::Subtract, 5, 2, AbsVal::Context(Flat::One(16))),
            (Operation::Add, 5, 3, AbsVal::Context(Flat::Any)),
            (Operation::Move, 6, 4, STACK),
            (Operation::Move, 4, 5, CONTEXT),
        ],
    );
}

/// Checks why an operation with an operand is refused.
fn computes_nothing(
    rt: &impl Abort,
    alloc: Global,
    operation: Operation,
    width: Width,
    destination: u8,
    operand: Operand,
    refusal: RefusalNumber,
) {
    assert!(rt; destination < 11);
    let instruction = Instruction::Arithmetic {
        operation,
        width,
        destination: Register::new(destination),
        operand,
    };
    is_refused(rt, alloc, &instruction, refusal);
}

/// An operation, its width, the registers of its destination and of its operand, and why it is refused.
type Refused = (Operation, Width, u8, u8, RefusalNumber);

/// Checks why operations are refused.
fn registers_are_refused(rt: &impl Abort, alloc: Global, rows: &[Refused]) {
    for row in rows {
        let (operation, width, destination, source, refusal) = *row;
        assert!(rt; source < 11);
        let operand = register(source);
        computes_nothing(rt, alloc, operation, width, destination, operand, refusal);
    }
}

const UNSET_REGISTER: RefusalNumber = RefusalNumber::UnsetRegister;

const USED: RefusalNumber = RefusalNumber::PointerUsed;

const BAD_SUM: RefusalNumber = RefusalNumber::BadPointerSum;

#[test]
fn operands_are_refused(rt: HostRuntime) {
    let alloc = rt.alloc();
    let (half, whole) = (Width::Bits32, Width::Bits64);
    let (one, eight) = (Operand::Immediate(1), Operand::Immediate(8));
    computes_nothing(&rt, alloc, Operation::Add, whole, 6, one, UNSET_REGISTER);
    computes_nothing(&rt, alloc, Operation::Add, half, 4, eight, USED);
    registers_are_refused(
        &rt,
        alloc,
        &[
            (Operation::Add, Width::Bits64, 2, 6, UNSET_REGISTER),
            // An unset operand is refused before a pointer.
            (Operation::Multiply, Width::Bits64, 4, 6, UNSET_REGISTER),
            (Operation::Multiply, Width::Bits64, 6, 4, UNSET_REGISTER),
            (Operation::Move, Width::Bits64, 2, 6, UNSET_REGISTER),
            (Operation::Multiply, Width::Bits64, 2, 4, USED),
            (Operation::Subtract, Width::Bits64, 2, 4, USED),
            (Operation::Move, Width::Bits32, 2, 5, USED),
            (Operation::Add, Width::Bits64, 4, 3, BAD_SUM),
        ],
    );
}

/// A negation.
fn negate(destination: Register) -> Instruction {
    Instruction::Negate {
        width: Width::Bits64,
        destination,
    }
}

/// A move with the sign of the low bytes.
fn move_signed(width: Width, size: Size, destination: Register, source: Register) -> Instruction {
    Instruction::MoveSigned {
        width,
        size,
        destination,
        source,
    }
}

/// A conversion of the order of bytes.
fn convert(order: ByteOrder, size: Size, destination: Register) -> Instruction {
    Instruction::Convert {
        order,
        size,
        destination,
    }
}

/// Checks what an instruction makes of a number in R2.
fn converts(
    rt: &impl Abort,
    alloc: Global,
    instruction: &Instruction,
    destination: Register,
    wanted: u64,
) {
    let state = sample_with(rt, alloc, Register::new(2), number(0x1234_8091));
    let after = Ok(with(rt, alloc, &state, destination, number(wanted)));
    let found = makes(rt, alloc, &state, CONTEXT_SIZE, instruction, &after);
    is_true_at(rt, found, wanted);
}

#[test]
fn numbers_are_negated_extended_and_reordered(rt: HostRuntime) {
    let rt = &rt;
    let alloc = rt.alloc();
    let two = Register::new(2);
    let six = Register::new(6);
    converts(rt, alloc, &negate(two), two, minus(0x1234_8091));
    let whole = move_signed(Width::Bits64, Size::HalfWord, six, two);
    converts(rt, alloc, &whole, six, 0xffff_ffff_ffff_8091);
    let half = move_signed(Width::Bits32, Size::Byte, six, two);
    converts(rt, alloc, &half, six, 0xffff_ff91);
    let big = convert(ByteOrder::Big, Size::Word, two);
    converts(rt, alloc, &big, two, 0x9180_3412);
    let little = convert(ByteOrder::Little, Size::HalfWord, two);
    converts(rt, alloc, &little, two, 0x8091);
}

/// Checks why what is in a register is neither negated, extended nor reordered.
fn is_no_number(rt: &impl Abort, alloc: Global, source: u8, refusal: RefusalNumber)
    requires { source < 11 }
{
    let source = Register::new(source);
    is_refused(rt, alloc, &negate(source), refusal);
    let moved = move_signed(Width::Bits64, Size::Word, Register::new(2), source);
    is_refused(rt, alloc, &moved, refusal);
    let swapped = convert(ByteOrder::Swap, Size::DoubleWord, source);
    is_refused(rt, alloc, &swapped, refusal);
}

#[test]
fn only_numbers_are_negated_extended_and_reordered(rt: HostRuntime) {
    let alloc = rt.alloc();
    is_no_number(&rt, alloc, 6, RefusalNumber::UnsetRegister);
    is_no_number(&rt, alloc, 4, RefusalNumber::PointerUsed);
    is_no_number(&rt, alloc, 5, RefusalNumber::PointerUsed);
}

/// Checks that an immediate of 64 bits is in its destination.
fn is_replaced(rt: &impl Abort, alloc: Global, destination: Register, value: u64) {
    let instruction = Instruction::LoadImmediate { destination, value };
    has_result(rt, alloc, &instruction, destination, number(value));
}

#[test]
fn an_immediate_of_64_bits_replaces_any_value(rt: HostRuntime) {
    let alloc = rt.alloc();
    // R10 is never written.
    for register_number in 0..10u8 {
        let destination = Register::new(register_number);
        is_replaced(&rt, alloc, destination, 0);
        is_replaced(&rt, alloc, destination, 0x1_0000_0001);
        is_replaced(&rt, alloc, destination, u64::MAX);
    }
}

/// Checks that a jump changes nothing.
fn changes_nothing(rt: &impl Abort, alloc: Global, width: Width) {
    let instruction = Instruction::Jump { width, distance: 3 };
    let found = makes(
        rt,
        alloc,
        &sample(rt, alloc),
        CONTEXT_SIZE,
        &instruction,
        &Ok(sample(rt, alloc)),
    );
    is_true_at(rt, found, &width);
}

#[test]
fn a_jump_changes_nothing(rt: HostRuntime) {
    let alloc = rt.alloc();
    changes_nothing(&rt, alloc, Width::Bits32);
    changes_nothing(&rt, alloc, Width::Bits64);
}
