//! Arithmetic on numbers and pointers (RFC 9669, sections 4.1 and 4.2).
use super::{ANY, CONTEXT, EIGHT, MINUS_8, MINUS_16, STACK, UNSET, number};
use crate::checks::{is_found, is_refusal};
use abs_domain::Flat;
use abs_regs::AbsVal;
use bpf_profile::{ByteOrder, Operation, Size, Width};
use refusals::RefusalNumber;
use std::process::Abort;

type Value = AbsVal<Flat>;

/// The operations that neither copy nor move a pointer.
const ON_NUMBERS_ALONE: [Operation; 11] = [
    Operation::Multiply,
    Operation::Divide,
    Operation::SignedDivide,
    Operation::Or,
    Operation::And,
    Operation::ShiftLeft,
    Operation::ShiftRight,
    Operation::Modulo,
    Operation::SignedModulo,
    Operation::Xor,
    Operation::ArithmeticShiftRight,
];

/// The refusal of an operation, or None where it isn't refused.
fn refusal(operation: Operation, width: Width, a: Value, b: Value) -> Option<RefusalNumber> {
    match a.arithmetic(operation, width, b) {
        Ok(_) => None,
        Err(refusal) => Some(refusal),
    }
}

/// Checks that an operation is refused.
fn is_refused(
    rt: &impl Abort,
    operation: Operation,
    width: Width,
    a: Value,
    b: Value,
    wanted: RefusalNumber,
) {
    let found = refusal(operation, width, a, b);
    is_refusal(rt, found, Some(wanted));
}

/// Checks that an operation is refused, and with its operands exchanged, too.
fn both_are_refused(
    rt: &impl Abort,
    operation: Operation,
    width: Width,
    a: Value,
    b: Value,
    wanted: RefusalNumber,
) {
    is_refused(rt, operation, width, a, b, wanted);
    is_refused(rt, operation, width, b, a, wanted);
}

/// Checks that no operand may be unset.
fn unset_is_refused(rt: &impl Abort, operation: Operation, width: Width) {
    let unset = RefusalNumber::UnsetRegister;
    both_are_refused(rt, operation, width, UNSET, UNSET, unset);
    both_are_refused(rt, operation, width, UNSET, EIGHT, unset);
    both_are_refused(rt, operation, width, UNSET, ANY, unset);
    both_are_refused(rt, operation, width, UNSET, STACK, unset);
    both_are_refused(rt, operation, width, UNSET, CONTEXT, unset);
}

#[test]
fn unset_values_are_refused_first(rt: HostRuntime) {
    for operation in &[Operation::Add, Operation::Subtract, Operation::Multiply] {
        unset_is_refused(&rt, *operation, Width::Bits32);
        unset_is_refused(&rt, *operation, Width::Bits64);
    }
}

/// Checks that an operation takes no pointer beside a number.
fn pointers_are_refused(rt: &impl Abort, operation: Operation, width: Width) {
    let used = RefusalNumber::PointerUsed;
    // A number that isn't known makes no other refusal of it.
    both_are_refused(rt, operation, width, STACK, EIGHT, used);
    both_are_refused(rt, operation, width, CONTEXT, EIGHT, used);
    both_are_refused(rt, operation, width, STACK, ANY, used);
    both_are_refused(rt, operation, width, CONTEXT, ANY, used);
}

#[test]
fn pointers_take_part_in_no_other_operation(rt: HostRuntime) {
    for operation in &ON_NUMBERS_ALONE {
        pointers_are_refused(&rt, *operation, Width::Bits32);
        pointers_are_refused(&rt, *operation, Width::Bits64);
    }
}

#[test]
fn sums_of_32_bits_take_no_pointer(rt: HostRuntime) {
    pointers_are_refused(&rt, Operation::Add, Width::Bits32);
    pointers_are_refused(&rt, Operation::Subtract, Width::Bits32);
}

/// Checks that an operation takes no two pointers.
fn two_pointers_are_refused(rt: &impl Abort, operation: Operation, width: Width) {
    let used = RefusalNumber::PointerUsed;
    is_refused(rt, operation, width, STACK, STACK, used);
    is_refused(rt, operation, width, STACK, CONTEXT, used);
    is_refused(rt, operation, width, CONTEXT, STACK, used);
    is_refused(rt, operation, width, CONTEXT, CONTEXT, used);
}

#[test]
fn differences_of_two_pointers_or_from_a_number_are_refused(rt: HostRuntime) {
    let rt = &rt;
    let (difference, whole) = (Operation::Subtract, Width::Bits64);
    let used = RefusalNumber::PointerUsed;
    is_refused(rt, difference, whole, EIGHT, STACK, used);
    is_refused(rt, difference, whole, ANY, STACK, used);
    is_refused(rt, difference, whole, EIGHT, CONTEXT, used);
    is_refused(rt, difference, whole, ANY, CONTEXT, used);
    for operation in &[Operation::Add, Operation::Subtract, Operation::Xor] {
        two_pointers_are_refused(rt, *operation, Width::Bits32);
        two_pointers_are_refused(rt, *operation, Width::Bits64);
    }
}

#[test]
fn unknown_numbers_move_no_stack_pointer(rt: HostRuntime) {
    let bad = RefusalNumber::BadPointerSum;
    is_refused(&rt, Operation::Add, Width::Bits64, STACK, ANY, bad);
    is_refused(&rt, Operation::Subtract, Width::Bits64, STACK, ANY, bad);
    is_refused(&rt, Operation::Add, Width::Bits64, ANY, STACK, bad);
}

/// An operation, its operands, and the pointer that it makes.
type Moved = (Operation, Value, Value, Value);

/// Checks how pointers are moved.
fn are_moved(rt: &impl Abort, rows: &[Moved]) {
    for row in rows {
        let (operation, a, b, moved) = *row;
        let found = a.arithmetic(operation, Width::Bits64, b);
        is_found(rt, found, Ok(moved));
    }
}

const TWENTY_FOUR: Value = AbsVal::Number(Flat::One(24));

const THIRTY_TWO: Value = AbsVal::Number(Flat::One(32));

/// The number -16.
const BACK_BY_16: Value = AbsVal::Number(Flat::One(MINUS_16));

#[test]
fn numbers_move_pointers(rt: HostRuntime) {
    are_moved(
        &rt,
        &[
            (Operation::Add, STACK, EIGHT, AbsVal::Stack(MINUS_8)),
            (Operation::Add, EIGHT, STACK, AbsVal::Stack(MINUS_8)),
            (Operation::Add, STACK, TWENTY_FOUR, AbsVal::Stack(8)),
            (Operation::Add, AbsVal::Stack(0), BACK_BY_16, STACK),
            (Operation::Subtract, AbsVal::Stack(MINUS_8), EIGHT, STACK),
            (
                Operation::Subtract,
                AbsVal::Stack(0),
                EIGHT,
                AbsVal::Stack(MINUS_8),
            ),
            (Operation::Subtract, STACK, BACK_BY_16, AbsVal::Stack(0)),
            (
                Operation::Add,
                CONTEXT,
                EIGHT,
                AbsVal::Context(Flat::One(32)),
            ),
            (
                Operation::Add,
                EIGHT,
                CONTEXT,
                AbsVal::Context(Flat::One(32)),
            ),
            (
                Operation::Subtract,
                CONTEXT,
                EIGHT,
                AbsVal::Context(Flat::One(16)),
            ),
            (
                Operation::Subtract,
                CONTEXT,
                THIRTY_TWO,
                AbsVal::Context(Flat::One(MINUS_8)),
            ),
            (Operation::Add, CONTEXT, ANY, AbsVal::Context(Flat::Any)),
            (Operation::Add, ANY, CONTEXT, AbsVal::Context(Flat::Any)),
            (
                Operation::Subtract,
                CONTEXT,
                ANY,
                AbsVal::Context(Flat::Any),
            ),
        ],
    );
}

/// An operation, its width, two words and what it makes of them.
type Computed = (Operation, Width, u64, u64, u64);

/// Checks what is computed of two numbers, and that nothing is known where the second isn't.
fn are_computed(rt: &impl Abort, rows: &[Computed]) {
    for row in rows {
        let (operation, width, a, b, result) = *row;
        let found = number(a).arithmetic(operation, width, number(b));
        is_found(rt, found, Ok(number(result)));
        let unknown = number(a).arithmetic(operation, width, ANY);
        is_found(rt, unknown, Ok(ANY));
    }
}

#[test]
fn numbers_are_computed(rt: HostRuntime) {
    are_computed(
        &rt,
        &[
            (Operation::Add, Width::Bits64, MINUS_8, 8, 0),
            (Operation::Add, Width::Bits64, 0xffff_ffff, 1, 0x1_0000_0000),
            (Operation::Add, Width::Bits32, 0xffff_ffff, 1, 0),
            (Operation::Subtract, Width::Bits64, 8, 16, MINUS_8),
            (Operation::Subtract, Width::Bits32, 8, 16, 0xffff_fff8),
            (Operation::Divide, Width::Bits64, 8, 0, 0),
            (Operation::Modulo, Width::Bits64, 8, 0, 8),
        ],
    );
}

type Found = Result<Value, RefusalNumber>;

/// Checks a move to one destination.
fn is_moved(rt: &impl Abort, destination: Value, width: Width, operand: Value, moved: Found) {
    let found = destination.arithmetic(Operation::Move, width, operand);
    is_found(rt, found, moved);
}

/// A width, an operand and what is moved.
type OfMove = (Width, Value, Found);

/// Checks moves, whatever was there before.
fn are_moved_anywhere(rt: &impl Abort, rows: &[OfMove]) {
    for row in rows {
        let (width, operand, moved) = *row;
        is_moved(rt, UNSET, width, operand, moved);
        is_moved(rt, EIGHT, width, operand, moved);
        is_moved(rt, STACK, width, operand, moved);
        is_moved(rt, CONTEXT, width, operand, moved);
    }
}

const USED: Found = Err(RefusalNumber::PointerUsed);

const REFUSED: Found = Err(RefusalNumber::UnsetRegister);

/// The number -8.
const BACK_BY_8: Value = AbsVal::Number(Flat::One(MINUS_8));

/// The number -8 of 32 bits.
const HALF_BACK_BY_8: Value = AbsVal::Number(Flat::One(0xffff_fff8));

#[test]
fn moves_read_the_operand_alone(rt: HostRuntime) {
    are_moved_anywhere(
        &rt,
        &[
            (Width::Bits64, UNSET, REFUSED),
            (Width::Bits64, BACK_BY_8, Ok(BACK_BY_8)),
            (Width::Bits64, ANY, Ok(ANY)),
            (Width::Bits64, STACK, Ok(STACK)),
            (Width::Bits64, CONTEXT, Ok(CONTEXT)),
            (Width::Bits32, UNSET, REFUSED),
            (Width::Bits32, BACK_BY_8, Ok(HALF_BACK_BY_8)),
            (Width::Bits32, ANY, Ok(ANY)),
            (Width::Bits32, STACK, USED),
            (Width::Bits32, CONTEXT, USED),
        ],
    );
}

/// A number for signs and byte orders.
const ODD: u64 = 0x1234_8091;

/// Checks the number with the sign of its low bytes.
fn are_extended(rt: &impl Abort, rows: &[(Width, Size, u64)]) {
    for row in rows {
        let (width, size, wanted) = *row;
        let found = number(ODD).moved_signed(width, size);
        is_found(rt, found, Ok(number(wanted)));
    }
}

/// Checks the number with its low bytes in some order.
fn are_reordered(rt: &impl Abort, rows: &[(ByteOrder, Size, u64)]) {
    for row in rows {
        let (order, size, wanted) = *row;
        let found = number(ODD).converted(order, size);
        is_found(rt, found, Ok(number(wanted)));
    }
}

#[test]
fn numbers_are_negated_extended_and_reordered(rt: HostRuntime) {
    let rt = &rt;
    are_extended(
        rt,
        &[
            (Width::Bits64, Size::Byte, 0xffff_ffff_ffff_ff91),
            (Width::Bits64, Size::HalfWord, 0xffff_ffff_ffff_8091),
            (Width::Bits64, Size::Word, 0x1234_8091),
            (Width::Bits32, Size::Byte, 0xffff_ff91),
            (Width::Bits32, Size::HalfWord, 0xffff_8091),
        ],
    );
    are_reordered(
        rt,
        &[
            (ByteOrder::Little, Size::HalfWord, 0x8091),
            (ByteOrder::Big, Size::HalfWord, 0x9180),
            (ByteOrder::Swap, Size::HalfWord, 0x9180),
            (ByteOrder::Little, Size::Word, 0x1234_8091),
            (ByteOrder::Big, Size::Word, 0x9180_3412),
            (ByteOrder::Swap, Size::DoubleWord, 0x9180_3412_0000_0000),
        ],
    );
    is_found(rt, EIGHT.negated(Width::Bits64), Ok(BACK_BY_8));
    is_found(rt, EIGHT.negated(Width::Bits32), Ok(HALF_BACK_BY_8));
    is_found(rt, ANY.negated(Width::Bits32), Ok(ANY));
    is_found(rt, ANY.moved_signed(Width::Bits32, Size::Byte), Ok(ANY));
    is_found(rt, ANY.converted(ByteOrder::Big, Size::Word), Ok(ANY));
}

/// Checks that no value is made of this one by a negation or by an extension of its sign.
fn is_not_extended(rt: &impl Abort, value: Value, width: Width, refusal: RefusalNumber) {
    is_found(rt, value.negated(width), Err(refusal));
    let extended = value.moved_signed(width, Size::HalfWord);
    is_found(rt, extended, Err(refusal));
}

/// Checks that the bytes of a value can't be put in this order.
fn is_not_reordered(rt: &impl Abort, value: Value, order: ByteOrder, refusal: RefusalNumber) {
    let reordered = value.converted(order, Size::DoubleWord);
    is_found(rt, reordered, Err(refusal));
}

/// Checks that a value is neither negated, extended nor reordered.
fn is_no_number(rt: &impl Abort, value: Value, refusal: RefusalNumber) {
    is_not_extended(rt, value, Width::Bits32, refusal);
    is_not_extended(rt, value, Width::Bits64, refusal);
    is_not_reordered(rt, value, ByteOrder::Little, refusal);
    is_not_reordered(rt, value, ByteOrder::Big, refusal);
    is_not_reordered(rt, value, ByteOrder::Swap, refusal);
}

#[test]
fn pointers_are_neither_negated_extended_nor_reordered(rt: HostRuntime) {
    is_no_number(&rt, UNSET, RefusalNumber::UnsetRegister);
    is_no_number(&rt, STACK, RefusalNumber::PointerUsed);
    is_no_number(&rt, CONTEXT, RefusalNumber::PointerUsed);
}
