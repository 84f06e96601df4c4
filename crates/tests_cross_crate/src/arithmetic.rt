//! Every operation of both widths, on registers and on immediates.
use crate::programs::{EDGES, IMMEDIATES, both_give, joined, patterned, slot, wide};
use bpf_profile::{Operation, Size, Width};
use bpf_words::{arithmetic, negation, sign_extended};
use helpers::Record;
use std::alloc::Global;
use std::process::Abort;

/// An operation with its opcode of class ALU64 with an immediate, and its offset.
const OPERATIONS: [(u8, u8, Operation); 14] = [
    (0x07, 0, Operation::Add),
    (0x17, 0, Operation::Subtract),
    (0x27, 0, Operation::Multiply),
    (0x37, 0, Operation::Divide),
    (0x37, 1, Operation::SignedDivide),
    (0x47, 0, Operation::Or),
    (0x57, 0, Operation::And),
    (0x67, 0, Operation::ShiftLeft),
    (0x77, 0, Operation::ShiftRight),
    (0x97, 0, Operation::Modulo),
    (0x97, 1, Operation::SignedModulo),
    (0xa7, 0, Operation::Xor),
    (0xb7, 0, Operation::Move),
    (0xc7, 0, Operation::ArithmeticShiftRight),
];

/// What an opcode of class ALU64 with an immediate is in the other classes and forms.
const FORMS: [(u8, Width); 2] = [(0, Width::Bits64), (3, Width::Bits32)];

/// Checks what both machines make of R1 and R2 by an operation of these fields.
fn on_registers(
    rt: &impl Abort,
    alloc: Global,
    operation: [u8; 8],
    outcome: &Record,
    words: (u64, u64),
    given: u64,
) {
    let (a, b) = words;
    let first = joined(rt, alloc, &[&wide(1, a), &wide(2, b), &operation]);
    both_give(rt, alloc, &first, 3, outcome, given);
}

/// Checks what both machines make of R1 alone, or of R1 and what the slot has.
fn on_register(
    rt: &impl Abort,
    alloc: Global,
    operation: [u8; 8],
    outcome: &Record,
    word: u64,
    given: u64,
) {
    let first = joined(rt, alloc, &[&wide(1, word), &operation]);
    both_give(rt, alloc, &first, 2, outcome, given);
}

/// Checks an operation of this opcode and offset on each two of the edges.
fn on_edges(
    rt: &impl Abort,
    alloc: Global,
    outcome: &Record,
    fields: (u8, u8),
    operation: Operation,
    width: Width,
) {
    let (opcode, offset) = fields;
    let slot = slot(opcode, 0x21, offset, 0);
    for a in &EDGES {
        for b in &EDGES {
            let result = arithmetic(operation, width, *a, *b);
            on_registers(rt, alloc, slot, outcome, (*a, *b), result);
        }
    }
}

#[test]
fn operations_on_registers(rt: HostRuntime) {
    let outcome = patterned(&rt);
    for (opcode, offset, operation) in &OPERATIONS {
        for (less, width) in &FORMS {
            let fields = ((*opcode | 8).wrapping_sub(*less), *offset);
            on_edges(&rt, rt.alloc(), &outcome, fields, *operation, *width);
        }
    }
}

/// Checks an operation of this opcode and offset on each of the edges and each immediate.
fn on_immediates(
    rt: &impl Abort,
    alloc: Global,
    outcome: &Record,
    fields: (u8, u8),
    operation: Operation,
    width: Width,
) {
    let (opcode, offset) = fields;
    for a in &EDGES {
        for immediate in &IMMEDIATES {
            let slot = slot(opcode, 1, offset, *immediate);
            let b = sign_extended(Size::Word, u64::from(*immediate));
            let result = arithmetic(operation, width, *a, b);
            on_register(rt, alloc, slot, outcome, *a, result);
        }
    }
}

#[test]
fn operations_on_immediates(rt: HostRuntime) {
    let outcome = patterned(&rt);
    for (opcode, offset, operation) in &OPERATIONS {
        for (less, width) in &FORMS {
            let fields = (opcode.wrapping_sub(*less), *offset);
            on_immediates(&rt, rt.alloc(), &outcome, fields, *operation, *width);
        }
    }
}

/// Checks what both machines make of each of the edges by a negation.
fn negates(rt: &impl Abort, alloc: Global, opcode: u8, width: Width) {
    let outcome = patterned(rt);
    let slot = slot(opcode, 1, 0, 0);
    for a in &EDGES {
        on_register(rt, alloc, slot, &outcome, *a, negation(width, *a));
    }
}

#[test]
fn negations(rt: HostRuntime) {
    negates(&rt, rt.alloc(), 0x87, Width::Bits64);
    negates(&rt, rt.alloc(), 0x84, Width::Bits32);
}
