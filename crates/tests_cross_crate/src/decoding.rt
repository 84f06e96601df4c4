//! What bytes decode to, and the faults of those that are no program.
use crate::checks::{is_printed, is_true, same, same_at};
use crate::programs::joined;
use bpf_decode::*;
use bpf_profile::{Instruction, Register, Slot};
use refusals::RefusalNumber;
use std::alloc::{AllocError, Global};
use std::process::Abort;
use std::test::*;

const EXIT: [u8; 8] = [0x95, 0, 0, 0, 0, 0, 0, 0];

/// The place and the number of the first fault.
fn fault(alloc: Global, bytes: &[u8]) -> Option<(u32, RefusalNumber)> {
    match Program::decode(alloc, bytes) {
        Ok(_) => None,
        Err(e) => Some((e.slot, e.number)),
    }
}

/// `MOV R0, 0`, so many conditional jumps, and `EXIT`.
fn long(rt: &impl Abort, alloc: Global, jumps: usize) -> Vec<u8> {
    let mut bytes = joined(rt, alloc, &[&[0xb7, 0, 0, 0, 0, 0, 0, 0]]);
    for _ in 0..jumps {
        let jump = [0x15, 0, 0, 0, 0, 0, 0, 0];
        bytes.extend_from_slice(&jump).expect(rt, "ample memory");
    }
    bytes.extend_from_slice(&EXIT).expect(rt, "ample memory");
    bytes
}

/// The program that these bytes are.
fn decoded(rt: &impl Abort, alloc: Global, bytes: &[u8]) -> Program {
    Program::decode(alloc, bytes).expect(rt, "the bytes of a program")
}

/// The first slot, and the number of its fault.
type Faulty = ([u8; 8], RefusalNumber);

/// Checks the faults of first slots that stand before an exit.
fn are_faulty(rt: &impl Abort, alloc: Global, rows: &[Faulty]) {
    for row in rows {
        let (first, number) = *row;
        let slots = [first, EXIT];
        let found = fault(alloc, slots.as_flattened());
        same_at(rt, found, Some((0, number)), row);
    }
}

#[test]
fn faults_of_the_first_slot(rt: HostRuntime) {
    are_faulty(
        &rt,
        rt.alloc(),
        &[
            ([0x87, 0, 0, 0, 1, 0, 0, 0], RefusalNumber::BadField),
            ([0xb7, 0x0b, 0, 0, 0, 0, 0, 0], RefusalNumber::BadRegister),
            ([0xb7, 0x0a, 0, 0, 0, 0, 0, 0], RefusalNumber::BadRegister),
            ([0xdb, 0, 0, 0, 0, 0, 0, 0], RefusalNumber::LeftOut),
            ([0x85, 0x10, 0, 0, 1, 0, 0, 0], RefusalNumber::LeftOut),
            ([0x85, 0x30, 0, 0, 1, 0, 0, 0], RefusalNumber::BadField),
            ([0x18, 0x11, 0, 0, 0, 0, 0, 0], RefusalNumber::LeftOut),
            ([0x18, 0x70, 0, 0, 0, 0, 0, 0], RefusalNumber::BadField),
            ([0x18, 0, 0, 0, 0, 0, 0, 0], RefusalNumber::BadTail),
            ([0, 0, 0, 0, 0, 0, 0, 0], RefusalNumber::UnknownOpcode),
            ([0xff, 0, 0, 0, 0, 0, 0, 0], RefusalNumber::UnknownOpcode),
            ([0x20, 0, 0, 0, 0, 0, 0, 0], RefusalNumber::LeftOut),
            ([0xb7, 0, 0x01, 0, 0, 0, 0, 0], RefusalNumber::BadField),
            ([0xb7, 0xb0, 0, 0, 0, 0, 0, 0], RefusalNumber::BadField),
        ],
    );
}

#[test]
fn faults_of_lengths_and_tails(rt: HostRuntime) {
    let rt = &rt;
    let alloc = rt.alloc();
    let length = Some((0, RefusalNumber::Length));
    same(rt, fault(alloc, &[]), length);
    let odd = [0xb7, 0, 0, 0, 0, 0, 0, 0, 0x95, 0, 0, 0];
    same(rt, fault(alloc, &odd), length);
    let cut = [0xb7, 0, 0, 0, 0, 0, 0, 0, 0x18, 0, 0, 0, 0, 0, 0, 0];
    same(rt, fault(alloc, &cut), Some((1, RefusalNumber::BadTail)));
    same(rt, fault(alloc, &long(rt, alloc, 4095)), length);
    let most = decoded(rt, alloc, &long(rt, alloc, 4094));
    same(rt, most.len(), 4096);
}

/// Checks that a program comes back as the bytes that it was read from.
fn comes_back(rt: &impl Abort, alloc: Global, bytes: &[u8]) {
    let found = decoded(rt, alloc, bytes).encode();
    same(rt, found.expect(rt, "ample memory").as_slice(), bytes);
}

/// `lddw r1, 0x100000007` and `exit`.
const WIDE: [u8; 24] = [
    0x18, 0x01, 0, 0, 7, 0, 0, 0, 0, 0, 0, 0, 1, 0, 0, 0, 0x95, 0, 0, 0, 0, 0, 0, 0,
];

/// The default classifier.
const CLASSIFIER: [u8; 64] = [
    0x61, 0x12, 0, 0, 0, 0, 0, 0, 0x55, 0x02, 0x04, 0, 0, 0, 0, 0, 0x61, 0x12, 0x04, 0, 0, 0, 0, 0,
    0x35, 0x02, 0x02, 0, 0xf4, 0x01, 0, 0, 0xb7, 0, 0, 0, 0, 0, 0, 0, 0x95, 0, 0, 0, 0, 0, 0, 0,
    0xb7, 0, 0, 0, 1, 0, 0, 0, 0x95, 0, 0, 0, 0, 0, 0, 0,
];

#[test]
fn programs_come_back(rt: HostRuntime) {
    comes_back(&rt, rt.alloc(), &WIDE);
    comes_back(&rt, rt.alloc(), &CLASSIFIER);
}

#[test]
fn a_wide_immediate(rt: HostRuntime) {
    let program = decoded(&rt, rt.alloc(), &WIDE);
    assert!(rt; program.len() == 3);
    assert!(rt; matches!(program.slot(0), Slot::Ins { .. }));
    is_true(&rt, program.slot(1) == Slot::Tail { imm: 1 });
    let load = program.instruction(0);
    assert!(rt;
        matches!(&load, Instruction::LoadImmediate { destination, value: 0x1_0000_0007 } if *destination == Register::new(1))
    );
}

#[test]
fn texts(rt: HostRuntime) {
    let e = DecodeError {
        slot: 7,
        number: RefusalNumber::BadField,
    };
    is_printed(&rt, rt.alloc(), &e, "refused 3 BadField slot 7");
    let memory = DecodeError::from(AllocError);
    is_printed(&rt, rt.alloc(), &memory, "refused 23 OutOfMemory");
}
