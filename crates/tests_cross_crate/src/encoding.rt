//! The slots of instructions.
use crate::checks::is_true;
use bpf_decode::Encoded;
use bpf_profile::{Instruction, Operand, Operation, Register, Size, Slot, Width};
use std::process::Abort;
use std::test::*;

/// A slot by its fields.
fn slot(op: u8, dst: u8, src: u8, off: u16, imm: u32) -> Slot {
    Slot::Ins {
        op,
        dst,
        src,
        off,
        imm,
    }
}

/// Checks that an instruction is encoded as these slots.
fn is_encoded(rt: &impl Abort, instruction: &Instruction, first: Slot, second: Option<Slot>) {
    let encoded = Encoded::of(instruction);
    is_true(rt, encoded.first == first);
    is_true(rt, encoded.second == second);
}

#[test]
fn one_slot(rt: HostRuntime) {
    let rt = &rt;
    let divide = Instruction::Arithmetic {
        operation: Operation::SignedDivide,
        width: Width::Bits32,
        destination: Register::new(3),
        operand: Operand::Immediate(0xffff_ffff_ffff_fff7),
    };
    is_encoded(rt, &divide, slot(0x34, 3, 0, 1, 0xffff_fff7), None);
    let store = Instruction::Store {
        size: Size::Word,
        base: Register::new(10),
        offset: 0xffff_ffff_ffff_fff8,
        operand: Operand::Register(Register::new(1)),
    };
    is_encoded(rt, &store, slot(0x63, 10, 1, 0xfff8, 0), None);
    let jump = Instruction::Jump {
        width: Width::Bits32,
        distance: 70000,
    };
    is_encoded(rt, &jump, slot(0x06, 0, 0, 0, 70000), None);
    is_encoded(rt, &Instruction::Exit, slot(0x95, 0, 0, 0, 0), None);
}

#[test]
fn a_wide_immediate(rt: HostRuntime) {
    let load = Instruction::LoadImmediate {
        destination: Register::new(1),
        value: 0x1234_5678_9abc_def0,
    };
    let tail = Slot::Tail { imm: 0x1234_5678 };
    is_encoded(&rt, &load, slot(0x18, 1, 0, 0, 0x9abc_def0), Some(tail));
}
