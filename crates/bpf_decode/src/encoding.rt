//! The slots of an instruction (RFC 9669, sections 3.1, 3.2, 4 and 5).
ghost use Rattle.std.specs.Prelude.{◌≡◌, ◌<◌, ◌/◌, ◌^◌};
ghost use Rattle.bpf_profile.specs.Words.{low, bits_in};
ghost use Rattle.bpf_decode.specs.Encoding.{immediate_field, offset_field, source_of, source_field, operand_field, variant_field, unsigned_operation, slot_of, first_slot, second_slot};

use crate::opcode::opcode_number;
use bpf_profile::{
    Comparison, Instruction, Opcode, Operand, Operation, Register, Size, Slot, Source, Width,
};

/// The slots of one instruction.
#[derive(Clone, Copy)]
pub struct Encoded {
    pub first: Slot,
    /// The tail of a wide immediate. Other instructions have one slot.
    pub second: Option<Slot>,
}

impl Encoded {
    /// Encodes an instruction. Decoding gives it back, if its numbers fit their fields; of a word that
    /// doesn't fit, the low bits are kept.
    pub fn of(instruction: &Instruction) -> Encoded
        ensures first { result.first ≡ first_slot instruction.now }
        ensures second { result.second ≡ second_slot instruction.now }
    {
        Encoded {
            first: first_slot(instruction),
            second: second_slot(instruction),
        }
    }
}

/// The low 32 bits of a word.
fn immediate_field(word: u64) -> u32
    ensures { result ≡ immediate_field word }
{
    (word % 0x1_0000_0000) as u32
}

/// The low 16 bits of a word.
fn offset_field(word: u64) -> u16
    ensures { result ≡ offset_field word }
{
    (word % 0x1_0000) as u16
}

/// The number of a register, in four bits.
fn register_field(register: Register) -> u8
    ensures { result ≡ register }
{
    register.index() as u8
}

fn source_of(operand: &Operand) -> Source
    ensures { result ≡ source_of operand.now }
{
    match *operand {
        Operand::Register(_) => Source::Register,
        Operand::Immediate(_) => Source::Immediate,
    }
}

/// The source register field of a second operand.
fn source_field(operand: &Operand) -> u8
    ensures { result ≡ source_field operand.now }
{
    match *operand {
        Operand::Register(register) => register_field(register),
        Operand::Immediate(_) => 0,
    }
}

/// The immediate field of a second operand.
fn operand_field(operand: &Operand) -> u32
    ensures { result ≡ operand_field operand.now }
{
    match *operand {
        Operand::Register(_) => 0,
        Operand::Immediate(word) => immediate_field(word),
    }
}

/// The offset that makes an operation signed.
fn variant_field(operation: Operation) -> u16
    ensures { result ≡ variant_field operation }
{
    match operation {
        Operation::SignedDivide | Operation::SignedModulo => 1,
        _ => 0,
    }
}

fn unsigned_operation(operation: Operation) -> Operation
    ensures { result ≡ unsigned_operation operation }
{
    match operation {
        Operation::SignedDivide => Operation::Divide,
        Operation::SignedModulo => Operation::Modulo,
        other => other,
    }
}

/// The number of bits.
fn bits_in(size: Size) -> u16
    ensures { result ≡ bits_in size }
{
    match size {
        Size::Byte => 8,
        Size::HalfWord => 16,
        Size::Word => 32,
        Size::DoubleWord => 64,
    }
}

fn slot_of(opcode: Opcode, dst: u8, src: u8, off: u16, imm: u32) -> Slot
    ensures { result ≡ slot_of opcode dst src off imm }
{
    Slot::Ins {
        op: opcode_number(opcode),
        dst,
        src,
        off,
        imm,
    }
}

fn arithmetic_slot(
    operation: Operation,
    width: Width,
    destination: Register,
    operand: &Operand,
) -> Slot
    ensures { result ≡ first_slot (Instruction.Arithmetic operation width destination operand.now) }
{
    let opcode = Opcode::Arithmetic {
        operation: unsigned_operation(operation),
        width,
        source: source_of(operand),
    };
    slot_of(
        opcode,
        register_field(destination),
        source_field(operand),
        variant_field(operation),
        operand_field(operand),
    )
}

fn jump_slot(width: Width, distance: u64) -> Slot
    ensures { result ≡ first_slot (Instruction.Jump width distance) }
{
    let opcode = Opcode::Jump { width };
    match width {
        Width::Bits32 => slot_of(opcode, 0, 0, 0, immediate_field(distance)),
        Width::Bits64 => slot_of(opcode, 0, 0, offset_field(distance), 0),
    }
}

fn store_slot(size: Size, base: Register, offset: u64, operand: &Operand) -> Slot
    ensures { result ≡ first_slot (Instruction.Store size base offset operand.now) }
{
    let opcode = Opcode::Store {
        size,
        source: source_of(operand),
    };
    slot_of(
        opcode,
        register_field(base),
        source_field(operand),
        offset_field(offset),
        operand_field(operand),
    )
}

fn branch_slot(
    comparison: Comparison,
    width: Width,
    left: Register,
    right: &Operand,
    distance: u64,
) -> Slot
    ensures { result ≡ first_slot (Instruction.Branch comparison width left right.now distance) }
{
    let opcode = Opcode::Branch {
        comparison,
        width,
        source: source_of(right),
    };
    slot_of(
        opcode,
        register_field(left),
        source_field(right),
        offset_field(distance),
        operand_field(right),
    )
}

fn first_slot(instruction: &Instruction) -> Slot
    ensures { result ≡ first_slot instruction.now }
{
    match *instruction {
        Instruction::Arithmetic {
            operation,
            width,
            destination,
            operand,
        } => arithmetic_slot(operation, width, destination, &operand),
        Instruction::Negate { width, destination } => slot_of(
            Opcode::Negate { width },
            register_field(destination),
            0,
            0,
            0,
        ),
        Instruction::MoveSigned {
            width,
            size,
            destination,
            source,
        } => slot_of(
            Opcode::Arithmetic {
                operation: Operation::Move,
                width,
                source: Source::Register,
            },
            register_field(destination),
            register_field(source),
            bits_in(size),
            0,
        ),
        Instruction::Convert {
            order,
            size,
            destination,
        } => slot_of(
            Opcode::Convert { order },
            register_field(destination),
            0,
            0,
            u32::from(bits_in(size)),
        ),
        Instruction::LoadImmediate { destination, value } => slot_of(
            Opcode::LoadImmediate,
            register_field(destination),
            0,
            0,
            immediate_field(value),
        ),
        Instruction::Load {
            size,
            extension,
            destination,
            base,
            offset,
        } => slot_of(
            Opcode::Load { size, extension },
            register_field(destination),
            register_field(base),
            offset_field(offset),
            0,
        ),
        Instruction::Store {
            size,
            base,
            offset,
            operand,
        } => store_slot(size, base, offset, &operand),
        Instruction::Jump { width, distance } => jump_slot(width, distance),
        Instruction::Branch {
            comparison,
            width,
            left,
            right,
            distance,
        } => branch_slot(comparison, width, left, &right, distance),
        Instruction::Call { helper } => slot_of(Opcode::Call, 0, 0, 0, helper),
        Instruction::Exit => slot_of(Opcode::Exit, 0, 0, 0, 0),
    }
}

fn second_slot(instruction: &Instruction) -> Option<Slot>
    ensures { result ≡ second_slot instruction.now }
{
    match *instruction {
        Instruction::LoadImmediate { value, .. } => Some(Slot::Tail {
            imm: (value / 0x1_0000_0000) as u32,
        }),
        _ => None,
    }
}
