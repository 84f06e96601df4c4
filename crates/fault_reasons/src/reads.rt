//! Which registers an instruction reads.
use bpf_profile::{Helper, Instruction, Operand, Operation, Register};

/// The registers that an instruction reads, at most two.
pub(crate) type Reads = [Option<Register>; 2];

const NONE: Reads = [None, None];

/// Returns the register of an operand.
fn register_of(operand: &Operand) -> Option<Register> {
    match *operand {
        Operand::Register(register) => Some(register),
        Operand::Immediate(_) => None,
    }
}

/// Returns a register and that of an operand, where it is another one.
fn with_operand(register: Register, operand: &Operand) -> Reads {
    match register_of(operand) {
        Some(other) if other == register => [Some(register), None],
        other => [Some(register), other],
    }
}

/// Returns the arguments of a helper function.
fn arguments(helper: u32) -> Reads {
    let first = Some(Register::new(1));
    match Helper::with_number(helper) {
        Some(Helper::Fact | Helper::FrontByte) => [first, None],
        Some(Helper::CopyTag | Helper::TagStarts) => [first, Some(Register::new(2))],
        None => NONE,
    }
}

/// Returns the registers that an instruction reads.
pub(crate) fn reads(instruction: &Instruction) -> Reads {
    match *instruction {
        Instruction::Arithmetic {
            operation: Operation::Move,
            ref operand,
            ..
        } => [register_of(operand), None],
        Instruction::Arithmetic {
            destination,
            ref operand,
            ..
        } => with_operand(destination, operand),
        Instruction::Negate { destination, .. } | Instruction::Convert { destination, .. } => {
            [Some(destination), None]
        }
        Instruction::MoveSigned { source, .. } => [Some(source), None],
        Instruction::Load { base, .. } => [Some(base), None],
        Instruction::Store {
            base,
            ref operand,
            ..
        } => with_operand(base, operand),
        Instruction::Branch {
            left,
            ref right,
            ..
        } => with_operand(left, right),
        Instruction::Call { helper } => arguments(helper),
        Instruction::Exit => [Some(Register::new(0)), None],
        Instruction::LoadImmediate { .. } | Instruction::Jump { .. } => NONE,
    }
}
