//! The opcodes of the profile (RFC 9669, section 3.1).
ghost use Rattle.std.specs.Prelude.{◌≡◌};
ghost use Rattle.bpf_profile.specs.Opcodes.{opcode_of, operation_of, comparison_of, size_of, source_of, without_register, convert_opcode, arithmetic_opcode, only_wide, jump_opcode, immediate_opcode, load_opcode, store_opcode, store_register_opcode};

use crate::instruction::{ByteOrder, Comparison, Extension, Operation, Size, Width};
use refusals::RefusalNumber;

/// Where the second operand is: in the immediate field (K) or in the source register (X).
#[derive(Clone, Copy)]
pub enum Source {
    Immediate,
    Register,
}

/// What an opcode names. The offset field chooses among the variants of division, modulo and move.
#[derive(Clone, Copy)]
pub enum Opcode {
    Arithmetic {
        operation: Operation,
        width: Width,
        source: Source,
    },
    Negate {
        width: Width,
    },
    Convert {
        order: ByteOrder,
    },
    LoadImmediate,
    Load {
        size: Size,
        extension: Extension,
    },
    Store {
        size: Size,
        source: Source,
    },
    Jump {
        width: Width,
    },
    Branch {
        comparison: Comparison,
        width: Width,
        source: Source,
    },
    Call,
    Exit,
}

#[tactic(auto, unfolding(crate::specs::Opcodes::operation_of))]
fn operation_coded(code: u8) -> Option<Operation>
    ensures { result ≡ operation_of code }
{
    match code {
        0 => Some(Operation::Add),
        1 => Some(Operation::Subtract),
        2 => Some(Operation::Multiply),
        3 => Some(Operation::Divide),
        4 => Some(Operation::Or),
        5 => Some(Operation::And),
        6 => Some(Operation::ShiftLeft),
        7 => Some(Operation::ShiftRight),
        9 => Some(Operation::Modulo),
        10 => Some(Operation::Xor),
        11 => Some(Operation::Move),
        12 => Some(Operation::ArithmeticShiftRight),
        _ => None,
    }
}

#[tactic(auto, unfolding(crate::specs::Opcodes::comparison_of))]
fn comparison_coded(code: u8) -> Option<Comparison>
    ensures { result ≡ comparison_of code }
{
    match code {
        1 => Some(Comparison::Equal),
        2 => Some(Comparison::Greater),
        3 => Some(Comparison::GreaterOrEqual),
        4 => Some(Comparison::BitsSet),
        5 => Some(Comparison::NotEqual),
        6 => Some(Comparison::SignedGreater),
        7 => Some(Comparison::SignedGreaterOrEqual),
        10 => Some(Comparison::Less),
        11 => Some(Comparison::LessOrEqual),
        12 => Some(Comparison::SignedLess),
        13 => Some(Comparison::SignedLessOrEqual),
        _ => None,
    }
}

#[tactic(auto, unfolding(crate::specs::Opcodes::size_of))]
fn size_coded(code: u8) -> Size
    ensures { result ≡ size_of code }
{
    match code {
        0 => Size::Word,
        1 => Size::HalfWord,
        2 => Size::Byte,
        _ => Size::DoubleWord,
    }
}

fn source_coded(bit: u8) -> Source
    ensures { result ≡ source_of bit }
{
    if bit == 0 {
        Source::Immediate
    } else {
        Source::Register
    }
}

fn without_register_form(opcode: Opcode, bit: u8) -> Result<Opcode, RefusalNumber>
    ensures { result ≡ without_register opcode bit }
{
    if bit == 0 {
        Ok(opcode)
    } else {
        Err(RefusalNumber::UnknownOpcode)
    }
}

#[tactic(auto, unfolding(crate::specs::Opcodes::convert_opcode))]
fn convert_coded(width: Width, bit: u8) -> Result<Opcode, RefusalNumber>
    ensures { result ≡ convert_opcode width bit }
{
    match width {
        Width::Bits32 if bit == 0 => Ok(Opcode::Convert {
            order: ByteOrder::Little,
        }),
        Width::Bits32 => Ok(Opcode::Convert {
            order: ByteOrder::Big,
        }),
        Width::Bits64 => without_register_form(
            Opcode::Convert {
                order: ByteOrder::Swap,
            },
            bit,
        ),
    }
}

#[tactic(auto, unfolding(crate::specs::Opcodes::arithmetic_opcode))]
fn arithmetic_coded(width: Width, code: u8, bit: u8) -> Result<Opcode, RefusalNumber>
    ensures { result ≡ arithmetic_opcode width code bit }
{
    if code == 8 {
        return without_register_form(Opcode::Negate { width }, bit);
    }
    if code == 13 {
        return convert_coded(width, bit);
    }
    match operation_coded(code) {
        Some(operation) => Ok(Opcode::Arithmetic {
            operation,
            width,
            source: source_coded(bit),
        }),
        None => Err(RefusalNumber::UnknownOpcode),
    }
}

/// What class JMP has and class JMP32 has not.
fn only_wide_form(width: Width, opcode: Opcode, bit: u8) -> Result<Opcode, RefusalNumber>
    ensures { result ≡ only_wide width opcode bit }
{
    match width {
        Width::Bits32 => Err(RefusalNumber::UnknownOpcode),
        Width::Bits64 => without_register_form(opcode, bit),
    }
}

#[tactic(auto, unfolding(crate::specs::Opcodes::jump_opcode))]
fn jump_coded(width: Width, code: u8, bit: u8) -> Result<Opcode, RefusalNumber>
    ensures { result ≡ jump_opcode width code bit }
{
    if code == 0 {
        return without_register_form(Opcode::Jump { width }, bit);
    }
    if code == 8 {
        return only_wide_form(width, Opcode::Call, bit);
    }
    if code == 9 {
        return only_wide_form(width, Opcode::Exit, bit);
    }
    match comparison_coded(code) {
        Some(comparison) => Ok(Opcode::Branch {
            comparison,
            width,
            source: source_coded(bit),
        }),
        None => Err(RefusalNumber::UnknownOpcode),
    }
}

#[tactic(auto, unfolding(crate::specs::Opcodes::immediate_opcode))]
fn immediate_coded(mode: u8, code: u8) -> Result<Opcode, RefusalNumber>
    ensures { result ≡ immediate_opcode mode code }
{
    if mode == 0 && code == 3 {
        Ok(Opcode::LoadImmediate)
    } else if (mode == 1 || mode == 2) && code < 3 {
        Err(RefusalNumber::LeftOut)
    } else {
        Err(RefusalNumber::UnknownOpcode)
    }
}

#[tactic(auto, unfolding(crate::specs::Opcodes::load_opcode))]
fn load_coded(mode: u8, code: u8) -> Result<Opcode, RefusalNumber>
    ensures { result ≡ load_opcode mode code }
{
    let size = size_coded(code);
    if mode == 3 {
        Ok(Opcode::Load {
            size,
            extension: Extension::Zero,
        })
    } else if mode == 4 && code < 3 {
        Ok(Opcode::Load {
            size,
            extension: Extension::Sign,
        })
    } else {
        Err(RefusalNumber::UnknownOpcode)
    }
}

#[tactic(auto, unfolding(crate::specs::Opcodes::store_opcode))]
fn store_coded(mode: u8, code: u8) -> Result<Opcode, RefusalNumber>
    ensures { result ≡ store_opcode mode code }
{
    if mode == 3 {
        Ok(Opcode::Store {
            size: size_coded(code),
            source: Source::Immediate,
        })
    } else {
        Err(RefusalNumber::UnknownOpcode)
    }
}

#[tactic(auto, unfolding(crate::specs::Opcodes::store_register_opcode))]
fn store_register_coded(mode: u8, code: u8) -> Result<Opcode, RefusalNumber>
    ensures { result ≡ store_register_opcode mode code }
{
    if mode == 3 {
        Ok(Opcode::Store {
            size: size_coded(code),
            source: Source::Register,
        })
    } else if mode == 6 && (code == 0 || code == 3) {
        Err(RefusalNumber::LeftOut)
    } else {
        Err(RefusalNumber::UnknownOpcode)
    }
}

impl Opcode {
    /// The opcode that a byte of the opcode field names. The error is `LeftOut` where RFC 9669 has
    /// the opcode and the profile leaves it out, and else `UnknownOpcode`.
    #[tactic(auto, unfolding(crate::specs::Opcodes::opcode_of))]
    pub fn named(opcode: u8) -> Result<Opcode, RefusalNumber>
        ensures { result ≡ opcode_of opcode }
    {
        let (mode, size) = (opcode / 32, opcode / 8 % 4);
        let (code, bit) = (opcode / 16, opcode / 8 % 2);
        match opcode % 8 {
            0 => immediate_coded(mode, size),
            1 => load_coded(mode, size),
            2 => store_coded(mode, size),
            3 => store_register_coded(mode, size),
            4 => arithmetic_coded(Width::Bits32, code, bit),
            5 => jump_coded(Width::Bits64, code, bit),
            6 => jump_coded(Width::Bits32, code, bit),
            _ => arithmetic_coded(Width::Bits64, code, bit),
        }
    }
}
