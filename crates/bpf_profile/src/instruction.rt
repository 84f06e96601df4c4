//! The instructions of the profile, apart from how slots spell them.
//! Words are numbers below 2^64; a negative offset, distance or immediate is its two's complement.
ghost use Rattle.std.specs.Prelude.{◌≡◌, ◌<◌};

use crate::register::Register;

/// An operation of two operands of the classes ALU and ALU64 (RFC 9669, section 4.1).
#[derive(Clone, Copy, Debug)]
pub enum Operation {
    Add,
    Subtract,
    Multiply,
    Divide,
    SignedDivide,
    Or,
    And,
    ShiftLeft,
    ShiftRight,
    Modulo,
    SignedModulo,
    Xor,
    Move,
    ArithmeticShiftRight,
}

/// A condition of a conditional jump (RFC 9669, section 4.3).
#[derive(Clone, Copy, Debug)]
pub enum Comparison {
    Equal,
    NotEqual,
    Greater,
    GreaterOrEqual,
    Less,
    LessOrEqual,
    SignedGreater,
    SignedGreaterOrEqual,
    SignedLess,
    SignedLessOrEqual,
    /// The bitwise and is not 0.
    BitsSet,
}

/// How many bits of its operands an instruction takes: 32 in the classes ALU and JMP32, 64 in ALU64
/// and JMP (RFC 9669, section 3.3).
#[derive(Clone, Copy, Debug)]
pub enum Width {
    Bits32,
    Bits64,
}

/// How many bytes are meant: 1, 2, 4 or 8 (RFC 9669, section 5).
#[derive(Clone, Copy, Debug)]
pub enum Size {
    Byte,
    HalfWord,
    Word,
    DoubleWord,
}

impl Size {
    ghost use Rattle.bpf_profile.specs.Words.{bytes_in};

    /// The number of bytes.
    pub fn bytes(self) -> u64
        ensures number { result ≡ bytes_in self }
        ensures some { 0 < result }
    {
        match self {
            Size::Byte => 1,
            Size::HalfWord => 2,
            Size::Word => 4,
            Size::DoubleWord => 8,
        }
    }
}

/// How a loaded number fills a register (RFC 9669, sections 5.1 and 5.2).
#[derive(Clone, Copy, Debug)]
pub enum Extension {
    Zero,
    Sign,
}

/// What a byte order conversion makes of the low bytes (RFC 9669, section 4.2). The machine is little
/// endian: a conversion to little endian keeps them, the other two reverse them.
#[derive(Clone, Copy)]
pub enum ByteOrder {
    Little,
    Big,
    Swap,
}

/// The second operand: a register, or a word that the instruction has.
#[derive(Clone, Copy)]
pub enum Operand {
    Register(Register),
    Immediate(u64),
}

/// An instruction of the profile (RFC 9669, sections 4 and 5).
#[derive(Clone, Copy)]
pub enum Instruction {
    /// `destination` becomes the operation on it and the operand.
    Arithmetic {
        operation: Operation,
        width: Width,
        destination: Register,
        operand: Operand,
    },
    /// `destination` becomes 0 less itself.
    Negate {
        width: Width,
        destination: Register,
    },
    /// Moves the low bytes of `source`, sign-extended to the width. A size of 8 bytes is never decoded.
    MoveSigned {
        width: Width,
        size: Size,
        destination: Register,
        source: Register,
    },
    /// Converts the low bytes of `destination`. A size of 1 byte is never decoded.
    Convert {
        order: ByteOrder,
        size: Size,
        destination: Register,
    },
    /// Loads the 64 bit immediate that two slots hold (RFC 9669, section 5.4).
    LoadImmediate {
        destination: Register,
        value: u64,
    },
    /// Loads from the address `base` plus `offset`. A sign extension of 8 bytes is never decoded.
    Load {
        size: Size,
        extension: Extension,
        destination: Register,
        base: Register,
        offset: u64,
    },
    /// Stores the low bytes of the operand at the address `base` plus `offset`.
    Store {
        size: Size,
        base: Register,
        offset: u64,
        operand: Operand,
    },
    /// Goes on `distance` slots after the next. The width says which field of the slot has the
    /// distance: the offset (64) or the immediate (32).
    Jump {
        width: Width,
        distance: u64,
    },
    /// A jump that is taken where the comparison holds.
    Branch {
        comparison: Comparison,
        width: Width,
        left: Register,
        right: Operand,
        distance: u64,
    },
    /// Calls a helper function by its number (RFC 9669, section 4.3.1).
    Call {
        helper: u32,
    },
    /// Ends the program. Its answer is in R0.
    Exit,
}
