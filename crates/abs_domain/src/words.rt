//! The operations of a domain on words themselves.
ghost use Rattle.std.specs.Prelude.{◌≡◌, ◌<◌};
ghost use Rattle.abs_domain.specs.Operations.{word_operation, word_shift, word_conversion};

use crate::operations::{Binary, Conversion, Shift};
use bpf_profile::{ByteOrder, Extension, Operation, Size, Width};
use bpf_words::{arithmetic, converted, extended};

/// The result of an operation on two words.
pub fn operated(operation: Binary, a: u64, b: u64) -> u64
    ensures { result ≡ word_operation operation a b }
{
    let operation = match operation {
        Binary::Add => Operation::Add,
        Binary::Subtract => Operation::Subtract,
        Binary::Multiply => Operation::Multiply,
        Binary::Divide => Operation::Divide,
        Binary::SignedDivide => Operation::SignedDivide,
        Binary::Modulo => Operation::Modulo,
        Binary::SignedModulo => Operation::SignedModulo,
        Binary::And => Operation::And,
        Binary::Or => Operation::Or,
        Binary::Xor => Operation::Xor,
    };
    arithmetic(operation, Width::Bits64, a, b)
}

/// A word, shifted by a count from 0 to 63.
pub fn shifted(shift: Shift, a: u64, count: u32) -> u64
    requires { count < 64 }
    ensures { result ≡ word_shift shift a count }
{
    let operation = match shift {
        Shift::Left => Operation::ShiftLeft,
        Shift::Right => Operation::ShiftRight,
        Shift::ArithmeticRight => Operation::ArithmeticShiftRight,
    };
    arithmetic(operation, Width::Bits64, a, u64::from(count))
}

/// The result of a conversion of the low bytes of a word.
pub fn resized(conversion: Conversion, size: Size, a: u64) -> u64
    ensures { result ≡ word_conversion conversion size a }
{
    match conversion {
        Conversion::Low => extended(Extension::Zero, size, a),
        Conversion::SignExtended => extended(Extension::Sign, size, a),
        Conversion::Swapped => converted(ByteOrder::Swap, size, a),
    }
}
