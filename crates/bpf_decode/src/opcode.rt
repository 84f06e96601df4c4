//! The numbers of opcodes (RFC 9669, sections 3.1, 3.3, 4.1, 4.3 and 5).
ghost use Rattle.std.specs.Prelude.{◌≡◌, ◌<◌};
ghost use Rattle.bpf_decode.specs.OpcodeNumbers.{operation_code, comparison_code, size_code, mode_code, source_bit, arithmetic_class, jump_class, coded, accessed, convert_number, store_class, opcode_number};

use bpf_profile::{ByteOrder, Comparison, Extension, Opcode, Operation, Size, Source, Width};

fn operation_code(operation: Operation) -> u8
    ensures code { result ≡ operation_code operation }
    ensures small { result < 16 }
{
    match operation {
        Operation::Add => 0,
        Operation::Subtract => 1,
        Operation::Multiply => 2,
        Operation::Divide | Operation::SignedDivide => 3,
        Operation::Or => 4,
        Operation::And => 5,
        Operation::ShiftLeft => 6,
        Operation::ShiftRight => 7,
        Operation::Modulo | Operation::SignedModulo => 9,
        Operation::Xor => 10,
        Operation::Move => 11,
        Operation::ArithmeticShiftRight => 12,
    }
}

fn comparison_code(comparison: Comparison) -> u8
    ensures code { result ≡ comparison_code comparison }
    ensures small { result < 16 }
{
    match comparison {
        Comparison::Equal => 1,
        Comparison::Greater => 2,
        Comparison::GreaterOrEqual => 3,
        Comparison::BitsSet => 4,
        Comparison::NotEqual => 5,
        Comparison::SignedGreater => 6,
        Comparison::SignedGreaterOrEqual => 7,
        Comparison::Less => 10,
        Comparison::LessOrEqual => 11,
        Comparison::SignedLess => 12,
        Comparison::SignedLessOrEqual => 13,
    }
}

fn size_code(size: Size) -> u8
    ensures code { result ≡ size_code size }
    ensures small { result < 4 }
{
    match size {
        Size::Word => 0,
        Size::HalfWord => 1,
        Size::Byte => 2,
        Size::DoubleWord => 3,
    }
}

fn mode_code(extension: Extension) -> u8
    ensures code { result ≡ mode_code extension }
    ensures small { result < 8 }
{
    match extension {
        Extension::Zero => 3,
        Extension::Sign => 4,
    }
}

fn source_bit(source: Source) -> u8
    ensures bit { result ≡ source_bit source }
    ensures small { result < 2 }
{
    match source {
        Source::Immediate => 0,
        Source::Register => 1,
    }
}

fn arithmetic_class(width: Width) -> u8
    ensures class { result ≡ arithmetic_class width }
    ensures small { result < 8 }
{
    match width {
        Width::Bits32 => 4,
        Width::Bits64 => 7,
    }
}

fn jump_class(width: Width) -> u8
    ensures class { result ≡ jump_class width }
    ensures small { result < 8 }
{
    match width {
        Width::Bits32 => 6,
        Width::Bits64 => 5,
    }
}

fn store_class(source: Source) -> u8
    ensures class { result ≡ store_class source }
    ensures small { result < 8 }
{
    match source {
        Source::Immediate => 2,
        Source::Register => 3,
    }
}

/// An opcode of the arithmetic and jump classes (RFC 9669, section 3.3).
fn coded(code: u8, bit: u8, class: u8) -> u8
    requires code { code < 16 }
    requires bit { bit < 2 }
    requires class { class < 8 }
    ensures { result ≡ coded code bit class }
{
    16 * code + 8 * bit + class
}

/// An opcode of the load and store classes (RFC 9669, section 5).
fn accessed(mode: u8, size: u8, class: u8) -> u8
    requires mode { mode < 8 }
    requires size { size < 4 }
    requires class { class < 8 }
    ensures { result ≡ accessed mode size class }
{
    32 * mode + 8 * size + class
}

fn convert_number(order: ByteOrder) -> u8
    ensures { result ≡ convert_number order }
{
    match order {
        ByteOrder::Little => coded(13, 0, 4),
        ByteOrder::Big => coded(13, 1, 4),
        ByteOrder::Swap => coded(13, 0, 7),
    }
}

/// The number of an opcode, as it stands in the first byte of a slot.
pub(crate) fn opcode_number(opcode: Opcode) -> u8
    ensures { result ≡ opcode_number opcode }
{
    match opcode {
        Opcode::Arithmetic {
            operation,
            width,
            source,
        } => coded(
            operation_code(operation),
            source_bit(source),
            arithmetic_class(width),
        ),
        Opcode::Negate { width } => coded(8, 0, arithmetic_class(width)),
        Opcode::Convert { order } => convert_number(order),
        Opcode::LoadImmediate => accessed(0, 3, 0),
        Opcode::Load { size, extension } => accessed(mode_code(extension), size_code(size), 1),
        Opcode::Store { size, source } => accessed(3, size_code(size), store_class(source)),
        Opcode::Jump { width } => coded(0, 0, jump_class(width)),
        Opcode::Branch {
            comparison,
            width,
            source,
        } => coded(
            comparison_code(comparison),
            source_bit(source),
            jump_class(width),
        ),
        Opcode::Call => coded(8, 0, 5),
        Opcode::Exit => coded(9, 0, 5),
    }
}
