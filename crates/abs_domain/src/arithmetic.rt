//! The arithmetic instructions of both widths on values of any domain (RFC 9669, sections 4.1 and 4.2).
ghost use Rattle.std.specs.Prelude.{◌≡◌, ◌<◌};
ghost use Rattle.abs_domain.specs.Arithmetic.{low_half, signed_half, binary_in, signed_binary_in, shifted_by, shift_in, move_in, arithmetic_in, negation_in, signed_move_in, byte_order_in};
ghost use Rattle.bpf_profile.specs.Words.{bits_of};

use crate::domain::Domain;
use crate::operations::{Binary, Conversion, Shift};
use bpf_profile::{ByteOrder, Operation, Size, Width};

/// The low 32 bits, zero-extended.
fn low_half<D: Domain>(a: D) -> D
    ensures { result ≡ low_half ⟦<D as Domain>⟧ a }
{
    a.convert(Conversion::Low, Size::Word)
}

/// The low 32 bits, sign-extended.
fn signed_half<D: Domain>(a: D) -> D
    ensures { result ≡ signed_half ⟦<D as Domain>⟧ a }
{
    a.convert(Conversion::SignExtended, Size::Word)
}

/// An operation of a width on unsigned operands.
fn binary<D: Domain>(width: Width, operation: Binary, a: D, b: D) -> D
    ensures { result ≡ binary_in ⟦<D as Domain>⟧ width operation a b }
{
    match width {
        Width::Bits64 => a.operate(operation, b),
        Width::Bits32 => low_half(low_half(a).operate(operation, low_half(b))),
    }
}

/// An operation of a width on signed operands.
fn signed_binary<D: Domain>(width: Width, operation: Binary, a: D, b: D) -> D
    ensures { result ≡ signed_binary_in ⟦<D as Domain>⟧ width operation a b }
{
    match width {
        Width::Bits64 => a.operate(operation, b),
        Width::Bits32 => low_half(signed_half(a).operate(operation, signed_half(b))),
    }
}

/// A shift by the count `b`, modulo the number of bits (32 or 64), where the count is a known constant;
/// else any word.
fn shifted_by<D: Domain>(shift: Shift, bits: u64, a: D, b: D) -> D
    requires some { 0 < bits }
    requires within { bits < 65 }
    ensures { result ≡ shifted_by ⟦<D as Domain>⟧ shift bits a b }
{
    let bounds = b.bounds();
    if bounds.low == bounds.high {
        a.shift(shift, (bounds.low % bits) as u32)
    } else {
        D::top()
    }
}

/// A shift of a width.
fn shift<D: Domain>(width: Width, shift: Shift, a: D, b: D) -> D
    ensures { result ≡ shift_in ⟦<D as Domain>⟧ width shift a b }
{
    match (width, shift) {
        (Width::Bits64, _) => shifted_by(shift, 64, a, b),
        (Width::Bits32, Shift::ArithmeticRight) => {
            low_half(shifted_by(shift, 32, signed_half(a), low_half(b)))
        }
        (Width::Bits32, _) => low_half(shifted_by(shift, 32, low_half(a), low_half(b))),
    }
}

/// The result of an arithmetic instruction. It contains what the operation makes of any word of `a` and any
/// word of `b`.
pub fn arithmetic<D: Domain>(operation: Operation, width: Width, a: D, b: D) -> D
    ensures { result ≡ arithmetic_in ⟦<D as Domain>⟧ operation width a b }
{
    match operation {
        Operation::Add => binary(width, Binary::Add, a, b),
        Operation::Subtract => binary(width, Binary::Subtract, a, b),
        Operation::Multiply => binary(width, Binary::Multiply, a, b),
        Operation::Divide => binary(width, Binary::Divide, a, b),
        Operation::SignedDivide => signed_binary(width, Binary::SignedDivide, a, b),
        Operation::Or => binary(width, Binary::Or, a, b),
        Operation::And => binary(width, Binary::And, a, b),
        Operation::ShiftLeft => shift(width, Shift::Left, a, b),
        Operation::ShiftRight => shift(width, Shift::Right, a, b),
        Operation::Modulo => binary(width, Binary::Modulo, a, b),
        Operation::SignedModulo => signed_binary(width, Binary::SignedModulo, a, b),
        Operation::Xor => binary(width, Binary::Xor, a, b),
        Operation::Move => moved(width, b),
        Operation::ArithmeticShiftRight => shift(width, Shift::ArithmeticRight, a, b),
    }
}

/// A move of a width.
fn moved<D: Domain>(width: Width, b: D) -> D
    ensures { result ≡ move_in ⟦<D as Domain>⟧ width b }
{
    match width {
        Width::Bits64 => b,
        Width::Bits32 => low_half(low_half(b)),
    }
}

/// The result of a negation, 0 minus the word.
pub fn negation<D: Domain>(width: Width, a: D) -> D
    ensures { result ≡ negation_in ⟦<D as Domain>⟧ width a }
{
    binary(width, Binary::Subtract, D::constant(0), a)
}

/// A move with sign extension of the low bytes to the width.
pub fn moved_signed<D: Domain>(width: Width, size: Size, a: D) -> D
    ensures { result ≡ signed_move_in ⟦<D as Domain>⟧ width size a }
{
    match width {
        Width::Bits64 => a.convert(Conversion::SignExtended, size),
        Width::Bits32 => low_half(low_half(a).convert(Conversion::SignExtended, size)),
    }
}

/// A conversion of the byte order of the low bytes.
pub fn converted<D: Domain>(order: ByteOrder, size: Size, a: D) -> D
    ensures { result ≡ byte_order_in ⟦<D as Domain>⟧ order size a }
{
    match order {
        ByteOrder::Little => a.convert(Conversion::Low, size),
        ByteOrder::Big | ByteOrder::Swap => a.convert(Conversion::Swapped, size),
    }
}
