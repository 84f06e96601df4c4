//! What the operations make of words (RFC 9669, sections 4.1 and 4.2). None of them fails: sums and
//! products wrap, shifts take their count below the width, and each division has a result.
ghost use Rattle.std.specs.Prelude.{◌≡◌, ◌<◌, ◌^◌};
ghost use Rattle.bpf_profile.specs.Words.{operation_at, arithmetic, negation, quotient, remainder, signed_quotient, signed_remainder, sign_extended, moved_signed, swapped, converted, bits_in, bytes_in, extended, low};

use bpf_profile::{ByteOrder, Extension, Operation, Size, Width};

/// The quotient of signed readings, truncated towards zero; 0 by 0.
fn signed_quotient64(a: u64, b: u64) -> u64
    ensures { result ≡ signed_quotient 64 a b }
{
    if b == 0 {
        return 0;
    }
    a.cast_signed()
        .wrapping_div(b.cast_signed())
        .cast_unsigned()
}

/// The remainder of signed readings, with the sign of the dividend; the dividend by 0.
fn signed_remainder64(a: u64, b: u64) -> u64
    ensures { result ≡ signed_remainder 64 a b }
{
    if b == 0 {
        return a;
    }
    a.cast_signed()
        .wrapping_rem(b.cast_signed())
        .cast_unsigned()
}

/// As `signed_quotient64`.
fn signed_quotient32(a: u32, b: u32) -> u32
    ensures { result ≡ signed_quotient 32 a b }
{
    if b == 0 {
        return 0;
    }
    a.cast_signed()
        .wrapping_div(b.cast_signed())
        .cast_unsigned()
}

/// As `signed_remainder64`.
fn signed_remainder32(a: u32, b: u32) -> u32
    ensures { result ≡ signed_remainder 32 a b }
{
    if b == 0 {
        return a;
    }
    a.cast_signed()
        .wrapping_rem(b.cast_signed())
        .cast_unsigned()
}

/// An operation on two numbers of 64 bits.
fn operation64(operation: Operation, a: u64, b: u64) -> u64
    ensures { result ≡ operation_at operation 64 a b }
{
    let shift = (b % 64) as u32;
    match operation {
        Operation::Add => a.wrapping_add(b),
        Operation::Subtract => a.wrapping_sub(b),
        Operation::Multiply => a.wrapping_mul(b),
        Operation::Divide => if b == 0 { 0 } else { a / b },
        Operation::SignedDivide => signed_quotient64(a, b),
        Operation::Or => a | b,
        Operation::And => a & b,
        Operation::ShiftLeft => a << shift,
        Operation::ShiftRight => a >> shift,
        Operation::Modulo => if b == 0 { a } else { a % b },
        Operation::SignedModulo => signed_remainder64(a, b),
        Operation::Xor => a ^ b,
        Operation::Move => b,
        Operation::ArithmeticShiftRight => (a.cast_signed() >> shift).cast_unsigned(),
    }
}

/// An operation on two numbers of 32 bits.
fn operation32(operation: Operation, a: u32, b: u32) -> u32
    ensures { result ≡ operation_at operation 32 a b }
{
    let shift = b % 32;
    match operation {
        Operation::Add => a.wrapping_add(b),
        Operation::Subtract => a.wrapping_sub(b),
        Operation::Multiply => a.wrapping_mul(b),
        Operation::Divide => if b == 0 { 0 } else { a / b },
        Operation::SignedDivide => signed_quotient32(a, b),
        Operation::Or => a | b,
        Operation::And => a & b,
        Operation::ShiftLeft => a << shift,
        Operation::ShiftRight => a >> shift,
        Operation::Modulo => if b == 0 { a } else { a % b },
        Operation::SignedModulo => signed_remainder32(a, b),
        Operation::Xor => a ^ b,
        Operation::Move => b,
        Operation::ArithmeticShiftRight => (a.cast_signed() >> shift).cast_unsigned(),
    }
}

/// The low 32 bits.
pub fn low32(n: u64) -> u32
    ensures { result ≡ low 32 n }
{
    (n % 0x1_0000_0000) as u32
}

/// Does an operation on two words: on the words themselves in class ALU64, on their low halves in class
/// ALU, with the upper half of the result 0 (RFC 9669, section 4.1). Division by 0 gives 0, and the
/// remainder by 0 is the dividend.
pub fn arithmetic(operation: Operation, width: Width, a: u64, b: u64) -> u64
    ensures { result ≡ arithmetic operation width a b }
{
    match width {
        Width::Bits64 => operation64(operation, a, b),
        Width::Bits32 => u64::from(operation32(operation, low32(a), low32(b))),
    }
}

/// Subtracts a word from 0; in class ALU its low half, with the upper half of the result 0 (RFC 9669,
/// section 4.1).
pub fn negation(width: Width, a: u64) -> u64
    ensures { result ≡ negation width a }
{
    arithmetic(Operation::Subtract, width, 0, a)
}

/// The low bytes as a signed number, which is widened to 64 bits (RFC 9669, section 2.3).
pub fn sign_extended(size: Size, n: u64) -> u64
    ensures { result ≡ sign_extended (bits_in size) n }
{
    let wide = match size {
        Size::Byte => i64::from(((n % 0x100) as u8).cast_signed()),
        Size::HalfWord => i64::from(((n % 0x1_0000) as u16).cast_signed()),
        Size::Word => i64::from(low32(n).cast_signed()),
        Size::DoubleWord => n.cast_signed(),
    };
    wide.cast_unsigned()
}

/// The low bytes, filled up with zeros or with copies of their highest bit, as loads do it (RFC 9669,
/// sections 5.1 and 5.2).
pub fn extended(extension: Extension, size: Size, n: u64) -> u64
    ensures { result ≡ extended extension (bits_in size) n }
{
    match extension {
        Extension::Zero => low_bytes(size, n),
        Extension::Sign => sign_extended(size, n),
    }
}

/// The low bytes, sign-extended to the width (RFC 9669, section 4.1); in class ALU the upper half of the
/// result is 0.
pub fn moved_signed(width: Width, size: Size, n: u64) -> u64
    ensures { result ≡ moved_signed width size n }
{
    let wide = sign_extended(size, n);
    match width {
        Width::Bits64 => wide,
        Width::Bits32 => u64::from(low32(wide)),
    }
}

/// The low bytes.
fn low_bytes(size: Size, n: u64) -> u64
    ensures { result ≡ low (bits_in size) n }
{
    match size {
        Size::Byte => n % 0x100,
        Size::HalfWord => n % 0x1_0000,
        Size::Word => n % 0x1_0000_0000,
        Size::DoubleWord => n,
    }
}

/// The low bytes in reverse order.
fn swapped(size: Size, n: u64) -> u64
    ensures { result ≡ swapped (bytes_in size) n }
{
    match size {
        Size::Byte => n % 0x100,
        Size::HalfWord => u64::from(((n % 0x1_0000) as u16).swap_bytes()),
        Size::Word => u64::from(low32(n).swap_bytes()),
        Size::DoubleWord => n.swap_bytes(),
    }
}

/// What a byte order conversion makes of the low bytes (RFC 9669, section 4.2). The machine is little
/// endian: a conversion to little endian keeps them. The other bytes of the result are 0.
pub fn converted(order: ByteOrder, size: Size, n: u64) -> u64
    ensures { result ≡ converted order size n }
{
    match order {
        ByteOrder::Little => low_bytes(size, n),
        ByteOrder::Big | ByteOrder::Swap => swapped(size, n),
    }
}
