//! Arithmetic on tagged values (RFC 9669, section 4.1).
ghost use Rattle.std.specs.Prelude.{◌≡◌};
ghost use Rattle.bpf_profile.specs.Machine.{◌>>=◌ as and_then, read_register, number_or, moved_pointer, added_pointer, computed, moved, arithmetic_value, number_value};
ghost use Rattle.bpf_profile.specs.Words.{negation, moved_signed, converted};

use crate::machine::PlainMachine;
use crate::registers::number_or;
use bpf_profile::{
    ByteOrder, Operand, Operation, Region, Register, Size, TrapReason, Value, Width,
};
use bpf_words::{arithmetic, converted, low32, moved_signed, negation};

/// A pointer plus or minus a number: it moves the offset, which wraps.
fn moved_pointer(
    operation: Operation,
    width: Width,
    region: Region,
    offset: u64,
    n: u64,
) -> Result<Value, TrapReason>
    ensures { result ≡ moved_pointer operation width region offset n }
{
    match (operation, width) {
        (Operation::Add, Width::Bits64) => Ok(Value::Pointer(region, offset.wrapping_add(n))),
        (Operation::Subtract, Width::Bits64) => {
            Ok(Value::Pointer(region, offset.wrapping_sub(n)))
        }
        _ => Err(TrapReason::Pointer),
    }
}

/// A number plus a pointer.
fn added_pointer(
    operation: Operation,
    width: Width,
    n: u64,
    region: Region,
    offset: u64,
) -> Result<Value, TrapReason>
    ensures { result ≡ added_pointer operation width n region offset }
{
    match (operation, width) {
        (Operation::Add, Width::Bits64) => Ok(Value::Pointer(region, offset.wrapping_add(n))),
        _ => Err(TrapReason::Pointer),
    }
}

/// An operation on two values.
fn computed(operation: Operation, width: Width, a: Value, b: Value) -> Result<Value, TrapReason>
    ensures { result ≡ computed operation width a b }
{
    match (a, b) {
        (Value::Number(a), Value::Number(b)) => {
            Ok(Value::Number(arithmetic(operation, width, a, b)))
        }
        (Value::Pointer(region, offset), Value::Number(n)) => {
            moved_pointer(operation, width, region, offset, n)
        }
        (Value::Number(n), Value::Pointer(region, offset)) => {
            added_pointer(operation, width, n, region, offset)
        }
        (Value::Pointer(..), Value::Pointer(..)) => Err(TrapReason::Pointer),
        _ => Err(TrapReason::Unset),
    }
}

/// A copy of any value, or, in class ALU, of the low half of a number.
fn moved(width: Width, value: Value) -> Result<Value, TrapReason>
    ensures { result ≡ moved width value }
{
    match width {
        Width::Bits64 => Ok(value),
        Width::Bits32 => {
            let number = number_or(TrapReason::Pointer, value)?;
            Ok(Value::Number(u64::from(low32(number))))
        }
    }
}

impl PlainMachine {
    /// The operation on the destination and the operand. A move alone doesn't read its destination.
    pub(crate) fn arithmetic_value(
        &self,
        operation: Operation,
        width: Width,
        destination: Register,
        operand: &Operand,
    ) -> Result<Value, TrapReason>
        ensures { result ≡ arithmetic_value self.now operation width destination operand.now }
    {
        if let Operation::Move = operation {
            let value = self.read_operand(operand)?;
            return moved(width, value);
        }
        let a = self.read_register(destination)?;
        let b = self.read_operand(operand)?;
        computed(operation, width, a, b)
    }

    /// The number in a register.
    pub(crate) fn number_in(&self, register: Register) -> Result<u64, TrapReason>
        ensures { result ≡ and_then (read_register self.now register) (number_or TrapReason.Pointer) }
    {
        let value = self.read_register(register)?;
        number_or(TrapReason::Pointer, value)
    }

    /// 0 less the number in the register.
    pub(crate) fn negated(&self, width: Width, register: Register) -> Result<Value, TrapReason>
        ensures { result ≡ number_value self.now register (negation width) }
    {
        Ok(Value::Number(negation(width, self.number_in(register)?)))
    }

    /// The low bytes of the register, sign-extended to the width.
    pub(crate) fn moved_signed(
        &self,
        width: Width,
        size: Size,
        register: Register,
    ) -> Result<Value, TrapReason>
        ensures { result ≡ number_value self.now register (moved_signed width size) }
    {
        Ok(Value::Number(moved_signed(width, size, self.number_in(register)?)))
    }

    /// The low bytes of the register in a byte order.
    pub(crate) fn converted(
        &self,
        order: ByteOrder,
        size: Size,
        register: Register,
    ) -> Result<Value, TrapReason>
        ensures { result ≡ number_value self.now register (converted order size) }
    {
        Ok(Value::Number(converted(order, size, self.number_in(register)?)))
    }
}
