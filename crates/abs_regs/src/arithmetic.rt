//! Arithmetic instructions on abstract values (RFC 9669, sections 4.1 and 4.2).
ghost use Rattle.std.specs.Prelude.{◌≡◌};
ghost use Rattle.abs_regs.specs.Transfers.{moved_stack, moved_context, combined_in, moved_in, result_in, negated_in, extended_in, reordered_in};

use crate::value::AbsVal;
use abs_domain::arithmetic::{arithmetic, converted, moved_signed, negation};
use abs_domain::{Binary, Domain};
use bpf_profile::{ByteOrder, Operation, Size, Width};
use refusals::RefusalNumber;

/// A pointer into the stack plus or minus a number, which has to be a known constant.
fn moved_stack<D: Domain>(
    operation: Operation,
    width: Width,
    offset: u64,
    number: D,
) -> Result<AbsVal<D>, RefusalNumber>
    ensures { result ≡ moved_stack ⟦<D as Domain>⟧ operation width offset number }
{
    let bounds = number.bounds();
    match (operation, width) {
        (Operation::Add, Width::Bits64) if bounds.low == bounds.high => {
            Ok(AbsVal::Stack(offset.wrapping_add(bounds.low)))
        }
        (Operation::Subtract, Width::Bits64) if bounds.low == bounds.high => {
            Ok(AbsVal::Stack(offset.wrapping_sub(bounds.low)))
        }
        (Operation::Add | Operation::Subtract, Width::Bits64) => {
            Err(RefusalNumber::BadPointerSum)
        }
        _ => Err(RefusalNumber::PointerUsed),
    }
}

/// A pointer into the context plus or minus a number.
fn moved_context<D: Domain>(
    operation: Operation,
    width: Width,
    offset: D,
    number: D,
) -> Result<AbsVal<D>, RefusalNumber>
    ensures { result ≡ moved_context ⟦<D as Domain>⟧ operation width offset number }
{
    match (operation, width) {
        (Operation::Add, Width::Bits64) => {
            Ok(AbsVal::Context(offset.operate(Binary::Add, number)))
        }
        (Operation::Subtract, Width::Bits64) => {
            Ok(AbsVal::Context(offset.operate(Binary::Subtract, number)))
        }
        _ => Err(RefusalNumber::PointerUsed),
    }
}

/// An operation other than a move.
fn combined<D: Domain>(
    operation: Operation,
    width: Width,
    a: AbsVal<D>,
    b: AbsVal<D>,
) -> Result<AbsVal<D>, RefusalNumber>
    ensures { result ≡ combined_in ⟦<D as Domain>⟧ operation width a b }
{
    match (a, b) {
        (AbsVal::Unset, _) | (_, AbsVal::Unset) => Err(RefusalNumber::UnsetRegister),
        (AbsVal::Number(a), AbsVal::Number(b)) => {
            Ok(AbsVal::Number(arithmetic(operation, width, a, b)))
        }
        (AbsVal::Stack(offset), AbsVal::Number(b)) => moved_stack(operation, width, offset, b),
        (AbsVal::Context(offset), AbsVal::Number(b)) => moved_context(operation, width, offset, b),
        (AbsVal::Number(a), AbsVal::Stack(offset)) => match operation {
            Operation::Add => moved_stack(operation, width, offset, a),
            _ => Err(RefusalNumber::PointerUsed),
        },
        (AbsVal::Number(a), AbsVal::Context(offset)) => match operation {
            Operation::Add => moved_context(operation, width, offset, a),
            _ => Err(RefusalNumber::PointerUsed),
        },
        _ => Err(RefusalNumber::PointerUsed),
    }
}

/// A move: in class ALU64 of any value that is set, in class ALU of the low 32 bits of a number.
fn moved<D: Domain>(width: Width, b: AbsVal<D>) -> Result<AbsVal<D>, RefusalNumber>
    ensures { result ≡ moved_in ⟦<D as Domain>⟧ width b }
{
    match width {
        Width::Bits64 => b.set(),
        Width::Bits32 => {
            let number = b.number()?;
            Ok(AbsVal::Number(arithmetic(Operation::Move, width, number, number)))
        }
    }
}

impl<D: Domain> AbsVal<D> {
    /// The result of the operation on this value, the destination's, and the operand. Every operation but a
    /// move reads both values; a move reads the operand alone. It is refused
    ///
    /// - with `UnsetRegister` where a value that is read may be unset,
    /// - with `PointerUsed` where a pointer is read, except by a 64-bit move, a 64-bit sum of a pointer and
    ///   a number, and a 64-bit difference, a pointer minus a number,
    /// - with `BadPointerSum` where the number that is added to a pointer into the stack, or subtracted
    ///   from it, isn't a known constant.
    pub fn arithmetic(
        self,
        operation: Operation,
        width: Width,
        operand: AbsVal<D>,
    ) -> Result<Self, RefusalNumber>
        ensures { result ≡ result_in ⟦<D as Domain>⟧ operation width self operand }
    {
        match operation {
            Operation::Move => moved(width, operand),
            _ => combined(operation, width, self, operand),
        }
    }

    /// 0 minus this number. It is refused as `number` is.
    pub fn negated(self, width: Width) -> Result<Self, RefusalNumber>
        ensures { result ≡ negated_in ⟦<D as Domain>⟧ width self }
    {
        let number = self.number()?;
        Ok(AbsVal::Number(negation(width, number)))
    }

    /// The low bytes of this number, sign-extended to the width. It is refused as `number` is.
    pub fn moved_signed(self, width: Width, size: Size) -> Result<Self, RefusalNumber>
        ensures { result ≡ extended_in ⟦<D as Domain>⟧ width size self }
    {
        let number = self.number()?;
        Ok(AbsVal::Number(moved_signed(width, size, number)))
    }

    /// The low bytes of this number in another byte order. It is refused as `number` is.
    pub fn converted(self, order: ByteOrder, size: Size) -> Result<Self, RefusalNumber>
        ensures { result ≡ reordered_in ⟦<D as Domain>⟧ order size self }
    {
        let number = self.number()?;
        Ok(AbsVal::Number(converted(order, size, number)))
    }
}
