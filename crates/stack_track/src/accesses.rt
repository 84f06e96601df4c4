//! Loads and stores (RFC 9669, section 5).
ghost use Rattle.std.specs.Prelude.{◌≡◌, ◌+◌, ◌%◌, ◌≤◌, Ok, Err, IfOk, IfErr, OnOk, OnErr};
ghost use Rattle.bpf_profile.specs.Limits.{stack_size};
ghost use Rattle.bpf_profile.specs.Words.{bytes_in};
ghost use Rattle.stack_track.specs.Accesses.{any_loaded, zeros_of, load_context, stack_place, whole_cell, part_of_cell, load_cell, load_stack, load_at, stored_cell, store_stack, store_at};

use crate::cell::Cell;
use crate::stack::StackState;
use abs_domain::{Conversion, Domain};
use abs_regs::{AbsVal, Address};
use bpf_profile::{Extension, STACK_SIZE, Size};
use refusals::RefusalNumber;

impl<D: Domain> StackState<D> {
    /// The abstract value that a load gives, where the context has `context_size` bytes. It is refused with
    /// `Misaligned`, then with `OutOfBounds`; on the stack then with `PointerUsed` where it reads a part
    /// of a stored pointer, and with `UnsetStack` where it reads a byte that may be unset.
    pub fn load(
        &self,
        context_size: u64,
        address: Address<D>,
        extension: Extension,
        size: Size,
    ) -> Result<AbsVal<D>, RefusalNumber>
        ensures { result ≡ load_at ⟦<D as Domain>⟧ context_size self.now address extension size }
    {
        match address {
            Address::Context(offset) => load_context(context_size, offset, extension, size),
            Address::Stack(offset) => self.load_stack(offset, extension, size),
        }
    }

    /// Stores a value. It is refused, in this order, with `ContextWrite`, `Misaligned`, `OutOfBounds`,
    /// `UnsetRegister` where the value may be unset, and `PointerUsed` where a pointer isn't stored as a
    /// whole; the state is then as before.
    pub fn store(
        &mut self,
        address: Address<D>,
        value: AbsVal<D>,
        size: Size,
    ) -> Result<(), RefusalNumber>
        ensures stored { OnOk result (store_at self.old address value size ≡ Ok self.new) }
        ensures refused { IfErr result (λ number. store_at self.old address value size ≡ Err number) }
        ensures unchanged { OnErr result (self.new ≡ self.old) }
    {
        match address {
            Address::Context(_) => Err(RefusalNumber::ContextWrite),
            Address::Stack(offset) => self.store_stack(offset, value, size),
        }
    }

    /// A load from the stack.
    fn load_stack(
        &self,
        offset: u64,
        extension: Extension,
        size: Size,
    ) -> Result<AbsVal<D>, RefusalNumber>
        ensures { result ≡ load_stack ⟦<D as Domain>⟧ self.now offset extension size }
    {
        let place = stack_place(offset, size)?;
        self.cell(place / 8).load(place, extension, size)
    }

    /// A store to the stack.
    fn store_stack(
        &mut self,
        offset: u64,
        value: AbsVal<D>,
        size: Size,
    ) -> Result<(), RefusalNumber>
        ensures stored { OnOk result (store_stack self.old offset value size ≡ Ok self.new) }
        ensures refused { IfErr result (λ number. store_stack self.old offset value size ≡ Err number) }
        ensures unchanged { OnErr result (self.new ≡ self.old) }
    {
        let place = stack_place(offset, size)?;
        let cell = self.cell(place / 8).store(value, place, size)?;
        self.set(place / 8, cell);
        Ok(())
    }
}

/// How many low bits of an aligned address are 0.
fn zeros_of(size: Size) -> u32
    ensures zeros { result ≡ zeros_of size }
    ensures few { result ≤ 3 }
{
    match size {
        Size::Byte => 0,
        Size::HalfWord => 1,
        Size::Word => 2,
        Size::DoubleWord => 3,
    }
}

/// Any number of this size, extended to a word.
fn any_loaded<D: Domain>(extension: Extension, size: Size) -> D
    ensures { result ≡ any_loaded ⟦<D as Domain>⟧ extension size }
{
    let low = D::top().convert(Conversion::Low, size);
    match extension {
        Extension::Zero => low,
        Extension::Sign => low.convert(Conversion::SignExtended, size),
    }
}

/// A load from the context, at an offset that the domain's value contains.
fn load_context<D: Domain>(
    context_size: u64,
    offset: D,
    extension: Extension,
    size: Size,
) -> Result<AbsVal<D>, RefusalNumber>
    ensures { result ≡ load_context ⟦<D as Domain>⟧ context_size offset extension size }
{
    if !offset.low_zeros(zeros_of(size)) {
        return Err(RefusalNumber::Misaligned);
    }
    let bytes = size.bytes();
    if context_size < bytes || offset.bounds().high > context_size - bytes {
        return Err(RefusalNumber::OutOfBounds);
    }
    Ok(AbsVal::Number(any_loaded(extension, size)))
}

/// The index in the stack of the first byte of an access at an offset. It is refused with `Misaligned`,
/// then with `OutOfBounds`.
fn stack_place(offset: u64, size: Size) -> Result<usize, RefusalNumber>
    ensures place { result ≡ stack_place offset size }
    ensures within { IfOk result (λ place. place % 8 + bytes_in size ≤ 8) }
    ensures inside { IfOk result (λ place. place + bytes_in size ≤ stack_size) }
{
    if offset % size.bytes() != 0 {
        return Err(RefusalNumber::Misaligned);
    }
    let place = offset.wrapping_add(STACK_SIZE as u64);
    if place > STACK_SIZE as u64 - size.bytes() {
        return Err(RefusalNumber::OutOfBounds);
    }
    Ok(place as usize)
}

impl<D: Domain> Cell<D> {
    /// A load of the whole cell.
    fn load_whole(self) -> Result<AbsVal<D>, RefusalNumber>
        ensures { result ≡ whole_cell ⟦<D as Domain>⟧ self }
    {
        match self {
            Cell::Kept(value) => Ok(value),
            Cell::Bytes(255) => Ok(AbsVal::Number(D::top())),
            Cell::Bytes(_) => Err(RefusalNumber::UnsetStack),
        }
    }

    /// A load of a part of the cell. A part of a pointer is refused.
    fn load_part(
        self,
        place: usize,
        extension: Extension,
        size: Size,
    ) -> Result<AbsVal<D>, RefusalNumber>
        requires { place % 8 + bytes_in size ≤ 8 }
        ensures { result ≡ part_of_cell ⟦<D as Domain>⟧ self place extension size }
    {
        match self {
            Cell::Kept(AbsVal::Stack(_) | AbsVal::Context(_)) => Err(RefusalNumber::PointerUsed),
            _ if self.is_set(place, size) => Ok(AbsVal::Number(any_loaded(extension, size))),
            _ => Err(RefusalNumber::UnsetStack),
        }
    }

    /// A load from this cell. `place` is the index of its first byte in the stack.
    fn load(
        self,
        place: usize,
        extension: Extension,
        size: Size,
    ) -> Result<AbsVal<D>, RefusalNumber>
        requires { place % 8 + bytes_in size ≤ 8 }
        ensures { result ≡ load_cell ⟦<D as Domain>⟧ self place extension size }
    {
        match size {
            Size::DoubleWord => self.load_whole(),
            _ => self.load_part(place, extension, size),
        }
    }

    /// The cell after a store to it. `place` is the index of its first byte in the stack. A pointer has
    /// to be stored as a whole.
    fn store(self, value: AbsVal<D>, place: usize, size: Size) -> Result<Self, RefusalNumber>
        requires { place % 8 + bytes_in size ≤ 8 }
        ensures { result ≡ stored_cell self value place size }
    {
        match (value, size) {
            (AbsVal::Unset, _) => Err(RefusalNumber::UnsetRegister),
            (_, Size::DoubleWord) => Ok(Cell::Kept(value)),
            (AbsVal::Number(_), _) => Ok(self.with_numbers(place, size)),
            _ => Err(RefusalNumber::PointerUsed),
        }
    }
}
