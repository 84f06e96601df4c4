//! Loads and stores (RFC 9669, sections 5.1 and 5.2).
ghost use Rattle.std.specs.Prelude.{◌≡◌, ◌≤◌, ◌<◌, ◌+◌, ◌%◌, ◌^◌, IfOk, OnOk};
ghost use Rattle.bpf_profile.specs.Layouts.{context_size};
ghost use Rattle.bpf_profile.specs.Limits.{most_slots};
ghost use Rattle.bpf_profile.specs.Machine.{address_of, place_of, region_size, place_for, loaded, load_value, is_stack, stored};
ghost use Rattle.bpf_profile.specs.Words.{bytes_in};
ghost use Rattle.bpf_slow.specs.Progress.{effect_of_step};

use crate::cells::{value_of_cells, write_value};
use crate::machine::PlainMachine;
use crate::progress::Progress;
use bpf_profile::{
    Cell, Extension, Layout, Operand, Region, Register, STACK_SIZE, Size, TrapReason, Value,
};
use bpf_words::extended;
use helpers::Record;
use std::marker::Model;

/// Where a pointer points: contracts see the address of the definitions.
#[derive(Clone, Copy)]
struct Address {
    region: Region,
    offset: u64,
}

impl Model for Address {
    ghost use Rattle.bpf_profile.specs.Machine.{Address};

    ghost Value = { Address };

    ghost view = { λ a. record { region = a.region; offset = a.offset } };

    ghost inverse = { λ a. record { region = a.region; offset = a.offset } };
}

/// The address so many bytes after the pointer.
fn address_of(pointer: Value, distance: u64) -> Result<Address, TrapReason>
    ensures { result ≡ address_of pointer distance }
{
    match pointer {
        Value::Pointer(region, offset) => Ok(Address {
            region,
            offset: offset.wrapping_add(distance),
        }),
        _ => Err(TrapReason::NotPointer),
    }
}

/// How many bytes of the region lie before an offset; far past its end where the offset is before it.
pub(crate) fn place_of(region: Region, offset: u64) -> u64
    ensures { result ≡ place_of region offset }
{
    match region {
        Region::Stack => offset.wrapping_add(STACK_SIZE as u64),
        Region::Context => offset,
    }
}

/// The size of the region in bytes; the context has as many as the layout says.
fn region_size(layout: Layout, region: Region) -> u64
    ensures { result ≡ region_size (context_size layout) region }
{
    match region {
        Region::Stack => STACK_SIZE as u64,
        Region::Context => layout.context_size(),
    }
}

/// The place of an access that is aligned and lies in its region.
fn place_for(layout: Layout, size: Size, at: Address) -> Result<usize, TrapReason>
    ensures place { result ≡ place_for (context_size layout) (bytes_in size) at }
    ensures aligned { OnOk result (at.offset % bytes_in size ≡ 0) }
    ensures inside { IfOk result (λ place. (place ≡ place_of at.region at.offset) × (place + bytes_in size ≤ region_size (context_size layout) at.region)) }
{
    if at.offset % size.bytes() != 0 {
        return Err(TrapReason::Misaligned);
    }
    let place = place_of(at.region, at.offset);
    let end = region_size(layout, at.region);
    if place > end || end - place < size.bytes() {
        return Err(TrapReason::OutOfBounds);
    }
    Ok(place as usize)
}

fn is_stack(region: Region) -> bool
    ensures { result ≡ is_stack region }
{
    matches!(region, Region::Stack)
}

impl PlainMachine {
    /// What stands at a place of a region.
    fn loaded(
        &self,
        outcome: &Record,
        layout: Layout,
        extension: Extension,
        size: Size,
        region: Region,
        place: usize,
    ) -> Result<Value, TrapReason>
        requires inside { place + bytes_in size ≤ region_size (context_size layout) region }
        requires aligned { region ≡ Region.Context → place % bytes_in size ≡ 0 }
        ensures { result ≡ loaded outcome.now self.now extension (bytes_in size) region place }
    {
        match region {
            Region::Stack => {
                value_of_cells(extension, size, self.cells(place, size.bytes() as usize))
            }
            Region::Context => {
                let number = outcome.word_at(place, size);
                Ok(Value::Number(extended(extension, size, number)))
            }
        }
    }

    /// The value that a load gives.
    pub(crate) fn load_value(
        &self,
        outcome: &Record,
        layout: Layout,
        size: Size,
        extension: Extension,
        base: Register,
        distance: u64,
    ) -> Result<Value, TrapReason>
        ensures { result ≡ load_value (context_size layout) outcome.now self.now size extension base distance }
    {
        let pointer = self.read_register(base)?;
        let at = address_of(pointer, distance)?;
        let place = place_for(layout, size, at)?;
        self.loaded(outcome, layout, extension, size, at.region, place)
    }

    /// Stores the operand, and goes to the next slot.
    pub(crate) fn store(
        &mut self,
        layout: Layout,
        size: Size,
        base: Register,
        distance: u64,
        operand: &Operand,
    ) -> Result<Progress, TrapReason>
        requires { self.old.slot < most_slots }
        ensures { effect_of_step result self.new ≡ stored (context_size layout) self.old size base distance operand.now }
    {
        let pointer = self.read_register(base)?;
        let value = self.read_operand(operand)?;
        let at = address_of(pointer, distance)?;
        if !is_stack(at.region) {
            return Err(TrapReason::ContextWrite);
        }
        let place = place_for(layout, size, at)?;
        let mut room = [Cell::Unset; 8];
        let cells = &mut room[..size.bytes() as usize];
        write_value(value, cells)?;
        self.overwrite(place, cells);
        self.jump(self.slot() + 1);
        Ok(Progress::Goes)
    }
}
