//! The helper functions that a program may call (RFC 9669, section 4.3.1). Arguments are in R1 to R5,
//! the answer comes in R0.
ghost use Rattle.std.specs.Prelude.{◌≡◌, ◌≤◌, ◌<◌, ◌+◌, length, IfOk};
ghost use Rattle.bpf_profile.specs.Layouts.{context_size};
ghost use Rattle.bpf_profile.specs.Limits.{most_slots, stack_size, most_tag_bytes};
ghost use Rattle.bpf_profile.specs.Helpers.{stack_offset, number_argument, stretch_of, fact, front_byte, copy_tag, tag_starts, helper_answer, called};
ghost use Rattle.bpf_slow.specs.Progress.{effect_of_step, answer_with};

use crate::cells::{read_bytes, write_bytes};
use crate::machine::PlainMachine;
use crate::memory::place_of;
use crate::progress::Progress;
use crate::registers::number_or;
use bpf_profile::{
    Cell, FACT_COUNT, FRONT_OFFSET, Helper, Layout, MOST_TAG_BYTES, Region, Register, STACK_SIZE,
    TrapReason, Value,
};
use helpers::Record;
use std::marker::Model;

/// A stretch of the stack: where it begins, and its 1 to 32 bytes. Contracts see the stretch of the
/// definitions.
#[derive(Clone, Copy)]
struct Stretch {
    place: usize,
    count: usize,
}

impl Model for Stretch {
    ghost use Rattle.bpf_profile.specs.Helpers.{Stretch};

    ghost Value = { Stretch };

    ghost view = { λ s. record { place = s.place; count = s.count } };

    ghost inverse = { λ s. record { place = s.place; count = s.count } };
}

/// The offset of a pointer into the stack.
fn stack_offset(value: Value) -> Result<u64, TrapReason>
    ensures { result ≡ stack_offset value }
{
    match value {
        Value::Pointer(Region::Stack, offset) => Ok(offset),
        _ => Err(TrapReason::Argument),
    }
}

impl PlainMachine {
    /// An argument that is a number.
    fn number_argument(&self, register: Register) -> Result<u64, TrapReason>
        ensures { result ≡ number_argument self.now register }
    {
        let value = self.read_register(register)?;
        number_or(TrapReason::Argument, value)
    }

    /// The arguments R1 and R2 as a stretch of the stack.
    fn stretch(&self) -> Result<Stretch, TrapReason>
        ensures stretch { result ≡ stretch_of self.now }
        ensures inside { IfOk result (λ s. (s.place + s.count ≤ stack_size) × (s.count ≤ most_tag_bytes)) }
    {
        let pointer = self.read_register(Register::new(1))?;
        let offset = stack_offset(pointer)?;
        let count = self.number_argument(Register::new(2))?;
        if count == 0 || count > MOST_TAG_BYTES as u64 {
            return Err(TrapReason::Argument);
        }
        let place = place_of(Region::Stack, offset);
        if place > STACK_SIZE as u64 - count {
            return Err(TrapReason::Argument);
        }
        Ok(Stretch {
            place: place as usize,
            count: count as usize,
        })
    }

    /// Helper 1: the fact R1.
    fn fact(&self, outcome: &Record) -> Result<u64, TrapReason>
        ensures { answer_with result self.now.stack ≡ fact outcome.now self.now }
    {
        let i = self.number_argument(Register::new(1))?;
        if i >= FACT_COUNT as u64 {
            return Err(TrapReason::Argument);
        }
        Ok(outcome.fact(i as usize))
    }

    /// Helper 2: byte R1 of the body's front, of which there is as much as the layout's context has.
    fn front_byte(&self, outcome: &Record, layout: Layout) -> Result<u64, TrapReason>
        ensures { answer_with result self.now.stack ≡ front_byte (context_size layout) outcome.now self.now }
    {
        let i = self.number_argument(Register::new(1))?;
        let end = layout.context_size();
        if i >= end || FRONT_OFFSET as u64 + i >= end {
            return Err(TrapReason::Argument);
        }
        Ok(u64::from(outcome.front_byte(i as usize)))
    }

    /// Helper 3: writes the tag's first R2 bytes to the stack from R1 on, zeros past the tag's end.
    /// The answer is the tag's length.
    fn copy_tag(&mut self, outcome: &Record) -> Result<u64, TrapReason>
        ensures answer { answer_with result self.new.stack ≡ copy_tag outcome.now self.old }
        ensures slot { self.new.slot ≡ self.old.slot }
        ensures registers { self.new.registers ≡ self.old.registers }
    {
        let Stretch { place, count } = self.stretch()?;
        let mut room = [0u8; MOST_TAG_BYTES];
        let bytes = &mut room[..count];
        let length = outcome.copy_tag(bytes);
        let mut cells = [Cell::Unset; MOST_TAG_BYTES];
        write_bytes(bytes, &mut cells[..count]);
        self.overwrite(place, &cells[..count]);
        Ok(length)
    }

    /// Helper 4: 1 where the tag begins with the R2 bytes on the stack from R1 on, else 0.
    fn tag_starts(&self, outcome: &Record) -> Result<u64, TrapReason>
        ensures { answer_with result self.now.stack ≡ tag_starts outcome.now self.now }
    {
        let Stretch { place, count } = self.stretch()?;
        let mut room = [0u8; MOST_TAG_BYTES];
        let bytes = &mut room[..count];
        if !read_bytes(self.cells(place, count), bytes) {
            return Err(TrapReason::Argument);
        }
        Ok(u64::from(outcome.tag_starts(bytes)))
    }

    /// The answer of a helper, which may write to the stack.
    fn helper_answer(
        &mut self,
        outcome: &Record,
        layout: Layout,
        helper: u32,
    ) -> Result<u64, TrapReason>
        ensures answer { answer_with result self.new.stack ≡ helper_answer (context_size layout) outcome.now self.old helper }
        ensures slot { self.new.slot ≡ self.old.slot }
        ensures registers { self.new.registers ≡ self.old.registers }
    {
        match Helper::with_number(helper) {
            Some(Helper::Fact) => self.fact(outcome),
            Some(Helper::FrontByte) => self.front_byte(outcome, layout),
            Some(Helper::CopyTag) => self.copy_tag(outcome),
            Some(Helper::TagStarts) => self.tag_starts(outcome),
            None => Err(TrapReason::Helper),
        }
    }

    /// Calls a helper, and goes to the next slot. R1 to R5 are unset then.
    pub(crate) fn call(
        &mut self,
        outcome: &Record,
        layout: Layout,
        helper: u32,
    ) -> Result<Progress, TrapReason>
        requires { self.old.slot < most_slots }
        ensures { effect_of_step result self.new ≡ called (context_size layout) outcome.now self.old helper }
    {
        let answer = self.helper_answer(outcome, layout, helper)?;
        self.answer_call(answer);
        self.jump(self.slot() + 1);
        Ok(Progress::Goes)
    }
}
