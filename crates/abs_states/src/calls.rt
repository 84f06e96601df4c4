//! Calls of helper functions (RFC 9669, section 4.3.1).
ghost use Rattle.std.specs.Prelude.{◌≡◌, ◌≤◌, ◌+◌, IfOk, IfSome};
ghost use Rattle.abs_states.specs.Calls.{argument_in, pointer_argument, count_in, placed_in, stretch_in, up_to, fact_in, front_byte_in, copy_tag_in, tag_starts_in, answer_in, written_in, without_arguments, called_values};
ghost use Rattle.bpf_profile.specs.Limits.{stack_size, most_tag_bytes};

use crate::state::AbsState;
use abs_domain::{Conversion, Domain, Relation};
use abs_regs::{AbsVal, RegFile};
use bpf_profile::{FACT_COUNT, FRONT_OFFSET, Helper, MOST_TAG_BYTES, Register, STACK_SIZE, Size};
use refusals::RefusalNumber;
use stack_track::StackState;

/// A byte range of the stack: the index of its first byte, from 0 at the lowest offset on, and its length.
#[derive(Clone, Copy)]
pub struct Stretch {
    pub place: u64,
    pub count: u64,
}

/// The abstract answer of a helper function, and the byte range of the stack that it writes.
pub struct Answered<D> {
    pub answer: D,
    pub written: Option<Stretch>,
}

/// An argument that has to be a number.
fn number_argument<D: Domain>(value: AbsVal<D>) -> Result<D, RefusalNumber>
    ensures { result ≡ argument_in value }
{
    match value {
        AbsVal::Unset => Err(RefusalNumber::UnsetRegister),
        AbsVal::Number(number) => Ok(number),
        AbsVal::Stack(_) | AbsVal::Context(_) => Err(RefusalNumber::HelperArgument),
    }
}

/// An argument that has to be a pointer into the stack. The answer is its offset.
fn stack_argument<D: Domain>(value: AbsVal<D>) -> Result<u64, RefusalNumber>
    ensures { result ≡ pointer_argument value }
{
    match value {
        AbsVal::Unset => Err(RefusalNumber::UnsetRegister),
        AbsVal::Stack(offset) => Ok(offset),
        AbsVal::Number(_) | AbsVal::Context(_) => Err(RefusalNumber::HelperArgument),
    }
}

/// A length in bytes, which has to be a known constant from 1 to 32.
fn known_count<D: Domain>(number: D) -> Result<u64, RefusalNumber>
    ensures count { result ≡ count_in ⟦<D as Domain>⟧ number }
    ensures few { IfOk result (λ count. count ≤ most_tag_bytes) }
{
    let bounds = number.bounds();
    if bounds.low == bounds.high && 0 < bounds.low && bounds.low <= MOST_TAG_BYTES as u64 {
        Ok(bounds.low)
    } else {
        Err(RefusalNumber::HelperArgument)
    }
}

/// The byte range of a length from an offset on, which has to lie in the stack.
fn stretch_at(offset: u64, count: u64) -> Result<Stretch, RefusalNumber>
    requires { count ≤ most_tag_bytes }
    ensures stretch { result ≡ placed_in offset count }
    ensures inside { IfOk result (λ bytes. bytes.place + bytes.count ≤ stack_size) }
{
    let place = offset.wrapping_add(STACK_SIZE as u64);
    if place <= STACK_SIZE as u64 - count {
        Ok(Stretch { place, count })
    } else {
        Err(RefusalNumber::HelperArgument)
    }
}

/// The byte range that the arguments give: R1 points to it, and R2 is its length.
fn bytes_argument<D: Domain>(registers: &RegFile<D>) -> Result<Stretch, RefusalNumber>
    ensures stretch { result ≡ stretch_in ⟦<D as Domain>⟧ registers.now }
    ensures inside { IfOk result (λ bytes. bytes.place + bytes.count ≤ stack_size) }
{
    let offset = stack_argument(registers.get(Register::new(1)))?;
    let number = number_argument(registers.get(Register::new(2)))?;
    let count = known_count(number)?;
    stretch_at(offset, count)
}

/// Any number of at most `most`.
fn up_to<D: Domain>(most: u64) -> D
    ensures { result ≡ up_to ⟦<D as Domain>⟧ most }
{
    let (_, number) = D::constant(most).refine(Relation::GreaterOrEqual, D::top());
    number
}

impl<D: Domain> AbsState<D> {
    /// Helper 1: the fact with the index R1.
    fn fact(&self) -> Result<Answered<D>, RefusalNumber>
        ensures { result ≡ fact_in ⟦<D as Domain>⟧ self.now }
    {
        let number = number_argument(self.registers.get(Register::new(1)))?;
        if number.bounds().high < FACT_COUNT as u64 {
            Ok(Answered {
                answer: D::top(),
                written: None,
            })
        } else {
            Err(RefusalNumber::HelperArgument)
        }
    }

    /// Helper 2: the byte of the body's front with the index R1.
    fn front_byte(&self, context_size: u64) -> Result<Answered<D>, RefusalNumber>
        ensures { result ≡ front_byte_in ⟦<D as Domain>⟧ context_size self.now }
    {
        let number = number_argument(self.registers.get(Register::new(1)))?;
        let front = FRONT_OFFSET as u64;
        if front < context_size && number.bounds().high < context_size - front {
            Ok(Answered {
                answer: D::top().convert(Conversion::Low, Size::Byte),
                written: None,
            })
        } else {
            Err(RefusalNumber::HelperArgument)
        }
    }

    /// Helper 3: the front of the tag is copied to the stack.
    fn copy_tag(&self) -> Result<Answered<D>, RefusalNumber>
        ensures answer { result ≡ copy_tag_in ⟦<D as Domain>⟧ self.now }
        ensures inside { IfOk result (λ a. IfSome a.written (λ bytes. bytes.place + bytes.count ≤ stack_size)) }
    {
        let bytes = bytes_argument(&self.registers)?;
        Ok(Answered {
            answer: up_to(MOST_TAG_BYTES as u64),
            written: Some(bytes),
        })
    }

    /// Helper 4: the front of the tag is compared with a byte range of the stack, which has to be set.
    fn tag_starts(&self) -> Result<Answered<D>, RefusalNumber>
        ensures { result ≡ tag_starts_in ⟦<D as Domain>⟧ self.now }
    {
        let bytes = bytes_argument(&self.registers)?;
        if self.stack.stretch_is_set(bytes.place, bytes.count) {
            Ok(Answered {
                answer: up_to(1),
                written: None,
            })
        } else {
            Err(RefusalNumber::HelperArgument)
        }
    }

    /// The answer of the helper function with this number, and the byte range that it writes.
    pub(crate) fn answered(
        &self,
        context_size: u64,
        helper: u32,
    ) -> Result<Answered<D>, RefusalNumber>
        ensures answer { result ≡ answer_in ⟦<D as Domain>⟧ context_size self.now helper }
        ensures inside { IfOk result (λ a. IfSome a.written (λ bytes. bytes.place + bytes.count ≤ stack_size)) }
    {
        match Helper::with_number(helper) {
            Some(Helper::Fact) => self.fact(),
            Some(Helper::FrontByte) => self.front_byte(context_size),
            Some(Helper::CopyTag) => self.copy_tag(),
            Some(Helper::TagStarts) => self.tag_starts(),
            None => Err(RefusalNumber::HelperUnknown),
        }
    }
}

/// Writes the byte range that a call writes, if there is one.
pub(crate) fn write<D: Domain>(stack: &mut StackState<D>, written: Option<Stretch>)
    requires { IfSome written (λ bytes. bytes.place + bytes.count ≤ stack_size) }
    ensures { stack.new ≡ written_in stack.old written }
{
    if let Some(bytes) = written {
        stack.write_stretch(bytes.place, bytes.count);
    }
}

/// Forgets R1 to R5, the arguments.
fn forget_arguments<D: Domain>(registers: &mut RegFile<D>)
    ensures { registers.new ≡ without_arguments registers.old }
{
    registers.set(Register::new(1), AbsVal::Unset);
    registers.set(Register::new(2), AbsVal::Unset);
    registers.set(Register::new(3), AbsVal::Unset);
    registers.set(Register::new(4), AbsVal::Unset);
    registers.set(Register::new(5), AbsVal::Unset);
}

/// Makes of the registers those after a call: the answer in R0, the arguments unset, the others kept.
pub(crate) fn answer<D: Domain>(registers: &mut RegFile<D>, answer: D)
    ensures { registers.new ≡ called_values registers.old answer }
{
    forget_arguments(registers);
    registers.set(Register::new(0), AbsVal::Number(answer));
}
