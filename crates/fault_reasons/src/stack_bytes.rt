//! What the analysis knows of the bytes of the stack that an instruction reads, in words.
ghost use Rattle.std.specs.Prelude.{◌+◌, ◌<◌, ◌≤◌, IfSome};
ghost use Rattle.bpf_profile.specs.Limits.{stack_size};

use abs_domain::{Bounds, Domain};
use abs_regs::{AbsVal, Address, RegFile};
use abs_states::AbsState;
use bpf_profile::{Extension, Helper, Instruction, Register, STACK_SIZE, Size};
use stack_track::StackState;
use std::alloc::AllocError;

/// What is known of a byte of the stack.
#[derive(Clone, Copy)]
enum Byte {
    /// It is set, and part of a number.
    Number,
    /// It is part of a pointer that was stored.
    Pointer,
    /// It may be unset.
    Unset,
}

impl Byte {
    /// Whether the same is known of another byte.
    fn is_same(self, other: Byte) -> bool {
        matches!(
            (self, other),
            (Byte::Number, Byte::Number)
                | (Byte::Pointer, Byte::Pointer)
                | (Byte::Unset, Byte::Unset)
        )
    }

    /// What is wrong with such bytes.
    fn fault(self) -> Option<&'static str> {
        match self {
            Byte::Number => None,
            Byte::Pointer => Some("part of a pointer"),
            Byte::Unset => Some("may be unset"),
        }
    }
}

/// Bytes of the stack: the index of the first one, from 0 at the lowest offset on, and how many there are.
#[derive(Clone, Copy)]
struct Stretch {
    place: u64,
    count: u64,
}

/// Returns so many bytes from an offset on, a word that is read as signed, where all of them lie in the stack.
fn stretch_at(offset: u64, count: u64) -> Option<Stretch>
    ensures { IfSome result (λ bytes. bytes.place + bytes.count ≤ stack_size) }
{
    let place = offset.wrapping_add(STACK_SIZE as u64);
    if count <= STACK_SIZE as u64 && place <= STACK_SIZE as u64 - count {
        Some(Stretch { place, count })
    } else {
        None
    }
}

/// Returns the bytes that the arguments of a helper function give.
fn argument_bytes<D: Domain>(registers: &RegFile<D>) -> Option<Stretch>
    ensures { IfSome result (λ bytes. bytes.place + bytes.count ≤ stack_size) }
{
    let AbsVal::Stack(offset) = registers.get(Register::new(1)) else {
        return None;
    };
    let AbsVal::Number(count) = registers.get(Register::new(2)) else {
        return None;
    };
    let Bounds { low, high } = count.bounds();
    if low == high {
        stretch_at(offset, low)
    } else {
        None
    }
}

/// Returns the bytes of the stack that an instruction reads, where they are known.
fn bytes_read<D: Domain>(registers: &RegFile<D>, instruction: &Instruction) -> Option<Stretch>
    ensures { IfSome result (λ bytes. bytes.place + bytes.count ≤ stack_size) }
{
    match *instruction {
        Instruction::Load {
            size,
            base,
            offset,
            ..
        } => match registers.get(base) {
            AbsVal::Stack(place) => stretch_at(place.wrapping_add(offset), size.bytes()),
            _ => None,
        },
        Instruction::Call { helper } => match Helper::with_number(helper) {
            Some(Helper::TagStarts) => argument_bytes(registers),
            _ => None,
        },
        _ => None,
    }
}

/// Returns what is known of the byte at an index.
fn byte_at<D: Domain>(stack: &StackState<D>, place: u64) -> Byte
    requires { place < stack_size }
{
    if stack.stretch_is_set(place, 1) {
        return Byte::Number;
    }
    let first = (place - place % 8).wrapping_sub(STACK_SIZE as u64);
    match stack.load(0, Address::Stack(first), Extension::Zero, Size::DoubleWord) {
        Ok(AbsVal::Stack(_) | AbsVal::Context(_)) => Byte::Pointer,
        _ => Byte::Unset,
    }
}

/// Returns the offset of the byte at an index, as programs write it.
fn offset_of(place: u64) -> i64 {
    place.wrapping_sub(STACK_SIZE as u64).cast_signed()
}

/// Appends a line on bytes of which the same is known, from an index up to another, where it is a fault.
fn push_bytes(text: &mut String, byte: Byte, begin: u64, end: u64) -> Result<(), AllocError> {
    let Some(fault) = byte.fault() else {
        return Ok(());
    };
    let (first, last) = (offset_of(begin), offset_of(end.wrapping_sub(1)));
    if first == last {
        writeln!(text, "stack byte {first}: {fault}")
    } else {
        writeln!(text, "stack bytes {first} to {last}: {fault}")
    }
}

/// Appends a line on each run of bytes of the stack that are no number.
fn push_stretch<D: Domain>(
    text: &mut String,
    stack: &StackState<D>,
    bytes: Stretch,
) -> Result<(), AllocError>
    requires { bytes.place + bytes.count ≤ stack_size }
{
    let Stretch { place, count } = bytes;
    let mut begin = place;
    let mut run = Byte::Number;
    for i in 0..count {
        let byte = byte_at(stack, place + i);
        if !byte.is_same(run) {
            push_bytes(text, run, begin, place + i)?;
            begin = place + i;
            run = byte;
        }
    }
    push_bytes(text, run, begin, place + count)
}

/// Appends lines on the bytes of the stack that an instruction reads, as far as they are no number.
pub(crate) fn push_stack<D: Domain>(
    text: &mut String,
    state: &AbsState<D>,
    instruction: &Instruction,
) -> Result<(), AllocError> {
    match bytes_read(&state.registers, instruction) {
        Some(bytes) => push_stretch(text, &state.stack, bytes),
        None => Ok(()),
    }
}
