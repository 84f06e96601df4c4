//! Transfers by hand: over the flat domain, what RFC 9669 and the doc comments say of what is known
//! after each kind of instruction, and of the first of its faults.
ghost use Rattle.std.specs.Prelude.{◌<◌};

mod answers;
mod branches;
mod calls;
mod joins;
mod loads;
mod numbers;
mod programs;
mod stores;
mod stretches;

use abs_domain::Flat;
use abs_regs::{AbsVal, Address};
use abs_states::AbsState;
use bpf_profile::{Extension, Instruction, Operand, Register, Size};
use refusals::RefusalNumber;
use std::alloc::Global;
use std::process::Abort;

/// The bytes of a context.
const CONTEXT_SIZE: u64 = 128;

const UNSET: AbsVal<Flat> = AbsVal::Unset;

/// A number of which nothing is known.
const ANY: AbsVal<Flat> = AbsVal::Number(Flat::Any);

const EIGHT: AbsVal<Flat> = AbsVal::Number(Flat::One(8));

/// 16 bytes before the end of the stack.
const STACK: AbsVal<Flat> = AbsVal::Stack(0xffff_ffff_ffff_fff0);

/// Byte 24 of the context.
const CONTEXT: AbsVal<Flat> = AbsVal::Context(Flat::One(24));

/// The end of the stack.
const END: AbsVal<Flat> = AbsVal::Stack(0);

/// The first byte of the stack.
const START: AbsVal<Flat> = AbsVal::Stack(MINUS_512);

/// One byte before the first of the stack.
const BEFORE_START: AbsVal<Flat> = AbsVal::Stack(0xffff_ffff_ffff_fdff);

/// -1 as a word.
const MINUS_1: u64 = u64::MAX;

/// -8 as a word.
const MINUS_8: u64 = 0xffff_ffff_ffff_fff8;

/// -512 as a word.
const MINUS_512: u64 = 0xffff_ffff_ffff_fe00;

type Found = Result<AbsState<Flat>, RefusalNumber>;

/// The number that is one word.
fn number(word: u64) -> AbsVal<Flat> {
    AbsVal::Number(Flat::One(word))
}

/// The negative of a number, as a word.
fn minus(distance: u64) -> u64 {
    0u64.wrapping_sub(distance)
}

/// The pointer so many bytes before the stack's end.
fn before(bytes: u64) -> AbsVal<Flat> {
    AbsVal::Stack(minus(bytes))
}

/// The register of a number, as an operand.
fn register(number: u8) -> Operand
    requires { number < 11 }
{
    Operand::Register(Register::new(number))
}

/// The state before the first instruction.
fn at_entry(rt: &impl Abort, alloc: Global) -> AbsState<Flat> {
    AbsState::entry(alloc).expect(rt, "memory for a state")
}

/// The same state once more.
fn copy(rt: &impl Abort, alloc: Global, state: &AbsState<Flat>) -> AbsState<Flat> {
    let mut copied = at_entry(rt, alloc);
    copied.copy_from(state);
    copied
}

/// The same state, but for one register.
fn with(
    rt: &impl Abort,
    alloc: Global,
    state: &AbsState<Flat>,
    register: Register,
    value: AbsVal<Flat>,
) -> AbsState<Flat> {
    let mut changed = copy(rt, alloc, state);
    changed.registers.set(register, value);
    changed
}

/// The state with a value stored so many bytes before the stack's end; the same where that is refused.
fn stored_before(
    rt: &impl Abort,
    alloc: Global,
    state: &AbsState<Flat>,
    bytes: u64,
    value: AbsVal<Flat>,
    size: Size,
) -> AbsState<Flat> {
    let mut changed = copy(rt, alloc, state);
    let _refused = changed
        .stack
        .store(Address::Stack(minus(bytes)), value, size);
    changed
}

/// What an instruction makes of a state.
fn transferred(
    rt: &impl Abort,
    alloc: Global,
    state: &AbsState<Flat>,
    context_size: u64,
    taken: bool,
    instruction: &Instruction,
) -> Found {
    let mut after = copy(rt, alloc, state);
    after.transfer(context_size, taken, instruction)?;
    Ok(after)
}

/// A state with R0 and R6 to R9 unset, in R2 eight, in R3 any number, and pointers in the others.
fn sample(rt: &impl Abort, alloc: Global) -> AbsState<Flat> {
    let entry = at_entry(rt, alloc);
    AbsState {
        registers: entry
            .registers
            .with(Register::new(2), EIGHT)
            .with(Register::new(3), ANY)
            .with(Register::new(4), STACK)
            .with(Register::new(5), CONTEXT),
        stack: entry.stack,
    }
}

/// The sample, but for one register.
fn sample_with(
    rt: &impl Abort,
    alloc: Global,
    register: Register,
    value: AbsVal<Flat>,
) -> AbsState<Flat> {
    let mut changed = sample(rt, alloc);
    changed.registers.set(register, value);
    changed
}

/// What a load of a whole cell finds, the first cell's number being 0.
fn cell_of(state: &AbsState<Flat>, cell: u64) -> Result<AbsVal<Flat>, RefusalNumber>
    requires { cell < 64 }
{
    let address = Address::Stack(minus(512 - 8 * cell));
    state
        .stack
        .load(CONTEXT_SIZE, address, Extension::Zero, Size::DoubleWord)
}

/// Whether the same is known of each register.
fn registers_are_alike(one: &AbsState<Flat>, other: &AbsState<Flat>) -> bool {
    for number in 0..11u8 {
        let register = Register::new(number);
        if one.registers.get(register) != other.registers.get(register) {
            return false;
        }
    }
    true
}

/// Whether the same is known of each cell of the stack, and of each byte.
fn stacks_are_alike(one: &AbsState<Flat>, other: &AbsState<Flat>) -> bool {
    for cell in 0..64 {
        if cell_of(one, cell) != cell_of(other, cell) {
            return false;
        }
    }
    for place in 0..512 {
        if one.stack.stretch_is_set(place, 1) != other.stack.stretch_is_set(place, 1) {
            return false;
        }
    }
    true
}

/// Whether the bytes that are known to hold numbers are these, from the place with so many bytes of the
/// stack before it on, and no others.
fn set_bytes_are(state: &AbsState<Flat>, first: u64, end: u64) -> bool {
    for place in 0..512 {
        if state.stack.stretch_is_set(place, 1) != (first <= place && place < end) {
            return false;
        }
    }
    true
}

/// Whether both are the same refusal, or states of which the same is known.
fn agree(found: &Found, wanted: &Found) -> bool {
    match (found, wanted) {
        (Ok(found), Ok(wanted)) => {
            registers_are_alike(found, wanted) && stacks_are_alike(found, wanted)
        }
        (Err(found), Err(wanted)) => *found == *wanted,
        _ => false,
    }
}

/// Whether an instruction makes what is wanted of a state, on both ways.
fn makes(
    rt: &impl Abort,
    alloc: Global,
    state: &AbsState<Flat>,
    context_size: u64,
    instruction: &Instruction,
    wanted: &Found,
) -> bool {
    agree(
        &transferred(rt, alloc, state, context_size, false, instruction),
        wanted,
    ) && agree(
        &transferred(rt, alloc, state, context_size, true, instruction),
        wanted,
    )
}
