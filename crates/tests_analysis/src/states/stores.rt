//! Stores (RFC 9669, section 5.1).
ghost use Rattle.std.specs.Prelude.{◌<◌};

use super::{
    ANY, BEFORE_START, CONTEXT, CONTEXT_SIZE, EIGHT, END, Found, MINUS_1, MINUS_8, MINUS_512,
    STACK, START, UNSET, cell_of, makes, minus, number, register, registers_are_alike, sample_with,
    set_bytes_are, transferred,
};
use crate::checks::{is_found, is_true, is_true_at};
use abs_domain::Flat;
use abs_regs::AbsVal;
use abs_states::AbsState;
use bpf_profile::{Instruction, Operand, Register, Size};
use refusals::RefusalNumber;
use std::alloc::Global;
use std::process::Abort;

const SIZES: [Size; 4] = [Size::Byte, Size::HalfWord, Size::Word, Size::DoubleWord];

/// A store through R4.
fn store(size: Size, offset: u64, operand: Operand) -> Instruction {
    Instruction::Store {
        size,
        base: Register::new(4),
        offset,
        operand,
    }
}

/// The sample with a base in R4 and a value in R6.
fn based(
    rt: &impl Abort,
    alloc: Global,
    base: AbsVal<Flat>,
    value: AbsVal<Flat>,
) -> AbsState<Flat> {
    let mut state = sample_with(rt, alloc, Register::new(4), base);
    state.registers.set(Register::new(6), value);
    state
}

/// What is known once R6 is stored.
fn stored(
    rt: &impl Abort,
    alloc: Global,
    state: &AbsState<Flat>,
    size: Size,
    offset: u64,
) -> Found {
    transferred(
        rt,
        alloc,
        state,
        CONTEXT_SIZE,
        false,
        &store(size, offset, register(6)),
    )
}

/// Checks why a store is refused.
fn is_refused(
    rt: &impl Abort,
    alloc: Global,
    base: AbsVal<Flat>,
    value: AbsVal<Flat>,
    size: Size,
    offset: u64,
    refusal: RefusalNumber,
) {
    let instruction = store(size, offset, register(6));
    let state = based(rt, alloc, base, value);
    let found = makes(rt, alloc, &state, CONTEXT_SIZE, &instruction, &Err(refusal));
    is_true_at(rt, found, (&base, &value, &size, &offset));
}

/// Checks that a store with one of these unset is refused for that, whatever its size and its offset.
fn is_unset(rt: &impl Abort, alloc: Global, base: AbsVal<Flat>, value: AbsVal<Flat>) {
    let unset = RefusalNumber::UnsetRegister;
    for size in &SIZES {
        is_refused(rt, alloc, base, value, *size, 0, unset);
        is_refused(rt, alloc, base, value, *size, 1, unset);
        is_refused(rt, alloc, base, value, *size, 16, unset);
    }
}

#[test]
fn base_and_value_are_set_before_all_else(rt: HostRuntime) {
    let rt = &rt;
    let alloc = rt.alloc();
    is_unset(rt, alloc, UNSET, UNSET);
    is_unset(rt, alloc, UNSET, EIGHT);
    is_unset(rt, alloc, UNSET, STACK);
    is_unset(rt, alloc, EIGHT, UNSET);
    is_unset(rt, alloc, CONTEXT, UNSET);
    is_unset(rt, alloc, STACK, UNSET);
    // So it is with an immediate, which is set.
    let instruction = store(Size::Byte, 0, Operand::Immediate(1));
    let unset = Err(RefusalNumber::UnsetRegister);
    let state = based(rt, alloc, UNSET, EIGHT);
    is_true(
        rt,
        makes(rt, alloc, &state, CONTEXT_SIZE, &instruction, &unset),
    );
}

/// A base, a value, a size, an offset, and why a store of these is refused.
type Refused = (AbsVal<Flat>, AbsVal<Flat>, Size, u64, RefusalNumber);

/// Checks why stores are refused.
fn are_refused(rt: &impl Abort, alloc: Global, rows: &[Refused]) {
    for row in rows {
        let (base, value, size, offset, refusal) = *row;
        is_refused(rt, alloc, base, value, size, offset, refusal);
    }
}

#[test]
fn faults_come_in_their_order(rt: HostRuntime) {
    let alloc = rt.alloc();
    are_refused(
        &rt,
        alloc,
        &[
            (EIGHT, STACK, Size::Word, 1, RefusalNumber::NotPointer),
            (ANY, EIGHT, Size::DoubleWord, 0, RefusalNumber::NotPointer),
            (CONTEXT, EIGHT, Size::Byte, 0, RefusalNumber::ContextWrite),
            (CONTEXT, EIGHT, Size::Word, 1, RefusalNumber::ContextWrite),
            (
                CONTEXT,
                EIGHT,
                Size::Byte,
                1000,
                RefusalNumber::ContextWrite,
            ),
            (CONTEXT, STACK, Size::Word, 1, RefusalNumber::ContextWrite),
            (STACK, EIGHT, Size::Word, 2, RefusalNumber::Misaligned),
            (STACK, EIGHT, Size::Word, 17, RefusalNumber::Misaligned),
            (STACK, CONTEXT, Size::Word, 17, RefusalNumber::Misaligned),
            (
                BEFORE_START,
                EIGHT,
                Size::HalfWord,
                0,
                RefusalNumber::Misaligned,
            ),
            (STACK, EIGHT, Size::Byte, 16, RefusalNumber::OutOfBounds),
            (STACK, STACK, Size::Byte, 16, RefusalNumber::OutOfBounds),
            (
                STACK,
                STACK,
                Size::DoubleWord,
                16,
                RefusalNumber::OutOfBounds,
            ),
            (
                START,
                EIGHT,
                Size::DoubleWord,
                MINUS_8,
                RefusalNumber::OutOfBounds,
            ),
            (
                START,
                EIGHT,
                Size::Byte,
                MINUS_1,
                RefusalNumber::OutOfBounds,
            ),
            (STACK, STACK, Size::Byte, 0, RefusalNumber::PointerUsed),
            (STACK, STACK, Size::HalfWord, 2, RefusalNumber::PointerUsed),
            (STACK, CONTEXT, Size::Word, 12, RefusalNumber::PointerUsed),
        ],
    );
}

/// Checks that a value is in its cell.
fn has_cell(rt: &impl Abort, found: &Found, cell: u64, value: AbsVal<Flat>)
    requires { cell < 64 }
{
    match found {
        Ok(after) => is_found(rt, cell_of(after, cell), Ok(value)),
        Err(refusal) => is_true_at(rt, false, refusal),
    }
}

/// Checks which bytes are set, and that no register is changed.
fn has_bytes(rt: &impl Abort, found: &Found, state: &AbsState<Flat>, first: u64, end: u64) {
    match found {
        Ok(after) => {
            is_true_at(rt, set_bytes_are(after, first, end), (&first, &end));
            is_true_at(rt, registers_are_alike(after, state), (&first, &end));
        }
        Err(refusal) => is_true_at(rt, false, refusal),
    }
}

/// Checks that a value is in its cell once it is stored, that its bytes are set where it is a number, and
/// that no register is changed.
fn is_stored(
    rt: &impl Abort,
    alloc: Global,
    base: AbsVal<Flat>,
    offset: u64,
    cell: u64,
    value: AbsVal<Flat>,
)
    requires { cell < 64 }
{
    let state = based(rt, alloc, base, value);
    let found = stored(rt, alloc, &state, Size::DoubleWord, offset);
    has_cell(rt, &found, cell, value);
    let (first, end) = match value {
        AbsVal::Number(_) => (8 * cell, 8 * cell + 8),
        _ => (0, 0),
    };
    has_bytes(rt, &found, &state, first, end);
}

/// Checks that values of each kind are stored.
fn are_stored(rt: &impl Abort, alloc: Global, base: AbsVal<Flat>, offset: u64, cell: u64)
    requires { cell < 64 }
{
    is_stored(rt, alloc, base, offset, cell, EIGHT);
    is_stored(rt, alloc, base, offset, cell, ANY);
    is_stored(rt, alloc, base, offset, cell, STACK);
    is_stored(rt, alloc, base, offset, cell, CONTEXT);
}

#[test]
fn values_are_stored_whole(rt: HostRuntime) {
    let rt = &rt;
    let alloc = rt.alloc();
    are_stored(rt, alloc, END, MINUS_8, 63);
    are_stored(rt, alloc, END, MINUS_512, 0);
    are_stored(rt, alloc, STACK, 0, 62);
    are_stored(rt, alloc, STACK, 8, 63);
    are_stored(rt, alloc, START, 16, 2);
}

/// Checks that a word is in its cell once it is stored, and no other byte is set, and that no register is changed.
fn immediate_is_stored(rt: &impl Abort, alloc: Global, word: u64) {
    let state = based(rt, alloc, STACK, UNSET);
    let instruction = store(Size::DoubleWord, 8, Operand::Immediate(word));
    let found = transferred(rt, alloc, &state, CONTEXT_SIZE, true, &instruction);
    has_cell(rt, &found, 63, number(word));
    has_bytes(rt, &found, &state, 504, 512);
}

#[test]
fn an_immediate_is_stored_whole(rt: HostRuntime) {
    let alloc = rt.alloc();
    immediate_is_stored(&rt, alloc, 0);
    immediate_is_stored(&rt, alloc, 7);
    immediate_is_stored(&rt, alloc, u64::MAX);
}

/// Checks which bytes are set once the low ones of a number are stored, and that no register is changed.
fn sets_bytes(
    rt: &impl Abort,
    alloc: Global,
    value: AbsVal<Flat>,
    size: Size,
    offset: u64,
    first: u64,
    end: u64,
) {
    let state = based(rt, alloc, STACK, value);
    let found = stored(rt, alloc, &state, size, offset);
    has_bytes(rt, &found, &state, first, end);
}

/// Checks which bytes are set once the low ones of a number are stored, whether it is known or not.
fn both_set_bytes(rt: &impl Abort, alloc: Global, size: Size, offset: u64, first: u64, end: u64) {
    sets_bytes(rt, alloc, EIGHT, size, offset, first, end);
    sets_bytes(rt, alloc, ANY, size, offset, first, end);
}

#[test]
fn low_bytes_of_numbers_are_stored(rt: HostRuntime) {
    let rt = &rt;
    let alloc = rt.alloc();
    both_set_bytes(rt, alloc, Size::Byte, 15, 511, 512);
    both_set_bytes(rt, alloc, Size::Byte, 0, 496, 497);
    both_set_bytes(rt, alloc, Size::HalfWord, 2, 498, 500);
    both_set_bytes(rt, alloc, Size::Word, 4, 500, 504);
    both_set_bytes(rt, alloc, Size::Word, minus(496), 0, 4);
}
