//! Calls of helper functions (RFC 9669, section 4.3.1): the two that take a number, and what every call
//! does to the registers.
use super::{
    ANY, CONTEXT, CONTEXT_SIZE, EIGHT, STACK, UNSET, before, copy, makes, number, sample,
    stored_before,
};
use crate::checks::is_true_at;
use abs_domain::Flat;
use abs_regs::AbsVal;
use abs_states::AbsState;
use bpf_profile::{Instruction, Register, Size};
use refusals::RefusalNumber;
use std::alloc::Global;
use std::process::Abort;

/// A state with the arguments in R1 and R2, values in every other register but R0, and the eight bytes
/// 16 bytes before the stack's end set.
pub(super) fn called_with(
    rt: &impl Abort,
    alloc: Global,
    one: AbsVal<Flat>,
    two: AbsVal<Flat>,
) -> AbsState<Flat> {
    let mut state = stored_before(rt, alloc, &sample(rt, alloc), 16, EIGHT, Size::DoubleWord);
    state.registers.set(Register::new(1), one);
    state.registers.set(Register::new(2), two);
    state.registers.set(Register::new(6), STACK);
    state.registers.set(Register::new(7), CONTEXT);
    state.registers.set(Register::new(8), EIGHT);
    state.registers.set(Register::new(9), ANY);
    state
}

/// The registers that are wanted after a call of a helper whose answer isn't known: R1 to R5 are unset.
pub(super) fn after_call(rt: &impl Abort, alloc: Global, state: &AbsState<Flat>) -> AbsState<Flat> {
    let mut after = copy(rt, alloc, state);
    after.registers.set(Register::new(0), ANY);
    for number in 1..6u8 {
        after.registers.set(Register::new(number), UNSET);
    }
    after
}

/// Checks that a fact of this number is read, whatever the second argument is.
fn fact_is_read(rt: &impl Abort, alloc: Global, fact: u64, two: AbsVal<Flat>) {
    let state = called_with(rt, alloc, number(fact), two);
    let wanted = Ok(after_call(rt, alloc, &state));
    let call = Instruction::Call { helper: 1 };
    let found = makes(rt, alloc, &state, CONTEXT_SIZE, &call, &wanted);
    is_true_at(rt, found, (&fact, &two));
}

/// Checks why there is no fact of this number.
fn fact_is_refused(rt: &impl Abort, alloc: Global, one: AbsVal<Flat>, refusal: RefusalNumber) {
    let state = called_with(rt, alloc, one, EIGHT);
    let call = Instruction::Call { helper: 1 };
    let found = makes(rt, alloc, &state, CONTEXT_SIZE, &call, &Err(refusal));
    is_true_at(rt, found, &one);
}

#[test]
fn facts_have_the_numbers_0_to_15(rt: HostRuntime) {
    let rt = &rt;
    let alloc = rt.alloc();
    for fact in &[0, 1, 15] {
        // The second argument isn't read.
        fact_is_read(rt, alloc, *fact, UNSET);
        fact_is_read(rt, alloc, *fact, EIGHT);
        fact_is_read(rt, alloc, *fact, STACK);
    }
    let argument = RefusalNumber::HelperArgument;
    fact_is_refused(rt, alloc, UNSET, RefusalNumber::UnsetRegister);
    fact_is_refused(rt, alloc, number(16), argument);
    fact_is_refused(rt, alloc, number(u64::MAX), argument);
    fact_is_refused(rt, alloc, ANY, argument);
    fact_is_refused(rt, alloc, STACK, argument);
    fact_is_refused(rt, alloc, CONTEXT, argument);
}

/// The bytes of a context, a front byte, and whether it lies inside.
type FrontByte = (u64, u64, bool);

/// Checks which front bytes lie inside of contexts.
fn are_front_bytes(rt: &impl Abort, alloc: Global, rows: &[FrontByte]) {
    for row in rows {
        let (context_size, byte, is_inside) = *row;
        let state = called_with(rt, alloc, number(byte), UNSET);
        let wanted = if is_inside {
            Ok(after_call(rt, alloc, &state))
        } else {
            Err(RefusalNumber::HelperArgument)
        };
        let call = Instruction::Call { helper: 2 };
        is_true_at(
            rt,
            makes(rt, alloc, &state, context_size, &call, &wanted),
            row,
        );
    }
}

/// -64 as a word.
const MINUS_64: u64 = 0xffff_ffff_ffff_ffc0;

#[test]
fn front_bytes_lie_in_the_context_from_byte_64_on(rt: HostRuntime) {
    let alloc = rt.alloc();
    are_front_bytes(
        &rt,
        alloc,
        &[
            (128, 0, true),
            (128, 63, true),
            (128, 64, false),
            (192, 64, true),
            (192, 127, true),
            (192, 128, false),
            (65, 0, true),
            (65, 1, false),
            (64, 0, false),
            (0, 0, false),
            // Sums of 64 and these numbers wrap.
            (128, u64::MAX, false),
            (128, MINUS_64, false),
        ],
    );
}

/// Checks why there is no front byte of this number, in a context of so many bytes.
fn front_byte_is_refused(
    rt: &impl Abort,
    alloc: Global,
    one: AbsVal<Flat>,
    context_size: u64,
    refusal: RefusalNumber,
) {
    let state = called_with(rt, alloc, one, EIGHT);
    let call = Instruction::Call { helper: 2 };
    let found = makes(rt, alloc, &state, context_size, &call, &Err(refusal));
    is_true_at(rt, found, (&one, &context_size));
}

/// Checks why there is no front byte of this number, in any of three contexts.
fn is_no_front_byte(rt: &impl Abort, alloc: Global, one: AbsVal<Flat>, refusal: RefusalNumber) {
    front_byte_is_refused(rt, alloc, one, 0, refusal);
    front_byte_is_refused(rt, alloc, one, 128, refusal);
    front_byte_is_refused(rt, alloc, one, 192, refusal);
}

#[test]
fn the_number_of_a_front_byte_is_known(rt: HostRuntime) {
    let rt = &rt;
    let alloc = rt.alloc();
    let argument = RefusalNumber::HelperArgument;
    is_no_front_byte(rt, alloc, UNSET, RefusalNumber::UnsetRegister);
    is_no_front_byte(rt, alloc, ANY, argument);
    is_no_front_byte(rt, alloc, STACK, argument);
    is_no_front_byte(rt, alloc, CONTEXT, argument);
}

/// Checks that no helper of this number is known, whatever the arguments are.
fn is_unknown(rt: &impl Abort, alloc: Global, helper: u32, one: AbsVal<Flat>, two: AbsVal<Flat>) {
    let unknown = Err(RefusalNumber::HelperUnknown);
    let state = called_with(rt, alloc, one, two);
    let call = Instruction::Call { helper };
    let found = makes(rt, alloc, &state, CONTEXT_SIZE, &call, &unknown);
    is_true_at(rt, found, (&helper, &one));
}

#[test]
fn other_helpers_are_unknown(rt: HostRuntime) {
    let alloc = rt.alloc();
    // The helper is asked for before its arguments.
    for helper in &[0, 5, 6, 0x101, u32::MAX] {
        is_unknown(&rt, alloc, *helper, UNSET, UNSET);
        is_unknown(&rt, alloc, *helper, number(1), EIGHT);
        is_unknown(&rt, alloc, *helper, before(16), EIGHT);
    }
}
