//! The helper functions that take a stretch of the stack: helper 3 writes it, and helper 4 reads it.
use super::calls::{after_call, called_with};
use super::{
    ANY, BEFORE_START, CONTEXT, CONTEXT_SIZE, EIGHT, END, Found, MINUS_1, STACK, UNSET, agree,
    at_entry, before, makes, number, registers_are_alike, sample, set_bytes_are, stored_before,
    transferred,
};
use crate::checks::{is_true, is_true_at};
use abs_domain::Flat;
use abs_regs::AbsVal;
use abs_states::AbsState;
use bpf_profile::{Instruction, Register, Size};
use refusals::RefusalNumber;
use std::alloc::Global;
use std::process::Abort;

/// A state with nothing known of the stack but for a value in the cell 16 bytes before its end.
fn kept(
    rt: &impl Abort,
    alloc: Global,
    value: AbsVal<Flat>,
    one: AbsVal<Flat>,
    two: AbsVal<Flat>,
) -> AbsState<Flat> {
    let mut state = at_entry(rt, alloc);
    state.registers.set(Register::new(1), one);
    state.registers.set(Register::new(2), two);
    stored_before(rt, alloc, &state, 16, value, Size::DoubleWord)
}

fn call(rt: &impl Abort, alloc: Global, state: &AbsState<Flat>, helper: u32) -> Found {
    transferred(
        rt,
        alloc,
        state,
        CONTEXT_SIZE,
        false,
        &Instruction::Call { helper },
    )
}

/// Checks why a helper refuses its arguments.
fn helper_refuses(
    rt: &impl Abort,
    alloc: Global,
    helper: u32,
    one: AbsVal<Flat>,
    two: AbsVal<Flat>,
    refusal: RefusalNumber,
) {
    let state = called_with(rt, alloc, one, two);
    let instruction = Instruction::Call { helper };
    let found = makes(rt, alloc, &state, CONTEXT_SIZE, &instruction, &Err(refusal));
    is_true_at(rt, found, (&helper, &one, &two));
}

/// What is in R1 and in R2, and why both helpers refuse it.
type Refused = (AbsVal<Flat>, AbsVal<Flat>, RefusalNumber);

/// Checks why both helpers refuse their arguments.
fn are_refused(rt: &impl Abort, alloc: Global, rows: &[Refused]) {
    for row in rows {
        let (one, two, refusal) = *row;
        helper_refuses(rt, alloc, 3, one, two, refusal);
        helper_refuses(rt, alloc, 4, one, two, refusal);
    }
}

const ONE: AbsVal<Flat> = AbsVal::Number(Flat::One(1));

/// -16 as a word.
const MINUS_16: u64 = 0xffff_ffff_ffff_fff0;

/// 31 bytes before the stack's end.
const BEFORE_31: AbsVal<Flat> = AbsVal::Stack(0xffff_ffff_ffff_ffe1);

/// 64 bytes before the stack's end.
const BEFORE_64: AbsVal<Flat> = AbsVal::Stack(0xffff_ffff_ffff_ffc0);

/// 520 bytes before the stack's end.
const BEFORE_520: AbsVal<Flat> = AbsVal::Stack(0xffff_ffff_ffff_fdf8);

#[test]
fn arguments_are_refused_in_their_order(rt: HostRuntime) {
    let alloc = rt.alloc();
    are_refused(
        &rt,
        alloc,
        &[
            (UNSET, UNSET, RefusalNumber::UnsetRegister),
            (
                UNSET,
                AbsVal::Number(Flat::One(33)),
                RefusalNumber::UnsetRegister,
            ),
            (UNSET, STACK, RefusalNumber::UnsetRegister),
            // R1 is no pointer into the stack, whatever R2 is.
            (
                AbsVal::Number(Flat::One(MINUS_16)),
                UNSET,
                RefusalNumber::HelperArgument,
            ),
            (ANY, UNSET, RefusalNumber::HelperArgument),
            (CONTEXT, UNSET, RefusalNumber::HelperArgument),
            (CONTEXT, EIGHT, RefusalNumber::HelperArgument),
            (ANY, EIGHT, RefusalNumber::HelperArgument),
            // R2 is unset, wherever R1 points.
            (STACK, UNSET, RefusalNumber::UnsetRegister),
            (END, UNSET, RefusalNumber::UnsetRegister),
            (BEFORE_START, UNSET, RefusalNumber::UnsetRegister),
            // R2 is no number of 1 to 32.
            (STACK, STACK, RefusalNumber::HelperArgument),
            (STACK, CONTEXT, RefusalNumber::HelperArgument),
            (STACK, ANY, RefusalNumber::HelperArgument),
            (
                STACK,
                AbsVal::Number(Flat::One(0)),
                RefusalNumber::HelperArgument,
            ),
            (
                BEFORE_64,
                AbsVal::Number(Flat::One(33)),
                RefusalNumber::HelperArgument,
            ),
            (
                STACK,
                AbsVal::Number(Flat::One(MINUS_1)),
                RefusalNumber::HelperArgument,
            ),
            (
                STACK,
                AbsVal::Number(Flat::One(0x1_0000_0001)),
                RefusalNumber::HelperArgument,
            ),
            // The bytes lie past the stack's end or before its start.
            (
                STACK,
                AbsVal::Number(Flat::One(17)),
                RefusalNumber::HelperArgument,
            ),
            (
                BEFORE_31,
                AbsVal::Number(Flat::One(32)),
                RefusalNumber::HelperArgument,
            ),
            (END, ONE, RefusalNumber::HelperArgument),
            (AbsVal::Stack(8), ONE, RefusalNumber::HelperArgument),
            (BEFORE_START, ONE, RefusalNumber::HelperArgument),
            (
                BEFORE_START,
                AbsVal::Number(Flat::One(32)),
                RefusalNumber::HelperArgument,
            ),
            (BEFORE_520, EIGHT, RefusalNumber::HelperArgument),
            (AbsVal::Stack(1 << 63), ONE, RefusalNumber::HelperArgument),
        ],
    );
}

/// Checks which bytes are set.
fn has_bytes(rt: &impl Abort, found: &Found, first: u64, end: u64) {
    match found {
        Ok(after) => is_true_at(rt, set_bytes_are(after, first, end), (&first, &end)),
        Err(refusal) => is_true_at(rt, false, (&first, &end, refusal)),
    }
}

/// Checks what is known of the registers behind a call.
fn is_called(rt: &impl Abort, found: &Found, called: &AbsState<Flat>) {
    match found {
        Ok(after) => is_true(rt, registers_are_alike(after, called)),
        Err(refusal) => is_true_at(rt, false, refusal),
    }
}

/// Checks which bytes a copied tag sets, and what is known of the registers then.
fn sets_bytes(rt: &impl Abort, alloc: Global, bytes_before: u64, count: u64, first: u64, end: u64) {
    let state = AbsState {
        registers: called_with(rt, alloc, before(bytes_before), number(count)).registers,
        stack: sample(rt, alloc).stack,
    };
    let found = call(rt, alloc, &state, 3);
    has_bytes(rt, &found, first, end);
    is_called(rt, &found, &after_call(rt, alloc, &state));
}

/// Checks which bytes copied tags set: where they lie before the stack's end, how many are copied, and
/// the first of these and the end.
fn set_bytes(rt: &impl Abort, alloc: Global, rows: &[(u64, u64, u64, u64)]) {
    for row in rows {
        let (bytes_before, count, first, end) = *row;
        sets_bytes(rt, alloc, bytes_before, count, first, end);
    }
}

#[test]
fn a_copied_tag_sets_its_bytes_alone(rt: HostRuntime) {
    let alloc = rt.alloc();
    set_bytes(
        &rt,
        alloc,
        &[
            (1, 1, 511, 512),
            (16, 1, 496, 497),
            (16, 16, 496, 512),
            (13, 7, 499, 506),
            (32, 32, 480, 512),
            (512, 1, 0, 1),
            (512, 32, 0, 32),
            (509, 30, 3, 33),
        ],
    );
}

/// Checks which bytes are set once a tag is copied over a part of a kept value.
fn leaves_bytes(
    rt: &impl Abort,
    alloc: Global,
    value: AbsVal<Flat>,
    bytes_before: u64,
    count: u64,
    first: u64,
    end: u64,
) {
    let state = kept(rt, alloc, value, before(bytes_before), number(count));
    has_bytes(rt, &call(rt, alloc, &state, 3), first, end);
}

#[test]
fn a_copied_tag_leaves_of_a_kept_value_what_it_does_not_cover(rt: HostRuntime) {
    let rt = &rt;
    let alloc = rt.alloc();
    leaves_bytes(rt, alloc, EIGHT, 14, 2, 496, 504);
    leaves_bytes(rt, alloc, EIGHT, 8, 4, 496, 508);
    leaves_bytes(rt, alloc, ANY, 20, 4, 492, 504);
    leaves_bytes(rt, alloc, STACK, 14, 2, 498, 500);
    leaves_bytes(rt, alloc, CONTEXT, 20, 8, 492, 500);
    leaves_bytes(rt, alloc, STACK, 8, 4, 504, 508);
}

/// What is wanted of a comparison in a state: its answer isn't known, or a byte isn't set.
fn compared(rt: &impl Abort, alloc: Global, state: &AbsState<Flat>, are_set: bool) -> Found {
    if are_set {
        Ok(after_call(rt, alloc, state))
    } else {
        Err(RefusalNumber::HelperArgument)
    }
}

/// A kept value, the place and the count of the bytes to compare, and whether these are set.
type Compared = (AbsVal<Flat>, u64, u64, bool);

/// Checks which bytes around a kept value can be compared.
fn are_compared(rt: &impl Abort, alloc: Global, rows: &[Compared]) {
    for row in rows {
        let (value, bytes_before, count, are_set) = *row;
        let state = kept(rt, alloc, value, before(bytes_before), number(count));
        let wanted = compared(rt, alloc, &state, are_set);
        let instruction = Instruction::Call { helper: 4 };
        let found = makes(rt, alloc, &state, CONTEXT_SIZE, &instruction, &wanted);
        is_true_at(rt, found, row);
    }
}

#[test]
fn bytes_that_are_compared_are_set(rt: HostRuntime) {
    let alloc = rt.alloc();
    are_compared(
        &rt,
        alloc,
        &[
            (EIGHT, 16, 8, true),
            (ANY, 16, 8, true),
            (EIGHT, 16, 1, true),
            (EIGHT, 9, 1, true),
            (EIGHT, 13, 5, true),
            // The first or the last byte isn't set.
            (EIGHT, 17, 1, false),
            (EIGHT, 17, 9, false),
            (EIGHT, 16, 9, false),
            (EIGHT, 8, 1, false),
            (EIGHT, 32, 32, false),
            // A pointer has no bytes.
            (STACK, 16, 8, false),
            (STACK, 12, 1, false),
            (CONTEXT, 16, 8, false),
        ],
    );
}

/// The state in which bytes are compared once helper 3 wrote ten.
fn written(rt: &impl Abort, alloc: Global, place: u64, count: u64) -> Found {
    let mut after = call(
        rt,
        alloc,
        &called_with(rt, alloc, before(40), number(10)),
        3,
    )?;
    after.registers.set(Register::new(1), before(place));
    after.registers.set(Register::new(2), number(count));
    Ok(after)
}

/// Checks whether bytes can be compared in this state.
fn can_be_compared(rt: &impl Abort, alloc: Global, state: &AbsState<Flat>, are_set: bool) {
    let wanted = compared(rt, alloc, state, are_set);
    is_true(rt, agree(&call(rt, alloc, state, 4), &wanted));
}

/// Checks whether bytes around those that helper 3 wrote can be compared.
fn is_read(rt: &impl Abort, alloc: Global, place: u64, count: u64, are_set: bool) {
    match &written(rt, alloc, place, count) {
        Ok(state) => can_be_compared(rt, alloc, state, are_set),
        Err(refusal) => is_true_at(rt, false, refusal),
    }
}

#[test]
fn what_helper_3_wrote_helper_4_reads(rt: HostRuntime) {
    let rt = &rt;
    let alloc = rt.alloc();
    is_read(rt, alloc, 40, 10, true);
    is_read(rt, alloc, 36, 6, true);
    is_read(rt, alloc, 41, 10, false);
    is_read(rt, alloc, 40, 11, false);
    is_read(rt, alloc, 30, 1, false);
}
