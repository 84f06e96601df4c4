//! Conditional jumps (RFC 9669, section 4.3).
use super::{
    ANY, CONTEXT, CONTEXT_SIZE, EIGHT, STACK, UNSET, agree, makes, number, register, sample_with,
    stored_before, transferred,
};
use crate::checks::is_true_at;
use abs_domain::Flat;
use abs_regs::AbsVal;
use abs_states::AbsState;
use bpf_profile::{Comparison, Instruction, Operand, Register, Size, Width};
use refusals::RefusalNumber;
use std::alloc::Global;
use std::process::Abort;

/// What is known of R2 and of R3.
type Pair = (AbsVal<Flat>, AbsVal<Flat>);

/// A comparison of R2.
fn branch(comparison: Comparison, width: Width, right: Operand) -> Instruction {
    Instruction::Branch {
        comparison,
        width,
        left: Register::new(2),
        right,
        distance: 2,
    }
}

/// The sample with values in R2 and R3, and the last cell of the stack set.
fn compared(
    rt: &impl Abort,
    alloc: Global,
    two: AbsVal<Flat>,
    three: AbsVal<Flat>,
) -> AbsState<Flat> {
    let mut state = sample_with(rt, alloc, Register::new(2), two);
    state.registers.set(Register::new(3), three);
    stored_before(rt, alloc, &state, 8, EIGHT, Size::DoubleWord)
}

/// A comparison, its width, whether it jumps, and what is left of R2 and R3.
type Left = (Comparison, Width, bool, Pair);

/// Checks what comparisons of any number in R2 with an eight in R3 leave of them.
fn are_left(rt: &impl Abort, alloc: Global, rows: &[Left]) {
    let state = compared(rt, alloc, ANY, EIGHT);
    for row in rows {
        let (comparison, width, taken, after) = *row;
        let instruction = branch(comparison, width, register(3));
        let found = transferred(rt, alloc, &state, CONTEXT_SIZE, taken, &instruction);
        let wanted = Ok(compared(rt, alloc, after.0, after.1));
        is_true_at(rt, agree(&found, &wanted), row);
    }
}

const ANY_AND_EIGHT: Pair = (ANY, EIGHT);

const EIGHTS: Pair = (EIGHT, EIGHT);

#[test]
fn the_comparison_holds_at_the_target_alone(rt: HostRuntime) {
    let alloc = rt.alloc();
    are_left(
        &rt,
        alloc,
        &[
            (Comparison::Equal, Width::Bits64, true, EIGHTS),
            (Comparison::Equal, Width::Bits64, false, ANY_AND_EIGHT),
            (Comparison::NotEqual, Width::Bits64, true, ANY_AND_EIGHT),
            (Comparison::NotEqual, Width::Bits64, false, EIGHTS),
            (Comparison::Less, Width::Bits64, true, ANY_AND_EIGHT),
            (Comparison::Less, Width::Bits64, false, ANY_AND_EIGHT),
            // Any word may have more than 32 bits.
            (Comparison::Equal, Width::Bits32, true, ANY_AND_EIGHT),
            (Comparison::Equal, Width::Bits32, false, ANY_AND_EIGHT),
        ],
    );
}

/// Checks what a comparison of any number in R2 with the word 7 leaves in R2, on one way.
fn leaves_one(
    rt: &impl Abort,
    alloc: Global,
    comparison: Comparison,
    three: AbsVal<Flat>,
    taken: bool,
    two: AbsVal<Flat>,
) {
    let state = compared(rt, alloc, ANY, three);
    let instruction = branch(comparison, Width::Bits64, Operand::Immediate(7));
    let found = transferred(rt, alloc, &state, CONTEXT_SIZE, taken, &instruction);
    let wanted = Ok(compared(rt, alloc, two, three));
    is_true_at(rt, agree(&found, &wanted), (&comparison, &three, &taken));
}

/// Checks what a comparison of R2 with a word leaves at the target and next to it, whatever is in R3.
fn tells_of_one(
    rt: &impl Abort,
    alloc: Global,
    comparison: Comparison,
    target: AbsVal<Flat>,
    next: AbsVal<Flat>,
) {
    leaves_one(rt, alloc, comparison, UNSET, true, target);
    leaves_one(rt, alloc, comparison, UNSET, false, next);
    leaves_one(rt, alloc, comparison, ANY, true, target);
    leaves_one(rt, alloc, comparison, ANY, false, next);
    leaves_one(rt, alloc, comparison, STACK, true, target);
    leaves_one(rt, alloc, comparison, STACK, false, next);
}

#[test]
fn a_comparison_with_a_word_tells_of_one_register(rt: HostRuntime) {
    let alloc = rt.alloc();
    tells_of_one(&rt, alloc, Comparison::Equal, number(7), ANY);
    tells_of_one(&rt, alloc, Comparison::NotEqual, ANY, number(7));
    tells_of_one(&rt, alloc, Comparison::SignedGreater, ANY, ANY);
}

/// Checks why R2 and R3 aren't compared.
fn is_refused(
    rt: &impl Abort,
    alloc: Global,
    comparison: Comparison,
    width: Width,
    before: Pair,
    refusal: RefusalNumber,
) {
    let instruction = branch(comparison, width, register(3));
    let state = compared(rt, alloc, before.0, before.1);
    let found = makes(rt, alloc, &state, CONTEXT_SIZE, &instruction, &Err(refusal));
    is_true_at(rt, found, (&comparison, &before));
}

/// What is in R2 and in R3, and why they aren't compared.
type Refused = (AbsVal<Flat>, AbsVal<Flat>, RefusalNumber);

/// Checks why R2 and R3 aren't compared in any of four ways.
fn are_refused(rt: &impl Abort, alloc: Global, rows: &[Refused]) {
    for row in rows {
        let (two, three, refusal) = *row;
        let before = (two, three);
        is_refused(rt, alloc, Comparison::Equal, Width::Bits32, before, refusal);
        is_refused(rt, alloc, Comparison::Equal, Width::Bits64, before, refusal);
        is_refused(
            rt,
            alloc,
            Comparison::BitsSet,
            Width::Bits32,
            before,
            refusal,
        );
        is_refused(
            rt,
            alloc,
            Comparison::BitsSet,
            Width::Bits64,
            before,
            refusal,
        );
    }
}

#[test]
fn only_numbers_are_compared(rt: HostRuntime) {
    let alloc = rt.alloc();
    are_refused(
        &rt,
        alloc,
        &[
            (UNSET, EIGHT, RefusalNumber::UnsetRegister),
            (EIGHT, UNSET, RefusalNumber::UnsetRegister),
            // An unset register is refused before a pointer, on either side.
            (STACK, UNSET, RefusalNumber::UnsetRegister),
            (UNSET, CONTEXT, RefusalNumber::UnsetRegister),
            (STACK, EIGHT, RefusalNumber::PointerUsed),
            (EIGHT, CONTEXT, RefusalNumber::PointerUsed),
            (STACK, STACK, RefusalNumber::PointerUsed),
            (CONTEXT, CONTEXT, RefusalNumber::PointerUsed),
        ],
    );
}
