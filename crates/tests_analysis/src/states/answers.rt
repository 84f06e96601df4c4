//! The end of a program (RFC 9669, section 4.3): its answer is a number of at most 2.
use super::{ANY, CONTEXT, CONTEXT_SIZE, STACK, UNSET, copy, makes, number, sample_with};
use crate::checks::is_true_at;
use abs_domain::Flat;
use abs_regs::AbsVal;
use bpf_profile::{Instruction, Register};
use refusals::RefusalNumber;
use std::alloc::Global;
use std::process::Abort;

/// Checks that a program may end with this answer, which changes nothing.
fn is_answer(rt: &impl Abort, alloc: Global, answer: u64) {
    let state = sample_with(rt, alloc, Register::new(0), number(answer));
    let wanted = Ok(copy(rt, alloc, &state));
    let found = makes(rt, alloc, &state, CONTEXT_SIZE, &Instruction::Exit, &wanted);
    is_true_at(rt, found, &answer);
}

/// Checks why a program may not end with this answer.
fn is_no_answer(rt: &impl Abort, alloc: Global, answer: AbsVal<Flat>, refusal: RefusalNumber) {
    let state = sample_with(rt, alloc, Register::new(0), answer);
    let found = makes(
        rt,
        alloc,
        &state,
        CONTEXT_SIZE,
        &Instruction::Exit,
        &Err(refusal),
    );
    is_true_at(rt, found, &answer);
}

#[test]
fn answers_are_numbers_of_at_most_two(rt: HostRuntime) {
    let rt = &rt;
    let alloc = rt.alloc();
    is_answer(rt, alloc, 0);
    is_answer(rt, alloc, 1);
    is_answer(rt, alloc, 2);
    is_no_answer(rt, alloc, UNSET, RefusalNumber::UnsetRegister);
    is_no_answer(rt, alloc, STACK, RefusalNumber::PointerUsed);
    is_no_answer(rt, alloc, AbsVal::Stack(0), RefusalNumber::PointerUsed);
    is_no_answer(rt, alloc, CONTEXT, RefusalNumber::PointerUsed);
    is_no_answer(rt, alloc, number(3), RefusalNumber::AnswerRange);
    is_no_answer(rt, alloc, number(u64::MAX), RefusalNumber::AnswerRange);
    is_no_answer(rt, alloc, ANY, RefusalNumber::AnswerRange);
}
