//! What is kept of a program that is accepted, what is known at its slots, and refusals as text.
mod widths;

use crate::checks::{is_printed, is_true, same, same_at};
use crate::programs::bytes_of_slots;
use abs_domain::Flat;
use abs_regs::AbsVal;
use bpf_decode::Program;
use bpf_profile::{Layout, Register};
use flow_check::check;
use refusals::RefusalNumber;
use std::alloc::{AllocError, Global};
use std::process::Abort;
use verifier::{Refusal, Verified, analyse, default_classifier, verify};

/// The number and the slot of the refusal of a program; none for one that is accepted.
fn refusal_of(rt: &impl Abort, alloc: Global, slots: &[u64]) -> Option<(RefusalNumber, u32)> {
    match verify(alloc, &bytes_of_slots(rt, alloc, slots), Layout::One) {
        Ok(_) => None,
        Err(Refusal { slot, number }) => Some((number, slot)),
    }
}

/// The program of these slots, which is accepted.
fn verified(rt: &impl Abort, alloc: Global, slots: &[u64]) -> Verified {
    let bytes = bytes_of_slots(rt, alloc, slots);
    verify(alloc, &bytes, Layout::One).expect(rt, "a program that is accepted")
}

const EXIT: u64 = 0x9500000000000000;

/// Checks the budget of a program that is accepted, and its slots.
fn has_budget(rt: &impl Abort, program: &Verified, budget: u32, slots: usize) {
    same(rt, program.budget(), budget);
    same(rt, program.program().len(), slots);
}

#[test]
fn programs_are_accepted(rt: HostRuntime) {
    let rt = &rt;
    let slots = [0xb700000001000000, EXIT];
    let one = verified(rt, rt.alloc(), &slots);
    has_budget(rt, &one, 2, 2);
    let bytes = bytes_of_slots(rt, rt.alloc(), &slots);
    same(rt, one.bytes(), bytes.as_slice());
    let classifier = default_classifier(rt.alloc()).expect(rt, "the default classifier");
    has_budget(rt, &classifier, 6, 8);
}

/// The program that these slots spell.
fn decoded(rt: &impl Abort, alloc: Global, slots: &[u64]) -> Program {
    let bytes = bytes_of_slots(rt, alloc, slots);
    Program::decode(alloc, &bytes).expect(rt, "slots of the profile")
}

/// A slot, a register, and what is known of it there.
type Known = (usize, u8, AbsVal<Flat>);

/// Checks what is known at the slots of a program over one domain, and that nothing is known at its tail.
fn are_known(rt: &impl Abort, alloc: Global, slots: &[u64], tail: usize, rows: &[Known]) {
    let program = decoded(rt, alloc, slots);
    let flow = check(alloc, &program).expect(rt, "a straight program");
    let states = analyse::<Flat>(alloc, &program, &flow, Layout::One).expect(rt, "an answer of 2");
    for row in rows {
        let (slot, register, value) = *row;
        assert!(rt; register < 11);
        let state = states.at(slot).expect(rt, "an instruction");
        let found = state.registers.get(Register::new(register));
        same_at(rt, found, value, row);
    }
    is_true(rt, states.at(tail).is_none());
}

/// What is known at the slots of a program over one domain: a constant that is added to, and nothing at a
/// tail.
#[test]
fn states_are_known(rt: HostRuntime) {
    are_known(
        &rt,
        rt.alloc(),
        // mov r0, 1 / add r0, 1 / lddw r2, 5 / exit
        &[
            0xb700000001000000,
            0x0700000001000000,
            0x1802000005000000,
            0,
            EXIT,
        ],
        3,
        &[
            (0, 0, AbsVal::Unset),
            (1, 0, AbsVal::Number(Flat::One(1))),
            (2, 0, AbsVal::Number(Flat::One(2))),
            (4, 2, AbsVal::Number(Flat::One(5))),
            (4, 10, AbsVal::Stack(0)),
        ],
    );
}

/// The number and the slot of the refusal of a program over a domain that keeps one word or nothing; none
/// for one that is accepted.
fn refusal_over_words(
    rt: &impl Abort,
    alloc: Global,
    program: &Program,
) -> Option<(RefusalNumber, u32)> {
    let flow = check(alloc, program).expect(rt, "forward jumps");
    match analyse::<Flat>(alloc, program, &flow, Layout::One) {
        Ok(_) => None,
        Err(Refusal { slot, number }) => Some((number, slot)),
    }
}

/// Where two constants meet, ranges keep their bounds; a domain that keeps one word or nothing doesn't.
#[test]
fn flat_words_are_too_little(rt: HostRuntime) {
    let rt = &rt;
    let alloc = rt.alloc();
    let classifier = default_classifier(alloc).expect(rt, "the default classifier");
    let found = refusal_over_words(rt, alloc, classifier.program());
    same(rt, found, None);
    let slots = &[
        // lddw r1, 0x8000000000000000 / sdiv r1, -1 / lddw r2, 0x8000000000000000
        0x1801000000000000,
        0x0000000000000080,
        0x37010100ffffffff,
        0x1802000000000000,
        0x0000000000000080,
        // mov r0, 1 / jne r1, r2, +1 / mov r0, 0 / exit
        0xb700000001000000,
        0x5d21010000000000,
        0xb700000000000000,
        EXIT,
    ];
    same(rt, refusal_of(rt, alloc, slots), None);
    let refused = refusal_over_words(rt, alloc, &decoded(rt, alloc, slots));
    same(rt, refused, Some((RefusalNumber::AnswerRange, 8)));
}

#[test]
fn refusals_in_words(rt: HostRuntime) {
    let refusal = Refusal {
        slot: 1,
        number: RefusalNumber::AnswerRange,
    };
    is_printed(&rt, rt.alloc(), &refusal, "refused 22 AnswerRange slot 1");
    let memory = Refusal::from(AllocError);
    is_printed(&rt, rt.alloc(), &memory, "refused 23 OutOfMemory");
}
