//! Programs with the answers that are expected of them.
use crate::checks::{is_printed, same, same_at};
use crate::programs::joined;
use bpf_decode::Program;
use flow_check::{FlowError, Successors, check};
use refusals::RefusalNumber;
use std::alloc::{AllocError, Global};
use std::process::Abort;
use std::test::*;

const MOVE: [u8; 8] = [0xb7, 0, 0, 0, 0, 0, 0, 0];

const EXIT: [u8; 8] = [0x95, 0, 0, 0, 0, 0, 0, 0];
/// To itself, since a distance counts from the next slot.
const JUMP_BACK: [u8; 8] = [0x05, 0, 0xff, 0xff, 0, 0, 0, 0];

/// To the next slot.
const JUMP_BY_0: [u8; 8] = [0x05, 0, 0, 0, 0, 0, 0, 0];

const JUMP_BY_1: [u8; 8] = [0x05, 0, 1, 0, 0, 0, 0, 0];

const JUMP_BY_5: [u8; 8] = [0x05, 0, 5, 0, 0, 0, 0, 0];

const BRANCH_BY_0: [u8; 8] = [0x15, 0, 0, 0, 0, 0, 0, 0];

const BRANCH_BY_1: [u8; 8] = [0x15, 0, 1, 0, 0, 0, 0, 0];

const BRANCH_BY_2: [u8; 8] = [0x15, 0, 2, 0, 0, 0, 0, 0];

const WIDE: [u8; 8] = [0x18, 0, 0, 0, 0, 0, 0, 0];

const TAIL: [u8; 8] = [0, 0, 0, 0, 0, 0, 0, 0];

/// Failure from a status of 500 on; a status stands behind a word that is 0 where there is one.
const BY_STATUS: [[u8; 8]; 8] = [
    [0x61, 0x12, 0, 0, 0, 0, 0, 0],
    [0x55, 2, 4, 0, 0, 0, 0, 0],
    [0x61, 0x12, 4, 0, 0, 0, 0, 0],
    [0x35, 2, 2, 0, 0xf4, 1, 0, 0],
    MOVE,
    EXIT,
    [0xb7, 0, 0, 0, 1, 0, 0, 0],
    EXIT,
];

/// The budget of a program, or the refusal of its flow; none where the bytes spell no program.
fn answer(alloc: Global, bytes: &[u8]) -> Option<Result<u32, FlowError>> {
    match Program::decode(alloc, bytes) {
        Ok(program) => Some(check(alloc, &program).map(|flow| flow.budget())),
        Err(_) => None,
    }
}

/// The slots of a program, and its budget, or the slot and the number of the refusal of its flow.
type Answered = (&'static [[u8; 8]], Result<u32, (u32, RefusalNumber)>);

/// Checks what is answered of the flow of programs.
fn are_answered(rt: &impl Abort, alloc: Global, rows: &[Answered]) {
    for row in rows {
        let (slots, wanted) = *row;
        let wanted = match wanted {
            Ok(budget) => Ok(budget),
            Err((slot, number)) => Err(FlowError { slot, number }),
        };
        same_at(rt, answer(alloc, slots.as_flattened()), Some(wanted), row);
    }
}

#[test]
fn answers(rt: HostRuntime) {
    are_answered(
        &rt,
        rt.alloc(),
        &[
            (&[JUMP_BACK, EXIT], Err((0, RefusalNumber::BackJump))),
            (
                &[BRANCH_BY_1, WIDE, TAIL, EXIT],
                Err((0, RefusalNumber::IntoTail)),
            ),
            (&[EXIT, EXIT], Err((1, RefusalNumber::Unreachable))),
            (&[MOVE], Err((0, RefusalNumber::FallsOff))),
            (&[JUMP_BY_5, EXIT], Err((0, RefusalNumber::JumpOut))),
            (&[WIDE, TAIL, EXIT], Ok(2)),
            (&[JUMP_BY_0, EXIT], Ok(2)),
            (
                &[
                    MOVE,
                    BRANCH_BY_2,
                    BRANCH_BY_2,
                    BRANCH_BY_2,
                    MOVE,
                    MOVE,
                    EXIT,
                ],
                Ok(7),
            ),
            (&BY_STATUS, Ok(6)),
        ],
    );
}

/// `MOVE`, so many branches to the next slot, and `EXIT`.
fn long(rt: &impl Abort, alloc: Global, branches: usize) -> Vec<u8> {
    let mut bytes = joined(rt, alloc, &[&MOVE]);
    for _ in 0..branches {
        bytes
            .extend_from_slice(&BRANCH_BY_0)
            .expect(rt, "ample memory");
    }
    bytes.extend_from_slice(&EXIT).expect(rt, "ample memory");
    bytes
}

#[test]
fn longest_program(rt: HostRuntime) {
    let bytes = long(&rt, rt.alloc(), 4_094);
    same(&rt, answer(rt.alloc(), &bytes), Some(Ok(4_096)));
}

/// A slot, the slot behind it where it may go on there, and the target of its jump.
type Edges = (usize, Option<u32>, Option<u32>);

/// Checks where slots of a program of so many slots lead to.
fn lead_to(rt: &impl Abort, alloc: Global, slots: &[[u8; 8]], rows: &[Edges]) {
    let bytes = slots.as_flattened();
    let program = Program::decode(alloc, bytes).expect(rt, "the slots of a program");
    same(rt, program.len(), slots.len());
    let flow = check(alloc, &program).expect(rt, "a flow that is accepted");
    for row in rows {
        let (slot, next, target) = *row;
        assert!(rt; slot < program.len());
        same_at(rt, flow.successors(slot), Successors { next, target }, row);
    }
}

#[test]
fn edges(rt: HostRuntime) {
    lead_to(
        &rt,
        rt.alloc(),
        &BY_STATUS,
        &[
            (0, Some(1), None),
            (1, Some(2), Some(6)),
            (3, Some(4), Some(6)),
            (5, None, None),
        ],
    );
}

/// The edge of a jump leads to its target, also where that is the next slot.
#[test]
fn edges_of_jumps(rt: HostRuntime) {
    lead_to(
        &rt,
        rt.alloc(),
        &[BRANCH_BY_1, JUMP_BY_1, JUMP_BY_0, EXIT],
        &[
            (0, Some(1), Some(2)),
            (1, None, Some(3)),
            (2, None, Some(3)),
            (3, None, None),
        ],
    );
}

#[test]
fn refusal_in_words(rt: HostRuntime) {
    let error = FlowError {
        slot: 3,
        number: RefusalNumber::JumpOut,
    };
    is_printed(&rt, rt.alloc(), &error, "refused 8 JumpOut slot 3");
    let memory = FlowError::from(AllocError);
    is_printed(&rt, rt.alloc(), &memory, "refused 23 OutOfMemory");
}
