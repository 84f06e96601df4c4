//! Ends of runs of small programs. A slot is written as a number with its first byte first, in the
//! words of the assembler beside it.
use crate::checks::{same, same_at, same_at_slot};
use crate::programs::bytes_of_slots;
use bpf_decode::Program;
use bpf_profile::{Layout, TrapReason};
use bpf_slow::{End, trace};
use helpers::Record;
use std::alloc::Global;
use std::process::Abort;

/// `exit`.
const EXIT: u64 = 0x9500000000000000;

/// `and r0, 1`.
const LOW_BIT: u64 = 0x5700000001000000;

/// `call 1`.
const CALL_1: u64 = 0x8500000001000000;

/// `mov r2, -2`.
const MINUS_TWO: u64 = 0xb7020000feffffff;

/// `mov r0, 1`, `jne r1, r2, +1`, `mov r0, 0`, `exit`: answers 0 after four instructions where R1 and
/// R2 are the same number, else 1 after three.
const COMPARE: [u64; 4] = [
    0xb700000001000000,
    0x5d21010000000000,
    0xb700000000000000,
    EXIT,
];

/// `mov r1, r10`, `add r1, -8`, `mov r2, 3`, `call 3`.
const TAG_IS_COPIED: [u64; 4] = [
    0xbfa1000000000000,
    0x07010000f8ffffff,
    0xb702000003000000,
    0x8500000003000000,
];

/// `mov r1, r10`, `add r1, -8`, `mov r2, 2`, `call 4`, `exit`.
const TAG_IS_COMPARED: [u64; 5] = [
    0xbfa1000000000000,
    0x07010000f8ffffff,
    0xb702000002000000,
    0x8500000004000000,
    EXIT,
];

/// The record of an outcome of a kind.
fn outcome_of_kind(rt: &impl Abort, kind: u8) -> Record {
    let mut context = [0u8; 128];
    context[0] = kind;
    Record::from_layout1(context, [0; 16], &[]).expect(rt, "an empty tag")
}

/// The record of an outcome with a tag.
fn outcome_with_tag(rt: &impl Abort, tag: &[u8]) -> Record {
    Record::from_layout1([0; 128], [0; 16], tag).expect(rt, "a short tag")
}

/// How a program of these slots, one part behind the other, ends within so many instructions.
fn end(rt: &impl Abort, alloc: Global, parts: &[&[u64]], outcome: &Record, limit: u32) -> End {
    let mut slots = Vec::new(alloc);
    for part in parts {
        slots.extend_from_slice(*part).expect(rt, "ample memory");
    }
    let bytes = bytes_of_slots(rt, alloc, &slots);
    let program = Program::decode(alloc, &bytes).expect(rt, "slots of the profile");
    trace(alloc, &program, outcome, Layout::One, limit).expect(rt, "ample memory")
}

/// Checks that R1 and R2 are the same number after the first slots, and that the program has no step less.
fn are_same(rt: &impl Abort, alloc: Global, rows: &[&[u64]]) {
    let outcome = outcome_of_kind(rt, 0);
    for first in rows {
        let found = end(rt, alloc, &[*first, &COMPARE], &outcome, 7);
        same_at(rt, found, End::Done(0, 7), first);
        let found = end(rt, alloc, &[*first, &COMPARE], &outcome, 6);
        same_at(rt, found, End::OutOfSteps, first);
    }
}

#[test]
fn arithmetic_at_its_edges(rt: HostRuntime) {
    are_same(
        &rt,
        rt.alloc(),
        &[
            // lddw r1, 9223372036854775808 / sdiv r1, -1 / lddw r2, 9223372036854775808
            &[
                0x1801000000000000,
                0x0000000000000080,
                0x37010100ffffffff,
                0x1802000000000000,
                0x0000000000000080,
            ],
            // lddw r1, 9223372036854775808 / smod r1, -1 / mov r2, 0
            &[
                0x1801000000000000,
                0x0000000000000080,
                0x97010100ffffffff,
                0xb702000000000000,
            ],
            // mov r1, 7 / div r1, 0 / mov r2, 0
            &[0xb701000007000000, 0x3701000000000000, 0xb702000000000000],
            // lddw r1, 0xffffffff00000007 / mod32 r1, 0 / mov r2, 7
            &[
                0x1801000007000000,
                0x00000000ffffffff,
                0x9401000000000000,
                0xb702000007000000,
            ],
            // mov r1, 5 / lsh r1, 64 / mov r2, 5
            &[0xb701000005000000, 0x6701000040000000, 0xb702000005000000],
            // mov r1, -13 / smod r1, 3 / mov r2, -1
            &[0xb7010000f3ffffff, 0x9701010003000000, 0xb7020000ffffffff],
            // mov r1, 0x1234 / be16 r1 / mov r2, 0x3412
            &[0xb701000034120000, 0xdc01000010000000, 0xb702000012340000],
        ],
    );
}

/// The slots of `lddw` with a value, where `empty` is the first one with the value 0.
fn wide(empty: u64, value: u64) -> [u64; 2] {
    let low = ((value % 0x1_0000_0000) as u32).swap_bytes();
    let high = ((value / 0x1_0000_0000) as u32).swap_bytes();
    [empty | u64::from(low), u64::from(high)]
}

/// An operation of R1 and R2, the two numbers, and the number that R1 then is.
type Operated = (u64, u64, u64, u64);

/// Checks what operations make of numbers.
fn are_operated(rt: &impl Abort, alloc: Global, rows: &[Operated]) {
    let outcome = outcome_of_kind(rt, 0);
    for row in rows {
        let (operation, a, b, value) = *row;
        let [a_low, a_high] = wide(0x1801000000000000, a);
        let [b_low, b_high] = wide(0x1802000000000000, b);
        let [value_low, value_high] = wide(0x1802000000000000, value);
        let first = [
            a_low, a_high, b_low, b_high, operation, value_low, value_high,
        ];
        let found = end(rt, alloc, &[&first, &COMPARE], &outcome, 100);
        same_at_slot(rt, found, End::Done(0, 8), operation);
    }
}

#[test]
fn every_operation(rt: HostRuntime) {
    are_operated(
        &rt,
        rt.alloc(),
        &[
            (0x0f21000000000000, 0xfffffffffffffffe, 0x5, 0x3),
            (0x1f21000000000000, 0x3, 0x5, 0xfffffffffffffffe),
            (0x2f21000000000000, 0x100000001, 0x100000001, 0x200000001),
            (
                0x3f21000000000000,
                0xfffffffffffffff3,
                0x3,
                0x5555555555555551,
            ),
            (
                0x3f21010000000000,
                0xfffffffffffffff3,
                0x3,
                0xfffffffffffffffc,
            ),
            (
                0x4f21000000000000,
                0xf0f0000000000001,
                0xf0f000000000010,
                0xffff000000000011,
            ),
            (
                0x5f21000000000000,
                0xff00ff0080000003,
                0xff0000080000001,
                0xf00000080000001,
            ),
            (0x6f21000000000000, 0x8000000080000001, 0x21, 0x200000000),
            (0x7f21000000000000, 0x8000000080000001, 0x21, 0x40000000),
            (0x9f21000000000000, 0xfffffffffffffff3, 0x7, 0x3),
            (
                0x9f21010000000000,
                0xfffffffffffffff3,
                0x7,
                0xfffffffffffffffa,
            ),
            (
                0xaf21000000000000,
                0xffffffff00000001,
                0xf0f0f0f00000003,
                0xf0f0f0f000000002,
            ),
            (
                0xbf21000000000000,
                0x1,
                0xfedcba9876543210,
                0xfedcba9876543210,
            ),
            (
                0xcf21000000000000,
                0x8000000080000001,
                0x21,
                0xffffffffc0000000,
            ),
            (0x0c21000000000000, 0xfffffffffffffffe, 0x5, 0x3),
            (0x1c21000000000000, 0x3, 0x5, 0xfffffffe),
            (0x2c21000000000000, 0x100000001, 0x100000001, 0x1),
            (0x3c21000000000000, 0xfffffffffffffff3, 0x3, 0x55555551),
            (0x3c21010000000000, 0xfffffffffffffff3, 0x3, 0xfffffffc),
            (
                0x4c21000000000000,
                0xf0f0000000000001,
                0xf0f000000000010,
                0x11,
            ),
            (
                0x5c21000000000000,
                0xff00ff0080000003,
                0xff0000080000001,
                0x80000001,
            ),
            (0x6c21000000000000, 0x8000000080000001, 0x21, 0x2),
            (0x7c21000000000000, 0x8000000080000001, 0x21, 0x40000000),
            (0x9c21000000000000, 0xfffffffffffffff3, 0x7, 0x5),
            (0x9c21010000000000, 0xfffffffffffffff3, 0x7, 0xfffffffa),
            (
                0xac21000000000000,
                0xffffffff00000001,
                0xf0f0f0f00000003,
                0x2,
            ),
            (0xbc21000000000000, 0x1, 0xfedcba9876543210, 0x76543210),
            (0xcc21000000000000, 0x8000000080000001, 0x21, 0xc0000000),
        ],
    );
}

/// Checks which comparisons of R1 and R2 hold. R1 is the greater word and the lesser signed number; of the
/// low halves it is the other way round.
fn hold(rt: &impl Abort, alloc: Global, rows: &[(u64, bool)]) {
    let outcome = outcome_of_kind(rt, 0);
    let [a_low, a_high] = wide(0x1801000000000000, 0xffffffff00000001);
    let [b_low, b_high] = wide(0x1802000000000000, 0x7fffffff80000000);
    for row in rows {
        let (branch, holds) = *row;
        // mov r0, 1 / the branch / mov r0, 0 / exit
        let first = [a_low, a_high, b_low, b_high, 0xb700000001000000, branch];
        let rest = [0xb700000000000000, EXIT];
        let found = end(rt, alloc, &[&first, &rest], &outcome, 100);
        let wanted = if holds {
            End::Done(1, 5)
        } else {
            End::Done(0, 6)
        };
        same_at_slot(rt, found, wanted, branch);
    }
}

#[test]
fn every_comparison(rt: HostRuntime) {
    hold(
        &rt,
        rt.alloc(),
        &[
            (0x1d21010000000000, false),
            (0x5d21010000000000, true),
            (0x2d21010000000000, true),
            (0x3d21010000000000, true),
            (0xad21010000000000, false),
            (0xbd21010000000000, false),
            (0x6d21010000000000, false),
            (0x7d21010000000000, false),
            (0xcd21010000000000, true),
            (0xdd21010000000000, true),
            (0x4d21010000000000, true),
            (0x1e21010000000000, false),
            (0x5e21010000000000, true),
            (0x2e21010000000000, false),
            (0x3e21010000000000, false),
            (0xae21010000000000, true),
            (0xbe21010000000000, true),
            (0x6e21010000000000, true),
            (0x7e21010000000000, true),
            (0xce21010000000000, false),
            (0xde21010000000000, false),
            (0x4e21010000000000, false),
        ],
    );
}

/// Checks which numbers are loaded where -2 was stored. Each row is a load to R1, and a move to R2.
fn are_loaded(rt: &impl Abort, alloc: Global, rows: &[(u64, u64)]) {
    let outcome = outcome_of_kind(rt, 0);
    for row in rows {
        let (load, expected) = *row;
        // stdw [r10-8], -2
        let first = [0x7a0af8fffeffffff, load, expected];
        let found = end(rt, alloc, &[&first, &COMPARE], &outcome, 100);
        same_at_slot(rt, found, End::Done(0, 7), load);
    }
}

#[test]
fn loads_of_every_size(rt: HostRuntime) {
    are_loaded(
        &rt,
        rt.alloc(),
        &[
            // ldxb r1, [r10-8] / mov r2, 254
            (0x71a1f8ff00000000, 0xb7020000fe000000),
            // ldxh r1, [r10-8] / mov r2, 65534
            (0x69a1f8ff00000000, 0xb7020000feff0000),
            // ldxw r1, [r10-8] / mov32 r2, -2
            (0x61a1f8ff00000000, 0xb4020000feffffff),
            // ldxdw, ldxsb, ldxsh and ldxsw r1, [r10-8] / mov r2, -2
            (0x79a1f8ff00000000, MINUS_TWO),
            (0x91a1f8ff00000000, MINUS_TWO),
            (0x89a1f8ff00000000, MINUS_TWO),
            (0x81a1f8ff00000000, MINUS_TWO),
        ],
    );
}

/// First slots, and the end of the program that has an exit behind them.
type Ended = (&'static [u64], End);

/// Checks how programs end on an outcome.
fn are_ended(rt: &impl Abort, alloc: Global, outcome: &Record, rows: &[Ended]) {
    for row in rows {
        let (first, wanted) = *row;
        let found = end(rt, alloc, &[first, &[EXIT]], outcome, 100);
        same_at(rt, found, wanted, &first);
    }
}

#[test]
fn answers(rt: HostRuntime) {
    let rt = &rt;
    let outcome = outcome_of_kind(rt, 0);
    are_ended(
        rt,
        rt.alloc(),
        &outcome,
        &[
            // mov r0, 3 / exit
            (&[0xb700000003000000], End::Trap(1, TrapReason::Answer)),
            (&[], End::Trap(0, TrapReason::Unset)),
        ],
    );
    let found = end(rt, rt.alloc(), &[&[EXIT]], &outcome, 0);
    same(rt, found, End::OutOfSteps);
}

/// A kind, the answer, and the steps.
type Answered = (u8, u64, u32);

/// Checks what a program answers that answers the kind where it is at most 2, and else 2.
fn are_answered(rt: &impl Abort, alloc: Global, rows: &[Answered]) {
    for row in rows {
        let (kind, answer, steps) = *row;
        // ldxw r0, [r1+0] / jle r0, 2, +1 / mov r0, 2 / exit
        let first = [0x6110000000000000, 0xb500010002000000, 0xb700000002000000];
        let outcome = outcome_of_kind(rt, kind);
        let found = end(rt, alloc, &[&first, &[EXIT]], &outcome, 100);
        same_at(rt, found, End::Done(answer, steps), row);
    }
}

#[test]
fn a_small_kind_is_the_answer(rt: HostRuntime) {
    are_answered(&rt, rt.alloc(), &[(0, 0, 3), (1, 1, 3), (4, 2, 4)]);
}

/// Checks how programs end. Each row is a slot between the first ones and the rest, and the end.
fn end_so(
    rt: &impl Abort,
    alloc: Global,
    first: &[u64],
    rest: &[u64],
    outcome: &Record,
    rows: &[(u64, End)],
) {
    for row in rows {
        let (slot, wanted) = *row;
        let found = end(rt, alloc, &[first, &[slot], rest], outcome, 100);
        same_at_slot(rt, found, wanted, slot);
    }
}

#[test]
fn a_pointer_comes_back_from_the_stack(rt: HostRuntime) {
    end_so(
        &rt,
        rt.alloc(),
        // stxdw [r10-8], r1
        &[0x7b1af8ff00000000],
        // ldxw r0, [r2+0] / and r0, 1 / exit
        &[0x6120000000000000, LOW_BIT, EXIT],
        &outcome_of_kind(&rt, 1),
        &[
            // ldxdw r2, [r10-8]
            (0x79a2f8ff00000000, End::Done(1, 5)),
            // ldxw r2, [r10-8]
            (0x61a2f8ff00000000, End::Trap(1, TrapReason::Pointer)),
            // ldxdw r2, [r10-16]
            (0x79a2f0ff00000000, End::Trap(1, TrapReason::Unset)),
        ],
    );
}

#[test]
fn wrong_pointers_trap(rt: HostRuntime) {
    are_ended(
        &rt,
        rt.alloc(),
        &outcome_of_kind(&rt, 0),
        &[
            // ldxw r2, [r1+0] / mov r3, r10 / add r3, r2
            (
                &[0x6112000000000000, 0xbfa3000000000000, 0x0f23000000000000],
                End::Trap(3, TrapReason::Unset),
            ),
            // mov r2, 0 / ldxb r0, [r2+0]
            (
                &[0xb702000000000000, 0x7120000000000000],
                End::Trap(1, TrapReason::NotPointer),
            ),
            // stb [r1+0], 1
            (
                &[0x7201000001000000],
                End::Trap(0, TrapReason::ContextWrite),
            ),
            // ldxw r0, [r1+2]
            (&[0x6110020000000000], End::Trap(0, TrapReason::Misaligned)),
            // ldxw r0, [r1+128]
            (&[0x6110800000000000], End::Trap(0, TrapReason::OutOfBounds)),
            // ja -3
            (
                &[0x0500fdff00000000],
                End::Trap(18446744073709551614, TrapReason::OutsideProgram),
            ),
        ],
    );
}

#[test]
fn facts_are_numbered(rt: HostRuntime) {
    let mut facts = [0; 16];
    facts[3] = 7;
    let outcome = Record::from_layout1([0; 128], facts, &[]).expect(&rt, "an empty tag");
    are_ended(
        &rt,
        rt.alloc(),
        &outcome,
        &[
            // mov r1, 3 / call 1 / and r0, 1
            (&[0xb701000003000000, CALL_1, LOW_BIT], End::Done(1, 4)),
            // mov r1, 16 / call 1 / and r0, 1
            (
                &[0xb701000010000000, CALL_1, LOW_BIT],
                End::Trap(1, TrapReason::Argument),
            ),
            // call 5
            (&[0x8500000005000000], End::Trap(0, TrapReason::Helper)),
            // mov r1, 0 / call 1 / call 1
            (
                &[0xb701000000000000, CALL_1, CALL_1],
                End::Trap(2, TrapReason::Unset),
            ),
        ],
    );
}

#[test]
fn the_front_of_the_body_is_read(rt: HostRuntime) {
    let mut context = [0u8; 128];
    context[66] = 2;
    let outcome = Record::from_layout1(context, [0; 16], &[]).expect(&rt, "an empty tag");
    end_so(
        &rt,
        rt.alloc(),
        &[],
        // call 2
        &[0x8500000002000000, EXIT],
        &outcome,
        &[
            // mov r1, 2
            (0xb701000002000000, End::Done(2, 3)),
            // mov r1, 63
            (0xb70100003f000000, End::Done(0, 3)),
            // mov r1, 64
            (0xb701000040000000, End::Trap(1, TrapReason::Argument)),
            // mov r1, -1
            (0xb7010000ffffffff, End::Trap(1, TrapReason::Argument)),
        ],
    );
}

#[test]
fn a_tag_is_copied_to_the_stack(rt: HostRuntime) {
    end_so(
        &rt,
        rt.alloc(),
        &TAG_IS_COPIED,
        &[LOW_BIT, EXIT],
        &outcome_with_tag(&rt, &[0x61, 0x62]),
        &[
            // ldxb r0, [r10-8]
            (0x71a0f8ff00000000, End::Done(1, 7)),
            // ldxb r0, [r10-6]
            (0x71a0faff00000000, End::Done(0, 7)),
            // ldxb r0, [r10-5]
            (0x71a0fbff00000000, End::Trap(4, TrapReason::Unset)),
        ],
    );
}

/// Checks how a program ends that stores bytes and compares them with the start of a tag.
fn compares(rt: &impl Abort, alloc: Global, bytes: &[u64], tag: &[u8], wanted: End) {
    let outcome = outcome_with_tag(rt, tag);
    let found = end(rt, alloc, &[bytes, &TAG_IS_COMPARED], &outcome, 100);
    same_at(rt, found, wanted, &tag);
}

#[test]
fn the_start_of_a_tag_is_compared(rt: HostRuntime) {
    // stb [r10-8], 112 / stb [r10-7], 97
    let bytes = &[0x720af8ff70000000, 0x720af9ff61000000];
    compares(&rt, rt.alloc(), bytes, b"pay", End::Done(1, 7));
    compares(&rt, rt.alloc(), bytes, b"p", End::Done(0, 7));
    let first = &[0x720af8ff70000000];
    let unset = End::Trap(4, TrapReason::Argument);
    compares(&rt, rt.alloc(), first, b"pay", unset);
}
