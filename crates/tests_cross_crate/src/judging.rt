//! Verdicts and steps of programs on outcomes.
use crate::checks::{same, same_at, same_at_slot};
use crate::programs::bytes_of_slots;
use bpf_profile::Layout;
use bpf_run::{Verdict, judge, run};
use helpers::Record;
use packed_outcomes::PackedOutcome;
use std::alloc::Global;
use std::process::Abort;
use std::sync::Arc;
use verifier::{Verified, default_classifier, verify};

/// The record of an outcome of a kind, with a status below 65,536.
fn outcome(rt: &impl Abort, kind: u8, status: u16) -> Record {
    let mut context = [0u8; 128];
    context[0] = kind;
    let [low, high] = status.to_le_bytes();
    context[4] = low;
    context[5] = high;
    Record::from_layout1(context, [0; 16], &[]).expect(rt, "an empty tag")
}

/// The program of these slots, which is accepted.
fn verified(rt: &impl Abort, alloc: Global, slots: &[u64]) -> Verified {
    let bytes = bytes_of_slots(rt, alloc, slots);
    verify(alloc, &bytes, Layout::One).expect(rt, "a program that is accepted")
}

/// The kind of an outcome, its status, and the verdict and the steps.
type Judged = (u8, u16, Verdict, u32);

/// Checks what a program judges outcomes as.
fn are_judged(rt: &impl Abort, program: &Verified, rows: &[Judged]) {
    for row in rows {
        let (kind, status, verdict, steps) = *row;
        let found = run(program, &outcome(rt, kind, status));
        same_at(rt, found, (verdict, steps), row);
    }
}

#[test]
fn the_default_classifier_judges(rt: HostRuntime) {
    let classifier = default_classifier(rt.alloc()).expect(&rt, "the default classifier");
    are_judged(
        &rt,
        &classifier,
        &[
            (0, 0, Verdict::Success, 6),
            (0, 499, Verdict::Success, 6),
            (0, 500, Verdict::Failure, 6),
            (1, 0, Verdict::Failure, 4),
        ],
    );
}

/// A load from the context, a comparison, and the verdict of a program that answers 1 where the load gives
/// what the comparison compares with, else 0.
type Loaded = (u64, u64, Verdict);

/// Checks what is loaded from the context of the outcome of kind 2 with the status 0x0203.
fn are_loaded(rt: &impl Abort, alloc: Global, rows: &[Loaded]) {
    let outcome = outcome(rt, 2, 0x0203);
    for row in rows {
        let (load, compare, verdict) = *row;
        let slots = [
            load,
            compare,
            0xb700000001000000,
            0x9500000000000000,
            0xb700000000000000,
            0x9500000000000000,
        ];
        let found = run(&verified(rt, alloc, &slots), &outcome);
        same_at_slot(rt, found, (verdict, 4), load);
    }
}

#[test]
fn every_size_is_loaded(rt: HostRuntime) {
    are_loaded(
        &rt,
        rt.alloc(),
        &[
            (0x7112040000000000, 0x5502020003000000, Verdict::Failure),
            (0x7112050000000000, 0x5502020002000000, Verdict::Failure),
            (0x6912040000000000, 0x5502020003020000, Verdict::Failure),
            (0x6112000000000000, 0x5502020002000000, Verdict::Failure),
            (0x7912000000000000, 0x5502020002000000, Verdict::Success),
            (0x7912080000000000, 0x5502020000000000, Verdict::Failure),
        ],
    );
}

#[test]
fn judged_work_is_tied(rt: HostRuntime) {
    let rt = &rt;
    let alloc = rt.alloc();
    let slots = [0xb700000002000000, 0x9500000000000000];
    let program = Arc::new(alloc, verified(rt, alloc, &slots)).expect(rt, "ample memory");
    let outcome = outcome(rt, 0, 500);
    let packed = PackedOutcome::pack(alloc, &outcome).expect(rt, "ample memory");
    let judged = judge(program, packed);
    same(rt, judged.verdict(), Verdict::Ignored);
    same(rt, judged.steps(), 2);
    same(rt, judged.outcome().unpack(), outcome);
    let bytes = bytes_of_slots(rt, alloc, &slots);
    same(rt, judged.program().bytes(), bytes.as_slice());
}

/// A constant, 4,094 comparisons that lead to the next slot either way, and an exit.
fn longest(rt: &impl Abort, alloc: Global) -> Vec<u8> {
    let mut bytes = bytes_of_slots(rt, alloc, &[0xb700000000000000]);
    let (compare, exit) = ([0x15, 0, 0, 0, 0, 0, 0, 0], [0x95, 0, 0, 0, 0, 0, 0, 0]);
    for _ in 0..4094 {
        bytes.extend_from_slice(&compare).expect(rt, "ample memory");
    }
    bytes.extend_from_slice(&exit).expect(rt, "ample memory");
    bytes
}

#[test]
fn the_longest_program_runs(rt: HostRuntime) {
    let rt = &rt;
    let bytes = longest(rt, rt.alloc());
    let program = verify(rt.alloc(), &bytes, Layout::One).expect(rt, "4,096 slots");
    same(rt, program.budget(), 4096);
    are_judged(rt, &program, &[(0, 0, Verdict::Success, 4096)]);
}

/// Numbers in R2 that differ by the path on which they are left.
const MEETING: [u64; 11] = [
    // lddw r2, -4294967290 / ldxw r3, [r1+0] / jsgt32 r3, 1, +1 / mov r2, r3
    0x1802000006000000,
    0x00000000ffffffff,
    0x6113000000000000,
    0x6603010001000000,
    0xbf32000000000000,
    // mod32 r2, 4 / jeq r2, 2, +2 / mov r0, 0 / exit / mov r0, 1 / exit
    0x9402000004000000,
    0x1502020002000000,
    0xb700000000000000,
    0x9500000000000000,
    0xb700000001000000,
    0x9500000000000000,
];

/// Where two paths with different numbers in R2 meet, a number is left to compute with.
#[test]
fn paths_meet(rt: HostRuntime) {
    let program = verified(&rt, rt.alloc(), &MEETING);
    same(&rt, program.budget(), 8);
    are_judged(
        &rt,
        &program,
        &[
            (0, 0, Verdict::Success, 8),
            (1, 0, Verdict::Success, 8),
            (2, 0, Verdict::Failure, 7),
        ],
    );
}
