//! Every comparison of both widths, with registers and with immediates, and jumps.
use crate::programs::{ANSWERS, EDGES, IMMEDIATES, both_end, joined, patterned, slot, wide};
use bpf_profile::{Comparison, Size, Width};
use bpf_words::{holds, sign_extended};
use helpers::Record;
use std::alloc::Global;
use std::process::Abort;

/// A comparison with its opcode of class JMP with an immediate; in class JMP32 it is one more.
const COMPARISONS: [(u8, Comparison); 11] = [
    (0x15, Comparison::Equal),
    (0x55, Comparison::NotEqual),
    (0x25, Comparison::Greater),
    (0x35, Comparison::GreaterOrEqual),
    (0xa5, Comparison::Less),
    (0xb5, Comparison::LessOrEqual),
    (0x65, Comparison::SignedGreater),
    (0x75, Comparison::SignedGreaterOrEqual),
    (0xc5, Comparison::SignedLess),
    (0xd5, Comparison::SignedLessOrEqual),
    (0x45, Comparison::BitsSet),
];

/// How much the opcode is more in each class.
const CLASSES: [(u8, Width); 2] = [(0, Width::Bits64), (1, Width::Bits32)];

/// Checks that both machines answer 1 where the jump of R1 and R2, or of R1 and what the slot has, is
/// taken, and else 0.
fn both_jump(
    rt: &impl Abort,
    alloc: Global,
    branch: [u8; 8],
    outcome: &Record,
    words: (u64, u64),
    taken: bool,
) {
    let (a, b) = words;
    let bytes = joined(rt, alloc, &[&wide(1, a), &wide(2, b), &branch, &ANSWERS]);
    both_end(rt, alloc, &bytes, outcome, taken, 5);
}

/// Checks a comparison of this opcode of each two of the edges.
fn on_edges(
    rt: &impl Abort,
    alloc: Global,
    outcome: &Record,
    opcode: u8,
    comparison: Comparison,
    width: Width,
) {
    let branch = slot(opcode, 0x21, 2, 0);
    for a in &EDGES {
        for b in &EDGES {
            let taken = holds(comparison, width, *a, *b);
            both_jump(rt, alloc, branch, outcome, (*a, *b), taken);
        }
    }
}

#[test]
fn comparisons_of_registers(rt: HostRuntime) {
    let outcome = patterned(&rt);
    for (opcode, comparison) in &COMPARISONS {
        for (more, width) in &CLASSES {
            let opcode = (*opcode | 8).wrapping_add(*more);
            on_edges(&rt, rt.alloc(), &outcome, opcode, *comparison, *width);
        }
    }
}

/// Checks a comparison of this opcode of each of the edges with each immediate.
fn on_immediates(
    rt: &impl Abort,
    alloc: Global,
    outcome: &Record,
    opcode: u8,
    comparison: Comparison,
    width: Width,
) {
    for a in &EDGES {
        for immediate in &IMMEDIATES {
            let branch = slot(opcode, 1, 2, *immediate);
            let b = sign_extended(Size::Word, u64::from(*immediate));
            let taken = holds(comparison, width, *a, b);
            both_jump(rt, alloc, branch, outcome, (*a, 0), taken);
        }
    }
}

#[test]
fn comparisons_with_immediates(rt: HostRuntime) {
    let outcome = patterned(&rt);
    for (opcode, comparison) in &COMPARISONS {
        for (more, width) in &CLASSES {
            let opcode = opcode.wrapping_add(*more);
            on_immediates(&rt, rt.alloc(), &outcome, opcode, *comparison, *width);
        }
    }
}

/// Checks that both machines answer 1 by a jump that stands behind a comparison that leads past it.
fn jumps_by_two(rt: &impl Abort, alloc: Global, jump: [u8; 8]) {
    let compare = slot(0x15, 1, 1, 0); // jeq r1, 0, +1
    let bytes = joined(rt, alloc, &[&wide(1, 7), &compare, &jump, &ANSWERS]);
    both_end(rt, alloc, &bytes, &patterned(rt), true, 5);
}

#[test]
fn jumps(rt: HostRuntime) {
    jumps_by_two(&rt, rt.alloc(), slot(0x05, 0, 2, 0)); // ja +2
    jumps_by_two(&rt, rt.alloc(), slot(0x06, 0, 0, 2)); // ja32 +2
}
