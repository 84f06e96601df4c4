//! Programs whose answer shows what an instruction computes, run by both machines.
use crate::checks::same_at;
use bpf_profile::Layout;
use bpf_run::{Verdict, run};
use bpf_slow::{End, trace};
use helpers::Record;
use std::alloc::Global;
use std::process::Abort;
use verifier::{default_classifier, verify};

/// Words at which operations change what they do.
pub(crate) const EDGES: [u64; 15] = [
    0,
    1,
    2,
    63,
    64,
    0x7fff_ffff,
    0x8000_0000,
    0x8000_0001,
    0xffff_ffff,
    0x1_0000_0000,
    0x1_0000_0001,
    0x7fff_ffff_ffff_ffff,
    0x8000_0000_0000_0000,
    0xffff_ffff_0000_0000,
    0xffff_ffff_ffff_ffff,
];

/// Immediates at which operations change what they do, as a slot has them.
pub(crate) const IMMEDIATES: [u32; 8] = [0, 1, 31, 32, 64, 0x7fff_ffff, 0x8000_0000, 0xffff_ffff];

/// The eight bytes of a slot. The low half of `registers` is the destination.
pub(crate) fn slot(opcode: u8, registers: u8, offset: u8, immediate: u32) -> [u8; 8] {
    let [a, b, c, d] = immediate.to_le_bytes();
    [opcode, registers, offset, 0, a, b, c, d]
}

/// The sixteen bytes of `lddw`.
pub(crate) fn wide(register: u8, value: u64) -> [u8; 16] {
    let [a, b, c, d, e, f, g, h] = value.to_le_bytes();
    [0x18, register, 0, 0, a, b, c, d, 0, 0, 0, 0, e, f, g, h]
}

/// These bytes, one part behind the other.
pub(crate) fn joined(rt: &impl Abort, alloc: Global, parts: &[&[u8]]) -> Vec<u8> {
    let mut bytes = Vec::new(alloc);
    for part in parts {
        bytes.extend_from_slice(part).expect(rt, "ample memory");
    }
    bytes
}

/// The bytes of slots that are written as numbers with their first byte first.
pub(crate) fn bytes_of_slots(rt: &impl Abort, alloc: Global, slots: &[u64]) -> Vec<u8> {
    let mut bytes = Vec::new(alloc);
    for slot in slots {
        let slot = slot.to_be_bytes();
        bytes.extend_from_slice(&slot).expect(rt, "ample memory");
    }
    bytes
}

/// The bytes of the default classifier.
pub(crate) fn classifier_bytes(rt: &impl Abort, alloc: Global) -> [u8; 64] {
    let classifier = default_classifier(alloc).expect(rt, "the default classifier");
    let found = classifier.bytes();
    assert!(rt; found.len() == 64);
    let mut bytes = [0u8; 64];
    bytes.copy_from_slice(found);
    bytes
}

/// An outcome whose context has the bytes 0, 37, 74 and so on, of which half have their highest bit.
pub(crate) fn patterned(rt: &impl Abort) -> Record {
    let mut context = [0u8; 192];
    let mut byte = 0u8;
    for i in 0..192 {
        context[i] = byte;
        byte = byte.wrapping_add(37);
    }
    Record::from_parts(context, [0; 16], &[]).expect(rt, "an empty tag")
}

/// How the two machines end: the verdict and the steps of the fast one, and the end of the plain one.
pub(crate) type Ends = ((Verdict, u32), End);

/// How both machines end a program on records of this layout, the plain one within so many instructions.
pub(crate) fn ends(
    rt: &impl Abort,
    alloc: Global,
    bytes: &[u8],
    layout: Layout,
    outcome: &Record,
    limit: u32,
) -> Ends {
    let program = verify(alloc, bytes, layout).expect(rt, "a program that is accepted");
    let end = trace(alloc, program.program(), outcome, layout, limit);
    (run(&program, outcome), end.expect(rt, "ample memory"))
}

/// Ends with this answer, 0 or 1, after so many instructions.
pub(crate) fn answered(answer: bool, steps: u32) -> Ends {
    if answer {
        ((Verdict::Failure, steps), End::Done(1, steps))
    } else {
        ((Verdict::Success, steps), End::Done(0, steps))
    }
}

/// Checks that both machines end a program on records of this layout with this answer, 0 or 1, after so many
/// instructions.
pub(crate) fn both_end_in(
    rt: &impl Abort,
    alloc: Global,
    bytes: &[u8],
    layout: Layout,
    outcome: &Record,
    answer: bool,
    steps: u32,
) {
    let found = ends(rt, alloc, bytes, layout, outcome, steps);
    same_at(rt, found, answered(answer, steps), &bytes);
}

/// The same for a program that sees a context of layout 1.
pub(crate) fn both_end(
    rt: &impl Abort,
    alloc: Global,
    bytes: &[u8],
    outcome: &Record,
    answer: bool,
    steps: u32,
) {
    both_end_in(rt, alloc, bytes, Layout::One, outcome, answer, steps);
}

/// `mov r0, 0`, `exit`, `mov r0, 1`, `exit`.
pub(crate) const ANSWERS: [u8; 32] = [
    0xb7, 0, 0, 0, 0, 0, 0, 0, 0x95, 0, 0, 0, 0, 0, 0, 0, 0xb7, 0, 0, 0, 1, 0, 0, 0, 0x95, 0, 0, 0,
    0, 0, 0, 0,
];

/// A program that answers, after its first slots, whether R1 is this word.
fn compared(rt: &impl Abort, alloc: Global, first: &[u8], word: u64) -> Vec<u8> {
    let compare = slot(0x1d, 0x31, 2, 0); // jeq r1, r3, +2
    joined(rt, alloc, &[first, &wide(3, word), &compare, &ANSWERS])
}

/// Checks that in both machines, on records of this layout, R1 is this word after the first slots, which take
/// so many instructions, and no other one.
pub(crate) fn both_give_in(
    rt: &impl Abort,
    alloc: Global,
    first: &[u8],
    steps: u8,
    layout: Layout,
    outcome: &Record,
    word: u64,
) {
    let steps = u32::from(steps) + 4;
    let same = compared(rt, alloc, first, word);
    both_end_in(rt, alloc, &same, layout, outcome, true, steps);
    let other = compared(rt, alloc, first, word ^ 1);
    both_end_in(rt, alloc, &other, layout, outcome, false, steps);
}

/// The same for a program that sees a context of layout 1.
pub(crate) fn both_give(
    rt: &impl Abort,
    alloc: Global,
    first: &[u8],
    steps: u8,
    outcome: &Record,
    word: u64,
) {
    both_give_in(rt, alloc, first, steps, Layout::One, outcome, word);
}
