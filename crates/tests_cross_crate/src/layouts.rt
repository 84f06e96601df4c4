//! What programs of the two layouts may read of a record, and that what they don't see decides nothing.
use crate::checks::{is_true, same, same_at};
use crate::loads::{LOADS, number_at};
use crate::programs::{both_end_in, both_give_in, classifier_bytes, ends, joined, patterned, slot};
use crate::told::assembled;
use abs_domain::Both;
use bpf_decode::Program;
use bpf_profile::{Layout, Size, TrapReason};
use bpf_slow::{End, trace};
use flow_check::check;
use helpers::Record;
use known_bits::KnownBits;
use ranges::Range;
use refusals::RefusalNumber;
use std::alloc::Global;
use std::process::Abort;
use verifier::{Refusal, analyse, verify, verify_counted};

/// Why an instruction may not be executed: the number of the refusal, and the reason of the trap. None where
/// it may.
type Fault = Option<(RefusalNumber, TrapReason)>;

const MISALIGNED: Fault = Some((RefusalNumber::Misaligned, TrapReason::Misaligned));

const OUTSIDE: Fault = Some((RefusalNumber::OutOfBounds, TrapReason::OutOfBounds));

const ARGUMENT: Fault = Some((RefusalNumber::HelperArgument, TrapReason::Argument));

/// Checks that a program of so many slots in a row, which answers 0 or 1, is accepted and ends behind them
/// all, or is refused and traps for this fault at a slot.
fn is_met(
    rt: &impl Abort,
    alloc: Global,
    layout: Layout,
    bytes: &[u8],
    steps: u32,
    slot: u32,
    fault: Fault,
) {
    let refusal = match fault {
        Some((number, _)) => Some(Refusal { slot, number }),
        None => None,
    };
    same_at(rt, verify(alloc, bytes, layout).err(), refusal, &bytes);
    let program = Program::decode(alloc, bytes).expect(rt, "slots of the profile");
    let end = trace(alloc, &program, &patterned(rt), layout, steps).expect(rt, "ample memory");
    match fault {
        Some((_, reason)) => same_at(rt, end, End::Trap(u64::from(slot), reason), &bytes),
        None => is_true(rt, matches!(end, End::Done(..))),
    }
}

/// The faults of loads of one, two, four and eight bytes.
type Faults = [Fault; 4];

/// The fault of loads of this size.
fn fault_of(faults: Faults, size: Size) -> Fault {
    match size {
        Size::Byte => faults[0],
        Size::HalfWord => faults[1],
        Size::Word => faults[2],
        Size::DoubleWord => faults[3],
    }
}

/// A place, and the faults of loads there.
type Place = (u8, Faults);

/// Checks each load at places of the context.
fn are_met(rt: &impl Abort, alloc: Global, layout: Layout, rows: &[Place]) {
    for row in rows {
        let (place, faults) = *row;
        for (opcode, size, _) in &LOADS {
            let load = slot(*opcode, 0x11, place, 0);
            let (zero, exit) = (slot(0xb7, 0, 0, 0), slot(0x95, 0, 0, 0));
            let bytes = joined(rt, alloc, &[&load, &zero, &exit]);
            is_met(rt, alloc, layout, &bytes, 3, 0, fault_of(faults, *size));
        }
    }
}

#[test]
fn the_shorter_context_ends_at_128(rt: HostRuntime) {
    are_met(
        &rt,
        rt.alloc(),
        Layout::One,
        &[
            (120, [None, None, None, None]),
            (124, [None, None, None, MISALIGNED]),
            (126, [None, None, MISALIGNED, MISALIGNED]),
            (127, [None, MISALIGNED, MISALIGNED, MISALIGNED]),
            (128, [OUTSIDE, OUTSIDE, OUTSIDE, OUTSIDE]),
            (184, [OUTSIDE, OUTSIDE, OUTSIDE, OUTSIDE]),
            (191, [OUTSIDE, MISALIGNED, MISALIGNED, MISALIGNED]),
            (192, [OUTSIDE, OUTSIDE, OUTSIDE, OUTSIDE]),
        ],
    );
}

#[test]
fn the_longer_context_ends_at_192(rt: HostRuntime) {
    are_met(
        &rt,
        rt.alloc(),
        Layout::Two,
        &[
            (127, [None, MISALIGNED, MISALIGNED, MISALIGNED]),
            (128, [None, None, None, None]),
            (184, [None, None, None, None]),
            (188, [None, None, None, MISALIGNED]),
            (190, [None, None, MISALIGNED, MISALIGNED]),
            (191, [None, MISALIGNED, MISALIGNED, MISALIGNED]),
            (192, [OUTSIDE, OUTSIDE, OUTSIDE, OUTSIDE]),
        ],
    );
}

/// `mov r1`, the index, and `call 2`.
fn asked(rt: &impl Abort, alloc: Global, index: u32) -> Vec<u8> {
    joined(rt, alloc, &[&slot(0xb7, 1, 0, index), &slot(0x85, 0, 0, 2)])
}

/// Checks that helper 2 answers the byte with this index of the body's front.
fn is_answered(rt: &impl Abort, alloc: Global, layout: Layout, index: u8) {
    let byte = index.wrapping_add(64).wrapping_mul(37);
    let answer = slot(0xbf, 1, 0, 0); // mov r1, r0
    let asked = asked(rt, alloc, u32::from(index));
    let first = joined(rt, alloc, &[&asked, &answer]);
    both_give_in(
        rt,
        alloc,
        &first,
        3,
        layout,
        &patterned(rt),
        u64::from(byte),
    );
}

/// Checks that helper 2 is not asked for the byte with this index of the body's front.
fn is_not_asked(rt: &impl Abort, alloc: Global, layout: Layout, index: u32) {
    let (bit, exit) = (slot(0x57, 0, 0, 1), slot(0x95, 0, 0, 0));
    let asked = asked(rt, alloc, index);
    let bytes = joined(rt, alloc, &[&asked, &bit, &exit]);
    is_met(rt, alloc, layout, &bytes, 4, 1, ARGUMENT);
}

/// Checks that helper 2 answers the bytes with these indices alone.
fn answers_below(rt: &impl Abort, alloc: Global, layout: Layout, end: u8) {
    for index in 0..end {
        is_answered(rt, alloc, layout, index);
    }
    for index in &[u32::from(end), u32::from(end) + 1, 0xffff_ffff] {
        is_not_asked(rt, alloc, layout, *index);
    }
}

#[test]
fn the_front_ends_with_the_context(rt: HostRuntime) {
    answers_below(&rt, rt.alloc(), Layout::One, 64);
    answers_below(&rt, rt.alloc(), Layout::Two, 128);
}

/// The patterned outcome, but all bytes from 128 on are this one.
fn with_tail(rt: &impl Abort, byte: u8) -> Record {
    let patterned = patterned(rt);
    let mut context = *patterned.context();
    for i in 128..192usize {
        context[i] = byte;
    }
    Record::from_parts(context, [0; 16], &[]).expect(rt, "an empty tag")
}

/// Checks that a program of layout 1 ends alike in both machines whatever stands from byte 128 on.
fn sees_no_tail(rt: &impl Abort, alloc: Global, bytes: &[u8]) {
    for byte in &[1u8, 0x80, 0xff] {
        let wanted = ends(rt, alloc, bytes, Layout::One, &with_tail(rt, 0), 100);
        let found = ends(rt, alloc, bytes, Layout::One, &with_tail(rt, *byte), 100);
        same_at(rt, found, wanted, &bytes);
    }
}

/// Lines that compute with all 128 bytes, and with a byte of the front and one of the stack.
const WHOLE: [&str; 3] = [
    "ldxdw r0, [r1+0]\nldxdw r2, [r1+8]\nadd r0, r2\nldxdw r2, [r1+16]\nadd r0, r2\nldxdw r2, [r1+24]\nadd r0, r2\nldxdw r2, [r1+32]\nadd r0, r2\nldxdw r2, [r1+40]\nadd r0, r2\nldxdw r2, [r1+48]\nadd r0, r2\nldxdw r2, [r1+56]\nadd r0, r2\nldxdw r2, [r1+64]\nadd r0, r2\nldxdw r2, [r1+72]\nadd r0, r2\nldxdw r2, [r1+80]\nadd r0, r2\nldxdw r2, [r1+88]\nadd r0, r2\nldxdw r2, [r1+96]\nadd r0, r2\nldxdw r2, [r1+104]\nadd r0, r2\nldxdw r2, [r1+112]\nadd r0, r2\nldxdw r2, [r1+120]\nadd r0, r2\nmod r0, 3\nexit",
    "mov r1, 63\ncall 2\nmod r0, 3\nexit",
    "stdw [r10-512], 7\nldxdw r0, [r1+120]\nldxb r2, [r10-512]\nadd r0, r2\nmod r0, 3\nexit",
];

/// For layout 1 the first 128 bytes decide alone.
#[test]
fn bytes_behind_the_shorter_context_decide_nothing(rt: HostRuntime) {
    let rt = &rt;
    sees_no_tail(rt, rt.alloc(), &classifier_bytes(rt, rt.alloc()));
    for text in &WHOLE {
        sees_no_tail(rt, rt.alloc(), &assembled(rt, rt.alloc(), *text));
    }
}

/// For layout 2 the same bytes decide.
#[test]
fn bytes_of_the_longer_context_decide(rt: HostRuntime) {
    let rt = &rt;
    let alloc = rt.alloc();
    for text in &[
        "ldxb r0, [r1+128]\nand r0, 1\nexit",
        "ldxb r0, [r1+191]\nand r0, 1\nexit",
    ] {
        let bytes = assembled(rt, alloc, *text);
        both_end_in(rt, alloc, &bytes, Layout::Two, &with_tail(rt, 1), true, 3);
        both_end_in(rt, alloc, &bytes, Layout::Two, &with_tail(rt, 2), false, 3);
    }
}

/// Checks that R1 is this word after a store to the stack's first eight bytes and this line.
fn stays(rt: &impl Abort, alloc: Global, layout: Layout, line: &str, word: u64) {
    let text = format!(in alloc; "stdw [r10-512], -1\n{line}").expect(rt, "ample memory");
    let first = assembled(rt, alloc, &text);
    both_give_in(rt, alloc, &first, 2, layout, &patterned(rt), word);
}

/// The stack's first byte stands behind all bytes of a record, whatever the layout: a store there changes
/// nothing that a program reads of the record.
#[test]
fn the_stack_stands_behind_the_record(rt: HostRuntime) {
    let rt = &rt;
    let alloc = rt.alloc();
    let last = number_at(120, Size::DoubleWord);
    let behind = number_at(128, Size::DoubleWord);
    stays(rt, alloc, Layout::One, "ldxdw r1, [r1+120]", last);
    stays(rt, alloc, Layout::One, "ldxdw r1, [r10-512]", u64::MAX);
    stays(rt, alloc, Layout::Two, "ldxdw r1, [r1+120]", last);
    stays(rt, alloc, Layout::Two, "ldxdw r1, [r1+128]", behind);
    stays(rt, alloc, Layout::Two, "ldxb r1, [r1+191]", 155);
    stays(rt, alloc, Layout::Two, "ldxdw r1, [r10-512]", u64::MAX);
}

/// The budget of a program, by the analysis that keeps all states.
fn analysed(alloc: Global, bytes: &[u8], layout: Layout) -> Result<u32, Refusal> {
    let program = Program::decode(alloc, bytes)?;
    let flow = check(alloc, &program)?;
    analyse::<Both<Range, KnownBits>>(alloc, &program, &flow, layout)?;
    Ok(flow.budget())
}

/// A program that is verified keeps its layout, and all three analyses refuse the same.
#[test]
fn layouts_are_kept(rt: HostRuntime) {
    let rt = &rt;
    let alloc = rt.alloc();
    let bytes = assembled(rt, alloc, "ldxb r0, [r1+128]\nand r0, 1\nexit");
    let refusal = Refusal {
        slot: 0,
        number: RefusalNumber::OutOfBounds,
    };
    same(rt, verify(alloc, &bytes, Layout::One).err(), Some(refusal));
    let refused = verify_counted(alloc, &bytes, Layout::One).err();
    same(rt, refused, Some(refusal));
    let refused = analysed(alloc, &bytes, Layout::One).err();
    same(rt, refused, Some(refusal));
    same(rt, analysed(alloc, &bytes, Layout::Two), Ok(3));
    let program = verify(alloc, &bytes, Layout::Two).expect(rt, "an accepted program");
    same(rt, program.layout(), Layout::Two);
    let (counted, width) = verify_counted(alloc, &bytes, Layout::Two).expect(rt, "the same");
    same(rt, (counted.layout(), width), (Layout::Two, 1));
}
