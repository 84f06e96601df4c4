//! How many states verifying has to hold, and that it answers as the analysis that keeps all states.
ghost use Rattle.std.specs.Prelude.{◌<◌};

use super::EXIT;
use crate::checks::{same, same_at};
use crate::programs::{bytes_of_slots, classifier_bytes};
use abs_domain::Both;
use bpf_decode::Program;
use bpf_profile::Layout;
use flow_check::check;
use known_bits::KnownBits;
use ranges::Range;
use refusals::RefusalNumber;
use std::alloc::Global;
use std::process::Abort;
use verifier::{Refusal, analyse, verify_counted};

const MOVE: u64 = 0xb700000000000000;

/// The budget and the width of a program.
fn counted(alloc: Global, bytes: &[u8]) -> Result<(u32, u32), Refusal> {
    let (verified, width) = verify_counted(alloc, bytes, Layout::One)?;
    Ok((verified.budget(), width))
}

/// The budget of a program, by the analysis that keeps all states.
fn analysed(alloc: Global, bytes: &[u8]) -> Result<u32, Refusal> {
    let program = Program::decode(alloc, bytes)?;
    let flow = check(alloc, &program)?;
    analyse::<Both<Range, KnownBits>>(alloc, &program, &flow, Layout::One)?;
    Ok(flow.budget())
}

/// Adds a slot so many times.
fn push(rt: &impl Abort, bytes: &mut Vec<u8>, slot: [u8; 8], times: u32) {
    for _ in 0..times {
        bytes.extend_from_slice(&slot).expect(rt, "ample memory");
    }
}

/// `mov r0, 0`, so many times `jeq r0, 0` by a distance, so many times `mov r0, 0`, and `exit`.
fn ladder(rt: &impl Abort, alloc: Global, branches: u32, distance: u8, moves: u32) -> Vec<u8> {
    let mut bytes = Vec::new(alloc);
    push(rt, &mut bytes, MOVE.to_be_bytes(), 1);
    push(rt, &mut bytes, [0x15, 0, distance, 0, 0, 0, 0, 0], branches);
    push(rt, &mut bytes, MOVE.to_be_bytes(), moves);
    push(rt, &mut bytes, EXIT.to_be_bytes(), 1);
    bytes
}

/// The branches of a ladder, their distance and its moves, and its budget and its width.
type Ladder = (u32, u8, u32, (u32, u32));

/// Checks the budgets and the widths of ladders.
fn are_counted(rt: &impl Abort, alloc: Global, rows: &[Ladder]) {
    for row in rows {
        let (branches, distance, moves, wanted) = *row;
        let bytes = ladder(rt, alloc, branches, distance, moves);
        same_at(rt, counted(alloc, &bytes), Ok(wanted), row);
    }
}

#[test]
fn widths_are_counted(rt: HostRuntime) {
    let rt = &rt;
    are_counted(
        rt,
        rt.alloc(),
        &[
            (0, 0, 0, (2, 1)),
            (0, 0, 4_094, (4_096, 1)),
            // Both ways lead to the next slot.
            (4_094, 0, 0, (4_096, 1)),
            // To the next slot and the one behind it.
            (1, 1, 1, (4, 2)),
            (4_093, 1, 1, (4_096, 2)),
            (3, 2, 2, (7, 3)),
            // Each branch has a target of its own.
            (100, 100, 100, (202, 101)),
            (255, 255, 255, (512, 256)),
        ],
    );
    // lddw r0, 1 / exit: nothing leads to the second half.
    let wide = bytes_of_slots(rt, rt.alloc(), &[0x1800000001000000, 0, EXIT]);
    same(rt, counted(rt.alloc(), &wide), Ok((2, 1)));
    let classifier = classifier_bytes(rt, rt.alloc());
    same(rt, counted(rt.alloc(), &classifier), Ok((6, 2)));
}

/// Checks why bytes are refused, and at which slot.
fn is_refused(rt: &impl Abort, alloc: Global, bytes: &[u8], slot: u32, number: RefusalNumber) {
    same(rt, counted(alloc, bytes), Err(Refusal { slot, number }));
}

/// The slots of a program, and the slot and the number of the refusal.
type Refused = (&'static [u64], u32, RefusalNumber);

/// Checks why programs are refused, and at which slot.
fn are_refused(rt: &impl Abort, alloc: Global, rows: &[Refused]) {
    for row in rows {
        let (slots, slot, number) = *row;
        is_refused(rt, alloc, &bytes_of_slots(rt, alloc, slots), slot, number);
    }
}

#[test]
fn refusals_are_those_of_verifying(rt: HostRuntime) {
    are_refused(
        &rt,
        rt.alloc(),
        &[
            (&[EXIT], 0, RefusalNumber::UnsetRegister),
            (&[0xb700000003000000, EXIT], 1, RefusalNumber::AnswerRange),
            (&[EXIT, EXIT], 1, RefusalNumber::Unreachable),
        ],
    );
    let too_long = ladder(&rt, rt.alloc(), 0, 0, 4_095);
    is_refused(&rt, rt.alloc(), &too_long, 0, RefusalNumber::Length);
}

/// Checks that a constant, so many more moves and an exit are accepted.
fn is_accepted(rt: &impl Abort, alloc: Global, moves: u32)
    requires { moves < 4095 }
{
    let bytes = ladder(rt, alloc, 0, 0, moves);
    same_at(rt, counted(alloc, &bytes), Ok((moves + 2, 1)), &moves);
}

#[test]
fn programs_of_each_length_are_accepted(rt: HostRuntime) {
    for moves in 0..128 {
        is_accepted(&rt, rt.alloc(), moves);
    }
    for moves in (128..4_095).step_by(61) {
        is_accepted(&rt, rt.alloc(), moves);
    }
}

/// The budget of a program as verifying counts it.
fn budget(alloc: Global, bytes: &[u8]) -> Result<u32, Refusal> {
    match counted(alloc, bytes) {
        Ok((budget, _)) => Ok(budget),
        Err(refusal) => Err(refusal),
    }
}

/// Checks that both analyses answer alike of a program with each byte at a place.
fn answer_alike(rt: &impl Abort, alloc: Global, bytes: [u8; 64], place: usize)
    requires { place < 64 }
{
    let mut bytes = bytes;
    for byte in 0..=255u8 {
        bytes[place] = byte;
        let wanted = analysed(alloc, &bytes);
        same_at(rt, budget(alloc, &bytes), wanted, (&place, &byte));
    }
}

/// The default classifier with each byte replaced by each other value.
#[test]
fn both_analyses_answer_alike(rt: HostRuntime) {
    let bytes = classifier_bytes(&rt, rt.alloc());
    for place in 0..64usize {
        answer_alike(&rt, rt.alloc(), bytes, place);
    }
}
