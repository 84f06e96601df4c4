//! The default classifier cut short, and with each byte changed: what is still accepted ends alike in both machines.
ghost use Rattle.std.specs.Prelude.{◌<◌};

use crate::checks::{is_true, same_at};
use crate::programs::classifier_bytes;
use crate::told::outcome_of;
use bpf_profile::Layout;
use bpf_run::{Verdict, run};
use bpf_slow::{End, trace};
use helpers::Record;
use std::alloc::Global;
use std::process::Abort;
use verifier::verify;

/// The answer of a verdict.
fn answer(verdict: Verdict) -> u64 {
    match verdict {
        Verdict::Success => 0,
        Verdict::Failure => 1,
        Verdict::Ignored => 2,
    }
}

/// Whether a program is accepted. If it is, both machines end alike on these records.
fn both_end_alike(rt: &impl Abort, alloc: Global, bytes: &[u8], records: &[Record]) -> bool {
    let Ok(program) = verify(alloc, bytes, Layout::One) else {
        return false;
    };
    for record in records {
        let (verdict, steps) = run(&program, record);
        let end = trace(
            alloc,
            program.program(),
            record,
            Layout::One,
            program.budget(),
        );
        let end = end.expect(rt, "ample memory");
        same_at(rt, end, End::Done(answer(verdict), steps), &bytes);
    }
    true
}

/// The slot and the number of a refusal; None for a program that is accepted.
fn refusal_of(alloc: Global, bytes: &[u8]) -> Option<(u32, u8)> {
    match verify(alloc, bytes, Layout::One) {
        Ok(_) => None,
        Err(refusal) => Some((refusal.slot, refusal.number.number())),
    }
}

/// The slot and the number of the refusal of the default classifier when it is cut to so many bytes.
fn refusal_of_length(length: usize) -> (u32, u8) {
    match length {
        8 => (0, 10),
        16 | 24 | 32 | 40 | 48 => (1, 8),
        56 => (6, 10),
        _ => (0, 1),
    }
}

#[test]
fn cut_programs_are_refused(rt: HostRuntime) {
    let bytes = classifier_bytes(&rt, rt.alloc());
    for length in 0..64usize {
        let refusal = refusal_of(rt.alloc(), &bytes[..length]);
        same_at(&rt, refusal, Some(refusal_of_length(length)), &length);
    }
}

/// How many programs are accepted of those in which the byte at a place is each other one. Both machines end
/// alike on them.
fn accepted_changes(
    rt: &impl Abort,
    alloc: Global,
    bytes: [u8; 64],
    place: usize,
    records: &[Record],
) -> u32
    requires { place < 64 }
{
    let mut changed = bytes;
    let mut accepted = 0u32;
    for change in 1..=255u8 {
        changed[place] = bytes[place] ^ change;
        if both_end_alike(rt, alloc, &changed, records) {
            accepted = accepted.wrapping_add(1);
        }
    }
    accepted
}

/// Each of the 64 bytes becomes each other one, which makes 16,320 programs.
#[test]
fn a_changed_byte_changes_both_machines_alike(rt: HostRuntime) {
    let rt = &rt;
    let alloc = rt.alloc();
    let records = [
        outcome_of(rt, alloc, "{}"),
        outcome_of(rt, alloc, "{\"status\":500}"),
        outcome_of(rt, alloc, "{\"kind\":\"timeout\"}"),
    ];
    let bytes = classifier_bytes(rt, alloc);
    let mut accepted = 0u32;
    for place in 0..64usize {
        let changes = accepted_changes(rt, alloc, bytes, place, &records);
        accepted = accepted.wrapping_add(changes);
    }
    is_true(rt, accepted > 0);
}
