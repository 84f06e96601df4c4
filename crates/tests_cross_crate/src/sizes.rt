//! Programs of many sizes. With ample memory no call may say that memory ran out.
use crate::checks::same;
use crate::programs::{patterned, slot};
use bpf_decode::Program;
use bpf_profile::Layout;
use bpf_run::{Verdict, run};
use bpf_slow::{End, TrapReason, trace};
use flow_check::check;
use helpers::Record;
use refusals::RefusalNumber;
use std::alloc::Global;
use std::process::Abort;
use verifier::{Refusal, verify};

/// Each power of two from 2 to 4,096, one less and one more.
const SIZES: [u32; 33] = [
    2, 3, 4, 5, 7, 8, 9, 15, 16, 17, 31, 32, 33, 63, 64, 65, 127, 128, 129, 255, 256, 257, 511,
    512, 513, 1023, 1024, 1025, 2047, 2048, 2049, 4095, 4096,
];

/// `mov r0, 0` as often as it takes, and `exit`.
fn of_size(rt: &impl Abort, alloc: Global, size: u32) -> Vec<u8> {
    let mut bytes = Vec::new(alloc);
    for _ in 1..size {
        let slot = slot(0xb7, 0, 0, 0);
        bytes.extend_from_slice(&slot).expect(rt, "ample memory");
    }
    let slot = slot(0x95, 0, 0, 0);
    bytes.extend_from_slice(&slot).expect(rt, "ample memory");
    bytes
}

/// The slots of a program, the budget of its flow, and how the plain machine ends it within so many
/// instructions.
fn in_plain_machine(
    rt: &impl Abort,
    alloc: Global,
    bytes: &[u8],
    outcome: &Record,
    limit: u32,
) -> (usize, u32, End) {
    let program = Program::decode(alloc, bytes).expect(rt, "slots of the profile");
    let flow = check(alloc, &program).expect(rt, "a straight program");
    let end = trace(alloc, &program, outcome, Layout::One, limit).expect(rt, "ample memory");
    (program.len(), flow.budget(), end)
}

/// The budget of a program that is accepted, and how the fast machine ends it.
fn in_fast_machine(
    rt: &impl Abort,
    alloc: Global,
    bytes: &[u8],
    outcome: &Record,
) -> (u32, (Verdict, u32)) {
    let program = verify(alloc, bytes, Layout::One).expect(rt, "a program that is accepted");
    (program.budget(), run(&program, outcome))
}

/// Checks that a program of so many slots is taken, and that both machines run through them all.
fn is_taken(rt: &impl Abort, alloc: Global, outcome: &Record, size: u32) {
    let bytes = of_size(rt, alloc, size);
    let plain = in_plain_machine(rt, alloc, &bytes, outcome, size);
    same(rt, plain, (size as usize, size, End::Done(0, size)));
    let fast = in_fast_machine(rt, alloc, &bytes, outcome);
    same(rt, fast, (size, (Verdict::Success, size)));
}

#[test]
fn every_size_is_taken(rt: HostRuntime) {
    let outcome = patterned(&rt);
    for size in &SIZES {
        is_taken(&rt, rt.alloc(), &outcome, *size);
    }
}

/// An exit alone is a program, whose answer is never set.
#[test]
fn one_slot_is_taken(rt: HostRuntime) {
    let rt = &rt;
    let alloc = rt.alloc();
    let bytes = of_size(rt, alloc, 1);
    let plain = in_plain_machine(rt, alloc, &bytes, &patterned(rt), 1);
    same(rt, plain, (1, 1, End::Trap(0, TrapReason::Unset)));
    let refusal = Refusal {
        slot: 0,
        number: RefusalNumber::UnsetRegister,
    };
    same(rt, verify(alloc, &bytes, Layout::One).err(), Some(refusal));
}
