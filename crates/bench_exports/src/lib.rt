//! What the benchmark calls from C. Nothing of the product stands on it.
#![tactic(auto)]

mod calls;
mod texts;
mod verifying;

use bpf_decode::Program;
use bpf_profile::Layout;
use bpf_run::{Verdict, run};
use flow_check::check;
use helpers::Record;
use std::alloc::{AllocError, Global};
use verifier::{Verified, default_classifier, verify};

/// How many records are judged in a round.
const RECORDS: u16 = 256;

/// The record of a response with a status.
fn response(status: u16) -> Option<Record> {
    let mut context = [0u8; 192];
    let [low, high] = status.to_le_bytes();
    context[4] = low;
    context[5] = high;
    Record::from_parts(context, [0; 16], &[])
}

/// Responses with the statuses from 372 to 627, of which half are failures.
fn responses(alloc: Global) -> Result<Vec<Record>, AllocError> {
    let mut records = Vec::new(alloc);
    for i in 0..RECORDS {
        if let Some(record) = response(372 + i) {
            records.push(record)?;
        }
    }
    Ok(records)
}

/// How many of the records are failures.
fn failures(classifier: &Verified, records: &[Record]) -> u64 {
    let mut count = 0u64;
    for record in records {
        if let (Verdict::Failure, _) = run(classifier, record) {
            count = count.wrapping_add(1);
        }
    }
    count
}

/// Judges 256 records by the default classifier, so many times, and answers how many verdicts were
/// failures: 128 in each round. It is 0 where memory ran out.
#[unsafe(no_mangle)]
pub extern "C" fn bench_exports_judge(alloc: Global, rounds: u32) -> u64 {
    let Ok(classifier) = default_classifier(alloc) else {
        return 0;
    };
    let Ok(records) = responses(alloc) else {
        return 0;
    };
    let mut count = 0u64;
    for _ in 0..rounds {
        count = count.wrapping_add(failures(&classifier, &records));
    }
    count
}

/// `mov r0, 0`.
pub(crate) const MOVE: [u8; 8] = [0xb7, 0, 0, 0, 0, 0, 0, 0];

/// `jeq r0, 0, +0`.
pub(crate) const BRANCH_BY_0: [u8; 8] = [0x15, 0, 0, 0, 0, 0, 0, 0];

/// `jeq r0, 0, +1`.
const BRANCH_BY_1: [u8; 8] = [0x15, 0, 1, 0, 0, 0, 0, 0];

/// `exit`.
pub(crate) const EXIT: [u8; 8] = [0x95, 0, 0, 0, 0, 0, 0, 0];

/// The bytes of a program of so many slots, from 3 on: a move, comparisons that lead to the next slot
/// and the one after it, and an exit.
pub(crate) fn branching(alloc: Global, slots: u32) -> Result<Vec<u8>, AllocError> {
    let mut bytes = Vec::from_slice(alloc, &MOVE)?;
    for _ in 3..slots {
        bytes.extend_from_slice(&BRANCH_BY_1)?;
    }
    bytes.extend_from_slice(&BRANCH_BY_0)?;
    bytes.extend_from_slice(&EXIT)?;
    Ok(bytes)
}

/// Checks the flow of a program of so many slots, from 3 to 4,096, so many times, and answers the sum
/// of the budgets: as many as there are slots in each round. It is 0 where memory ran out.
#[unsafe(no_mangle)]
pub extern "C" fn bench_exports_check(alloc: Global, slots: u32, rounds: u32) -> u64 {
    let Ok(bytes) = branching(alloc, slots) else {
        return 0;
    };
    let Ok(program) = Program::decode(alloc, &bytes) else {
        return 0;
    };
    let mut sum = 0u64;
    for _ in 0..rounds {
        if let Ok(flow) = check(alloc, &program) {
            sum = sum.wrapping_add(u64::from(flow.budget()));
        }
    }
    sum
}

/// `mov r2, 7` and `mov r3, 11`.
const OPERANDS: [u8; 16] = [0xb7, 2, 0, 0, 7, 0, 0, 0, 0xb7, 3, 0, 0, 11, 0, 0, 0];

/// `add r2, r3`, `mul r3, 5`, `xor r2, r3`, `rsh32 r3, 1`, `sub r2, r3`, `or r3, r2`: in each round other
/// words.
const OPERATIONS: [[u8; 8]; 6] = [
    [0x0f, 0x32, 0, 0, 0, 0, 0, 0],
    [0x27, 3, 0, 0, 5, 0, 0, 0],
    [0xaf, 0x32, 0, 0, 0, 0, 0, 0],
    [0x74, 3, 0, 0, 1, 0, 0, 0],
    [0x1f, 0x32, 0, 0, 0, 0, 0, 0],
    [0x4f, 0x23, 0, 0, 0, 0, 0, 0],
];

/// The bytes of a program of so many slots, from 4 on: operations on registers, and at the end a move
/// and an exit.
pub(crate) fn computing(alloc: Global, slots: u32) -> Result<Vec<u8>, AllocError> {
    let mut bytes = Vec::from_slice(alloc, &OPERANDS)?;
    let mut next = 0usize;
    for _ in 4..slots {
        bytes.extend_from_slice(&OPERATIONS[next % 6])?;
        next = next.wrapping_add(1);
    }
    bytes.extend_from_slice(&MOVE)?;
    bytes.extend_from_slice(&EXIT)?;
    Ok(bytes)
}

/// Runs a program of so many slots, from 4 to 4,096, so many times, and answers the sum of the steps:
/// as many as there are slots in each round, all but one of them arithmetic. It is 0 where memory ran
/// out.
#[unsafe(no_mangle)]
pub extern "C" fn bench_exports_steps(alloc: Global, slots: u32, rounds: u32) -> u64 {
    let Ok(bytes) = computing(alloc, slots) else {
        return 0;
    };
    let Ok(program) = verify(alloc, &bytes, Layout::One) else {
        return 0;
    };
    let Some(outcome) = response(200) else {
        return 0;
    };
    let mut sum = 0u64;
    for _ in 0..rounds {
        let (_, steps) = run(&program, &outcome);
        sum = sum.wrapping_add(u64::from(steps));
    }
    sum
}
