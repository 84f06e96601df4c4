//! Programs of three forms, and what verifying them takes.
use crate::{BRANCH_BY_0, EXIT, MOVE, branching, computing};
use bpf_profile::Layout;
use std::alloc::{AllocError, Global};
use verifier::{default_classifier, verify};

/// `jeq r0, 0`, without its offset.
const BRANCH: [u8; 2] = [0x15, 0];

/// The bytes of a program of so many slots, from 4 on and even, of which half are awaited at once: a move,
/// comparisons that each lead to the next slot and to one of their own in the other half, and an exit.
fn widest(alloc: Global, slots: u32) -> Result<Vec<u8>, AllocError> {
    let branches = slots.saturating_sub(2) / 2;
    let [low, high, ..] = branches.saturating_sub(1).to_le_bytes();
    let mut bytes = Vec::from_slice(alloc, &MOVE)?;
    for _ in 0..branches {
        bytes.extend_from_slice(&BRANCH)?;
        bytes.extend_from_slice(&[low, high, 0, 0, 0, 0])?;
    }
    for _ in 0..branches {
        bytes.extend_from_slice(&BRANCH_BY_0)?;
    }
    bytes.extend_from_slice(&EXIT)?;
    Ok(bytes)
}

/// Verifies the bytes of a program of so many slots, from 4 to 4,096, so many times, and answers the
/// sum of the budgets: as many as there are slots in each round. The form 0 is straight code, 1 a ladder
/// of branches, of which each leads to the next slot and the one after it, and any other form, which
/// wants an even number of slots, has half of its slots awaited at once. It is 0 where memory ran out.
#[unsafe(no_mangle)]
pub extern "C" fn bench_exports_verify(alloc: Global, form: u8, slots: u32, rounds: u32) -> u64 {
    let made = match form {
        0 => computing(alloc, slots),
        1 => branching(alloc, slots),
        _ => widest(alloc, slots),
    };
    let Ok(bytes) = made else {
        return 0;
    };
    let mut sum = 0u64;
    for _ in 0..rounds {
        if let Ok(program) = verify(alloc, &bytes, Layout::One) {
            sum = sum.wrapping_add(u64::from(program.budget()));
        }
    }
    sum
}

/// Verifies the default classifier so many times, and answers the sum of the budgets: 6 in each round. It
/// is 0 where memory ran out.
#[unsafe(no_mangle)]
pub extern "C" fn bench_exports_default_classifier(alloc: Global, rounds: u32) -> u64 {
    let mut sum = 0u64;
    for _ in 0..rounds {
        if let Ok(program) = default_classifier(alloc) {
            sum = sum.wrapping_add(u64::from(program.budget()));
        }
    }
    sum
}
