//! Assembler text and its program.
use bpf_asm::assemble;
use std::alloc::{AllocError, Global};

/// What stands in front: the duration of the call.
const FIRST: &str = "ldxdw r2, [r1+8]\n";

/// Lines of the forms that classifiers are written in.
const LINES: [&str; 6] = [
    "ldxw r3, [r1+4]\n",
    "jge r3, 500, +0 ; a server error\n",
    "add r2, r3\n",
    "\tMOV32 R4, 0xffff\n",
    "jlt32 r2, r4, 0\n",
    "rsh r2, 1\n",
];

/// What stands behind.
const LAST: &str = "mov r0, 0\nexit\n";

/// Assembler text of so many lines, from 3 on, each with an instruction.
fn text_of(alloc: Global, lines: u32) -> Result<String, AllocError> {
    let mut text = String::from_str(alloc, FIRST)?;
    let mut next = 0usize;
    for _ in 3..lines {
        text.push_str(LINES[next % 6])?;
        next = next.wrapping_add(1);
    }
    text.push_str(LAST)?;
    Ok(text)
}

/// Assembles a text of so many lines, from 3 to 4,096, so many times, and answers the sum of the slots:
/// as many as there are lines in each round. It is 0 where memory ran out.
#[unsafe(no_mangle)]
pub extern "C" fn bench_exports_assemble(alloc: Global, lines: u32, rounds: u32) -> u64 {
    let Ok(text) = text_of(alloc, lines) else {
        return 0;
    };
    let mut sum = 0u64;
    for _ in 0..rounds {
        if let Ok(program) = assemble(alloc, &text) {
            sum = sum.wrapping_add(program.len() as u64);
        }
    }
    sum
}
