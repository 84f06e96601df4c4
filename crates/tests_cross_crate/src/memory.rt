//! Programs with pointers, the stack and helper functions, run by both machines.
use crate::checks::same_at;
use crate::programs::{answered, ends, patterned};
use crate::told::assembled;
use bpf_profile::Layout;
use helpers::Record;
use std::alloc::Global;
use std::process::Abort;

/// Checks that both machines end a program in assembler text with this answer, 0 or 1, after so many
/// instructions.
fn both_answer(
    rt: &impl Abort,
    alloc: Global,
    text: &str,
    outcome: &Record,
    answer: bool,
    steps: u32,
) {
    let program = assembled(rt, alloc, text);
    let found = ends(rt, alloc, &program, Layout::One, outcome, steps);
    same_at(rt, found, answered(answer, steps), &text);
}

/// Lines, and what comes behind them.
fn followed(rt: &impl Abort, alloc: Global, first: &str, end: &str) -> String {
    format!(in alloc; "{first}{end}").expect(rt, "ample memory")
}

/// Answers 1 where R1 and R2 are the same word, else 0: four instructions.
const COMPARE: &str = "\nmov r0, 0\njne r1, r2, +1\nmov r0, 1\nexit\n";

/// The same once R2 is one more. Where R1 and R2 then differ, this is four instructions, too.
const COMPARE_NEXT: &str = "\nadd r2, 1\nmov r0, 0\njne r1, r2, +1\nmov r0, 1\nexit\n";

/// Checks that after the first lines R1 and R2 are the same word, and differ once R2 is one more.
pub(crate) fn both_same(rt: &impl Abort, alloc: Global, first: &str, steps: u16, outcome: &Record) {
    let steps = u32::from(steps) + 4;
    let same = followed(rt, alloc, first, COMPARE);
    both_answer(rt, alloc, &same, outcome, true, steps);
    let other = followed(rt, alloc, first, COMPARE_NEXT);
    both_answer(rt, alloc, &other, outcome, false, steps);
}

/// First lines that make R1 and R2 the same word, and how many instructions they are.
type Same = (&'static str, u16);

/// Checks that after each of these lines R1 and R2 are the same word.
fn are_same(rt: &impl Abort, alloc: Global, outcome: &Record, rows: &[Same]) {
    for row in rows {
        let (first, steps) = *row;
        both_same(rt, alloc, first, steps, outcome);
    }
}

/// In the context byte i is 37 times i, modulo 256.
#[test]
fn pointers_move(rt: HostRuntime) {
    are_same(
        &rt,
        rt.alloc(),
        &patterned(&rt),
        &[
            ("add r1, 8\nsub r1, 4\nldxb r1, [r1+0]\nmov r2, 148", 4),
            ("mov r3, 8\nadd r3, r1\nldxb r1, [r3+0]\nmov r2, 40", 4),
            (
                "ldxb r3, [r1+1]\nand r3, 7\nadd r1, r3\nldxb r1, [r1+0]\nmov r2, 185",
                5,
            ),
            (
                "ldxb r3, [r1+1]\nand r3, 7\nadd r1, 127\nsub r1, r3\nldxb r1, [r1+0]\nmov r2, 162",
                6,
            ),
            (
                "mov r3, r10\nadd r3, -512\nstb [r3+0], 9\nldxb r1, [r10-512]\nmov r2, 9",
                5,
            ),
        ],
    );
}

#[test]
fn bytes_are_stored_and_loaded(rt: HostRuntime) {
    are_same(
        &rt,
        rt.alloc(),
        &patterned(&rt),
        &[
            (
                "stdw [r10-8], -1\nstb [r10-5], 0\nldxdw r1, [r10-8]\nlddw r2, 0xffffffff00ffffff",
                4,
            ),
            (
                "stdw [r10-8], 0\nsth [r10-6], 0x1234\nldxw r1, [r10-8]\nmov r2, 0x12340000",
                4,
            ),
            ("sth [r10-2], 0x1234\nldxb r1, [r10-2]\nmov r2, 0x34", 3),
            ("stb [r10-1], 0x80\nldxsb r1, [r10-1]\nmov r2, -128", 3),
            ("stw [r10-4], -2\nldxsw r1, [r10-4]\nmov r2, -2", 3),
            (
                "lddw r3, 0x0123456789abcdef\nstxdw [r10-16], r3\nldxw r1, [r10-12]\nmov r2, 0x01234567",
                4,
            ),
            (
                "mov r1, r10\nadd r1, -16\nstxdw [r10-8], r1\nstw [r10-16], 7\nldxdw r3, [r10-8]\nldxw r1, [r3+0]\nmov r2, 7",
                7,
            ),
            (
                "stxdw [r10-8], r1\nldxdw r3, [r10-8]\nldxb r1, [r3+3]\nmov r2, 111",
                4,
            ),
        ],
    );
}

/// The outcome with the tag `pay`, whose sixth byte of the front is 249, and whose last fact is -2.
fn of_helpers(rt: &impl Abort) -> Record {
    let mut context = [0u8; 128];
    context[69] = 249;
    let mut facts = [0u64; 16];
    facts[15] = 0xffff_ffff_ffff_fffe;
    Record::from_layout1(context, facts, b"pay").expect(rt, "a short tag")
}

#[test]
fn helpers_are_called(rt: HostRuntime) {
    are_same(
        &rt,
        rt.alloc(),
        &of_helpers(&rt),
        &[
            ("mov r1, 5\ncall 2\nmov r1, r0\nmov r2, 249", 4),
            ("mov r1, 15\ncall 1\nmov r1, r0\nmov r2, -2", 4),
            (
                "mov r1, r10\nadd r1, -8\nmov r2, 8\ncall 3\nmov r1, r0\nmov r2, 3",
                6,
            ),
            (
                "mov r1, r10\nadd r1, -8\nmov r2, 8\ncall 3\nldxdw r1, [r10-8]\nmov r2, 0x796170",
                6,
            ),
            (
                "stb [r10-2], 112\nstb [r10-1], 97\nmov r1, r10\nadd r1, -2\nmov r2, 2\ncall 4\nmov r1, r0\nmov r2, 1",
                8,
            ),
            (
                "sth [r10-2], 0\nmov r1, r10\nadd r1, -2\nmov r2, 2\ncall 4\nmov r1, r0\nmov r2, 0",
                7,
            ),
            ("mov r6, 42\nmov r1, 0\ncall 1\nmov r1, r6\nmov r2, 42", 5),
        ],
    );
}
