//! What single instructions and helper functions do to registers and memory, and that they do no more:
//! programs in assembler text, run by both machines.
ghost use Rattle.std.specs.Prelude.{◌<◌};

use crate::checks::same;
use crate::memory::both_same;
use bpf_profile::{Extension, Size};
use bpf_words::extended;
use helpers::Record;
use std::alloc::Global;
use std::process::Abort;

/// The record with this tag. Its context has the bytes 1 to 128, and its last fact is not 0.
fn outcome(rt: &impl Abort, tag: &[u8]) -> Record {
    let mut context = [0u8; 128];
    for i in 0..128 {
        context[i] = i as u8 + 1;
    }
    let mut facts = [0; 16];
    facts[15] = 0xfedcba9876543210;
    Record::from_layout1(context, facts, tag).expect(rt, "a short tag")
}

/// Marks the bytes 248 to 225 before the stack's end, and puts a number into R3: five instructions.
const MARKED: &str = "\
lddw r3, 0xeeeeeeeeeeeeeeee
stxdw [r10-248], r3
stxdw [r10-240], r3
stxdw [r10-232], r3
lddw r3, 0x8182838485868788";

/// A store, a load, and the number that the load gives.
type Stored = (&'static str, &'static str, &'static str);

/// Checks what loads give after stores 240 bytes before the stack's end.
fn are_stored(rt: &impl Abort, alloc: Global, rows: &[Stored]) {
    let outcome = outcome(rt, &[]);
    for row in rows {
        let (store, load, word) = *row;
        let first = format!(in alloc;
            "{MARKED}\n{store} [r10-240], r3\n{load}\nlddw r2, {word}"
        ).expect(rt, "ample memory");
        both_same(rt, alloc, &first, 8, &outcome);
    }
}

/// A store of each size 240 bytes before the stack's end, a load of what it wrote or of the byte on either
/// side, and the number that it gives.
#[test]
fn every_size_is_stored_and_loaded(rt: HostRuntime) {
    are_stored(
        &rt,
        rt.alloc(),
        &[
            ("stxb", "ldxb r1, [r10-240]", "0x88"),
            ("stxb", "ldxsb r1, [r10-240]", "0xffffffffffffff88"),
            ("stxb", "ldxb r1, [r10-241]", "0xee"),
            ("stxb", "ldxb r1, [r10-239]", "0xee"),
            ("stxh", "ldxh r1, [r10-240]", "0x8788"),
            ("stxh", "ldxsh r1, [r10-240]", "0xffffffffffff8788"),
            ("stxh", "ldxb r1, [r10-241]", "0xee"),
            ("stxh", "ldxb r1, [r10-238]", "0xee"),
            ("stxw", "ldxw r1, [r10-240]", "0x85868788"),
            ("stxw", "ldxsw r1, [r10-240]", "0xffffffff85868788"),
            ("stxw", "ldxb r1, [r10-241]", "0xee"),
            ("stxw", "ldxb r1, [r10-236]", "0xee"),
            ("stxdw", "ldxdw r1, [r10-240]", "0x8182838485868788"),
            ("stxdw", "ldxb r1, [r10-241]", "0xee"),
            ("stxdw", "ldxb r1, [r10-232]", "0xee"),
        ],
    );
    // No instruction loads eight bytes with their sign. Their sign changes nothing.
    let whole = extended(Extension::Sign, Size::DoubleWord, 0x8182838485868788);
    same(&rt, whole, 0x8182838485868788);
}

/// Checks that each of these programs, which begin with the same lines, makes R1 and R2 the same word, where
/// `steps` counts those lines, and each end has two more.
fn each_is_same(
    rt: &impl Abort,
    alloc: Global,
    first: &str,
    steps: u16,
    outcome: &Record,
    ends: &[&str],
)
    requires { steps < 1000 }
{
    for end in ends {
        let text = lines(rt, alloc, first, *end);
        both_same(rt, alloc, &text, steps + 2, outcome);
    }
}

/// Lines and more lines.
fn lines(rt: &impl Abort, alloc: Global, first: &str, second: &str) -> String {
    format!(in alloc; "{first}\n{second}").expect(rt, "ample memory")
}

/// Numbers in all registers but R1, R2 and R10, and a mark on the bytes 16 to 9 before the stack's end:
/// ten instructions.
const NUMBERED: &str = "\
lddw r3, 0xeeeeeeeeeeeeeeee
stxdw [r10-16], r3
mov r0, 30
mov r3, 33
mov r4, 34
mov r5, 35
mov r6, 36
mov r7, 37
mov r8, 38
mov r9, 39";

/// That no register has changed but R1, R2 and R10.
const NUMBERS_STAY: [&str; 8] = [
    "mov r1, r0\nmov r2, 30",
    "mov r1, r3\nmov r2, 33",
    "mov r1, r4\nmov r2, 34",
    "mov r1, r5\nmov r2, 35",
    "mov r1, r6\nmov r2, 36",
    "mov r1, r7\nmov r2, 37",
    "mov r1, r8\nmov r2, 38",
    "mov r1, r9\nmov r2, 39",
];

/// Checks that behind lines of so many instructions no number of these registers has changed, and that these
/// ends make R1 and R2 the same word.
fn numbers_stay(rt: &impl Abort, alloc: Global, first: &str, steps: u16, ends: &[&str])
    requires { steps < 1000 }
{
    let outcome = outcome(rt, &[]);
    let first = lines(rt, alloc, NUMBERED, first);
    each_is_same(rt, alloc, &first, steps, &outcome, &NUMBERS_STAY);
    each_is_same(rt, alloc, &first, steps, &outcome, ends);
}

#[test]
fn a_pointer_is_stored_and_loaded(rt: HostRuntime) {
    numbers_stay(
        &rt,
        rt.alloc(),
        "stxdw [r10-8], r10\nldxdw r2, [r10-8]",
        12,
        &[
            // R2 is the end of the stack, and so is R10.
            "ldxb r1, [r2-9]\nmov r2, 0xee",
            "ldxb r1, [r10-9]\nmov r2, 0xee",
            // R1 is the context.
            "ldxb r1, [r1+0]\nmov r2, 1",
        ],
    );
    // What is stored through R2 is loaded through R10.
    numbers_stay(
        &rt,
        rt.alloc(),
        "stxdw [r10-8], r10\nldxdw r2, [r10-8]\nstb [r2-16], 7",
        13,
        &[
            "ldxb r1, [r10-16]\nmov r2, 7",
            "ldxb r1, [r10-15]\nmov r2, 0xee",
        ],
    );
}

#[test]
fn the_context_is_loaded(rt: HostRuntime) {
    let loaded = "ldxsw r1, [r1+124]\nlddw r2, 0xffffffff807f7e7d";
    both_same(&rt, rt.alloc(), loaded, 2, &outcome(&rt, &[]));
    let ends = &["ldxb r1, [r10-9]\nmov r2, 0xee"];
    numbers_stay(&rt, rt.alloc(), "ldxsw r1, [r1+124]", 11, ends);
}

#[test]
fn pointers_are_computed_with(rt: HostRuntime) {
    numbers_stay(
        &rt,
        rt.alloc(),
        "stb [r10-16], 7\nmov r2, r10\nsub r2, 16\nmov r1, 0\nadd r1, r2",
        15,
        &[
            "ldxb r1, [r1+0]\nmov r2, 7",
            "ldxb r1, [r1+1]\nmov r2, 0xee",
            "ldxb r1, [r2+0]\nmov r2, 7",
            "ldxb r1, [r2+1]\nmov r2, 0xee",
            "ldxb r1, [r10-16]\nmov r2, 7",
        ],
    );
}

/// Numbers in the registers that calls keep, and a mark on the last 16 bytes of the stack: seven
/// instructions.
const KEPT: &str = "\
mov r6, 4
mov r7, 3
mov r8, 2
mov r9, 1
lddw r3, 0xeeeeeeeeeeeeeeee
stxdw [r10-16], r3
stxdw [r10-8], r3";

/// That the registers that calls keep have not changed.
const KEPT_STAY: [&str; 4] = [
    "mov r1, r6\nmov r2, 4",
    "mov r1, r7\nmov r2, 3",
    "mov r1, r8\nmov r2, 2",
    "mov r1, r9\nmov r2, 1",
];

/// Checks that behind a call of so many instructions no register that calls keep has changed, and that these
/// ends make R1 and R2 the same word.
fn kept_stay(
    rt: &impl Abort,
    alloc: Global,
    call: &str,
    steps: u16,
    outcome: &Record,
    ends: &[&str],
)
    requires { steps < 1000 }
{
    let first = lines(rt, alloc, KEPT, call);
    each_is_same(rt, alloc, &first, steps, outcome, ends);
    each_is_same(rt, alloc, &first, steps, outcome, &KEPT_STAY);
}

/// Adds text.
fn push(rt: &impl Abort, text: &mut String, more: &str) {
    text.push_str(more).expect(rt, "ample memory");
}

/// Adds lines for each cell from the first to the end, with its place in bytes between the two texts.
fn push_cells(rt: &impl Abort, text: &mut String, first: u64, end: u64, before: &str, after: &str)
    requires { end < 1000 }
{
    for cell in first..end {
        let place = 8 * cell;
        write!(text, "{before}{place}{after}").expect(rt, "ample memory");
    }
}

/// After the first lines R1 has the bits in which any byte of the stack or of the context has changed, and
/// R2 is 0.
fn memory_stays(rt: &impl Abort, alloc: Global, call: &str, outcome: &Record) {
    let mut text = lines(rt, alloc, "mov r7, r1", "lddw r6, 0xeeeeeeeeeeeeeeee\n");
    push_cells(rt, &mut text, 1, 65, "stxdw [r10-", "], r6\n");
    push(rt, &mut text, call);
    push(rt, &mut text, "\nmov r1, 0\n");
    let changes = "]\nxor r4, r6\nor r1, r4\n";
    push_cells(rt, &mut text, 1, 65, "ldxdw r4, [r10-", changes);
    // The context's first eight bytes, and how much each eight bytes are more than those before them.
    push(rt, &mut text, "lddw r2, 0x0807060504030201\n");
    push(rt, &mut text, "lddw r3, 0x0808080808080808\n");
    let changes = "]\nxor r4, r2\nor r1, r4\nadd r2, r3\n";
    push_cells(rt, &mut text, 0, 16, "ldxdw r4, [r7+", changes);
    push(rt, &mut text, "mov r2, 0");
    both_same(rt, alloc, &text, 328, outcome);
}

/// Checks what a call answers, and that it changes no memory and no register that calls keep.
fn answers(rt: &impl Abort, alloc: Global, call: &str, answer: &str) {
    let outcome = outcome(rt, &[]);
    let end = lines(rt, alloc, "mov r1, r0", answer);
    kept_stay(rt, alloc, call, 9, &outcome, &[end.as_str()]);
    memory_stays(rt, alloc, call, &outcome);
}

#[test]
fn facts_and_the_front_are_read(rt: HostRuntime) {
    let fact = "lddw r2, 0xfedcba9876543210";
    answers(&rt, rt.alloc(), "mov r1, 15\ncall 1", fact);
    answers(&rt, rt.alloc(), "mov r1, 63\ncall 2", "mov r2, 128");
}

#[test]
fn the_front_of_a_tag_is_copied(rt: HostRuntime) {
    kept_stay(
        &rt,
        rt.alloc(),
        "mov r1, r10\nadd r1, -8\nmov r2, 3\ncall 3",
        11,
        &outcome(&rt, &[0x61, 0x62]),
        &[
            "mov r1, r0\nmov r2, 2",
            "ldxb r1, [r10-9]\nmov r2, 0xee",
            "ldxdw r1, [r10-8]\nlddw r2, 0xeeeeeeeeee006261",
        ],
    );
}

/// Checks what a comparison of a tag with the bytes of `pay` answers.
fn compares(rt: &impl Abort, alloc: Global, tag: &[u8], answer: &str) {
    let call =
        "stb [r10-8], 0x70\nstb [r10-7], 0x61\nstb [r10-6], 0x79\nmov r1, r10\nadd r1, -8\nmov r2, 3\ncall 4";
    kept_stay(rt, alloc, call, 14, &outcome(rt, tag), &[answer]);
}

#[test]
fn the_start_of_a_tag_is_compared(rt: HostRuntime) {
    compares(&rt, rt.alloc(), b"pay", "mov r1, r0\nmov r2, 1");
    compares(&rt, rt.alloc(), b"pan", "mov r1, r0\nmov r2, 0");
    compares(&rt, rt.alloc(), b"p", "mov r1, r0\nmov r2, 0");
}
