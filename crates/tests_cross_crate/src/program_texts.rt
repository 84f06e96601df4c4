//! The longest program, as bytes and as assembler text.
use crate::checks::{is_true, same, same_at};
use crate::told::{assembled, bytes_of, is_verified, judged, refused_text};
use std::alloc::Global;
use std::process::Abort;

/// Checks that assembler text is refused with this line.
fn is_refused(rt: &impl Abort, alloc: Global, text: &str, printed: &str) {
    let line = refused_text(rt, alloc, text);
    same_at(rt, line.as_str(), printed, &text);
}

/// A first text, so many times a second one, and a last one.
fn repeated(
    rt: &impl Abort,
    alloc: Global,
    first: &str,
    second: &str,
    times: usize,
    last: &str,
) -> String {
    let mut text = String::new(alloc);
    text.push_str(first).expect(rt, "ample memory");
    for _ in 0..times {
        text.push_str(second).expect(rt, "ample memory");
    }
    text.push_str(last).expect(rt, "ample memory");
    text
}

/// The text of a constant, so many comparisons that lead to the next slot either way, and an exit.
fn comparing(rt: &impl Abort, alloc: Global, times: usize) -> String {
    let compare = "jeq r0, 0, +0\n";
    repeated(rt, alloc, "mov r0, 0\n", compare, times, "exit\n")
}

/// The bytes of the same program.
fn comparing_bytes(rt: &impl Abort, alloc: Global, times: usize) -> Vec<u8> {
    let (first, compare) = ("b700000000000000", "1500000000000000");
    let text = repeated(rt, alloc, first, compare, times, "9500000000000000");
    bytes_of(rt, alloc, &text)
}

#[test]
fn the_longest_program_is_assembled_and_judges(rt: HostRuntime) {
    let rt = &rt;
    let alloc = rt.alloc();
    let program = comparing_bytes(rt, alloc, 4094);
    let text = comparing(rt, alloc, 4094);
    is_true(rt, assembled(rt, alloc, &text) == program);
    is_verified(rt, alloc, &program, "accepted budget=4096 slots=4096\n");
    let line = judged(rt, alloc, &program, "{}");
    same(rt, line.as_str(), "success steps=4096 budget=4096\n");
    let longer = comparing(rt, alloc, 4095);
    is_refused(rt, alloc, &longer, "refused 44 BadLength line 4097\n");
    let longer = comparing_bytes(rt, alloc, 4095);
    is_verified(rt, alloc, &longer, "refused 1 Length slot 0\n");
}
