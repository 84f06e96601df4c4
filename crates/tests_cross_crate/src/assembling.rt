//! Programs from their text and back, and the faults of texts that are no program.
use crate::checks::{is_printed, same, same_at};
use crate::told::assembled;
use bpf_asm::*;
use bpf_decode::Program;
use refusals::RefusalNumber;
use std::alloc::Global;
use std::process::Abort;
use std::test::*;

/// The default classifier: a response with a status from 500 on fails, and each outcome that is no
/// response.
const CLASSIFIER: [u8; 64] = [
    0x61, 0x12, 0, 0, 0, 0, 0, 0, 0x55, 0x02, 0x04, 0, 0, 0, 0, 0, 0x61, 0x12, 0x04, 0, 0, 0, 0, 0,
    0x35, 0x02, 0x02, 0, 0xf4, 0x01, 0, 0, 0xb7, 0, 0, 0, 0, 0, 0, 0, 0x95, 0, 0, 0, 0, 0, 0, 0,
    0xb7, 0, 0, 0, 1, 0, 0, 0, 0x95, 0, 0, 0, 0, 0, 0, 0,
];

const CLASSIFIER_LINES: &str = "ldxw r2, [r1+0]
jne r2, 0, +4
ldxw r2, [r1+4]
jge r2, 500, +2
mov r0, 0
exit
mov r0, 1
exit
";

/// The line and the kind of the text's first fault.
fn fault(alloc: Global, text: &str) -> Option<(usize, RefusalNumber)> {
    match assemble(alloc, text) {
        Ok(_) => None,
        Err(e) => Some((e.line, e.kind)),
    }
}

/// The same line so many times.
fn repeated(rt: &impl Abort, alloc: Global, line: &str, count: usize) -> String {
    let mut text = String::new(alloc);
    for _ in 0..count {
        text.push_str(line).expect(rt, "ample memory");
    }
    text
}

/// The text of the program that has these bytes.
fn disassembled(rt: &impl Abort, alloc: Global, bytes: &[u8]) -> String {
    let program = Program::decode(alloc, bytes).expect(rt, "the bytes of a program");
    disassemble(alloc, &program).expect(rt, "ample memory")
}

#[test]
fn the_default_classifier(rt: HostRuntime) {
    let rt = &rt;
    let text = disassembled(rt, rt.alloc(), &CLASSIFIER);
    same(rt, text.as_str(), CLASSIFIER_LINES);
    let bytes = assembled(rt, rt.alloc(), CLASSIFIER_LINES);
    same(rt, bytes.as_slice(), CLASSIFIER.as_slice());
}

/// The lines that a text is written as, once it is read.
fn rewritten(rt: &impl Abort, alloc: Global, text: &str) -> String {
    let program = assemble(alloc, text).expect(rt, "the text of a program");
    disassemble(alloc, &program).expect(rt, "ample memory")
}

/// Checks what texts are written as. Each row is a text and its lines.
fn are_rewritten(rt: &impl Abort, alloc: Global, rows: &[(&str, &str)]) {
    for row in rows {
        let (text, lines) = *row;
        same_at(rt, rewritten(rt, alloc, text).as_str(), lines, &text);
    }
}

#[test]
fn lenient_forms(rt: HostRuntime) {
    are_rewritten(
        &rt,
        rt.alloc(),
        &[
            ("\tMOV\tR0 ,\t0X1F  ; a comment\r\n", "mov r0, 31\n"),
            ("exit\r", "exit\n"),
            ("; nothing\n\n \t\r\nexit;; r0\n\n", "exit\n"),
            ("ldxdw r1,[ r2 + 0x10 ]", "ldxdw r1, [r2+16]\n"),
            ("stxb [r10 -0x8],r1", "stxb [r10-8], r1\n"),
            ("ldxb r1, [r2 7]", "ldxb r1, [r2+7]\n"),
            ("ja 3\nja32 4", "ja +3\nja32 +4\n"),
            ("jset32 r1, 0xffffffff, 0x10", "jset32 r1, -1, +16\n"),
            ("mov r0, 4294967295", "mov r0, -1\n"),
            ("mov r0, 2147483648", "mov r0, -2147483648\n"),
            ("mov r0, -0x80000000", "mov r0, -2147483648\n"),
            ("mov r0, 007", "mov r0, 7\n"),
            ("stw [r10-8], 4294967290", "stw [r10-8], -6\n"),
            (
                "lddw r1, -9223372036854775808",
                "lddw r1, 9223372036854775808\n",
            ),
            (
                "lddw r1, 18446744073709551615",
                "lddw r1, 18446744073709551615\n",
            ),
            ("lddw r1, -1", "lddw r1, 18446744073709551615\n"),
            ("lddw r1, -0x1", "lddw r1, 18446744073709551615\n"),
            ("call 0xFFFFFFFF", "call 4294967295\n"),
        ],
    );
}

/// Checks in which line each text has a fault of this kind.
fn are_faulty(rt: &impl Abort, alloc: Global, kind: RefusalNumber, rows: &[(&str, usize)]) {
    for row in rows {
        let (text, line) = *row;
        same_at(rt, fault(alloc, text), Some((line, kind)), &text);
    }
}

/// So many lines with an exit each, and what comes behind them.
fn exits(rt: &impl Abort, alloc: Global, count: usize, end: &str) -> String {
    let mut text = repeated(rt, alloc, "exit\n", count);
    text.push_str(end).expect(rt, "ample memory");
    text
}

/// A number of exits, what comes behind them, and the line from which on these are too many slots.
type Long = (usize, &'static str, usize);

/// Checks that texts are too long.
fn are_too_long(rt: &impl Abort, alloc: Global, rows: &[Long]) {
    for row in rows {
        let (count, end, line) = *row;
        let found = fault(alloc, &exits(rt, alloc, count, end));
        same_at(rt, found, Some((line, RefusalNumber::BadTextLength)), row);
    }
}

/// Checks that a text is that of a program of so many slots, and is written as these lines.
fn has_slots(rt: &impl Abort, alloc: Global, text: &str, slots: usize, lines: &str) {
    let program = assemble(alloc, text).expect(rt, "the text of a program");
    same_at(rt, program.len(), slots, &text);
    let found = disassemble(alloc, &program).expect(rt, "ample memory");
    same_at(rt, found.as_str(), lines, &text);
}

#[test]
fn texts_of_no_program(rt: HostRuntime) {
    let rt = &rt;
    let alloc = rt.alloc();
    let kind = RefusalNumber::BadTextLength;
    are_faulty(rt, alloc, kind, &[("", 0), ("\n ; exit\n", 0)]);
    let most = assemble(alloc, &exits(rt, alloc, 4096, "; done"));
    same(rt, most.expect(rt, "4,096 slots").len(), 4096);
    let rows = &[(4097, "mvo", 4097), (4095, "lddw r0, 1", 4096)];
    are_too_long(rt, alloc, rows);
}

/// Checks that texts of so many times this line are programs of as many slots, and come back.
fn are_written_alike(rt: &impl Abort, alloc: Global, line: &str, counts: &[usize]) {
    for count in counts {
        let text = repeated(rt, alloc, line, *count);
        has_slots(rt, alloc, &text, *count, &text);
    }
}

/// Numbers of lines: each power of two up to the most, one less and one more.
const COUNTS: [usize; 34] = [
    1, 2, 3, 4, 5, 7, 8, 9, 15, 16, 17, 31, 32, 33, 63, 64, 65, 127, 128, 129, 255, 256, 257, 511,
    512, 513, 1023, 1024, 1025, 2047, 2048, 2049, 4095, 4096,
];

#[test]
fn texts_of_many_lines(rt: HostRuntime) {
    are_written_alike(&rt, rt.alloc(), "exit\n", &COUNTS);
}

#[test]
fn texts_of_each_length(rt: HostRuntime) {
    let rt = &rt;
    let alloc = rt.alloc();
    let mut text = String::from_str(alloc, "exit").expect(rt, "ample memory");
    for length in 5usize..300 {
        text.push(' ').expect(rt, "ample memory");
        same(rt, text.len(), length);
        has_slots(rt, alloc, &text, 1, "exit\n");
    }
}

/// The longest lines that are written, 30 bytes each.
#[test]
fn texts_of_long_lines(rt: HostRuntime) {
    let line = "jslt32 r7, -2147483648, -32768\n";
    are_written_alike(&rt, rt.alloc(), line, &[1, 2, 3, 41, 64, 1000, 4096]);
}

/// A line, the kind of its fault, and the error's text.
type Printed = (usize, RefusalNumber, &'static str);

/// Checks what errors are printed as.
fn are_printed(rt: &impl Abort, alloc: Global, rows: &[Printed]) {
    for row in rows {
        let (line, kind, text) = *row;
        is_printed(rt, alloc, &AsmError { line, kind }, text);
    }
}

#[test]
fn texts_of_errors(rt: HostRuntime) {
    are_printed(
        &rt,
        rt.alloc(),
        &[
            (
                2,
                RefusalNumber::UnknownWord,
                "refused 41 UnknownWord line 2",
            ),
            (
                10,
                RefusalNumber::BadOperand,
                "refused 42 BadOperand line 10",
            ),
            (
                4096,
                RefusalNumber::BadNumber,
                "refused 43 BadNumber line 4096",
            ),
            (
                0,
                RefusalNumber::BadTextLength,
                "refused 44 BadLength line 0",
            ),
            (
                0,
                RefusalNumber::AssemblerOutOfMemory,
                "refused 45 OutOfMemory",
            ),
        ],
    );
}
