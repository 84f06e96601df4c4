//! That a replay succeeds with ample memory, however long its input is.
use crate::checks::{is_printed, is_true, is_true_at, same, same_at};
use crate::inputs::{joined, repeated};
use counted_io::Counted;
use replay::{ReplayEnded, ReplayError, replay};
use std::alloc::Global;
use std::io;
use std::io::Write;
use std::process::Abort;

/// How a replay ends, and what it prints. No call of its reader or its writer fails.
fn replayed(rt: &impl Abort, alloc: Global, input: &[u8]) -> (ReplayEnded, Vec<u8>) {
    let mut reader = Counted::new(input);
    let mut out = Counted::new(Vec::new(alloc));
    let ended = replay(alloc, &mut reader, &mut out).expect(rt, "a replay that is done");
    same(rt, reader.failures(), 0);
    same(rt, out.failures(), 0);
    (ended, out.into_inner())
}

/// An input, how its replay ends, and what it prints.
type Replayed = (&'static str, ReplayEnded, &'static str);

/// Checks how replays end, and what they print.
fn are_replayed(rt: &impl Abort, alloc: Global, rows: &[Replayed]) {
    for row in rows {
        let (input, ended, printed) = *row;
        let (found, text) = replayed(rt, alloc, input.as_bytes());
        same(rt, found, ended);
        same(rt, text.as_slice(), printed.as_bytes());
    }
}

#[test]
fn events_are_answered(rt: HostRuntime) {
    are_replayed(
        &rt,
        rt.alloc(),
        &[
            ("", ReplayEnded::BadConfig, ""),
            ("{\"maxWaitDuration\":5}\n", ReplayEnded::BadConfig, ""),
            ("{}", ReplayEnded::Done, ""),
            (
                "{}\n{\"at\":1,\"do\":\"acquire\"}\n{\"at\":2,\"do\":\"report\",\"ticket\":1,\"outcome\":{\"kind\":\"timeout\"}}\n{}\n",
                ReplayEnded::Done,
                "200 {\"state\":\"CLOSED\",\"ticket\":1,\"version\":1}\n200 {\"fate\":\"recorded\",\"state\":\"CLOSED\",\"steps\":4,\"verdict\":\"failure\",\"version\":1}\n422 {\"error\":59,\"name\":\"BadField\"}\n",
            ),
            (
                "{}\n{\"at\":1,\"do\":\"acquire\"}\n{\"at\":2,\"do\":\"release\",\"ticket\":1}\n{\"at\":2,\"do\":\"install\",\"program\":\"b700000002000000 9500000000000000\"}\n{\"at\":2,\"do\":\"transition\",\"state\":\"OPEN\"}\n{\"at\":2,\"do\":\"reset\"}\n{\"at\":2,\"do\":\"cut\"}\n{\"at\":2,\"do\":\"install\",\"program\":\"95\"}\n",
                ReplayEnded::Done,
                "200 {\"state\":\"CLOSED\",\"ticket\":1,\"version\":1}\n200 {\"fate\":\"released\",\"state\":\"CLOSED\"}\n200 {\"budget\":2,\"version\":2}\n200 {\"period\":2,\"state\":\"OPEN\"}\n200 {\"period\":3,\"state\":\"CLOSED\"}\n200 {\"entries\":5}\n422 {\"error\":1,\"name\":\"Length\",\"slot\":0}\n",
            ),
        ],
    );
}

/// What is answered to an input, all of it.
fn answered(rt: &impl Abort, alloc: Global, input: &[u8]) -> Vec<u8> {
    let (ended, text) = replayed(rt, alloc, input);
    same(rt, ended, ReplayEnded::Done);
    text
}

const ACQUIRE: &[u8] = b"{\"at\":1,\"do\":\"acquire\"}\n";

const ACQUIRED: &[u8] = b"200 {\"state\":\"CLOSED\",\"ticket\":1,\"version\":1}\n";

/// Checks what is answered to an input.
fn is_answered(rt: &impl Abort, alloc: Global, input: &[u8], printed: &[u8]) {
    same(rt, answered(rt, alloc, input).as_slice(), printed);
}

#[test]
fn very_many_events_are_answered(rt: HostRuntime) {
    let rt = &rt;
    let alloc = rt.alloc();
    let events = repeated(rt, alloc, b"{\"at\":1,\"do\":\"frob\"}\n", 65_600);
    let input = joined(rt, alloc, &[b"{}\n", &events, ACQUIRE]);
    let refused = b"422 {\"error\":59,\"name\":\"BadField\"}\n";
    let refused = repeated(rt, alloc, refused, 65_600);
    let printed = joined(rt, alloc, &[&refused, ACQUIRED]);
    is_true(rt, answered(rt, alloc, &input) == printed);
}

/// Checks that so many blank lines are passed over.
fn blanks_are_passed_over(rt: &impl Abort, alloc: Global, times: usize) {
    let blanks = repeated(rt, alloc, b" \n\n", times);
    let input = joined(rt, alloc, &[b"{}\n", &blanks, ACQUIRE]);
    let found = answered(rt, alloc, &input);
    same_at(rt, found.as_slice(), ACQUIRED, &times);
}

#[test]
fn blank_lines_in_a_row_are_passed_over(rt: HostRuntime) {
    blanks_are_passed_over(&rt, rt.alloc(), 4);
    blanks_are_passed_over(&rt, rt.alloc(), 100);
    blanks_are_passed_over(&rt, rt.alloc(), 65_536);
}

/// Checks that a cut hands out so many entries.
fn is_cut(rt: &impl Abort, alloc: Global, count: usize) {
    let resets = repeated(rt, alloc, b"{\"at\":1,\"do\":\"reset\"}\n", count);
    let cut = b"{\"at\":1,\"do\":\"cut\"}\n";
    let input = joined(rt, alloc, &[b"{}\n", &resets, cut]);
    let printed = format!(in alloc; "\n200 {{\"entries\":{count}}}\n");
    let printed = printed.expect(rt, "ample memory");
    let text = answered(rt, alloc, &input);
    is_true_at(rt, text.ends_with(printed.as_bytes()), &count);
}

#[test]
fn journals_grow_to_any_power_of_two(rt: HostRuntime) {
    for power in 0..17u32 {
        is_cut(&rt, rt.alloc(), 1usize << power);
    }
}

/// Takes one byte at a time.
#[derive(Drop)]
struct Slow(Vec<u8>);

impl Write for Slow {
    fn write(&mut self, bytes: &[u8]) -> io::Result<usize> {
        let size = bytes.len().min(1);
        self.0.write(&bytes[..size])
    }

    fn flush(&mut self) -> io::Result<()> {
        Ok(())
    }
}

/// What is printed byte by byte.
fn slowly_answered(rt: &impl Abort, alloc: Global, input: &[u8]) -> Vec<u8> {
    let mut reader = Counted::new(input);
    let mut out = Counted::new(Slow(Vec::new(alloc)));
    let ended = replay(alloc, &mut reader, &mut out).expect(rt, "a replay that is done");
    same(rt, ended, ReplayEnded::Done);
    let Slow(text) = out.into_inner();
    text
}

#[test]
fn answers_go_out_byte_by_byte(rt: HostRuntime) {
    let rt = &rt;
    let alloc = rt.alloc();
    let input = joined(rt, alloc, &[b"{}\n", ACQUIRE, b"{}"]);
    let text = slowly_answered(rt, alloc, &input);
    is_true(rt, text.starts_with(ACQUIRED));
    same(rt, text, answered(rt, alloc, &input));
}

#[test]
fn long_lines_are_answered(rt: HostRuntime) {
    let rt = &rt;
    let alloc = rt.alloc();
    let letters = repeated(rt, alloc, b"x", 1 << 20);
    let event = b"{\"at\":1,\"do\":\"acquire\",\"note\":\"";
    let input = joined(rt, alloc, &[b"{}\n", event, &letters, b"\"}\n"]);
    is_answered(rt, alloc, &input, ACQUIRED);
    let blanks = repeated(rt, alloc, b" ", 1 << 20);
    let input = joined(rt, alloc, &[b"{", &blanks, b"}\n", ACQUIRE]);
    is_answered(rt, alloc, &input, ACQUIRED);
}

/// A thousand keys that no outcome has, with their values.
fn unknown_keys(rt: &impl Abort, alloc: Global) -> String {
    let mut keys = String::new(alloc);
    for key in 0..1000u32 {
        let pair = format!(in alloc; "\"key{key}\":{key},").expect(rt, "ample memory");
        keys.push_str(&pair).expect(rt, "ample memory");
    }
    keys
}

#[test]
fn outcomes_may_have_many_unknown_keys(rt: HostRuntime) {
    let rt = &rt;
    let alloc = rt.alloc();
    let report = b"{\"at\":1,\"do\":\"report\",\"ticket\":1,\"outcome\":{";
    let keys = unknown_keys(rt, alloc);
    let kind = b"\"kind\":\"timeout\"}}\n";
    let pieces: &[&[u8]] = &[b"{}\n", ACQUIRE, report, keys.as_bytes(), kind];
    let input = joined(rt, alloc, pieces);
    let recorded =
        b"200 {\"fate\":\"recorded\",\"state\":\"CLOSED\",\"steps\":4,\"verdict\":\"failure\",\"version\":1}\n";
    let printed = joined(rt, alloc, &[ACQUIRED, recorded]);
    is_true(rt, answered(rt, alloc, &input) == printed);
}

#[test]
fn failures_are_told_apart(rt: HostRuntime) {
    let mut reader = Counted::new(b"{}\n{}".as_slice());
    let mut room = [0; 3];
    let mut out = Counted::new(room.as_mut_slice());
    let found = replay(rt.alloc(), &mut reader, &mut out);
    same(&rt, found, Err(ReplayError::WriteFailed));
    same(&rt, reader.failures(), 0);
    same(&rt, out.failures(), 1);
}

/// Checks what errors are printed as.
fn are_printed(rt: &impl Abort, alloc: Global, rows: &[(ReplayError, &str)]) {
    for row in rows {
        let (error, text) = *row;
        is_printed(rt, alloc, &error, text);
    }
}

#[test]
fn texts_of_errors(rt: HostRuntime) {
    are_printed(
        &rt,
        rt.alloc(),
        &[
            (ReplayError::ReadFailed, "a read failed"),
            (ReplayError::WriteFailed, "a write failed"),
            (ReplayError::OutOfMemory, "out of memory"),
            (ReplayError::TooLong, "too many lines"),
        ],
    );
}
