//! Commands whose input is long or is read once, and those whose readers or writers fail.
use crate::checks::{is_printed, same_at};
use classifier_commands::CommandError;
use counted_io::Counted;
use sidecar_commands::Status;
use std::alloc::{AllocError, Global};
use std::io;
use std::io::{Read, Write};
use std::process::Abort;

const FAILURE: &str = "b7000000010000009500000000000000";

/// The status with which the program ends.
pub(crate) fn command<R: Read, O: Write, E: Write>(
    alloc: Global,
    words: &[&str],
    reader: &mut R,
    out: &mut O,
    err: &mut E,
) -> u8 {
    let mut reader = Counted::new(reader);
    let mut out = Counted::new(out);
    let mut err = Counted::new(err);
    sidecar_commands::command(alloc, words, &mut reader, &mut out, &mut err).code()
}

/// The status with which a command ends, what it prints, and what it says on standard error.
type Ending<'a> = (u8, &'a str, &'a str);

/// That the words end so on this input.
fn ends_telling(rt: &impl Abort, alloc: Global, words: &[&str], input: &[u8], ending: Ending<'_>) {
    let (status, printed, told) = ending;
    let mut reader = input;
    let mut out = Vec::new(alloc);
    let mut err = Vec::new(alloc);
    let found = command(alloc, words, &mut reader, &mut out, &mut err);
    same_at(rt, out.as_slice(), printed.as_bytes(), &words);
    same_at(rt, err.as_slice(), told.as_bytes(), &words);
    same_at(rt, found, status, &words);
}

/// That the words end so on this input, and say nothing on standard error.
pub(crate) fn ends(
    rt: &impl Abort,
    alloc: Global,
    words: &[&str],
    input: &[u8],
    status: u8,
    printed: &str,
) {
    ends_telling(rt, alloc, words, input, (status, printed, ""));
}

/// A reader that always fails.
#[derive(Drop)]
struct Broken;

impl Read for Broken {
    fn read(&mut self, _room: &mut [u8]) -> io::Result<usize> {
        Err(io::Error::from(io::ErrorKind::BrokenPipe))
    }
}

/// A writer that always fails.
#[derive(Drop)]
struct Full;

impl Write for Full {
    fn write(&mut self, _bytes: &[u8]) -> io::Result<usize> {
        Err(io::Error::from(io::ErrorKind::StorageFull))
    }

    fn flush(&mut self) -> io::Result<()> {
        Ok(())
    }
}

#[test]
fn long_input_is_refused(rt: HostRuntime) {
    let alloc = rt.alloc();
    let program: Result<String<Global>, AllocError> = "95"
        .chars()
        .cycle()
        .take(1 << 20)
        .collect(alloc);
    let program = program.expect(&rt, "ample memory");
    let refused = "refused 1 Length slot 0\n";
    let why = "the program has 524288 bytes\nrule: a program has 1 to 4096 slots of eight bytes\n";
    ends_telling(&rt, alloc, &["verify", &program], b"", (1, refused, why));
    let blanks = vec![in alloc; b' '; 10_000_000];
    let blanks = blanks.expect(&rt, "ample memory");
    let refused = "refused 58 BadJson\n";
    ends(&rt, alloc, &["judge", FAILURE], &blanks, 1, refused);
}

/// A command with a program ends so, whose input can't be read.
fn ends_unread(rt: &impl Abort, alloc: Global, words: &[&str], status: u8, printed: &str) {
    let mut out = Vec::new(alloc);
    let mut err = Vec::new(alloc);
    let found = command(alloc, words, &mut Broken, &mut out, &mut err);
    same_at(rt, out.as_slice(), printed.as_bytes(), &words);
    same_at(rt, err.as_slice(), b"", &words);
    same_at(rt, found, status, &words);
}

#[test]
fn refused_programs_come_before_input(rt: HostRuntime) {
    let alloc = rt.alloc();
    let accepted = "accepted budget=2 slots=2\n";
    ends_unread(&rt, alloc, &["verify", FAILURE], 0, accepted);
    ends_unread(&rt, alloc, &["judge", "9g"], 1, "refused 46 BadHex\n");
}

/// A command ends so where its output can't be written, and no error is printed.
fn ends_unwritten(rt: &impl Abort, alloc: Global, words: &[&str], input: &[u8], status: u8) {
    let mut reader = input;
    let mut err = Vec::new(alloc);
    let found = command(alloc, words, &mut reader, &mut Full, &mut err);
    same_at(rt, found, status, &words);
    same_at(rt, err.as_slice(), b"", &words);
}

/// A command ends with this status where its errors can't be written, and this is printed.
fn ends_untold(rt: &impl Abort, alloc: Global, words: &[&str], input: &[u8], ending: (u8, &str)) {
    let (status, printed) = ending;
    let mut reader = input;
    let mut out = Vec::new(alloc);
    let found = command(alloc, words, &mut reader, &mut out, &mut Full);
    same_at(rt, found, status, &words);
    same_at(rt, out.as_slice(), printed.as_bytes(), &words);
}

#[test]
fn failures_of_readers_and_writers_print_nothing(rt: HostRuntime) {
    let alloc = rt.alloc();
    ends_unread(&rt, alloc, &["judge", FAILURE], 1, "");
    ends_unwritten(&rt, alloc, &["judge", FAILURE], b"{}", 1);
    ends_untold(&rt, alloc, &["judge"], b"", (2, ""));
}

/// Where nothing can be written on standard error, nothing else changes.
#[test]
fn reasons_that_cannot_be_written_change_nothing(rt: HostRuntime) {
    let refused = "refused 12 UnsetRegister slot 0\n";
    ends_untold(
        &rt,
        rt.alloc(),
        &["verify", "9500000000000000"],
        b"",
        (1, refused),
    );
}

/// How the words end with a reader and writers that fail, and how many calls of each did.
fn fails(rt: &impl Abort, alloc: Global, words: &[&str], status: Status, failures: [u64; 3]) {
    let mut reader = Counted::new(Broken);
    let mut out = Counted::new(Full);
    let mut err = Counted::new(Full);
    let found = sidecar_commands::command(alloc, words, &mut reader, &mut out, &mut err);
    same_at(rt, found, status, &words);
    same_at(
        rt,
        [reader.failures(), out.failures(), err.failures()],
        failures,
        &words,
    );
}

/// Words, how they end with a reader and writers that fail, and how many calls of each did.
type Failed<'a> = (&'a [&'a str], Status, [u64; 3]);

/// How words end with a reader and writers that fail.
fn are_failed(rt: &impl Abort, alloc: Global, rows: &[Failed<'_>]) {
    for row in rows {
        let (words, status, failures) = *row;
        fails(rt, alloc, words, status, failures);
    }
}

#[test]
fn failures_are_told_apart(rt: HostRuntime) {
    are_failed(
        &rt,
        rt.alloc(),
        &[
            (&["judge", FAILURE], Status::ReadFailed, [1, 0, 0]),
            (&["replay"], Status::ReadFailed, [1, 0, 0]),
            (&["asm"], Status::ReadFailed, [1, 0, 0]),
            (&["judge", "zz"], Status::WriteFailed, [0, 1, 0]),
            (&["verify", FAILURE], Status::WriteFailed, [0, 1, 0]),
            (&["dis", FAILURE], Status::WriteFailed, [0, 1, 0]),
            (&["judge"], Status::UsageFailed, [0, 0, 1]),
        ],
    );
}

/// A reader that counts its calls.
#[derive(Drop)]
struct Watched<'a> {
    left: &'a [u8],
    calls: usize,
}

impl<'a> Read for Watched<'a> {
    fn read(&mut self, room: &mut [u8]) -> io::Result<usize> {
        self.calls = self.calls.wrapping_add(1);
        self.left.read(room)
    }
}

/// How many calls the reader of an input has for these words.
fn calls(alloc: Global, words: &[&str], input: &str) -> usize {
    let mut reader = Watched {
        left: input.as_bytes(),
        calls: 0,
    };
    let mut out = Vec::new(alloc);
    let mut err = Vec::new(alloc);
    let _status = command(alloc, words, &mut reader, &mut out, &mut err);
    reader.calls
}

/// Words, their input, and how many calls its reader has.
type Called<'a> = (&'a [&'a str], &'a str, usize);

/// How many calls readers have.
fn are_called(rt: &impl Abort, alloc: Global, rows: &[Called<'_>]) {
    for row in rows {
        let (words, input, wanted) = *row;
        same_at(rt, calls(alloc, words, input), wanted, &words);
    }
}

/// Each byte is read by a call of its own, the end by one more, and nothing is read that nobody asked for.
#[test]
fn input_is_read_once(rt: HostRuntime) {
    are_called(
        &rt,
        rt.alloc(),
        &[
            (&["judge", FAILURE], "{}", 3),
            (&["judge", FAILURE], "", 1),
            (&["judge", FAILURE, "2"], "{}", 3),
            (&["judge", FAILURE, "3"], "{}", 0),
            (&["judge", "9g"], "{}", 0),
            (&["asm"], "exit\n", 6),
            (&["asm"], "", 1),
            (&["verify", FAILURE], "{}", 0),
            (&["verify", FAILURE, "2"], "{}", 0),
            (&["dis", FAILURE], "{}", 0),
            (&["judge"], "{}", 0),
            (&["replay"], "{}\n", 4),
            (&["replay"], "[]\n{}\n", 3),
        ],
    );
}

/// Checks what errors are printed as.
fn are_printed(rt: &impl Abort, alloc: Global, rows: &[(CommandError, &str)]) {
    for row in rows {
        let (error, text) = *row;
        is_printed(rt, alloc, &error, text);
    }
}

#[test]
fn texts_of_errors(rt: HostRuntime) {
    are_printed(
        &rt,
        rt.alloc(),
        &[
            (CommandError::ReadFailed, "a read failed"),
            (CommandError::WriteFailed, "a write failed"),
            (CommandError::OutOfMemory, "out of memory"),
        ],
    );
}
