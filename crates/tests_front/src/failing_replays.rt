//! Replays of long lines, and replays whose reader or writer fails.
use crate::checks::{same, same_at};
use crate::inputs::{joined, repeated};
use counted_io::Counted;
use replay::{ReplayEnded, ReplayError, replay};
use std::alloc::Global;
use std::io;
use std::io::{Read, Write};
use std::process::Abort;

const ACQUIRED: &str = "200 {\"state\":\"CLOSED\",\"ticket\":1,\"version\":1}\n";

const ACQUIRED_AGAIN: &str = "200 {\"state\":\"CLOSED\",\"ticket\":2,\"version\":1}\n";

const BAD_VALUE: &str = "422 {\"error\":59,\"name\":\"BadField\"}\n";

/// How a replay ends, and how many bytes it prints.
fn printed_bytes(rt: &impl Abort, alloc: Global, input: &[u8]) -> (ReplayEnded, usize) {
    let mut reader = Counted::new(input);
    let mut out = Counted::new(Vec::new(alloc));
    let ended = replay(alloc, &mut reader, &mut out).expect(rt, "a replay that is done");
    (ended, out.inner().len())
}

#[test]
fn long_lines_are_read(rt: HostRuntime) {
    let rt = &rt;
    let alloc = rt.alloc();
    let config = repeated(rt, alloc, b" ", 100_000);
    let event = repeated(rt, alloc, b" ", 1_000_000);
    let acquire = b"{\"at\":0,\"do\":\"acquire\"}\n";
    let others = repeated(rt, alloc, b"{\"at\":0,\"do\":\"frob\"}\n", 2000);
    let pieces: &[&[u8]] = &[&config, b"{}\n", &event, acquire, &others];
    let input = joined(rt, alloc, pieces);
    let size = ACQUIRED.len() + 2000 * BAD_VALUE.len();
    same(
        rt,
        printed_bytes(rt, alloc, &input),
        (ReplayEnded::Done, size),
    );
}

/// Gives and takes one byte at a time, and fails after so many calls.
#[derive(Drop)]
struct Failing<T> {
    inner: T,
    left: u64,
}

impl<T> Failing<T> {
    fn count(&mut self) -> io::Result<()> {
        if self.left == 0 {
            return Err(io::Error::from(io::ErrorKind::ConnectionReset));
        }
        self.left -= 1;
        Ok(())
    }
}

impl<R: Read> Read for Failing<R> {
    fn read(&mut self, room: &mut [u8]) -> io::Result<usize> {
        self.count()?;
        let size = room.len().min(1);
        self.inner.read(&mut room[..size])
    }
}

impl<W: Write> Write for Failing<W> {
    fn write(&mut self, bytes: &[u8]) -> io::Result<usize> {
        self.count()?;
        let size = bytes.len().min(1);
        self.inner.write(&bytes[..size])
    }

    fn flush(&mut self) -> io::Result<()> {
        self.inner.flush()
    }
}

const TWO_CALLS: &str = "{}\n{\"at\":0,\"do\":\"acquire\"}\n{\"at\":0,\"do\":\"acquire\"}\n";

/// How a replay ends whose reader fails after so many calls, and how many bytes it prints.
fn failing_reader(alloc: Global, left: u64) -> (Result<ReplayEnded, ReplayError>, usize) {
    let mut reader = Counted::new(Failing {
        inner: TWO_CALLS.as_bytes(),
        left,
    });
    let mut out = Counted::new(Vec::new(alloc));
    let found = replay(alloc, &mut reader, &mut out);
    (found, out.inner().len())
}

/// How it is to end, and how many bytes it is to print.
fn wanted_of_reader(left: u64) -> (Result<ReplayEnded, ReplayError>, usize) {
    let wanted = if left >= 52 {
        Ok(ReplayEnded::Done)
    } else {
        Err(ReplayError::ReadFailed)
    };
    let first = if left >= 27 { ACQUIRED.len() } else { 0 };
    let second = if left >= 51 { ACQUIRED_AGAIN.len() } else { 0 };
    (wanted, first + second)
}

#[test]
fn a_failing_reader_ends_a_replay(rt: HostRuntime) {
    for left in 0..54u64 {
        let found = failing_reader(rt.alloc(), left);
        same_at(&rt, found, wanted_of_reader(left), &left);
    }
}

/// How a replay ends whose writer fails after so many calls, and how many bytes are written.
fn failing_writer(alloc: Global, left: u64) -> (Result<ReplayEnded, ReplayError>, u64) {
    let mut reader = Counted::new(TWO_CALLS.as_bytes());
    let mut out = Counted::new(Failing {
        inner: Vec::new(alloc),
        left,
    });
    let found = replay(alloc, &mut reader, &mut out);
    (found, out.inner().inner.len() as u64)
}

#[test]
fn a_failing_writer_ends_a_replay(rt: HostRuntime) {
    let whole = ACQUIRED.len() as u64 + ACQUIRED_AGAIN.len() as u64;
    for left in 0..=whole {
        let wanted = if left == whole {
            Ok(ReplayEnded::Done)
        } else {
            Err(ReplayError::WriteFailed)
        };
        let found = failing_writer(rt.alloc(), left);
        same_at(&rt, found, (wanted, left), &left);
    }
}
