//! What passes through a counted reader or writer, and which calls count. Most of it is proved; what isn't: that large
//! texts are written whole, that a failed call leaves the reader or the writer as it can go on, and that the error is
//! the one that was met.
use crate::checks::same;
use counted_io::Counted;
use std::alloc::Global;
use std::io;
use std::io::{ErrorKind, Read, Write};
use std::process::Abort;

/// Fails at one call, and goes on behind it. It gives or takes at most three bytes a call.
#[derive(Drop)]
struct FailsOnce<T> {
    inner: T,
    calls_before: u64,
    kind: ErrorKind,
}

impl<T> FailsOnce<T> {
    /// Counts a call, and answers the error where it is the one that fails.
    fn count(&mut self) -> io::Result<()> {
        let is_failing = self.calls_before == 0;
        self.calls_before = self.calls_before.wrapping_sub(1);
        if is_failing {
            Err(io::Error::from(self.kind))
        } else {
            Ok(())
        }
    }
}

impl<R: Read> Read for FailsOnce<R> {
    fn read(&mut self, buf: &mut [u8]) -> io::Result<usize> {
        self.count()?;
        let count = buf.len().min(3);
        self.inner.read(&mut buf[..count])
    }
}

impl<W: Write> Write for FailsOnce<W> {
    fn write(&mut self, buf: &[u8]) -> io::Result<usize> {
        self.count()?;
        self.inner.write(&buf[..buf.len().min(3)])
    }

    fn flush(&mut self) -> io::Result<()> {
        self.count()?;
        self.inner.flush()
    }
}

/// Each value of a byte, one after another, over and over.
fn bytes(rt: &impl Abort, alloc: Global, count: usize) -> Vec<u8> {
    let mut bytes = Vec::new(alloc);
    for number in 0..count {
        bytes.push((number % 256) as u8).expect(rt, "ample memory");
    }
    bytes
}

/// The next byte of a reader, where it doesn't fail; None at its end.
fn next_of<R: Read>(rt: &impl Abort, reader: &mut Counted<R>) -> Option<u8> {
    reader.next_byte().expect(rt, "a read that doesn't fail")
}

/// Reads into a room once, and answers how many bytes were given.
fn read_of<R: Read>(rt: &impl Abort, reader: &mut Counted<R>, room: &mut [u8]) -> usize {
    reader.read(room).expect(rt, "a read that doesn't fail")
}

/// Sends bytes to a writer that doesn't fail.
fn send_to<W: Write>(rt: &impl Abort, writer: &mut Counted<W>, bytes: &[u8]) {
    writer.send(bytes).expect(rt, "a write that doesn't fail");
}

/// The kinds of errors that are told apart.
const KINDS: &[ErrorKind] = &[
    ErrorKind::Interrupted,
    ErrorKind::WouldBlock,
    ErrorKind::TimedOut,
    ErrorKind::ConnectionReset,
    ErrorKind::BrokenPipe,
    ErrorKind::StorageFull,
    ErrorKind::OutOfMemory,
];

#[test]
fn bytes_pass_a_reader(rt: HostRuntime) {
    let rt = &rt;
    let mut reader = Counted::new(b"ab".as_slice());
    let mut piece = [0; 4];
    same(rt, next_of(rt, &mut reader), Some(b'a'));
    same(rt, read_of(rt, &mut reader, &mut piece), 1);
    same(rt, reader.ends(), 0);
    same(rt, next_of(rt, &mut reader), None);
    same(rt, read_of(rt, &mut reader, &mut piece), 0);
    same(rt, read_of(rt, &mut reader, &mut piece[..0]), 0);
    same(rt, (reader.ends(), reader.failures()), (2, 0));
}

#[test]
fn bytes_pass_a_writer(rt: HostRuntime) {
    let rt = &rt;
    let mut writer = Counted::new(Vec::new(rt.alloc()));
    send_to(rt, &mut writer, b"abc");
    same(rt, writer.write(b"").ok(), Some(0));
    same(rt, writer.flush().is_ok(), true);
    same(rt, writer.failures(), 0);
    same(rt, writer.inner().as_slice(), b"abc".as_slice());
}

#[test]
fn calls_that_take_nothing_are_counted(rt: HostRuntime) {
    let mut room = [0; 2];
    let mut writer = Counted::new(room.as_mut_slice());
    same(&rt, writer.send(b"abc").is_err(), true);
    same(&rt, writer.failures(), 1);
    same(&rt, writer.write(b"c").is_ok(), true);
    same(&rt, writer.failures(), 2);
}

#[test]
fn each_byte_is_read(rt: HostRuntime) {
    let bytes = bytes(&rt, rt.alloc(), 256);
    let mut reader = Counted::new(bytes.as_slice());
    for byte in &bytes {
        same(&rt, next_of(&rt, &mut reader), Some(*byte));
    }
    same(&rt, next_of(&rt, &mut reader), None);
    same(&rt, reader.failures(), 0);
}

#[test]
fn large_texts_are_written_whole(rt: HostRuntime) {
    let bytes = bytes(&rt, rt.alloc(), 1 << 20);
    let mut writer = Counted::new(FailsOnce {
        inner: Vec::new(rt.alloc()),
        calls_before: u64::MAX,
        kind: ErrorKind::Other,
    });
    send_to(&rt, &mut writer, &bytes);
    same(&rt, writer.failures(), 0);
    let written = writer.into_inner().inner;
    same(&rt, written.len(), 1 << 20);
    same(&rt, written.as_slice() == bytes.as_slice(), true);
}

/// The kind of the error that was met.
fn kind_of<T: Drop>(outcome: io::Result<T>) -> Option<ErrorKind> {
    match outcome {
        Ok(_) => None,
        Err(error) => Some(error.kind()),
    }
}

/// A writer into memory that fails at its second call.
fn writer_to_memory(alloc: Global, kind: ErrorKind) -> Counted<FailsOnce<Vec<u8>>> {
    Counted::new(FailsOnce {
        inner: Vec::new(alloc),
        calls_before: 1,
        kind,
    })
}

/// A read that fails in mid-stream is the error, counts, and leaves the bytes behind it.
fn a_read_fails(rt: &impl Abort, kind: ErrorKind) {
    let mut reader = Counted::new(FailsOnce {
        inner: b"ab".as_slice(),
        calls_before: 1,
        kind,
    });
    same(rt, next_of(rt, &mut reader), Some(b'a'));
    same(rt, kind_of(reader.next_byte()), Some(kind));
    same(rt, reader.failures(), 1);
    same(rt, next_of(rt, &mut reader), Some(b'b'));
    same(rt, next_of(rt, &mut reader), None);
    same(rt, reader.failures(), 1);
}

/// A write that fails in mid-stream is the error, counts, and leaves what was written before it; what is sent behind
/// it goes on there.
fn a_write_fails(rt: &impl Abort, alloc: Global, kind: ErrorKind) {
    let mut writer = writer_to_memory(alloc, kind);
    same(rt, kind_of(writer.send(b"abcdef")), Some(kind));
    same(rt, writer.failures(), 1);
    same(rt, writer.inner().inner.as_slice(), b"abc".as_slice());
    send_to(rt, &mut writer, b"gh");
    same(rt, writer.failures(), 1);
    same(rt, writer.inner().inner.as_slice(), b"abcgh".as_slice());
}

/// A flush that fails is the error, counts, and leaves what was written; the next one doesn't count, and what is sent
/// behind it goes on there.
fn a_flush_fails(rt: &impl Abort, alloc: Global, kind: ErrorKind) {
    let mut writer = writer_to_memory(alloc, kind);
    send_to(rt, &mut writer, b"abc");
    same(rt, kind_of(writer.flush()), Some(kind));
    same(rt, writer.failures(), 1);
    same(rt, writer.flush().is_ok(), true);
    send_to(rt, &mut writer, b"de");
    same(rt, (writer.failures(), writer.ends()), (1, 0));
    same(rt, writer.inner().inner.as_slice(), b"abcde".as_slice());
}

#[test]
fn each_kind_of_error_is_passed_on(rt: HostRuntime) {
    for kind in KINDS {
        a_read_fails(&rt, *kind);
        a_write_fails(&rt, rt.alloc(), *kind);
        a_flush_fails(&rt, rt.alloc(), *kind);
    }
}
