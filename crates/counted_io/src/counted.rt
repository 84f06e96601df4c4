//! Readers and writers that count their failed calls, and readers that count how often their input ended.
ghost use Rattle.std.specs.Prelude.{◌≡◌, is_err, length};
ghost use Rattle.std.specs.Io.{ReadsAtMost, WritesAtMost};
ghost use Rattle.std.specs.Io.KnownBytes.{ReadConsumes, WriteAppends, Keeps};
ghost use Rattle.counted_io.specs.Counting.{counted, is_end, is_failed_write};

use std::io;
use std::io::{Read, Write};
use std::marker::Model;

/// A reader or a writer, with how many of its calls failed, and how many reads met the end of the input. Behind 2^64 - 1
/// a count goes on at 0, so that it is another one after each call that counts.
///
/// Contracts see all three. Nobody else reads or writes past the counts, or changes them: so where a contract says that
/// one more call failed, or met the end, one really did.
#[derive(Drop)]
pub struct Counted<T> {
    inner: T,
    /// How many reads, writes and flushes answered an error, or wrote nothing of a piece that isn't empty.
    failures: u64,
    /// How many reads gave nothing of a piece that isn't empty: the input had ended.
    ends: u64,
}

impl<T> Model for Counted<T> {
    ghost use Rattle.counted_io.specs.Counting.{CountedData};

    ghost Value = { CountedData T };

    ghost view = { λ c. record { inner = c.inner; failures = c.failures; ends = c.ends } };
}

impl<T> Counted<T> {
    /// Counts the failed calls of a reader or a writer, and the ends that it meets, from 0 on.
    pub fn new(inner: T) -> Self
        ensures inner { result.inner ≡ inner }
        ensures failures { result.failures ≡ 0 }
        ensures ends { result.ends ≡ 0 }
    {
        Counted {
            inner,
            failures: 0,
            ends: 0,
        }
    }

    /// The reader or the writer.
    pub fn inner(&self) -> &T
        ensures { result.now ≡ self.now.inner }
    {
        &self.inner
    }

    /// How many reads, writes and flushes failed.
    pub fn failures(&self) -> u64
        ensures { result ≡ self.now.failures }
    {
        self.failures
    }

    /// How many reads met the end of the input.
    pub fn ends(&self) -> u64
        ensures { result ≡ self.now.ends }
    {
        self.ends
    }

    /// Gives the reader or the writer back.
    pub fn into_inner(self) -> T
        ensures { result ≡ self.inner }
    {
        self.inner
    }
}

impl<R: Read> Read for Counted<R> {
    // The bytes that the reader inside has left.
    ghost remaining = { λ reader. R.remaining reader.inner };

    fn read(&mut self, buf: &mut [u8]) -> io::Result<usize>
        ensures bound { ReadsAtMost result buf.new }
        ensures bytes { ReadConsumes (R.remaining self.old.inner) (R.remaining self.new.inner) result buf.new }
        // A failed read counts, and no other.
        ensures failures { self.new.failures ≡ counted (is_err result) self.old.failures }
        // A read that gives nothing, though there is room, counts as an end that was met, and no other.
        ensures ends { self.new.ends ≡ counted (is_end result (length buf.old)) self.old.ends }
    {
        let result = self.inner.read(buf);
        match &result {
            Ok(taken) => {
                if *taken == 0 && !buf.is_empty() {
                    self.ends = self.ends.wrapping_add(1);
                }
            }
            Err(_) => self.failures = self.failures.wrapping_add(1),
        }
        result
    }
}

impl<W: Write> Write for Counted<W> {
    // The bytes that the writer inside holds.
    ghost contents = { λ writer. W.contents writer.inner };

    fn write(&mut self, buf: &[u8]) -> io::Result<usize>
        ensures bound { WritesAtMost result buf.now }
        ensures bytes { WriteAppends (W.contents self.old.inner) (W.contents self.new.inner) result buf.now }
        // A failed write counts, and no other.
        ensures failures { self.new.failures ≡ counted (is_failed_write result (length buf.now)) self.old.failures }
        ensures ends { self.new.ends ≡ self.old.ends }
    {
        let result = self.inner.write(buf);
        let failed = match &result {
            Ok(taken) => *taken == 0 && !buf.is_empty(),
            Err(_) => true,
        };
        if failed {
            self.failures = self.failures.wrapping_add(1);
        }
        result
    }

    fn flush(&mut self) -> io::Result<()>
        ensures bytes { Keeps (W.contents self.old.inner) (W.contents self.new.inner) }
        // A failed flush counts, and no other. What was written stays, also where it failed.
        ensures failures { self.new.failures ≡ counted (is_err result) self.old.failures }
        ensures ends { self.new.ends ≡ self.old.ends }
    {
        let result = self.inner.flush();
        if result.is_err() {
            self.failures = self.failures.wrapping_add(1);
        }
        result
    }
}
