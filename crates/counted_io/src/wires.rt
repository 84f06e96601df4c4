//! Streams that answer at once, with counts of how their calls ended.
ghost use Rattle.std.specs.Prelude.{◌≡◌, length};
ghost use Rattle.counted_io.specs.Counting.{counted};
ghost use Rattle.counted_io.specs.Calls.{IsPolled, read_polling, write_polling};
ghost use Rattle.counted_io.specs.Polling.{is_failed, is_wait, is_end, IsTaken, IsPut};
ghost use Rattle.counted_io.specs.Wires.{CountsOf, new_counts};

use crate::calls::{read_polling, receive_again, send_again, write_polling};
use crate::polling::Polling;
use crate::streams::Stream;
use std::marker::Model;

/// How many calls failed, how many would have had to wait, and how many met the end. Behind 2^64 - 1 a count goes on at 0.
#[derive(Drop)]
struct Counts {
    failures: u64,
    waits: u64,
    ends: u64,
}

impl Model for Counts {
    ghost use Rattle.counted_io.specs.Wires.{CountsOf};

    ghost Value = { CountsOf };

    ghost view = { λ c. record { failures = c.failures; waits = c.waits; ends = c.ends } };
}

/// A stream whose calls answer `WouldBlock` where they would have to wait, with how many reads and how many writes failed,
/// would have had to wait, and met the end. Nobody else reads or writes past the counts, or changes them.
#[derive(Drop)]
pub struct Wire<T> {
    inner: T,
    reads: Counts,
    writes: Counts,
}

impl<T> Model for Wire<T> {
    ghost use Rattle.counted_io.specs.Wires.{WireData};

    ghost Value = { WireData T };

    ghost view = { λ w. record { inner = w.inner; reads = w.reads; writes = w.writes } };
}

impl Counts {
    /// No call yet.
    fn new() -> Self
        ensures { result ≡ new_counts }
    {
        Counts {
            failures: 0,
            waits: 0,
            ends: 0,
        }
    }

    /// Counts a call.
    fn count(&mut self, polling: Polling)
        ensures failures { self.new.failures ≡ counted (is_failed polling) self.old.failures }
        ensures waits { self.new.waits ≡ counted (is_wait polling) self.old.waits }
        ensures ends { self.new.ends ≡ self.old.ends }
    {
        match polling {
            Polling::Done(_) => {}
            Polling::Waits => self.waits = self.waits.wrapping_add(1),
            Polling::Failed => self.failures = self.failures.wrapping_add(1),
        }
    }
}

impl<T> Wire<T> {
    /// Counts the calls of a stream from 0 on.
    pub fn new(inner: T) -> Self
        ensures inner { result.inner ≡ inner }
        ensures reads { result.reads ≡ new_counts }
        ensures writes { result.writes ≡ new_counts }
    {
        Wire {
            inner,
            reads: Counts::new(),
            writes: Counts::new(),
        }
    }

    /// The stream.
    pub fn inner(&self) -> &T
        ensures { result.now ≡ self.now.inner }
    {
        &self.inner
    }

    /// How many reads and how many writes failed.
    pub fn failures(&self) -> (u64, u64)
        ensures { result ≡ (self.now.reads.failures, self.now.writes.failures) }
    {
        (self.reads.failures, self.writes.failures)
    }

    /// How many reads and how many writes would have had to wait.
    pub fn waits(&self) -> (u64, u64)
        ensures { result ≡ (self.now.reads.waits, self.now.writes.waits) }
    {
        (self.reads.waits, self.writes.waits)
    }

    /// How many reads met the end of the input.
    pub fn ends(&self) -> u64
        ensures { result ≡ self.now.reads.ends }
    {
        self.reads.ends
    }

    /// Gives the stream back.
    pub fn into_inner(self) -> T
        ensures { result ≡ self.inner }
    {
        self.inner
    }
}

impl<T: Stream> Wire<T> {
    /// Reads once, into the front of a piece of memory. A read that is interrupted is tried again, and fails where that
    /// doesn't end.
    pub fn take(&mut self, buf: &mut [u8]) -> Polling
        ensures bytes { IsTaken result (T.remaining self.old.inner) (T.remaining self.new.inner) buf.new }
        ensures apart { T.contents self.new.inner ≡ T.contents self.old.inner }
        // It is what the stream's own last read for it answered, and no read is made behind that.
        ensures polled { IsPolled (T.read_answers self.old.inner) (T.read_answers self.new.inner) read_polling result }
        ensures unwritten { T.write_answers self.new.inner ≡ T.write_answers self.old.inner }
        // A failed read counts, and no other.
        ensures failures { self.new.reads.failures ≡ counted (is_failed result) self.old.reads.failures }
        // A read that would have had to wait counts so, and not as a failure.
        ensures waits { self.new.reads.waits ≡ counted (is_wait result) self.old.reads.waits }
        // A read that gives nothing, though there is room, counts as an end that was met, and no other.
        ensures ends { self.new.reads.ends ≡ counted (is_end result (length buf.old)) self.old.reads.ends }
        ensures writes { self.new.writes ≡ self.old.writes }
    {
        let polling = read_polling(receive_again(&mut self.inner, buf));
        self.reads.count(polling);
        if let Polling::Done(taken) = polling {
            if taken == 0 && !buf.is_empty() {
                self.reads.ends = self.reads.ends.wrapping_add(1);
            }
        }
        polling
    }

    /// Writes the front of a piece, or all of it, by one call. A write that is interrupted is tried again, and fails
    /// where that doesn't end; one that takes nothing of a piece that isn't empty fails.
    pub fn put(&mut self, buf: &[u8]) -> Polling
        ensures bytes { IsPut result (T.contents self.old.inner) (T.contents self.new.inner) buf.now }
        ensures apart { T.remaining self.new.inner ≡ T.remaining self.old.inner }
        // It is what the stream's own last write for it answered, and no write is made behind that.
        ensures polled { IsPolled (T.write_answers self.old.inner) (T.write_answers self.new.inner) (λ answer. write_polling answer (length buf.now)) result }
        ensures unread { T.read_answers self.new.inner ≡ T.read_answers self.old.inner }
        // A failed write counts, and no other.
        ensures failures { self.new.writes.failures ≡ counted (is_failed result) self.old.writes.failures }
        // A write that would have had to wait counts so, and not as a failure.
        ensures waits { self.new.writes.waits ≡ counted (is_wait result) self.old.writes.waits }
        ensures ends { self.new.writes.ends ≡ self.old.writes.ends }
        ensures reads { self.new.reads ≡ self.old.reads }
    {
        let polling = write_polling(send_again(&mut self.inner, buf), buf.len());
        self.writes.count(polling);
        polling
    }

    /// Tells the other side that no more is sent. Answers whether that succeeded.
    pub fn end_sending(&mut self) -> bool
        ensures read { T.remaining self.new.inner ≡ T.remaining self.old.inner }
        ensures written { T.contents self.new.inner ≡ T.contents self.old.inner }
        ensures unheard { (T.read_answers self.new.inner ≡ T.read_answers self.old.inner) × (T.write_answers self.new.inner ≡ T.write_answers self.old.inner) }
    {
        self.inner.end_sending().is_ok()
    }
}
