//! What carries one connection, whether its calls wait or not.
ghost use Rattle.std.specs.Prelude.{◌≡◌, ℕ, List, [], Option, length};
ghost use Rattle.counted_io.specs.Counting.{counted};
ghost use Rattle.counted_io.specs.Polling.{is_failed, is_wait, is_end, IsTaken, IsPut};
ghost use Rattle.counted_io.specs.Wires.{CountsOf};

use crate::polling::Polling;
use crate::streams::Stream;
use crate::wires::Wire;

/// What carries one connection: both its directions, with counts of how the calls of each ended. A `Wire` is one, whose
/// calls don't wait.
pub trait Transport {
    // The bytes that reads will give from here on, where they are known.
    ghost remaining: { Self → Option (List ℕ) };

    // The bytes that were written, where they are known.
    ghost contents: { Self → Option (List ℕ) };

    // How the reads ended.
    ghost reads: { Self → CountsOf };

    // How the writes ended.
    ghost writes: { Self → CountsOf };

    // The names of the references that it reads and writes by; none where it owns what it reads and writes.
    ghost lenders: { Self → List ℕ } = { λ _. [] };

    /// Reads once, into the front of a piece of memory.
    fn take(&mut self, buf: &mut [u8]) -> Polling
        ensures bytes { IsTaken result (remaining self.old) (remaining self.new) buf.new }
        ensures apart { contents self.new ≡ contents self.old }
        // A failed read counts, and no other.
        ensures failures { (reads self.new).failures ≡ counted (is_failed result) (reads self.old).failures }
        // A read that would have had to wait counts so, and not as a failure.
        ensures waits { (reads self.new).waits ≡ counted (is_wait result) (reads self.old).waits }
        // A read that gives nothing, though there is room, counts as an end that was met, and no other.
        ensures ends { (reads self.new).ends ≡ counted (is_end result (length buf.old)) (reads self.old).ends }
        ensures writes { writes self.new ≡ writes self.old }
        ensures lenders { lenders self.new ≡ lenders self.old };

    /// Writes the front of a piece, or all of it, by one call. One that takes nothing of a piece that isn't empty fails.
    fn put(&mut self, buf: &[u8]) -> Polling
        ensures bytes { IsPut result (contents self.old) (contents self.new) buf.now }
        ensures apart { remaining self.new ≡ remaining self.old }
        // A failed write counts, and no other.
        ensures failures { (writes self.new).failures ≡ counted (is_failed result) (writes self.old).failures }
        // A write that would have had to wait counts so, and not as a failure.
        ensures waits { (writes self.new).waits ≡ counted (is_wait result) (writes self.old).waits }
        ensures ends { (writes self.new).ends ≡ (writes self.old).ends }
        ensures reads { reads self.new ≡ reads self.old }
        ensures lenders { lenders self.new ≡ lenders self.old };
}

impl<T: Stream> Transport for Wire<T> {
    ghost remaining = { λ wire. T.remaining wire.inner };

    ghost contents = { λ wire. T.contents wire.inner };

    ghost reads = { λ wire. wire.reads };

    ghost writes = { λ wire. wire.writes };

    fn take(&mut self, buf: &mut [u8]) -> Polling {
        Wire::take(self, buf)
    }

    fn put(&mut self, buf: &[u8]) -> Polling {
        Wire::put(self, buf)
    }
}
