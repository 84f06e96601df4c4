//! How many connections are served, and how many are open at once: the limits, and the counts that workers share.
ghost use Rattle.std.specs.Prelude.{◌≡◌};
ghost use Rattle.event_loop.specs.Numbers.{is_left};

use crate::meeting::Meeting;
use crate::waits::Waits;
use std::sync::atomic::{AtomicU64, Ordering};
use std::time;

/// How many connections workers serve.
#[derive(Clone, Copy, Debug, PartialEq, Eq)]
pub struct Limits {
    /// How many all workers accept in all, from 1 on; with 0, without end.
    pub connections: u64,
    /// How many all workers have open at once, from 1 on.
    pub most_open: u64,
}

/// Whether the connection of a number, from 0 on, is to be served, of so many; with 0, each is.
pub(crate) fn is_left(connections: u64, number: u64) -> bool
    ensures { result ≡ is_left connections number }
{
    connections == 0 || number < connections
}

/// What the workers of one listener share: how many numbers of connections were drawn, how many places are taken by
/// connections that are open or about to be accepted, how many are open, how many workers began and how many are at work,
/// and which of them has the connection that has waited for its client for longest.
#[derive(Drop)]
pub struct SharedCounts {
    numbers: AtomicU64,
    places: AtomicU64,
    open: AtomicU64,
    begun: AtomicU64,
    workers: AtomicU64,
    meeting: Meeting,
    pub(crate) waits: Waits,
}

impl SharedCounts {
    /// No number is drawn, no connection is open, and of so many workers nobody is at work.
    pub fn new(workers: u64) -> Self {
        SharedCounts {
            numbers: AtomicU64::new(0),
            places: AtomicU64::new(0),
            open: AtomicU64::new(0),
            begun: AtomicU64::new(0),
            workers: AtomicU64::new(0),
            meeting: Meeting::new(workers),
            waits: Waits::new(),
        }
    }

    /// Draws the number of the next connection, from 0 on.
    pub(crate) fn draw(&self) -> u64 {
        self.numbers.fetch_add(1, Ordering::SeqCst)
    }

    /// Says that one more worker is at work, and waits for the others, half a second at most: so each has drawn a number
    /// before one accepts. Returns the worker's own number, from 0 on.
    pub(crate) fn begin(&self, time: &impl time::Clock) -> usize {
        let worker = self.begun.fetch_add(1, Ordering::SeqCst);
        self.workers.fetch_add(1, Ordering::SeqCst);
        self.waits.tell(worker as usize, 0);
        self.meeting.attend(time);
        worker as usize
    }

    /// Says that a worker ends, which has no connection open.
    pub(crate) fn end(&self) {
        self.workers.fetch_sub(1, Ordering::SeqCst);
    }

    /// Takes a place for one more connection, if one is free of so many.
    pub(crate) fn enter(&self, most: u64) -> bool {
        if self.places.fetch_add(1, Ordering::SeqCst) < most {
            return true;
        }
        self.give_back();
        false
    }

    /// Gives back a place to which no connection came.
    pub(crate) fn give_back(&self) {
        self.places.fetch_sub(1, Ordering::SeqCst);
    }

    /// Says that a connection came to a place that was taken.
    pub(crate) fn come(&self) {
        self.open.fetch_add(1, Ordering::SeqCst);
    }

    /// Gives back the place of an open connection.
    pub(crate) fn leave(&self) {
        self.open.fetch_sub(1, Ordering::SeqCst);
        self.give_back();
    }

    /// Whether a worker with so many open connections has more than its share of all that are open. Places that others took
    /// to look whether a connection waits don't count: all are awake when one comes.
    pub(crate) fn is_above_share(&self, own: u64) -> bool {
        let workers = self.workers.load(Ordering::SeqCst);
        own.saturating_mul(workers) > self.open.load(Ordering::SeqCst)
    }
}
