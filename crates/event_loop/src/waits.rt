//! Which connection has waited for its client for longest, among those of all workers.
use std::array;
use std::sync::atomic::{AtomicU64, Ordering};

/// How many workers may share a listener.
const MOST_WORKERS: usize = 64;

/// Behind each moment.
const NEVER: u64 = u64::MAX;

/// What the workers told each other: of each, a moment before which none of its connections began to wait for its client, in
/// milliseconds of the system's clock. What a worker told stays true while its connections are used, closed and begin to wait
/// again: all of that makes its earliest moment later.
#[derive(Drop)]
pub(crate) struct Waits {
    earliest: [AtomicU64; MOST_WORKERS],
}

impl Waits {
    /// No worker takes part.
    pub(crate) fn new() -> Waits {
        Waits {
            earliest: array::from_fn(|_worker: usize| -> AtomicU64 { AtomicU64::new(NEVER) }),
        }
    }

    /// Tells since when that connection of a worker waits which has waited for longest, or where none waits the moment that it
    /// is now. Workers are numbered from 0 on; one whose number is over 63 tells nothing.
    pub(crate) fn tell(&self, worker: usize, since: u64) {
        if let Some(earliest) = self.earliest.get(worker) {
            earliest.store(since, Ordering::SeqCst);
        }
    }

    /// Takes a worker out that closes no connection for another one, so that no other worker waits for it.
    pub(crate) fn leave(&self, worker: usize) {
        self.tell(worker, NEVER);
    }

    /// Whether no worker may have a connection that waits since an earlier moment.
    pub(crate) fn is_earliest(&self, since: u64) -> bool {
        for earliest in &self.earliest {
            if earliest.load(Ordering::SeqCst) < since {
                return false;
            }
        }
        true
    }
}
