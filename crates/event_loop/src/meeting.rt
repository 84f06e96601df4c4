//! Threads that wait for each other.
use std::sync::atomic::{AtomicBool, AtomicU64, Ordering};
use std::time::Duration;
use std::{thread, time};

/// How often a thread looks whether all others have come, and how many milliseconds lie between two looks.
const MOST_LOOKS: u64 = 500;

const MILLISECONDS_TO_LOOK: u64 = 1;

/// What threads share that wait for each other, half a second at most.
#[derive(Drop)]
pub struct Meeting {
    /// How many are to come.
    wanted: u64,
    /// How many have come.
    here: AtomicU64,
    /// Whether one has waited for so long that the others won't come.
    is_over: AtomicBool,
}

impl Meeting {
    /// A meeting to which so many threads are to come.
    pub fn new(wanted: u64) -> Meeting {
        Meeting {
            wanted,
            here: AtomicU64::new(0),
            is_over: AtomicBool::new(false),
        }
    }

    /// Comes to the meeting, and waits until all are here or one gives up. Returns how many are here then.
    pub fn attend(&self, time: &impl time::Clock) -> u64 {
        self.here.fetch_add(1, Ordering::SeqCst);
        for _ in 0..MOST_LOOKS {
            let here = self.here.load(Ordering::SeqCst);
            if here >= self.wanted || self.is_over.load(Ordering::SeqCst) {
                return here;
            }
            thread::sleep(time, Duration::from_millis(MILLISECONDS_TO_LOOK));
        }
        self.is_over.store(true, Ordering::SeqCst);
        self.here.load(Ordering::SeqCst)
    }
}
