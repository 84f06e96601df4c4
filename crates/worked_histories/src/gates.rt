//! What one thread says to another.
use service::Gate;
use std::sync::atomic::{AtomicU64, Ordering};
use std::thread;

/// How often a thread looks whether another one is there yet.
const MOST_TURNS: u32 = 1_000_000;

/// Something that one thread says and another waits for.
#[derive(Drop)]
pub struct Flag(AtomicU64);

impl Flag {
    pub fn new() -> Flag {
        Flag(AtomicU64::new(0))
    }

    pub fn raise(&self) {
        self.0.store(1, Ordering::SeqCst);
    }

    pub fn is_raised(&self) -> bool {
        self.0.load(Ordering::SeqCst) != 0
    }

    /// Gives way until it is raised, but not for ever.
    pub fn wait(&self) {
        for _ in 0..MOST_TURNS {
            if self.is_raised() {
                return;
            }
            thread::yield_now();
        }
    }
}

/// Holds a report between its look and its finish until other calls were answered.
#[derive(Drop)]
pub struct HoldingGate {
    pub reached: Flag,
    pub answered: Flag,
    pub overtaken: Flag,
}

impl HoldingGate {
    pub fn new() -> HoldingGate {
        HoldingGate {
            reached: Flag::new(),
            answered: Flag::new(),
            overtaken: Flag::new(),
        }
    }
}

impl Gate for HoldingGate {
    fn between(&self, _ticket: u64) {
        self.reached.raise();
        self.answered.wait();
        if self.answered.is_raised() {
            self.overtaken.raise();
        }
    }
}
