//! The clock of a server.
ghost use Rattle.std.specs.Prelude.{◌≡◌};

use http_front::Clock;
use std::time;
use std::time::{Instant, SystemTime, UNIX_EPOCH};

/// Tells moments in milliseconds since 1970-01-01 00:00 UTC: the system's time as it was at the clock's start, and what has
/// passed since by a clock that only goes forward (`std::time::Instant`). So a system's time that is set while the clock
/// runs changes nothing. Where the system's time can't be read at the start, or is before 1970 or past 2^64 ms, the
/// moments count on from 0. Where what has passed can't be read, the last moment is told again, and the start before the
/// first; nothing counts on where it couldn't be read at the start. No moment is past 2^64 - 1. A copy keeps a last moment of
/// its own, and has the same start.
#[derive_where(Clone, Copy)]
pub struct SystemClock<'a, T: time::Clock> {
    time: &'a T,
    /// The system's time at the start, in milliseconds since 1970.
    start: u64,
    /// What the clock that only goes forward read then.
    started: Option<Instant>,
    last: u64,
}

/// The milliseconds since 1970 that the system's time is, below 2^64.
fn milliseconds(clock: &impl time::Clock) -> Option<u64> {
    let now = SystemTime::now(clock).ok()?;
    let since = now.duration_since(UNIX_EPOCH).ok()?;
    u64::try_from(since.as_millis()).ok()
}

impl<'a, T: time::Clock> SystemClock<'a, T> {
    /// A clock that starts now, and has told no moment.
    pub fn new(time: &'a T) -> Self
        ensures { result.last ≡ 0 }
    {
        SystemClock {
            time,
            start: milliseconds(time).unwrap_or(0),
            started: Instant::now(time).ok(),
            last: 0,
        }
    }

    /// The milliseconds that have passed since the start, below 2^64.
    fn passed(&self) -> Option<u64> {
        let passed = self.started?.elapsed(self.time).ok()?;
        u64::try_from(passed.as_millis()).ok()
    }
}

impl<'a, T: time::Clock> Clock for SystemClock<'a, T> {
    ghost use Rattle.std.specs.Prelude.{◌≡◌, ◌≤◌};

    // The moment that is told is kept, and is no less than the one before it.
    ghost ticks = { λ old moment new. (new.last ≡ moment) × (old.last ≤ moment) };

    fn now_ms(&mut self) -> u64 {
        let passed = self.passed().unwrap_or(0);
        self.last = self.last.max(self.start.saturating_add(passed));
        self.last
    }
}
