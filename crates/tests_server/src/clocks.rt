//! The clock of a server, over clocks of a system that a test sets.
use crate::checks::{same, same_at};
use http_front::Clock;
use sidecar_server::SystemClock;
use std::cell::Cell;
use std::io::ErrorKind;
use std::process::Abort;
use std::time::Duration;
use std::{io, time};

/// What the clocks of a system read, in milliseconds, and where a clock can't be read, nothing.
#[derive(Clone, Copy)]
struct Readings {
    /// The system's time, since 1970.
    since_1970: Option<u64>,
    /// The clock that only goes forward.
    monotonic: Option<u64>,
}

/// Clocks of a system that a test sets.
#[derive(Drop)]
struct Clocks {
    readings: Cell<Readings>,
}

/// What is read of a clock.
fn read(milliseconds: Option<u64>) -> io::Result<Duration> {
    match milliseconds {
        Some(milliseconds) => Ok(Duration::from_millis(milliseconds)),
        None => Err(ErrorKind::Unsupported.into()),
    }
}

impl time::Clock for Clocks {
    fn monotonic(&self) -> io::Result<Duration> {
        read(self.readings.get().monotonic)
    }

    fn since_1970(&self) -> io::Result<Duration> {
        read(self.readings.get().since_1970)
    }
}

/// A clock starts with the first of these readings, and tells these moments at them.
fn tells(rt: &impl Abort, rows: &[(Option<u64>, Option<u64>, u64)]) {
    let Some((since_1970, monotonic, _)) = rows.first() else {
        return;
    };
    let clocks = Clocks {
        readings: Cell::new(Readings {
            since_1970: *since_1970,
            monotonic: *monotonic,
        }),
    };
    let mut clock = SystemClock::new(&clocks);
    for (since_1970, monotonic, told) in rows {
        clocks.readings.set(Readings {
            since_1970: *since_1970,
            monotonic: *monotonic,
        });
        let mut copy = clock;
        same_at(rt, clock.now_ms(), *told, (*since_1970, *monotonic));
        same(rt, copy.now_ms(), *told);
    }
}

#[test]
fn a_time_that_is_set_costs_nothing(rt: HostRuntime) {
    tells(
        &rt,
        &[
            (Some(1_700_000_000_000), Some(5_000), 1_700_000_000_000),
            (Some(1_700_000_000_100), Some(5_100), 1_700_000_000_100),
            // An hour ahead, and back again; then a day back.
            (Some(1_700_003_600_200), Some(5_200), 1_700_000_000_200),
            (Some(1_700_000_000_300), Some(5_300), 1_700_000_000_300),
            (Some(1_699_913_600_400), Some(5_400), 1_700_000_000_400),
            // It can't be read.
            (None, Some(5_500), 1_700_000_000_500),
        ],
    );
}

#[test]
fn a_moment_is_told_again_where_nothing_can_be_read(rt: HostRuntime) {
    tells(
        &rt,
        &[
            (Some(1_000), Some(5_000), 1_000),
            (Some(1_100), Some(5_100), 1_100),
            (Some(1_200), None, 1_100),
            (Some(1_300), Some(5_300), 1_300),
            // A clock that goes back, though it should not.
            (Some(1_400), Some(5_200), 1_300),
            (Some(1_500), Some(4_000), 1_300),
            (Some(1_600), Some(5_600), 1_600),
        ],
    );
    tells(
        &rt,
        &[
            (Some(1_000), None, 1_000),
            (Some(1_100), Some(5_100), 1_000),
        ],
    );
}

#[test]
fn moments_count_on_from_0_without_a_time(rt: HostRuntime) {
    tells(
        &rt,
        &[
            (None, Some(5_000), 0),
            (Some(1_700_000_000_100), Some(5_100), 100),
            (None, Some(5_200), 200),
        ],
    );
    tells(&rt, &[(None, None, 0), (None, Some(5_000), 0)]);
}

#[test]
fn moments_end_at_the_last_one(rt: HostRuntime) {
    tells(
        &rt,
        &[
            (
                Some(18_446_744_073_709_551_614),
                Some(5_000),
                18_446_744_073_709_551_614,
            ),
            (Some(0), Some(5_001), 18_446_744_073_709_551_615),
            (Some(0), Some(9_000), 18_446_744_073_709_551_615),
        ],
    );
}
