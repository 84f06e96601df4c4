//! How many threads the system gives.
use event_loop::Meeting;
use std::alloc::{AllocError, Global};
use std::thread::Threads;
use std::{thread, time};

/// Starts so many threads that wait for each other, half a second at most, and returns how many of them ran at once.
/// Fewer than were wanted say that the system gives no more. No clause says anything of it, since none knows of the
/// system. The error is want of memory.
pub fn threads_at_once<R: Threads + time::Clock + Sync>(
    rt: &R,
    alloc: Global,
    wanted: usize,
) -> Result<u64, AllocError> {
    let meeting = Meeting::new(wanted as u64);
    let shared = &meeting;
    let seen = thread::map_indices(
        rt,
        alloc,
        wanted,
        &|_number: usize| -> u64 { shared.attend(rt) },
    )?;
    Ok(seen.iter().copied().min().unwrap_or(0))
}
