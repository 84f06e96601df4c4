//! A sliding window of either kind.
ghost use Rattle.std.specs.Prelude.{◌≡◌, [], IfOk};
ghost use Rattle.breaker.specs.Sliding.{IsConfigured};

use service_profile::{Config, SlidingWindowType};
use std::alloc::{AllocError, Global};
use windows::{CountWindow, TimeWindow, Totals, Window};

/// A sliding window as a configuration wants it.
#[derive(Drop)]
pub enum SlidingWindow {
    /// Over the last calls, so many.
    Count(CountWindow),
    /// Over the calls of the last seconds, so many.
    Time(TimeWindow),
}

impl SlidingWindow {
    /// The window of a configuration, with no note. It takes all its memory here.
    pub(crate) fn new(alloc: Global, config: &Config) -> Result<SlidingWindow, AllocError>
        ensures kept { IfOk result (λ window. ⟦<SlidingWindow as Window>⟧.keeps window []) }
        ensures configured { IfOk result (IsConfigured config.now) }
    {
        let parts = config.parts();
        match parts.sliding_window_type {
            SlidingWindowType::CountBased => {
                let window = CountWindow::new(alloc, parts.sliding_window_size)?;
                Ok(SlidingWindow::Count(window))
            }
            SlidingWindowType::TimeBased => {
                let window = TimeWindow::new(alloc, parts.sliding_window_size)?;
                Ok(SlidingWindow::Time(window))
            }
        }
    }
}

impl Window for SlidingWindow {
    ghost use Rattle.std.specs.Prelude.{◌≡◌};
    ghost use Rattle.breaker.specs.Sliding.{KeepsNotes, counts_in, HasRoomInWindow};
    ghost use Rattle.breaker.specs.SlidingLaws.{few_notes_leave_room};

    ghost keeps = { KeepsNotes };

    ghost counted = { counts_in };

    ghost has_room = { HasRoomInWindow };

    ghost few_leave_room = { few_notes_leave_room };

    fn has_room_for_note(&self) -> bool {
        match self {
            SlidingWindow::Count(window) => window.has_room_for_note(),
            SlidingWindow::Time(window) => window.has_room_for_note(),
        }
    }

    fn record(&mut self, moment: u64, failed: bool, slow: bool) {
        match self {
            SlidingWindow::Count(window) => window.record(moment, failed, slow),
            SlidingWindow::Time(window) => window.record(moment, failed, slow),
        }
    }

    fn totals(&self, moment: u64) -> Totals {
        match self {
            SlidingWindow::Count(window) => window.totals(moment),
            SlidingWindow::Time(window) => window.totals(moment),
        }
    }

    fn totals_with(&self, moment: u64, failed: bool, slow: bool) -> Totals {
        match self {
            SlidingWindow::Count(window) => window.totals_with(moment, failed, slow),
            SlidingWindow::Time(window) => window.totals_with(moment, failed, slow),
        }
    }

    fn clear(&mut self) {
        match self {
            SlidingWindow::Count(window) => window.clear(),
            SlidingWindow::Time(window) => window.clear(),
        }
    }
}
