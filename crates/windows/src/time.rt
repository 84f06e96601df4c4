//! The window over the notes of the last seconds.
ghost use Rattle.std.specs.Prelude.{◌≡◌, ◌<◌, ◌≤◌, ◌^◌, ℕ, List, [], IfOk};
ghost use Rattle.service_profile.specs.declared.notes.Note.{Note as ANote};
ghost use Rattle.windows.specs.Notes.{recent};

use crate::buckets::{Bucket, add, drop_fallen, totals_left};
use crate::sums::{one_note, plus};
use crate::window::Window;
use circular_buffer::HeapCircularBuffer;
use service_profile::{MOST_NOTES, Totals};
use std::alloc::{AllocError, Global};
use std::marker::Model;

/// The notes of the last seconds, so many, as a ring of buckets with their totals. Only a second that has a
/// note has a bucket, so that a long gap costs nothing.
#[derive(Drop)]
pub struct TimeWindow {
    size: u64,
    ring: HeapCircularBuffer<Bucket>,
    totals: Totals,
}

impl Model for TimeWindow {
    ghost use Rattle.windows.specs.Held.{HeldBuckets};
    ghost use Rattle.windows.specs.Rings.{IsBucketRing};

    ghost Value = { HeldBuckets };

    ghost view = { λ window. record { size = window.size; buckets = window.ring.items } };

    ghost invariant = { λ window. IsBucketRing window.size window.ring window.totals };
}

impl TimeWindow {
    /// A window over the last `size` seconds, at least 1 and below 2^32. It takes all its memory here: room
    /// for a bucket of each second.
    pub fn new(alloc: Global, size: u64) -> Result<TimeWindow, AllocError>
        requires { (1 ≤ size) × (size < 2 ^ 32) }
        ensures kept { IfOk result (λ window. ⟦<TimeWindow as Window>⟧.keeps window []) }
        ensures counted { IfOk result (λ window. (moment : ℕ) (notes : List ANote) → ⟦<TimeWindow as Window>⟧.counted window moment notes ≡ recent size moment notes) }
    {
        let ring = HeapCircularBuffer::with_capacity(alloc, size as usize)?;
        Ok(TimeWindow {
            size,
            ring,
            totals: Totals::NONE,
        })
    }
}

impl Window for TimeWindow {
    ghost use Rattle.std.specs.Prelude.{◌≡◌};
    ghost use Rattle.windows.specs.Kept.{KeepsBuckets, HasRoomForOne};
    ghost use Rattle.windows.specs.KeptLaws.{few_notes_leave_room};
    ghost use Rattle.windows.specs.Notes.{recent};

    ghost keeps = { KeepsBuckets };

    ghost counted = { λ window moment notes. recent window.size moment notes };

    ghost has_room = { HasRoomForOne };

    ghost few_leave_room = { few_notes_leave_room };

    /// There is room where the notes in the window are fewer than 2^64 - 8.
    fn has_room_for_note(&self) -> bool {
        let Totals {
            total,
            failed,
            slow,
        } = self.totals;
        total <= MOST_NOTES && failed <= MOST_NOTES && slow <= MOST_NOTES
    }

    /// It goes over the buckets that fell out since the last note, and drops them: over many notes, each
    /// takes the same time.
    fn record(&mut self, moment: u64, failed: bool, slow: bool) {
        let second = moment / 1000;
        let one = one_note(failed, slow);
        let staying = drop_fallen(&mut self.ring, self.totals, self.size, second);
        add(&mut self.ring, second, one);
        self.totals = plus(staying, one);
    }

    /// It goes over the buckets that fell out since the last note, and so over as many as the window has
    /// seconds at most. Right after a note it goes over none.
    fn totals(&self, moment: u64) -> Totals {
        totals_left(&self.ring, self.totals, self.size, moment / 1000)
    }

    /// It goes over the buckets that fell out since the last note.
    fn totals_with(&self, moment: u64, failed: bool, slow: bool) -> Totals {
        let staying = totals_left(&self.ring, self.totals, self.size, moment / 1000);
        plus(staying, one_note(failed, slow))
    }

    /// It takes time that goes with the number of buckets.
    fn clear(&mut self) {
        self.ring.clear();
        self.totals = Totals::NONE;
    }
}
