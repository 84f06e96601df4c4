//! The window over the last notes.
ghost use Rattle.std.specs.Prelude.{◌≡◌, ◌<◌, ◌≤◌, ◌^◌, ◌∷◌, ◌++◌, ℕ, List, [], IfOk};
ghost use Rattle.circular_buffer.specs.Buffer.{keep_last};
ghost use Rattle.service_profile.specs.declared.notes.Note.{Note as ANote};
ghost use Rattle.service_profile.specs.Windows.{last};
ghost use Rattle.windows.specs.Rings.{leaving, totals_of_outcome, IsOutcomeRing};
ghost use Rattle.windows.specs.Sums.{sum_of};

use crate::outcomes::Outcome;
use crate::sums::{minus, one_note, plus};
use crate::window::Window;
use circular_buffer::HeapCircularBuffer;
use service_profile::Totals;
use std::alloc::{AllocError, Global};
use std::marker::Model;

/// The last notes, so many, as a ring of their outcomes with their totals. Each call but `clear` takes the
/// same time, however many notes there are.
#[derive(Drop)]
pub struct CountWindow {
    size: u64,
    ring: HeapCircularBuffer<Outcome>,
    totals: Totals,
}

impl Model for CountWindow {
    ghost use Rattle.windows.specs.Held.{HeldOutcomes};
    ghost use Rattle.windows.specs.Rings.{IsOutcomeRing};

    ghost Value = { HeldOutcomes };

    ghost view = { λ window. record { size = window.size; outcomes = window.ring.items } };

    ghost invariant = { λ window. IsOutcomeRing window.size window.ring window.totals };
}

/// The outcome that leaves the ring once there is one more.
fn leaving(ring: &HeapCircularBuffer<Outcome>) -> Option<Outcome>
    ensures { result ≡ leaving ring.now.capacity ring.now.items }
{
    if ring.is_full() {
        ring.front().copied()
    } else {
        None
    }
}

/// The totals of a ring once there is one outcome more.
fn totals_after(ring: &HeapCircularBuffer<Outcome>, totals: Totals, outcome: Outcome) -> Totals
    requires { IsOutcomeRing ring.now.capacity ring.now totals }
    ensures { result ≡ sum_of totals_of_outcome (keep_last ring.now.capacity (ring.now.items ++ outcome ∷ [])) }
{
    let staying = match leaving(ring) {
        Some(oldest) => minus(totals, one_note(oldest.failed, oldest.slow)),
        None => totals,
    };
    plus(staying, one_note(outcome.failed, outcome.slow))
}

impl CountWindow {
    /// A window over the last `size` notes, at least 1 and below 2^32. It takes all its memory here: room
    /// for an outcome of each note.
    pub fn new(alloc: Global, size: u64) -> Result<CountWindow, AllocError>
        requires { (1 ≤ size) × (size < 2 ^ 32) }
        ensures kept { IfOk result (λ window. ⟦<CountWindow as Window>⟧.keeps window []) }
        ensures counted { IfOk result (λ window. (moment : ℕ) (notes : List ANote) → ⟦<CountWindow as Window>⟧.counted window moment notes ≡ last size notes) }
    {
        let ring = HeapCircularBuffer::with_capacity(alloc, size as usize)?;
        Ok(CountWindow {
            size,
            ring,
            totals: Totals::NONE,
        })
    }
}

impl Window for CountWindow {
    ghost use Rattle.std.specs.Prelude.{◌≡◌};
    ghost use Rattle.service_profile.specs.Windows.{last};
    ghost use Rattle.windows.specs.Kept.{KeepsOutcomes};

    ghost keeps = { KeepsOutcomes };

    ghost counted = { λ window moment notes. last window.size notes };

    ghost has_room = { λ window. Unit {0} };

    ghost few_leave_room = { λ window notes kept few. tt };

    /// There is room always.
    fn has_room_for_note(&self) -> bool {
        true
    }

    fn record(&mut self, _moment: u64, failed: bool, slow: bool) {
        let outcome = Outcome { failed, slow };
        self.totals = totals_after(&self.ring, self.totals, outcome);
        self.ring.push_back(outcome);
    }

    fn totals(&self, _moment: u64) -> Totals {
        self.totals
    }

    fn totals_with(&self, _moment: u64, failed: bool, slow: bool) -> Totals {
        totals_after(&self.ring, self.totals, Outcome { failed, slow })
    }

    /// It takes time that goes with the number of notes.
    fn clear(&mut self) {
        self.ring.clear();
        self.totals = Totals::NONE;
    }
}
