//! What a breaker asks of a sliding window.
ghost use Rattle.std.specs.Prelude.{◌≡◌, ◌<◌, ◌-◌, ◌^◌, ◌++◌, ◌∷◌, [], ℕ, List, length, IsTrue, ◌↔◌};
ghost use Rattle.service_profile.specs.declared.notes.Note.{Note as ANote};
ghost use Rattle.service_profile.specs.Windows.{totals_of};
ghost use Rattle.service_profile.specs.RunningTotals.{AreTotals};
ghost use Rattle.windows.specs.Notes.{AreNotAfter};

use service_profile::Totals;

/// A sliding window. Contracts speak of the whole list of notes since the window was made or cleared, the
/// oldest first; a window holds less than that. No call takes memory.
pub trait Window {
    /// Whether these are all notes since the window was made or cleared, the oldest first.
    ghost keeps: { Self → List ANote → Type 0 };

    /// The notes among these that count at a moment.
    ghost counted: { Self → ℕ → List ANote → List ANote };

    /// Whether one note more can be counted. A window that keeps fewer than 2^64 - 8 notes has room.
    ghost has_room: { Self → Type 0 };

    /// Whether one note more can be counted.
    fn has_room_for_note(&self) -> bool
        ensures { IsTrue result ↔ has_room self.now };

    /// Adds a note. Its moment, in milliseconds, is not before that of a note which was added.
    fn record(&mut self, moment: u64, failed: bool, slow: bool)
        requires { has_room self.old }
        ensures kept { (notes : List ANote) → keeps self.old notes → AreNotAfter moment notes → keeps self.new (notes ++ (record { moment = moment; failed = failed; slow = slow }) ∷ []) }
        ensures same { counted self.new ≡ counted self.old };

    /// The totals over the notes that count at a moment, in milliseconds, that is not before a note's.
    fn totals(&self, moment: u64) -> Totals
        ensures exact { (notes : List ANote) → keeps self.now notes → AreNotAfter moment notes → result ≡ totals_of (counted self.now moment notes) }
        ensures fits { AreTotals result.total result };

    /// The totals that there would be with one note more, at a moment, in milliseconds, that is not before
    /// a note's. The window stays as it is.
    fn totals_with(&self, moment: u64, failed: bool, slow: bool) -> Totals
        requires { has_room self.now }
        ensures { (notes : List ANote) → keeps self.now notes → AreNotAfter moment notes → result ≡ totals_of (counted self.now moment (notes ++ (record { moment = moment; failed = failed; slow = slow }) ∷ [])) };

    /// Forgets all notes.
    fn clear(&mut self)
        ensures kept { keeps self.new [] }
        ensures same { counted self.new ≡ counted self.old };

    /// Few notes leave room for one more.
    ghost few_leave_room: { (window : Self) (notes : List ANote) → keeps window notes → length notes < 2 ^ 64 - 8 → has_room window };
}
