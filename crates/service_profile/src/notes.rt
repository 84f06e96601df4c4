//! What a breaker notes of calls, and totals of notes.
ghost use Rattle.std.specs.Prelude.{◌≡◌, ◌<◌, ◌^◌};
ghost use Rattle.service_profile.specs.RunningTotals.{with_note};

/// What a recorded verdict leaves.
#[derive(Clone, Copy, Debug, PartialEq, Eq)]
pub struct Note {
    /// Milliseconds.
    pub moment: u64,
    /// Whether the verdict is a failure.
    pub failed: bool,
    /// Whether the call took longer than the threshold.
    pub slow: bool,
}

/// How many notes count: all of them, those that failed, and those that were slow.
#[derive(Clone, Copy, Debug, PartialEq, Eq)]
pub struct Totals {
    pub total: u64,
    pub failed: u64,
    pub slow: u64,
}

impl Totals {
    /// The totals of no note.
    pub const NONE: Totals = Totals {
        total: 0,
        failed: 0,
        slow: 0,
    };

    /// The totals with one note more.
    pub fn with(self, note: Note) -> Totals
        requires { (self.total < 2 ^ 48) × (self.failed < 2 ^ 48) × (self.slow < 2 ^ 48) }
        ensures { result ≡ with_note self note }
    {
        Totals {
            total: self.total + 1,
            failed: self.failed + u64::from(note.failed),
            slow: self.slow + u64::from(note.slow),
        }
    }
}
