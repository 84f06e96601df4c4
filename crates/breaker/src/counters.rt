//! Totals with one note more.
ghost use Rattle.std.specs.Prelude.{◌≡◌, ◌-◌, ◌^◌};
ghost use Rattle.service_profile.specs.RunningTotals.{with_note, AreTotals};

use service_profile::{Note, Totals};

/// The totals with one note more.
pub(crate) fn with_note(totals: Totals, note: Note) -> Totals
    requires { AreTotals (2 ^ 64 - 9) totals }
    ensures { result ≡ with_note totals note }
{
    Totals {
        total: totals.total + 1,
        failed: totals.failed + u64::from(note.failed),
        slow: totals.slow + u64::from(note.slow),
    }
}
