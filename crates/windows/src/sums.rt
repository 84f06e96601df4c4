//! Sums of totals.
ghost use Rattle.std.specs.Prelude.{◌≡◌, ◌-◌, ◌^◌};
ghost use Rattle.service_profile.specs.RunningTotals.{AreTotals};
ghost use Rattle.windows.specs.Sums.{plus, minus, one_note, IsPart};

use service_profile::Totals;

/// The totals of one note.
pub(crate) fn one_note(failed: bool, slow: bool) -> Totals
    ensures { result ≡ one_note failed slow }
{
    Totals {
        total: 1,
        failed: u64::from(failed),
        slow: u64::from(slow),
    }
}

pub(crate) fn plus(a: Totals, b: Totals) -> Totals
    requires { AreTotals (2 ^ 64 - 1) (plus a b) }
    ensures { result ≡ plus a b }
{
    Totals {
        total: a.total + b.total,
        failed: a.failed + b.failed,
        slow: a.slow + b.slow,
    }
}

pub(crate) fn minus(whole: Totals, part: Totals) -> Totals
    requires { IsPart part whole }
    ensures { result ≡ minus whole part }
{
    Totals {
        total: whole.total - part.total,
        failed: whole.failed - part.failed,
        slow: whole.slow - part.slow,
    }
}
