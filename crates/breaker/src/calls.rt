//! The calls of a breaker that decide and commit at once. A book has to decide on more than its breaker before anything
//! changes: it takes the steps of which these calls are made, and calls `give_back` and `metrics` alone of them.
ghost use Rattle.std.specs.Prelude.{◌≡◌};

use crate::machine::Breaker;
use crate::metrics::Metrics;
use crate::permissions::has_overstayed;
use crate::rates::{minimum, shown_rate};
use bpf_profile::Verdict;
use service_profile::{Fate, Note, Standing, State};

impl Breaker {
    ghost use Rattle.std.specs.Prelude.{◌≡◌, ◌<◌, ◌+◌, ◌-◌, ◌^◌};
    ghost use Rattle.breaker.specs.Situations.{BreakerSituation, StandsFor, HasRoom};
    ghost use Rattle.breaker.specs.Calls.{permission_of, expired, permitted_period, permitted, fate_in, recorded, given_back, moved_to, metrics_of};
    ghost use Rattle.windows.specs.Notes.{AreNotAfter};

    /// Ends a stay in HALF_OPEN that has lasted as long as it may at a moment, in milliseconds: a period in OPEN begins.
    /// Elsewhere, and before that, nothing changes. A book takes `after_stay` in its place.
    pub fn expire(&mut self, moment: u64)
        requires { self.old.standing.period + 1 < 2 ^ 64 }
        ensures { (s : BreakerSituation) → StandsFor self.old s → StandsFor self.new (expired moment s) }
    {
        if has_overstayed(&self.config.parts(), self.standing, moment) {
            self.move_to(moment, State::Open);
        }
    }

    /// Asks for a permission for a call at a moment, in milliseconds. Returns the period of the permission, which is
    /// held from then on; None where the breaker refuses the call. Once the wait in OPEN is over, the call begins a
    /// period in HALF_OPEN.
    pub fn permit(&mut self, moment: u64) -> Option<u64>
        requires period { self.old.standing.period + 1 < 2 ^ 64 }
        requires held { self.old.held < 2 ^ 64 - 8 }
        ensures period { (s : BreakerSituation) → StandsFor self.old s → result ≡ permitted_period (permission_of moment s) }
        ensures stands { (s : BreakerSituation) → StandsFor self.old s → StandsFor self.new (permitted moment s) }
    {
        let permission = self.permission(moment);
        self.follow(permission.standing, None);
        if !permission.given {
            return None;
        }
        self.take_permission();
        Some(permission.standing.period)
    }

    /// Records the verdict of a call that was permitted in a period, and ends its permission. The moment,
    /// in milliseconds, is not before that of a note of the period.
    pub fn record(&mut self, moment: u64, period: u64, failed: bool, slow: bool) -> Fate
        // Where the call's period is the present one, its permission is held.
        requires held { period ≡ self.old.standing.period → 0 < self.old.held }
        requires room { HasRoom self.old }
        requires period { self.old.standing.period + 1 < 2 ^ 64 }
        ensures fate { result ≡ fate_in self.old.standing period }
        ensures stands { (s : BreakerSituation) → StandsFor self.old s → AreNotAfter moment s.notes → StandsFor self.new (recorded period (record { moment = moment; failed = failed; slow = slow }) s) }
    {
        let note = Note {
            moment,
            failed,
            slow,
        };
        let fate = self.standing.fate_of(period, Verdict::Success);
        match fate {
            Fate::Stale => {}
            Fate::Recorded => {
                let next = self.after_note(note);
                self.return_permission();
                self.follow(next, Some(note));
            }
            _ => self.return_permission(),
        }
        fate
    }

    /// Gives back a permission of a period. Where the period is over, nothing changes.
    pub fn give_back(&mut self, period: u64)
        // Where the period is the present one, a permission of it is held.
        requires { period ≡ self.old.standing.period → 0 < self.old.held }
        ensures { (s : BreakerSituation) → StandsFor self.old s → StandsFor self.new (given_back period s) }
    {
        if period == self.standing.period {
            self.return_permission();
        }
    }

    /// Moves the breaker to a state at a moment, in milliseconds. A period begins, also in the same state.
    pub fn move_to(&mut self, moment: u64, state: State)
        requires { self.old.standing.period + 1 < 2 ^ 64 }
        ensures { (s : BreakerSituation) → StandsFor self.old s → StandsFor self.new (moved_to state moment s) }
    {
        self.begin_period(self.standing.moved(state, moment));
    }

    /// How the breaker stands, and what counts at a moment, in milliseconds, that is not before that of a
    /// note of the period.
    pub fn metrics(&self, moment: u64) -> Metrics
        ensures { (s : BreakerSituation) → StandsFor self.now s → AreNotAfter moment s.notes → result ≡ metrics_of moment s }
    {
        let totals = self.totals(moment);
        let Standing {
            state,
            period,
            since,
        } = self.standing;
        let least = minimum(&self.config.parts(), state);
        Metrics {
            state,
            period,
            since,
            total: totals.total,
            failed: totals.failed,
            slow: totals.slow,
            failure_rate: shown_rate(least, totals.total, totals.failed),
            slow_rate: shown_rate(least, totals.total, totals.slow),
        }
    }
}
