//! Where a breaker stands, and its transitions.
ghost use Rattle.std.specs.Prelude.{◌≡◌, ◌<◌, ◌+◌, ◌^◌};
ghost use Rattle.service_profile.specs.Machine.{fate_of};
ghost use Rattle.service_profile.specs.Standings.{moved};

use crate::replies::Fate;
use crate::states::State;
use bpf_profile::Verdict;

/// Where a breaker stands: its state, the number of its period, and since when, in milliseconds.
#[derive(Clone, Copy, Debug, PartialEq, Eq)]
pub struct Standing {
    pub state: State,
    /// Every transition starts the next period.
    pub period: u64,
    pub since: u64,
}

impl Standing {
    /// The standing after a transition to a state at a moment, in milliseconds. The next period
    /// begins then, also where the state stays the same.
    pub fn moved(self, state: State, moment: u64) -> Standing
        requires { self.period + 1 < 2 ^ 64 }
        ensures { result ≡ moved state moment self }
    {
        Standing {
            state,
            period: self.period + 1,
            since: moment,
        }
    }

    /// What becomes of a verdict under a ticket of a period, where the breaker stands so:
    /// `Stale` where that period is over, then `Off` in DISABLED, then `Ignored` where the
    /// program says so, else `Recorded`.
    pub fn fate_of(self, period: u64, verdict: Verdict) -> Fate
        ensures { result ≡ fate_of self period verdict }
    {
        if period != self.period {
            return Fate::Stale;
        }
        match (self.state, verdict) {
            (State::Disabled, _) => Fate::Off,
            (_, Verdict::Ignored) => Fate::Ignored,
            _ => Fate::Recorded,
        }
    }
}
