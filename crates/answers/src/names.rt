//! The words that answers have for states and fates.
ghost use Rattle.std.specs.Prelude.{◌≡◌};
ghost use Rattle.answers.specs.Texts.{state_name, fate_name};

use book::{Fate, State};

/// The name of a state, as the CircuitBreaker of the Resilience4j documentation has it.
pub fn state_name(state: State) -> &'static str
    ensures { result.now ≡ state_name state }
{
    match state {
        State::Closed => "CLOSED",
        State::Open => "OPEN",
        State::HalfOpen => "HALF_OPEN",
        State::Disabled => "DISABLED",
        State::MetricsOnly => "METRICS_ONLY",
        State::ForcedOpen => "FORCED_OPEN",
    }
}

/// The word for what became of a verdict.
pub(crate) fn fate_name(fate: Fate) -> &'static str
    ensures { result.now ≡ fate_name fate }
{
    match fate {
        Fate::Recorded => "recorded",
        Fate::Ignored => "ignored",
        Fate::Off => "off",
        Fate::Stale => "stale",
    }
}
