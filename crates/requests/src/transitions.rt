//! The state that a JSON object names.
ghost use Rattle.std.specs.Prelude.{◌≡◌};
ghost use Rattle.serde_json.specs.View.{view};
ghost use Rattle.requests.specs.Transitions.{state_named, state_of};

use crate::values::text_at;
use book::State;
use serde_json::Value;

#[tactic(auto, unfolding(crate::specs::Transitions::state_named))]
fn state_named(name: &str) -> Option<State>
    ensures { result ≡ state_named name.now }
{
    match name {
        "CLOSED" => Some(State::Closed),
        "OPEN" => Some(State::Open),
        "HALF_OPEN" => Some(State::HalfOpen),
        "DISABLED" => Some(State::Disabled),
        "METRICS_ONLY" => Some(State::MetricsOnly),
        "FORCED_OPEN" => Some(State::ForcedOpen),
        _ => None,
    }
}

/// The state that a JSON object has under `state`, by the name that the CircuitBreaker of the
/// Resilience4j documentation gives it. Other keys are ignored. None where it is missing, of another
/// kind or another name: the refusal `BadValue`.
pub fn state(value: &Value) -> Option<State>
    ensures { result ≡ state_of (view value.now) }
{
    state_named(text_at(value, "state")?)
}
