//! Configurations, as JSON objects.
ghost use Rattle.std.specs.Prelude.{◌≡◌};
ghost use Rattle.serde_json.specs.View.{view};
ghost use Rattle.requests.specs.Configurations.{key_of, window_named, window_at, number_of, parts_of, read_config};

use crate::keys::has_known_keys;
use crate::values::number_or;
use book::{Config, ConfigField, ConfigParts, SlidingWindowType};
use serde_json::Value;

/// What is wrong with a configuration.
#[derive(Clone, Copy, Debug, PartialEq, Eq)]
pub enum ConfigMistake {
    /// It is no object, or has a key that no configuration has.
    Keys,
    /// The value of this field is of the wrong kind, or out of its range.
    BadValue(ConfigField),
}

/// The key of a field.
pub fn config_key(field: ConfigField) -> &'static str
    ensures { result.now ≡ key_of field }
{
    match field {
        ConfigField::FailureRateThreshold => "failureRateThreshold",
        ConfigField::SlowCallRateThreshold => "slowCallRateThreshold",
        ConfigField::SlowCallDurationThreshold => "slowCallDurationThreshold",
        ConfigField::PermittedNumberOfCallsInHalfOpenState =>
            "permittedNumberOfCallsInHalfOpenState",
        ConfigField::MaxWaitDurationInHalfOpenState => "maxWaitDurationInHalfOpenState",
        ConfigField::SlidingWindowType => "slidingWindowType",
        ConfigField::SlidingWindowSize => "slidingWindowSize",
        ConfigField::MinimumNumberOfCalls => "minimumNumberOfCalls",
        ConfigField::WaitDurationInOpenState => "waitDurationInOpenState",
        ConfigField::MaxConcurrentCalls => "maxConcurrentCalls",
        ConfigField::MaxWaitDuration => "maxWaitDuration",
    }
}

/// The keys of a configuration.
pub const CONFIG_KEYS: &[&str] = &[
    "failureRateThreshold",
    "slowCallRateThreshold",
    "slowCallDurationThreshold",
    "permittedNumberOfCallsInHalfOpenState",
    "maxWaitDurationInHalfOpenState",
    "slidingWindowType",
    "slidingWindowSize",
    "minimumNumberOfCalls",
    "waitDurationInOpenState",
    "maxConcurrentCalls",
    "maxWaitDuration",
];

fn window_named(name: &str) -> Option<SlidingWindowType>
    ensures { result ≡ window_named name.now }
{
    match name {
        "COUNT_BASED" => Some(SlidingWindowType::CountBased),
        "TIME_BASED" => Some(SlidingWindowType::TimeBased),
        _ => None,
    }
}

/// The type of the window, count-based where the key is missing; None where it is another value than a type's name.
pub fn window(value: &Value) -> Option<SlidingWindowType>
    ensures { result ≡ window_at (view value.now) }
{
    match value.get(config_key(ConfigField::SlidingWindowType)) {
        None => Some(ConfigParts::DEFAULT.sliding_window_type),
        Some(found) => window_named(found.as_str()?),
    }
}

fn number(value: &Value, field: ConfigField, default: u64) -> Result<u64, ConfigMistake>
    ensures { result ≡ number_of field default (view value.now) }
{
    number_or(value, config_key(field), default).ok_or(ConfigMistake::BadValue(field))
}

/// The values, whatever their ranges are. A key that is missing has its default.
#[tactic(auto, unfolding(crate::specs::Configurations::parts_of))]
fn parts(value: &Value) -> Result<ConfigParts, ConfigMistake>
    ensures { result ≡ parts_of (view value.now) }
{
    let default = ConfigParts::DEFAULT;
    Ok(ConfigParts {
        failure_rate_threshold: number(
            value,
            ConfigField::FailureRateThreshold,
            default.failure_rate_threshold,
        )?,
        slow_call_rate_threshold: number(
            value,
            ConfigField::SlowCallRateThreshold,
            default.slow_call_rate_threshold,
        )?,
        slow_call_duration_threshold: number(
            value,
            ConfigField::SlowCallDurationThreshold,
            default.slow_call_duration_threshold,
        )?,
        permitted_number_of_calls_in_half_open_state: number(
            value,
            ConfigField::PermittedNumberOfCallsInHalfOpenState,
            default.permitted_number_of_calls_in_half_open_state,
        )?,
        max_wait_duration_in_half_open_state: number(
            value,
            ConfigField::MaxWaitDurationInHalfOpenState,
            default.max_wait_duration_in_half_open_state,
        )?,
        sliding_window_type: window(value).ok_or(ConfigMistake::BadValue(
            ConfigField::SlidingWindowType,
        ))?,
        sliding_window_size: number(
            value,
            ConfigField::SlidingWindowSize,
            default.sliding_window_size,
        )?,
        minimum_number_of_calls: number(
            value,
            ConfigField::MinimumNumberOfCalls,
            default.minimum_number_of_calls,
        )?,
        wait_duration_in_open_state: number(
            value,
            ConfigField::WaitDurationInOpenState,
            default.wait_duration_in_open_state,
        )?,
        max_concurrent_calls: number(
            value,
            ConfigField::MaxConcurrentCalls,
            default.max_concurrent_calls,
        )?,
        max_wait_duration: number(
            value,
            ConfigField::MaxWaitDuration,
            default.max_wait_duration,
        )?,
    })
}

/// The configuration that a JSON object describes. The keys are the names of the configuration
/// properties in the Resilience4j documentation, in camel case, and each may be missing. The error is the first mistake,
/// which is the refusal `BadConfig`: a value that is no object or has a key of another name, then a value of the
/// wrong kind, then one out of its range, each in the order of `ConfigParts`.
#[tactic(auto, unfolding(crate::specs::Configurations::read_config))]
pub fn config(value: &Value) -> Result<Config, ConfigMistake>
    ensures { result ≡ read_config (view value.now) }
{
    if !has_known_keys(CONFIG_KEYS, value) {
        return Err(ConfigMistake::Keys);
    }
    match Config::new(parts(value)?) {
        Ok(config) => Ok(config),
        Err(bad) => Err(ConfigMistake::BadValue(bad.field)),
    }
}
