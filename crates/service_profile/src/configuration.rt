//! The configuration of a service's breaker and bulkhead, with the names, defaults and ranges that
//! the Resilience4j documentation and this product give.
ghost use Rattle.std.specs.Prelude.{◌≡◌, None};
ghost use Rattle.service_profile.specs.Configuration.{bad_field, bad_limit, is_count_based, is_in, is_within, most_size, range_of};
ghost use Rattle.service_profile.specs.Configured.{configured};

use refusals::RefusalNumber;
use std::marker::Model;
use thiserror::Error;

/// How a sliding window is measured.
#[derive(Clone, Copy, Debug, PartialEq, Eq)]
pub enum SlidingWindowType {
    /// In calls: the window has as many of the last calls as its size says.
    CountBased,
    /// In seconds: the window has the calls of as many of the last seconds as its size says.
    TimeBased,
}

impl SlidingWindowType {
    /// Whether a window is measured in calls.
    pub fn is_count_based(self) -> bool
        ensures { result ≡ is_count_based self }
    {
        match self {
            SlidingWindowType::CountBased => true,
            SlidingWindowType::TimeBased => false,
        }
    }
}

/// The values that a configuration is made of.
#[derive(Clone, Copy, Debug, PartialEq, Eq)]
pub struct ConfigParts {
    /// Whole percent, 1 to 100.
    pub failure_rate_threshold: u64,
    /// Whole percent, 1 to 100.
    pub slow_call_rate_threshold: u64,
    /// Milliseconds, 1 to 2^32. A call is slow when it took longer.
    pub slow_call_duration_threshold: u64,
    /// 1 to 10,000 calls.
    pub permitted_number_of_calls_in_half_open_state: u64,
    /// Milliseconds, 0 to 2^40. HALF_OPEN ends with the first event that comes so long after it began, or later; with 0 it
    /// doesn't end by itself.
    pub max_wait_duration_in_half_open_state: u64,
    /// What the window's size counts.
    pub sliding_window_type: SlidingWindowType,
    /// 1 to 10,000 calls, or 1 to 3,600 seconds.
    pub sliding_window_size: u64,
    /// 1 to 1,000,000 calls.
    pub minimum_number_of_calls: u64,
    /// Milliseconds, 1 to 2^40.
    pub wait_duration_in_open_state: u64,
    /// 1 to 10,000 calls.
    pub max_concurrent_calls: u64,
    /// 0 alone: a call doesn't wait for a place.
    pub max_wait_duration: u64,
}

impl ConfigParts {
    /// The documented defaults.
    pub const DEFAULT: ConfigParts = ConfigParts {
        failure_rate_threshold: 50,
        slow_call_rate_threshold: 100,
        slow_call_duration_threshold: 60_000,
        permitted_number_of_calls_in_half_open_state: 10,
        max_wait_duration_in_half_open_state: 0,
        sliding_window_type: SlidingWindowType::CountBased,
        sliding_window_size: 100,
        minimum_number_of_calls: 100,
        wait_duration_in_open_state: 60_000,
        max_concurrent_calls: 25,
        max_wait_duration: 0,
    };
}

/// The fields of a configuration.
#[derive(Clone, Copy, Debug, PartialEq, Eq)]
pub enum ConfigField {
    FailureRateThreshold,
    SlowCallRateThreshold,
    SlowCallDurationThreshold,
    PermittedNumberOfCallsInHalfOpenState,
    MaxWaitDurationInHalfOpenState,
    SlidingWindowType,
    SlidingWindowSize,
    MinimumNumberOfCalls,
    WaitDurationInOpenState,
    MaxConcurrentCalls,
    MaxWaitDuration,
}

/// The numbers that a field may have, both ends included.
#[derive(Clone, Copy)]
pub struct Range {
    pub least: u64,
    pub most: u64,
}

impl Range {
    /// Whether a number lies in the range.
    pub fn contains(self, number: u64) -> bool
        ensures { result ≡ is_within self.least self.most number }
    {
        self.least <= number && number <= self.most
    }
}

/// A field of a configuration is out of its range. Its text names the field behind the refusal, as
/// `refused 47 BadConfig SlidingWindowSize`.
#[derive(Clone, Copy, Debug, PartialEq, Eq, Error)]
#[error("refused {} {} {:?}", .number.number(), .number.name(), .field)]
pub struct BadConfig {
    /// The first such field, in the order of `ConfigParts`.
    pub field: ConfigField,
    /// `BadConfig`.
    pub number: RefusalNumber,
}

/// A configuration in which each value is in its range. Contracts see its parts.
#[derive(Clone, Copy, Debug, PartialEq, Eq)]
pub struct Config {
    parts: ConfigParts,
}

impl Model for Config {
    ghost use Rattle.std.specs.Prelude.{◌≡◌, None};
    ghost use Rattle.service_profile.specs.declared.configuration.ConfigParts.{ConfigParts};

    ghost Value = { ConfigParts };

    ghost use Rattle.service_profile.specs.Configuration.{bad_field};

    ghost view = { λ c. c.parts };

    ghost invariant = { λ c. bad_field c.parts ≡ None };

    ghost inverse = { λ parts. record { parts = parts } };
}

/// The greatest size of a window, in calls or in seconds.
fn most_size(window: SlidingWindowType) -> u64
    ensures { result ≡ most_size window }
{
    match window {
        SlidingWindowType::CountBased => 10_000,
        SlidingWindowType::TimeBased => 3_600,
    }
}

impl ConfigField {
    /// The range of a number beside a window of this type; None for the type itself.
    pub fn range(self, window: SlidingWindowType) -> Option<Range>
        ensures { result ≡ range_of self window }
    {
        let (least, most) = match self {
            ConfigField::FailureRateThreshold | ConfigField::SlowCallRateThreshold => (1, 100),
            ConfigField::SlowCallDurationThreshold => (1, 1 << 32),
            ConfigField::PermittedNumberOfCallsInHalfOpenState | ConfigField::MaxConcurrentCalls =>
                (1, 10_000),
            ConfigField::MaxWaitDurationInHalfOpenState => (0, 1 << 40),
            ConfigField::SlidingWindowType => return None,
            ConfigField::SlidingWindowSize => (1, most_size(window)),
            ConfigField::MinimumNumberOfCalls => (1, 1_000_000),
            ConfigField::WaitDurationInOpenState => (1, 1 << 40),
            ConfigField::MaxWaitDuration => (0, 0),
        };
        Some(Range { least, most })
    }

    /// Whether the field may have this value beside a window of this type.
    fn takes(self, window: SlidingWindowType, number: u64) -> bool
        ensures { result ≡ is_in (range_of self window) number }
    {
        match self.range(window) {
            Some(range) => range.contains(number),
            None => true,
        }
    }
}

/// The first field of a window or of what limits calls that is out of its range.
fn bad_limit(parts: &ConfigParts) -> Option<ConfigField>
    ensures { result ≡ bad_limit parts.now }
{
    let window = parts.sliding_window_type;
    if !ConfigField::SlidingWindowSize.takes(window, parts.sliding_window_size) {
        return Some(ConfigField::SlidingWindowSize);
    }
    if !ConfigField::MinimumNumberOfCalls.takes(window, parts.minimum_number_of_calls) {
        return Some(ConfigField::MinimumNumberOfCalls);
    }
    if !ConfigField::WaitDurationInOpenState.takes(window, parts.wait_duration_in_open_state) {
        return Some(ConfigField::WaitDurationInOpenState);
    }
    if !ConfigField::MaxConcurrentCalls.takes(window, parts.max_concurrent_calls) {
        return Some(ConfigField::MaxConcurrentCalls);
    }
    if !ConfigField::MaxWaitDuration.takes(window, parts.max_wait_duration) {
        return Some(ConfigField::MaxWaitDuration);
    }
    None
}

/// The first field that is out of its range.
fn bad_field(parts: &ConfigParts) -> Option<ConfigField>
    ensures { result ≡ bad_field parts.now }
{
    let window = parts.sliding_window_type;
    if !ConfigField::FailureRateThreshold.takes(window, parts.failure_rate_threshold) {
        return Some(ConfigField::FailureRateThreshold);
    }
    if !ConfigField::SlowCallRateThreshold.takes(window, parts.slow_call_rate_threshold) {
        return Some(ConfigField::SlowCallRateThreshold);
    }
    if !ConfigField::SlowCallDurationThreshold.takes(window, parts.slow_call_duration_threshold) {
        return Some(ConfigField::SlowCallDurationThreshold);
    }
    if !ConfigField::PermittedNumberOfCallsInHalfOpenState.takes(
        window,
        parts.permitted_number_of_calls_in_half_open_state,
    ) {
        return Some(ConfigField::PermittedNumberOfCallsInHalfOpenState);
    }
    if !ConfigField::MaxWaitDurationInHalfOpenState.takes(
        window,
        parts.max_wait_duration_in_half_open_state,
    ) {
        return Some(ConfigField::MaxWaitDurationInHalfOpenState);
    }
    bad_limit(parts)
}

impl Config {
    /// The configuration of these parts, or the first field that is out of its range. It takes no
    /// memory.
    pub fn new(parts: ConfigParts) -> Result<Config, BadConfig>
        ensures { result ≡ configured parts }
    {
        match bad_field(&parts) {
            Some(field) => Err(BadConfig {
                field,
                number: RefusalNumber::BadConfig,
            }),
            None => Ok(Config { parts }),
        }
    }

    /// The parts, each in its range.
    pub fn parts(&self) -> ConfigParts
        ensures parts { result ≡ self.now }
        ensures ranges { bad_field result ≡ None }
    {
        self.parts
    }
}
