//! Configurations, as plain data.
use book::{ConfigParts, SlidingWindowType};

/// What differs from the default configuration.
#[derive(Clone, Copy)]
pub enum Part {
    /// How many calls may be made at once.
    Places(u64),
    /// How many calls are permitted in HALF_OPEN.
    Trials(u64),
    /// The longest stay in HALF_OPEN, and the wait in OPEN, in milliseconds.
    LongestStay(u64),
    Wait(u64),
    /// A window of so many calls.
    Calls(u64),
    /// A window of so many seconds.
    Seconds(u64),
    /// How many calls show rates.
    Minimum(u64),
}

/// The configuration that differs from the default one in these parts.
pub fn config_parts(parts: &[Part]) -> ConfigParts {
    let mut config = ConfigParts::DEFAULT;
    for part in parts {
        config = with_part(config, *part);
    }
    config
}

fn with_part(config: ConfigParts, part: Part) -> ConfigParts {
    let mut config = config;
    match part {
        Part::Places(count) => config.max_concurrent_calls = count,
        Part::Trials(count) => config.permitted_number_of_calls_in_half_open_state = count,
        Part::LongestStay(wait) => config.max_wait_duration_in_half_open_state = wait,
        Part::Wait(wait) => config.wait_duration_in_open_state = wait,
        Part::Calls(size) => config.sliding_window_size = size,
        Part::Seconds(size) => {
            config.sliding_window_type = SlidingWindowType::TimeBased;
            config.sliding_window_size = size;
        }
        Part::Minimum(count) => config.minimum_number_of_calls = count,
    }
    config
}
