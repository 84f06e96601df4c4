//! Configurations with a field out of its range, which the error names. Those that are accepted at the ends of their ranges
//! stand in checks/rows.
use crate::checks::{same, same_at};
use service_profile::{Config, ConfigField, ConfigParts, SlidingWindowType};
use std::process::Abort;
use std::test::Fail;

/// Parts, and the field that is out of its range.
type Judged = (ConfigParts, ConfigField);

/// Each of these parts is refused by its field.
fn are_judged(rt: &impl Abort, rows: &[Judged]) {
    for (index, row) in rows.iter().enumerate() {
        let (parts, field) = *row;
        same_at(rt, refused(parts), Some(field), index);
    }
}

/// The field of these parts that is out of its range.
fn refused(parts: ConfigParts) -> Option<ConfigField> {
    match Config::new(parts) {
        Ok(_) => None,
        Err(bad) => Some(bad.field),
    }
}

const DEFAULT: ConfigParts = ConfigParts::DEFAULT;

#[test]
fn fields_out_of_range_are_named(rt: HostRuntime) {
    are_judged(
        &rt,
        &[
            (
                ConfigParts {
                    failure_rate_threshold: 101,
                    ..DEFAULT
                },
                ConfigField::FailureRateThreshold,
            ),
            (
                ConfigParts {
                    wait_duration_in_open_state: (1 << 40) + 1,
                    ..DEFAULT
                },
                ConfigField::WaitDurationInOpenState,
            ),
            (
                ConfigParts {
                    max_wait_duration: 5,
                    ..DEFAULT
                },
                ConfigField::MaxWaitDuration,
            ),
            (
                ConfigParts {
                    max_wait_duration_in_half_open_state: (1 << 40) + 1,
                    ..DEFAULT
                },
                ConfigField::MaxWaitDurationInHalfOpenState,
            ),
            (
                ConfigParts {
                    slow_call_rate_threshold: 0,
                    max_concurrent_calls: 0,
                    ..DEFAULT
                },
                ConfigField::SlowCallRateThreshold,
            ),
            (
                ConfigParts {
                    sliding_window_type: SlidingWindowType::TimeBased,
                    sliding_window_size: 3_601,
                    ..DEFAULT
                },
                ConfigField::SlidingWindowSize,
            ),
            (
                ConfigParts {
                    sliding_window_size: 10_001,
                    ..DEFAULT
                },
                ConfigField::SlidingWindowSize,
            ),
        ],
    );
}

#[test]
fn text_of_a_bad_configuration(rt: HostRuntime) -> Result<(), Fail> {
    let mut parts = ConfigParts::DEFAULT;
    parts.sliding_window_size = 0;
    match Config::new(parts) {
        Ok(_) => assert!(rt; false, "a window of no calls"),
        Err(bad) => {
            let text = format!(in rt.alloc(); "{bad}")?;
            same(&rt, text.as_str(), "refused 47 BadConfig SlidingWindowSize");
        }
    }
    Ok(())
}
