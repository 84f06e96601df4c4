//! Rates of failures and of slow calls, and when a breaker trips.
ghost use Rattle.std.specs.Prelude.{◌≡◌, ◌<◌, ◌≤◌, ◌+◌, ◌^◌};
ghost use Rattle.service_profile.specs.Rates.{minimum_in_window, minimum, reaches, either_reaches, after_totals, shown_rate};

use service_profile::{Config, ConfigParts, Standing, State, Totals};

/// From how many notes in the window on the rates are used.
fn minimum_in_window(config: &ConfigParts) -> u64
    ensures { result ≡ minimum_in_window config.now }
{
    let calls = config.minimum_number_of_calls;
    if config.sliding_window_type.is_count_based() {
        calls.min(config.sliding_window_size)
    } else {
        calls
    }
}

/// From how many notes on the rates are used.
pub(crate) fn minimum(config: &ConfigParts, state: State) -> u64
    ensures { result ≡ minimum config.now state }
{
    match state {
        State::HalfOpen => config.permitted_number_of_calls_in_half_open_state,
        _ => minimum_in_window(config),
    }
}

/// Whether a part of the total reaches a threshold in percent.
fn reaches(threshold: u64, total: u64, part: u64) -> bool
    requires { threshold ≤ 100 }
    ensures { result ≡ reaches threshold total part }
{
    u128::from(threshold) * u128::from(total) <= 100 * u128::from(part)
}

/// Whether the failures or the slow calls reach their threshold.
fn either_reaches(config: &Config, totals: Totals) -> bool
    ensures { result ≡ either_reaches config.now totals }
{
    let parts = config.parts();
    reaches(parts.failure_rate_threshold, totals.total, totals.failed)
        || reaches(parts.slow_call_rate_threshold, totals.total, totals.slow)
}

/// Where a breaker stands after a note, by the totals with that note.
pub(crate) fn after_totals(
    config: &Config,
    moment: u64,
    standing: Standing,
    totals: Totals,
) -> Standing
    requires { standing.period + 1 < 2 ^ 64 }
    ensures { result ≡ after_totals config.now moment standing standing.state totals }
{
    let reached = totals.total >= minimum(&config.parts(), standing.state);
    match standing.state {
        State::Closed => {
            if reached && either_reaches(config, totals) {
                standing.moved(State::Open, moment)
            } else {
                standing
            }
        }
        State::HalfOpen => {
            if !reached {
                standing
            } else if either_reaches(config, totals) {
                standing.moved(State::Open, moment)
            } else {
                standing.moved(State::Closed, moment)
            }
        }
        _ => standing,
    }
}

/// A part of the total in whole percent, rounded down; none below the least total, and none of nothing.
pub(crate) fn shown_rate(least: u64, total: u64, part: u64) -> Option<u64>
    requires { part ≤ total }
    ensures { result ≡ shown_rate least total part }
{
    if total < least || total == 0 {
        return None;
    }
    Some((100 * u128::from(part) / u128::from(total)) as u64)
}
