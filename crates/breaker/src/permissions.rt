//! Whether a call is permitted.
ghost use Rattle.std.specs.Prelude.{◌≡◌, ◌<◌, ◌+◌, ◌^◌};
ghost use Rattle.service_profile.specs.Machine.{half_open_permission, open_permission, permission_in, has_overstayed};

use crate::machine::is_half_open;
use service_profile::{ConfigParts, Permission, Standing, State};

/// In HALF_OPEN the notes and the permissions that are held are at most the permitted number of calls.
fn half_open_permission(
    config: &ConfigParts,
    standing: Standing,
    noted: u64,
    held: u64,
) -> Permission
    ensures { result ≡ half_open_permission config.now standing noted held }
{
    let left = config
        .permitted_number_of_calls_in_half_open_state
        .saturating_sub(held);
    Permission {
        given: noted < left,
        standing,
    }
}

/// Once the wait is over, a new period begins in HALF_OPEN.
fn open_permission(config: &ConfigParts, standing: Standing, moment: u64) -> Permission
    requires { standing.period + 1 < 2 ^ 64 }
    ensures { result ≡ open_permission config.now standing moment }
{
    if moment.saturating_sub(standing.since) < config.wait_duration_in_open_state {
        return Permission {
            given: false,
            standing,
        };
    }
    half_open_permission(config, standing.moved(State::HalfOpen, moment), 0, 0)
}

/// What a breaker says to a call, with so many notes and so many permissions held in its period.
pub(crate) fn permission_in(
    config: &ConfigParts,
    standing: Standing,
    noted: u64,
    held: u64,
    moment: u64,
) -> Permission
    requires { standing.period + 1 < 2 ^ 64 }
    ensures { result ≡ permission_in standing.state config.now standing noted held moment }
{
    match standing.state {
        State::Closed | State::MetricsOnly | State::Disabled => Permission {
            given: true,
            standing,
        },
        State::ForcedOpen => Permission {
            given: false,
            standing,
        },
        State::Open => open_permission(config, standing, moment),
        State::HalfOpen => half_open_permission(config, standing, noted, held),
    }
}

/// Whether a breaker has stood in HALF_OPEN for its longest stay; with a longest stay of 0 it never has.
pub(crate) fn has_overstayed(config: &ConfigParts, standing: Standing, moment: u64) -> bool
    ensures { result ≡ has_overstayed config.now standing moment }
{
    let longest = config.max_wait_duration_in_half_open_state;
    longest > 0 && is_half_open(standing.state) && moment.saturating_sub(standing.since) >= longest
}
