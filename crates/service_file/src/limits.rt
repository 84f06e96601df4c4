//! How many workers there are, how many connections may be open at once, and how old a ticket may get.
ghost use Rattle.std.specs.Prelude.{◌≡◌, option_and_then};
ghost use Rattle.requests.specs.Values.{number_at};
ghost use Rattle.serde_json.specs.View.{view};
ghost use Rattle.service_profile.specs.Configuration.{is_within};
ghost use Rattle.service_file.specs.Files.{kept_if, max_ticket_age_at, open_at, workers_at};

use crate::names::COUNTS;
use requests::number_at;
use serde_json::Value;
use service_profile::Range;

/// The age of tickets of a service that has none: a ticket may get any age.
const ANY_AGE: u64 = 0;

/// How many connections are open at once at most, where the file has no limit.
const DEFAULT_OPEN: u64 = 1_024;

/// The limits that a file may have.
pub const OPEN_LIMITS: Range = Range {
    least: 1,
    most: 65_536,
};

/// The number under a key; None where it is missing, no number, or out of range.
fn number_in(value: &Value, key: &str, range: Range) -> Option<u64>
    ensures { result ≡ option_and_then (kept_if (is_within range.least range.most)) (number_at key.now (view value.now)) }
{
    let number = number_at(value, key)?;
    if range.contains(number) {
        Some(number)
    } else {
        None
    }
}

/// How many workers, 1 to 64.
pub(crate) fn workers_at(value: &Value) -> Option<u64>
    ensures { result ≡ workers_at (view value.now) }
{
    number_in(value, "workers", COUNTS)
}

/// The limit of the file, 1,024 where the key is missing; None where another value than 1 to 65,536 stands there.
pub(crate) fn open_at(value: &Value) -> Option<u64>
    ensures { result ≡ open_at (view value.now) }
{
    match value.get("open") {
        None => Some(DEFAULT_OPEN),
        Some(_) => number_in(value, "open", OPEN_LIMITS),
    }
}

/// How old a ticket of the service may get, in milliseconds, below 2^64; 0, for any age, where the key is missing; None where
/// another value than such a number stands there.
pub(crate) fn max_ticket_age_at(value: &Value) -> Option<u64>
    ensures { result ≡ max_ticket_age_at (view value.now) }
{
    match value.get("maxTicketAge") {
        None => Some(ANY_AGE),
        Some(_) => number_at(value, "maxTicketAge"),
    }
}
