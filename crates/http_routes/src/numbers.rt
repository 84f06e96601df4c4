//! The number of an entry.
ghost use Rattle.std.specs.Prelude.{◌≡◌};
ghost use Rattle.http_routes.specs.EntryNumbers.{entry_number};

use http_messages::decimal;
use refusals::RefusalNumber;

/// The number that a segment of a path writes in decimal digits, and nothing else: no sign, no blank.
/// The refusal is `BadValue`, where there is no digit, another character, or a number of 2^64 or more.
pub fn entry_number(text: &str) -> Result<u64, RefusalNumber>
    ensures { result ≡ entry_number text.now }
{
    decimal(text.as_bytes()).ok_or(RefusalNumber::BadValue)
}
