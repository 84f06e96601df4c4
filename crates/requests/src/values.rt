//! Values under the keys of an object.
ghost use Rattle.std.specs.Prelude.{◌≡◌, option_map};
ghost use Rattle.serde_json.specs.View.{view};
ghost use Rattle.requests.specs.Values.{number_at, number_or, text_at};

use serde_json::Value;

/// A whole number below 2^64; None where the key is missing, or has another value. `1.0`, `1e2` and
/// `-0` are no whole numbers.
pub fn number_at(value: &Value, key: &str) -> Option<u64>
    ensures { result ≡ number_at key.now (view value.now) }
{
    value.get(key)?.as_u64()
}

/// The same, with a default where the key is missing.
pub(crate) fn number_or(value: &Value, key: &str, default: u64) -> Option<u64>
    ensures { result ≡ number_or default key.now (view value.now) }
{
    match value.get(key) {
        None => Some(default),
        Some(found) => found.as_u64(),
    }
}

/// A text; None where the key is missing, or has another value.
pub fn text_at<'a>(value: &'a Value, key: &str) -> Option<&'a str>
    ensures { option_map (λ text. text.now) result ≡ text_at key.now (view value.now) }
{
    value.get(key)?.as_str()
}
