//! The keys of an object.
ghost use Rattle.std.specs.Prelude.{◌≡◌, string_bytes};
ghost use Rattle.std.specs.List.{list_all, list_any};
ghost use Rattle.std.specs.Map.{keys_of};
ghost use Rattle.std.specs.Str.{bytes_eq};
ghost use Rattle.serde_json.specs.View.{view};
ghost use Rattle.requests.specs.Keys.{has_known_keys};

use serde_json::{Map, Value};

/// Whether it is one of these keys.
pub fn is_one_of(keys: &[&str], key: &str) -> bool
    ensures { result ≡ list_any (λ known. bytes_eq known.now key.now) keys.now }
{
    keys.iter().any(|known| *known == key)
}

fn are_known(keys: &[&str], members: &Map<String, Value>) -> bool
    ensures { result ≡ list_all (λ key. list_any (λ known. bytes_eq known.now (string_bytes key)) keys.now) (keys_of members.now.entries) }
{
    members.keys().all(|key| is_one_of(keys, key.as_str()))
}

/// Whether the value is an object, and each of its keys is one of these.
pub fn has_known_keys(keys: &[&str], value: &Value) -> bool
    ensures { result ≡ has_known_keys (λ key. list_any (λ known. bytes_eq known.now key) keys.now) (view value.now) }
{
    match value.as_object() {
        Some(members) => are_known(keys, members),
        None => false,
    }
}
