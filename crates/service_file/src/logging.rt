//! What a server tells on standard error of its services.
ghost use Rattle.std.specs.Prelude.{◌≡◌};
ghost use Rattle.serde_json.specs.View.{view};
ghost use Rattle.service_file.specs.Files.{logging_named, logging_at};

use serde_json::Value;

/// What a server tells on standard error of its services while it serves.
#[derive(Clone, Copy, Debug, PartialEq, Eq)]
pub enum Logging {
    /// Nothing.
    Silent,
    /// A line for each change that an operator wants to know of.
    Changes,
}

#[tactic(auto, unfolding(crate::specs::Files::logging_named))]
fn logging_named(name: &str) -> Option<Logging>
    ensures { result ≡ logging_named name.now }
{
    match name {
        "silent" => Some(Logging::Silent),
        "changes" => Some(Logging::Changes),
        _ => None,
    }
}

/// What the file says of the log: it is silent where the key is missing; None where another value than one of these texts
/// stands there.
pub(crate) fn logging_at(value: &Value) -> Option<Logging>
    ensures { result ≡ logging_at (view value.now) }
{
    match value.get("log") {
        None => Some(Logging::Silent),
        Some(found) => logging_named(found.as_str()?),
    }
}
