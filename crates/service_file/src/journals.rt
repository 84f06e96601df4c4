//! What becomes of a service's journal where it is full.
ghost use Rattle.std.specs.Prelude.{◌≡◌};
ghost use Rattle.serde_json.specs.View.{view};
ghost use Rattle.service_file.specs.Files.{journal_named, journal_at};

use serde_json::Value;
use service::Journal;

#[tactic(auto, unfolding(crate::specs::Files::journal_named))]
fn journal_named(name: &str) -> Option<Journal>
    ensures { result ≡ journal_named name.now }
{
    match name {
        "keep" => Some(Journal::Keep),
        "last" => Some(Journal::Last),
        _ => None,
    }
}

/// What becomes of the service's journal: it is kept where the key is missing; None where another value stands there than
/// `keep` or `last`.
pub(crate) fn journal_at(value: &Value) -> Option<Journal>
    ensures { result ≡ journal_at (view value.now) }
{
    match value.get("journal") {
        None => Some(Journal::Keep),
        Some(found) => journal_named(found.as_str()?),
    }
}
