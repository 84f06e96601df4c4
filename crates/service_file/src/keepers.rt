//! How the books of services are kept between the calls of workers.
ghost use Rattle.std.specs.Prelude.{◌≡◌};
ghost use Rattle.serde_json.specs.View.{view};
ghost use Rattle.service_file.specs.Files.{keeper_named, keeper_at};

use serde_json::Value;

/// How the books of services are kept between the calls of workers. One worker has the books to itself, with either.
#[derive(Clone, Copy, Debug, PartialEq, Eq)]
pub enum Keeper {
    /// Each behind a lock: a call waits by sleeping while another one has the book.
    Lock,
    /// Each in a slot, which one exchange empties and one exchange fills: a call tries again while another one has the
    /// book.
    Slot,
}

#[tactic(auto, unfolding(crate::specs::Files::keeper_named))]
fn keeper_named(name: &str) -> Option<Keeper>
    ensures { result ≡ keeper_named name.now }
{
    match name {
        "lock" => Some(Keeper::Lock),
        "slot" => Some(Keeper::Slot),
        _ => None,
    }
}

/// The keeper of the file, the lock where the key is missing; None where another value than the name of a keeper stands
/// there.
pub(crate) fn keeper_at(value: &Value) -> Option<Keeper>
    ensures { result ≡ keeper_at (view value.now) }
{
    match value.get("keeper") {
        None => Some(Keeper::Lock),
        Some(found) => keeper_named(found.as_str()?),
    }
}
