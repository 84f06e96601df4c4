//! From which number on the tickets of services are numbered.
ghost use Rattle.std.specs.Prelude.{◌≡◌};
ghost use Rattle.serde_json.specs.View.{view};
ghost use Rattle.service_file.specs.Files.{tickets_named, tickets_at};

use serde_json::Value;

/// From which number on the tickets of each service are numbered.
#[derive(Clone, Copy, Debug, PartialEq, Eq)]
pub enum Tickets {
    /// From 1 on.
    FromOne,
    /// From a number that the clock gives at the start on, so that no later start repeats the numbers of an earlier one.
    ByTheClock,
}

#[tactic(auto, unfolding(crate::specs::Files::tickets_named))]
fn tickets_named(name: &str) -> Option<Tickets>
    ensures { result ≡ tickets_named name.now }
{
    match name {
        "from 1" => Some(Tickets::FromOne),
        "by the clock" => Some(Tickets::ByTheClock),
        _ => None,
    }
}

/// How the file numbers tickets, from 1 on where the key is missing; None where another value than one of these texts
/// stands there.
pub(crate) fn tickets_at(value: &Value) -> Option<Tickets>
    ensures { result ≡ tickets_at (view value.now) }
{
    match value.get("tickets") {
        None => Some(Tickets::FromOne),
        Some(found) => tickets_named(found.as_str()?),
    }
}
