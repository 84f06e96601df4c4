//! What is planned for an event: the decision, and its effects.
ghost use Rattle.std.specs.Prelude.{◌≡◌};
ghost use Rattle.service_profile.specs.Machine.{is_not_permitted};
ghost use Rattle.book.specs.Effects.{refused_plan};

use refusals::RefusalNumber;
use service_profile::{Decision, Note, OpenTicket, Reply, Standing};

/// What a decision changes, beside where the breaker stands.
#[derive(Clone, Copy, Debug, PartialEq, Eq)]
pub(crate) struct Effects {
    /// The note that is made.
    pub note: Option<Note>,
    /// The ticket that ends.
    pub ended: Option<u64>,
    /// The ticket that is issued.
    pub issued: Option<OpenTicket>,
    /// Whether the event's program gets a version.
    pub installs: bool,
    /// Whether the breaker refused the call.
    pub refuses_call: bool,
}

/// What is decided of an event: the reply, where the breaker stands then, and the effects.
#[derive(Clone, Copy, Debug, PartialEq, Eq)]
pub(crate) struct Plan {
    pub decision: Decision,
    pub effects: Effects,
}

impl Effects {
    /// No effect.
    pub(crate) const NONE: Effects = Effects {
        note: None,
        ended: None,
        issued: None,
        installs: false,
        refuses_call: false,
    };
}

/// Whether the breaker refused the call.
fn is_not_permitted(number: RefusalNumber) -> bool
    ensures { result ≡ is_not_permitted number }
{
    match number {
        RefusalNumber::CallNotPermitted => true,
        _ => false,
    }
}

impl Plan {
    /// A refusal of any event, with the breaker standing so.
    pub(crate) fn refused(standing: Standing, number: RefusalNumber) -> Plan
        ensures { result ≡ refused_plan standing number }
    {
        let mut effects = Effects::NONE;
        effects.refuses_call = is_not_permitted(number);
        Plan {
            decision: Decision {
                reply: Reply::Refused(number),
                next: standing,
            },
            effects,
        }
    }
}
