//! The texts of lines.
ghost use Rattle.std.specs.Prelude.{◌≡◌, string_bytes, IfOk};
ghost use Rattle.service_log.specs.Lines.{line_of, refused_text, text_of};

use answers::state_name;
use book::State;
use std::alloc::{AllocError, Global};

/// What a line tells of a service.
#[derive(Clone, Copy, Debug, PartialEq, Eq)]
pub(crate) enum Told {
    /// The breaker stands in the first state, and stood in the second; the number is that of the new period.
    State(State, State, u64),
    /// A program was installed, as this version and with this budget.
    Installed(u64, u32),
    /// An event was refused, since the journal is full.
    Full,
    /// The journal was cut behind the entry of this number.
    Cut(u64),
    /// A roll handed out entries up to the first number; so many of them, as the second says, no page has had.
    Rolled(u64, u64),
    /// A full journal dropped entries up to the first number; so many of them, as the second says, no page has had.
    Dropped(u64, u64),
    /// The ticket of this number was released, since it was too old.
    Released(u64),
    /// So many lines were left out before the next one.
    LeftOut(u64),
}

/// The text of what is told.
pub(crate) fn text_of(alloc: Global, told: Told) -> Result<String, AllocError>
    ensures { IfOk result (λ text. string_bytes text ≡ text_of told) }
{
    match told {
        Told::State(state, before, period) => {
            let state = state_name(state);
            let before = state_name(before);
            format!(in alloc; "state={state} was={before} period={period}")
        }
        Told::Installed(version, budget) => {
            format!(in alloc; "installed version={version} budget={budget}")
        }
        Told::Full => format!(in alloc; "journal=full"),
        Told::Cut(last) => format!(in alloc; "journal=cut last={last}"),
        Told::Rolled(last, unread) => {
            format!(in alloc; "journal=rolled last={last} unread={unread}")
        }
        Told::Dropped(last, unread) => {
            format!(in alloc; "journal=dropped last={last} unread={unread}")
        }
        Told::Released(ticket) => format!(in alloc; "ticket={ticket} released by age"),
        Told::LeftOut(lines) => format!(in alloc; "left out lines={lines}"),
    }
}

/// The text that says that a report can't be used, and why.
pub(crate) fn refused_text(alloc: Global, words: &str) -> Result<String, AllocError>
    ensures { IfOk result (λ text. string_bytes text ≡ refused_text words.now) }
{
    format!(in alloc; "report=refused {words}")
}

/// The line that tells this of the service of a name, at a moment in milliseconds.
pub(crate) fn line_of(
    alloc: Global,
    moment: u64,
    name: &str,
    text: &str,
) -> Result<String, AllocError>
    ensures { IfOk result (λ line. string_bytes line ≡ line_of moment name.now text.now) }
{
    format!(in alloc; "moment={moment} service={name} {text}\n")
}
