//! What a book answers.

use crate::states::State;
use bpf_profile::{Layout, Verdict};
use refusals::RefusalNumber;

/// What became of a verdict.
#[derive(Clone, Copy, Debug, PartialEq, Eq)]
pub enum Fate {
    /// It made a note.
    Recorded,
    /// The program answered that the outcome is to be ignored: the verdict made no note.
    Ignored,
    /// The breaker is disabled.
    Off,
    /// The ticket's period is over.
    Stale,
}

/// The answer to an event.
#[derive(Clone, Copy, Debug, PartialEq, Eq)]
pub enum Reply {
    /// A refusal. `CallNotPermitted`, `BulkheadFull`, `NoTicket` and `TicketSpent` are entered into the
    /// journal; `Stranger`, `VersionsFull`, `JournalFull` and `ServiceOutOfMemory` change nothing.
    Refused(RefusalNumber),
    /// A call may be made, under this ticket. The version is that of the program that will judge it.
    Permitted {
        ticket: u64,
        version: u64,
        state: State,
    },
    /// An outcome was judged. The version is the ticket's, the state the one after the event.
    Finished {
        fate: Fate,
        verdict: Verdict,
        steps: u32,
        version: u64,
        state: State,
    },
    /// A ticket ended with no outcome.
    Released {
        state: State,
    },
    /// A program was installed as this version, with this budget, for records of this layout.
    Installed {
        version: u64,
        budget: u32,
        layout: Layout,
    },
    /// The breaker was moved.
    Moved {
        state: State,
        period: u64,
    },
}
