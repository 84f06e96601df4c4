//! What a service is asked for.
use book::State;
use bpf_profile::Layout;
use packed_outcomes::PackedOutcome;

/// What is reported of a call.
#[derive(Drop)]
pub struct Report {
    /// The ticket under which the call was made.
    pub ticket: u64,
    /// Its outcome, packed where the report comes in, so that no later step wants memory for it.
    pub outcome: PackedOutcome,
}

/// What a service is asked for.
#[derive(Drop)]
pub enum Request {
    /// A ticket, before a call.
    Acquire,
    /// To judge the outcome of a call, and to end its ticket.
    Report(Report),
    /// To end a ticket without an outcome.
    Release(u64),
    /// To verify the program of this bytecode on records of a layout, and to make it the current version.
    Install { program: Vec<u8>, layout: Layout },
    /// To move the breaker to a state.
    Move(State),
    /// To move the breaker to CLOSED.
    Reset,
    /// How it stands.
    Read,
    /// At most 100 entries of the journal, from this number on.
    Page(u64),
    /// All entries; the book opens anew.
    Cut,
    /// The entries up to this number; the book goes on.
    Roll(u64),
}
