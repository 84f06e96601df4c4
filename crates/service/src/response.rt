//! What a service answers.
use book::{Entry, Reading, Reply};
use verifier::Refusal;

/// What a service answers.
#[derive(Drop)]
pub enum Response {
    /// The reply to an event, or a refusal.
    Reply(Reply),
    /// Why a program is not installed.
    ProgramRefused(Refusal),
    /// How the service stands.
    Reading(Reading),
    /// The entries of a page, and the number from which it was asked.
    Page { from: u64, entries: Vec<Entry> },
    /// The entries that a cut or a roll hands out.
    HandedOut(Vec<Entry>),
}
