//! What a seat asks for, as plain data.
use book::State;

/// What a seat asks for.
#[derive(Clone, Copy)]
pub enum Wish {
    Acquire,
    /// Under a ticket, a response with this status.
    Report(u64, u16),
    Release(u64),
    /// The program that ignores every outcome.
    InstallIgnoring,
    /// The default classifier.
    InstallDefault,
    Move(State),
    Reset,
}
