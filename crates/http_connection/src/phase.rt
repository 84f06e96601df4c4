//! What a connection is about between its turns.

/// What a connection is about between its turns.
#[derive(Clone, Copy, Debug, PartialEq, Eq)]
pub enum Phase {
    /// Nothing is there of a next message, and each answer is written.
    Idle,
    /// Bytes of a next message are there, and each answer is written.
    Message,
    /// An answer isn't written whole.
    Answer,
}
