//! What a call that doesn't wait came to.

/// What a read or a write came to.
#[derive(Clone, Copy, Debug, PartialEq, Eq)]
pub enum Polling {
    /// It gave or took so many bytes.
    Done(usize),
    /// It would have had to wait, and gave or took nothing.
    Waits,
    /// It failed.
    Failed,
}
