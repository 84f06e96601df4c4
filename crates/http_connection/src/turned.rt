//! How a turn ends.
use crate::ended::Ended;

/// What a connection waits for.
#[derive(Clone, Copy, Debug, PartialEq, Eq)]
pub enum Want {
    /// That bytes come.
    Bytes,
    /// That the writer takes bytes again.
    Room,
}

/// How a turn ended.
#[derive(Clone, Copy, Debug, PartialEq, Eq)]
pub enum Turned {
    /// It was long enough, and others come first.
    GoesOn,
    /// A call would have had to wait.
    Waits(Want),
    /// The connection ended.
    Ended(Ended),
}
