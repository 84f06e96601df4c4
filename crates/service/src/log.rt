//! What the log of a service is told.
use book::Reply;

/// Whether a log is told what a service does.
#[derive(Clone, Copy, Debug, PartialEq, Eq)]
pub enum Log {
    /// No log is told anything.
    Silent,
    /// A log is told, which knows the service by this number.
    Changes(usize),
}

/// What a log is told of a service.
#[derive(Clone, Copy, Debug, PartialEq, Eq)]
pub enum News {
    /// An event was answered so.
    Answered(Reply),
    /// A page was answered, whose last entry has this number.
    Paged(u64),
    /// A cut handed out the journal, whose last entry had this number, or 0 where it had none; and the service opened anew.
    Cut(u64),
    /// A roll handed out all entries that were held up to this number.
    Rolled(u64),
    /// The journal was full, and the entries up to this number were rolled out of it, for its service's upkeep.
    Dropped(u64),
    /// The ticket of this number was too old, and was released for its service's upkeep.
    Released(u64),
}
