//! The limits of a service. Contracts have the same numbers by the names in `specs/Limits`.

/// How many versions of its program a service holds at most.
pub const MOST_VERSIONS: usize = 256;

/// How many entries a journal holds at most.
pub const MOST_ENTRIES: usize = 65_536;

/// How many entries a page of the journal has at most.
pub const MOST_PAGE_ENTRIES: usize = 100;

/// The greatest number of a ticket, a version, a period or an entry that an opening goes on
/// from.
pub const GREATEST_NUMBER: u64 = 1 << 63;

/// How many notes there may be at most where one more is counted, so that counting it
/// doesn't overflow.
pub const MOST_NOTES: u64 = u64::MAX - 8;
