//! The limits of the profile. Contracts have the same numbers by the names in `specs/Limits`.

/// How many slots a program has at most.
pub const MOST_SLOTS: usize = 4096;

/// The size of the stack in bytes.
pub const STACK_SIZE: usize = 512;

/// The size of a record's context in bytes: as much of it as programs of the longest layout see.
pub const RECORD_SIZE: usize = 192;

/// Where the body's front begins in the context, in bytes; it goes on to the context's end.
pub const FRONT_OFFSET: usize = 64;

/// The size of the body's front of a record in bytes.
pub const FRONT_SIZE: usize = 128;

/// How many facts an outcome has.
pub const FACT_COUNT: usize = 16;

/// The size of a tag in bytes, at most; so many bytes of it a helper function takes at most.
pub const MOST_TAG_BYTES: usize = 32;
