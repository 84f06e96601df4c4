//! The values of the tagged machine that gives programs their meaning. The machine tells numbers from
//! pointers and set bytes from unset ones; a verified program runs without any of this.

/// The memory that a pointer points into.
#[derive(Clone, Copy)]
pub enum Region {
    /// The 512 bytes at the offsets -512 to -1.
    Stack,
    /// The outcome's record, from offset 0 on. It is read only.
    Context,
}

/// What a register holds.
#[derive(Clone, Copy)]
pub enum Value {
    Unset,
    /// A word.
    Number(u64),
    /// A region and an offset into it in bytes, a word that is read as signed.
    Pointer(Region, u64),
}

/// What a byte of the stack holds.
#[derive(Clone, Copy)]
pub enum Cell {
    Unset,
    Byte(u8),
    /// One of the eight bytes of a stored pointer: its region, its offset, and which byte, from 0.
    Piece(Region, u64, u8),
}

/// Why the machine goes no further.
#[derive(Clone, Copy, Debug, PartialEq, Eq)]
pub enum TrapReason {
    /// The slot is past the program's end, or the tail of a wide immediate.
    OutsideProgram,
    /// A register or a byte of the stack is read that is not set.
    Unset,
    /// A pointer stands where a number is needed, or would be stored or loaded in part.
    Pointer,
    /// A number is used as an address.
    NotPointer,
    /// An address is no multiple of the access's size.
    Misaligned,
    /// A byte of the access lies outside its region.
    OutOfBounds,
    /// A write to the context.
    ContextWrite,
    /// A call of a helper that does not exist.
    Helper,
    /// An argument that the helper does not take.
    Argument,
    /// An answer over 2.
    Answer,
}

/// What a program says of an outcome: its answer 0, 1 or 2.
#[derive(Clone, Copy, Debug, PartialEq, Eq)]
pub enum Verdict {
    Success,
    Failure,
    Ignored,
}
