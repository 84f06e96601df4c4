//! The abstract state of eight bytes of the stack.
ghost use Rattle.std.specs.Prelude.{◌≡◌};
ghost use Rattle.stack_track.specs.Cells.{joined_cell, mask_of, kept};

use abs_domain::Domain;
use abs_regs::AbsVal;

/// The abstract state of a cell: eight bytes of the stack whose lowest offset is a multiple of 8.
#[derive(Clone, Copy, Debug)]
pub enum Cell<D> {
    /// A mask with a bit for each byte, the lowest bit for the lowest offset. A byte whose bit is 1 is
    /// set and part of a number; of the others nothing is known.
    Bytes(u8),
    /// All eight bytes are those of this value, which was stored as a whole.
    Kept(AbsVal<D>),
}

impl<D: Domain> Cell<D> {
    /// The mask of the bytes that are known to be set and part of a number.
    pub(crate) fn mask(self) -> u8
        ensures { result ≡ mask_of self }
    {
        match self {
            Cell::Bytes(mask) => mask,
            Cell::Kept(AbsVal::Number(_)) => 255,
            Cell::Kept(_) => 0,
        }
    }

    /// The join: what is known where two paths meet.
    pub(crate) fn join(self, other: Self) -> Self
        ensures { result ≡ joined_cell ⟦<D as Domain>⟧ self other }
    {
        match (self, other) {
            (Cell::Kept(a), Cell::Kept(b)) => match a.join(b) {
                AbsVal::Unset => Cell::Bytes(0),
                joined => Cell::Kept(joined),
            },
            (Cell::Kept(AbsVal::Number(_)), Cell::Bytes(mask))
            | (Cell::Bytes(mask), Cell::Kept(AbsVal::Number(_))) => Cell::Bytes(mask),
            (Cell::Bytes(a), Cell::Bytes(b)) => Cell::Bytes(a & b),
            _ => Cell::Bytes(0),
        }
    }
}
