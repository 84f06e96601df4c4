//! Masks of the bytes of a cell that an access touches.
ghost use Rattle.std.specs.Prelude.{◌≡◌, ◌+◌, ◌-◌, ◌%◌, ◌^◌, ◌≤◌};
ghost use Rattle.bpf_profile.specs.Words.{bytes_in};
ghost use Rattle.stack_track.specs.Cells.{mask_of, bits_at, are_set};
ghost use Rattle.stack_track.specs.Accesses.{with_numbers};

use crate::cell::Cell;
use abs_domain::Domain;
use bpf_profile::Size;

/// As many ones as the access has bytes, from the lowest bit on.
fn ones(size: Size) -> u8
    ensures { result ≡ 2 ^ bytes_in size - 1 }
{
    match size {
        Size::Byte => 1,
        Size::HalfWord => 3,
        Size::Word => 15,
        Size::DoubleWord => 255,
    }
}

/// The mask of an access within its cell. `place` is the index of its first byte in the stack.
fn bits_at(place: usize, size: Size) -> u8
    requires { place % 8 + bytes_in size ≤ 8 }
    ensures { result ≡ bits_at place (bytes_in size) }
{
    ones(size) << (place % 8)
}

impl<D: Domain> Cell<D> {
    /// Whether all bytes of an access are known to be set and part of numbers.
    pub(crate) fn is_set(self, place: usize, size: Size) -> bool
        requires { place % 8 + bytes_in size ≤ 8 }
        ensures { result ≡ are_set (mask_of self) place (bytes_in size) }
    {
        let bits = bits_at(place, size);
        self.mask() & bits == bits
    }

    /// The cell after a store of a number to the bytes of an access. A value that was kept is forgotten,
    /// but for which of its bytes are part of a number.
    pub(crate) fn with_numbers(self, place: usize, size: Size) -> Self
        requires { place % 8 + bytes_in size ≤ 8 }
        ensures { result ≡ with_numbers self place (bytes_in size) }
    {
        Cell::Bytes(self.mask() | bits_at(place, size))
    }
}
