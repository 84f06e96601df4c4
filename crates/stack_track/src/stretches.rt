//! Byte ranges of the stack, which helper functions read and write.
ghost use Rattle.std.specs.Prelude.{◌≡◌, ◌+◌, ◌/◌, ◌<◌, ◌≤◌, slice_set};
ghost use Rattle.stack_track.specs.Cells.{cell_in, mask_of, are_set};
ghost use Rattle.stack_track.specs.Accesses.{with_numbers, stretch_is_set, stretch_written};
ghost use Rattle.bpf_profile.specs.Limits.{stack_size};

use crate::stack::StackState;
use abs_domain::Domain;
use bpf_profile::Size;

impl<D: Domain> StackState<D> {
    /// Whether each byte of a range is known to be set and part of a number. `place` is the index of its
    /// first byte in the stack, from 0 at the lowest offset on, and `count` its length.
    pub fn stretch_is_set(&self, place: u64, count: u64) -> bool
        requires { place + count ≤ stack_size }
        ensures { result ≡ stretch_is_set self.now place count }
    {
        for i in 0..count {
            if !self.byte_is_set((place + i) as usize) {
                return false;
            }
        }
        true
    }

    /// Writes bytes to a range. `place` is the index of its first byte in the stack, and `count` its
    /// length.
    pub fn write_stretch(&mut self, place: u64, count: u64)
        requires { place + count ≤ stack_size }
        ensures { self.new ≡ stretch_written self.old place count }
    {
        for i in 0..count {
            self.write_byte((place + i) as usize);
        }
    }

    /// Whether the byte at an index is known to be set and part of a number.
    fn byte_is_set(&self, place: usize) -> bool
        requires { place < stack_size }
        ensures { result ≡ are_set (mask_of (cell_in self.now (place / 8))) place 1 }
    {
        self.cell(place / 8).is_set(place, Size::Byte)
    }

    /// Writes a byte at an index.
    fn write_byte(&mut self, place: usize)
        requires { place < stack_size }
        ensures { self.new ≡ slice_set self.old (place / 8) (with_numbers (cell_in self.old (place / 8)) place 1) }
    {
        let cell = self.cell(place / 8).with_numbers(place, Size::Byte);
        self.set(place / 8, cell);
    }
}
