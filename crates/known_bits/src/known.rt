//! Words whose bits are partly known, and the operations on them.
ghost use Rattle.std.specs.Prelude.{◌≡◌, ◌≤◌, ◌<◌};
ghost use Rattle.known_bits.specs.KnownBitsTable.{known_word, known_any, known_join, known_low, low_bits, known_and, known_or, known_xor, known_shift, known_conversion, known_both, known_apart, known_fixed, clashes};

use crate::bitwise::without;
use abs_domain::words::{resized, shifted};
use abs_domain::{Bits, Conversion, Shift};
use bpf_profile::Size;
use std::marker::Model;

/// The words that have the bits of `value` wherever the bit of `unknown` is 0. No bit is 1 in both.
#[derive(Clone, Copy, Debug, PartialEq, Eq)]
pub struct KnownBits {
    value: u64,
    unknown: u64,
}

impl Model for KnownBits {
    ghost use Rattle.std.specs.Prelude.{◌≡◌, bit_and};
    ghost use Rattle.abs_domain.specs.declared.operations.Bits.{Bits};

    ghost Value = { Bits };

    ghost view = { λ a. record { value = a.value; unknown = a.unknown } };

    ghost invariant = { λ a. bit_and a.value a.unknown ≡ 0 };

    ghost inverse = { λ b. record { value = b.value; unknown = b.unknown } };
}

impl KnownBits {
    /// The known bits, with 0 for each unknown bit.
    pub fn value(self) -> u64
        ensures { result ≡ self.value }
    {
        self.value
    }

    /// The mask of the unknown bits.
    pub fn unknown(self) -> u64
        ensures { result ≡ self.unknown }
    {
        self.unknown
    }

    /// A word, of which every bit is known.
    pub(crate) fn word(word: u64) -> Self
        ensures { result ≡ known_word word }
    {
        KnownBits {
            value: word,
            unknown: 0,
        }
    }

    /// Any word: no bit is known.
    pub(crate) fn any() -> Self
        ensures { result ≡ known_any }
    {
        KnownBits {
            value: 0,
            unknown: u64::MAX,
        }
    }

    /// The join: a bit is known where it is known in both values, and is the same.
    pub(crate) fn joined(self, other: Self) -> Self
        ensures { result ≡ known_join self other }
    {
        let unknown = self.unknown | other.unknown | (self.value ^ other.value);
        KnownBits {
            value: without(self.value, unknown),
            unknown,
        }
    }

    /// The number of consecutive lowest bits that are known in both values, up to 64.
    pub(crate) fn known_low(self, other: Self) -> u32
        ensures known { result ≡ known_low self other }
        ensures at_most { result ≤ 64 }
    {
        (self.unknown | other.unknown).trailing_zeros()
    }

    /// A value whose lowest `count` bits, up to 64, are known: they are those of `word`.
    pub(crate) fn low_of(count: u32, word: u64) -> Self
        requires { count ≤ 64 }
        ensures { result ≡ low_bits count word }
    {
        if count == 64 {
            return KnownBits::word(word);
        }
        KnownBits {
            value: word % (1 << count),
            unknown: u64::MAX << count,
        }
    }

    pub(crate) fn and(self, other: Self) -> Self
        ensures { result ≡ known_and self other }
    {
        let value = self.value & other.value;
        let possible = (self.value | self.unknown) & (other.value | other.unknown);
        KnownBits {
            value,
            unknown: without(possible, value),
        }
    }

    pub(crate) fn or(self, other: Self) -> Self
        ensures { result ≡ known_or self other }
    {
        let value = self.value | other.value;
        KnownBits {
            value,
            unknown: without(self.unknown | other.unknown, value),
        }
    }

    pub(crate) fn xor(self, other: Self) -> Self
        ensures { result ≡ known_xor self other }
    {
        let unknown = self.unknown | other.unknown;
        KnownBits {
            value: without(self.value ^ other.value, unknown),
            unknown,
        }
    }

    /// A shift by a count, from 0 to 63, of the known and of the unknown bits.
    pub(crate) fn shifted(self, shift: Shift, count: u32) -> Self
        requires { count < 64 }
        ensures { result ≡ known_shift shift self count }
    {
        KnownBits {
            value: shifted(shift, self.value, count),
            unknown: shifted(shift, self.unknown, count),
        }
    }

    /// A conversion of the low bytes, of the known and of the unknown bits.
    pub(crate) fn converted(self, conversion: Conversion, size: Size) -> Self
        ensures { result ≡ known_conversion conversion size self }
    {
        KnownBits {
            value: resized(conversion, size, self.value),
            unknown: resized(conversion, size, self.unknown),
        }
    }

    /// The bits that are known in both values, and differ.
    pub(crate) fn clashes(self, other: Self) -> u64
        ensures { result ≡ clashes self other }
    {
        without(
            without(self.value ^ other.value, self.unknown),
            other.unknown,
        )
    }

    /// The bits that are known in either value, where no known bits differ.
    pub(crate) fn both(self, other: Self) -> Self
        ensures { result ≡ known_both self other }
    {
        KnownBits {
            value: self.value | other.value,
            unknown: self.unknown & other.unknown,
        }
    }

    /// This value, refined by the fact that it has no 1 in common with the other: where the other is a
    /// known constant, its ones are known to be 0.
    pub(crate) fn apart(self, other: Self) -> Self
        ensures { result ≡ known_apart self other }
    {
        if other.unknown == 0 && self.value & other.value == 0 {
            return KnownBits {
                value: self.value,
                unknown: without(self.unknown, other.value),
            };
        }
        self
    }

    /// This value, with the known bits of `bits` added.
    pub(crate) fn fixed(self, bits: Bits) -> Self
        ensures { result ≡ known_fixed self bits }
    {
        KnownBits {
            value: (self.value & bits.unknown) | without(bits.value, bits.unknown),
            unknown: self.unknown & bits.unknown,
        }
    }
}
