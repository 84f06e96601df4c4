//! The flat domain (constant propagation): one known word, or any word.
ghost use Rattle.std.specs.Prelude.{◌≡◌, ◌<◌, ◌≤◌};

use crate::domain::Domain;
use crate::operations::{Binary, Bits, Bounds, Conversion, Relation, Shift};
use crate::words::{operated, resized, shifted};
use bpf_profile::Size;

/// One known word, or any word. It is the simplest domain that knows anything of numbers.
#[derive(Clone, Copy, Debug, PartialEq, Eq)]
pub enum Flat {
    /// This word alone.
    One(u64),
    /// Every word.
    Any,
}

impl Domain for Flat {
    ghost use Rattle.abs_domain.specs.FlatTable.{FlatContains, flat_join, flat_operation, flat_shift, flat_conversion, flat_bounds, flat_bits, flat_low_zero, flat_first, flat_second};
    ghost use Rattle.abs_domain.specs.declared.flat.Flat.TheVariants as flat;
    ghost use Rattle.abs_domain.specs.FlatLaws as laws;
    ghost use Rattle.std.specs.Prelude.{refl};

    ghost contains = { FlatContains };

    ghost of_word = { λ word. flat.One word };

    ghost of_any = { flat.Any };

    ghost joined = { flat_join };

    ghost computed = { flat_operation };

    ghost shifted = { flat_shift };

    ghost converted = { flat_conversion };

    ghost bounds_of = { flat_bounds };

    ghost bits_of = { flat_bits };

    ghost has_low_zeros = { flat_low_zero };

    ghost refined_first = { flat_first };

    ghost refined_second = { flat_second };

    ghost clamped = { λ a bounds. a };

    ghost fixed = { λ a bits. a };

    ghost contained_are_words = { laws.contained };

    ghost words_are_contained = { λ n h. (h, refl) };

    ghost any_contains_all = { λ n h. h };

    ghost joins_contain_the_first = { laws.join_first };

    ghost joins_contain_the_second = { laws.join_second };

    ghost joins_are_symmetric = { laws.join_symmetric };

    ghost joins_are_associative = { laws.join_associative };

    ghost operations_are_contained = { laws.operated };

    ghost shifts_are_contained = { laws.shifted };

    ghost conversions_are_contained = { laws.resized };

    ghost bounds_hold = { laws.bounds_hold };

    ghost unknown_bits_are_clear = { laws.bits_apart };

    ghost bits_hold = { laws.bits_hold };

    ghost low_zeros_hold = { laws.low_zeros_hold };

    ghost refining_keeps_the_first = { laws.first_kept };

    ghost refining_keeps_the_second = { laws.second_kept };

    ghost clamping_keeps = { λ a bounds n h low high. h };

    ghost fixing_keeps = { λ a bits n h agrees. h };

    fn constant(word: u64) -> Self {
        Flat::One(word)
    }

    fn top() -> Self {
        Flat::Any
    }

    fn join(self, other: Self) -> Self {
        match (self, other) {
            (Flat::One(a), Flat::One(b)) if a == b => Flat::One(a),
            _ => Flat::Any,
        }
    }

    fn operate(self, operation: Binary, other: Self) -> Self {
        match (self, other) {
            (Flat::One(a), Flat::One(b)) => Flat::One(operated(operation, a, b)),
            _ => Flat::Any,
        }
    }

    fn shift(self, shift: Shift, count: u32) -> Self {
        match self {
            Flat::One(a) => Flat::One(shifted(shift, a, count)),
            Flat::Any => Flat::Any,
        }
    }

    fn convert(self, conversion: Conversion, size: Size) -> Self {
        match self {
            Flat::One(a) => Flat::One(resized(conversion, size, a)),
            Flat::Any => Flat::Any,
        }
    }

    fn bounds(self) -> Bounds {
        match self {
            Flat::One(a) => Bounds { low: a, high: a },
            Flat::Any => Bounds {
                low: 0,
                high: u64::MAX,
            },
        }
    }

    fn bits(self) -> Bits {
        match self {
            Flat::One(a) => Bits {
                value: a,
                unknown: 0,
            },
            Flat::Any => Bits {
                value: 0,
                unknown: u64::MAX,
            },
        }
    }

    fn low_zeros(self, count: u32) -> bool {
        match self {
            Flat::One(a) => a % (1u64 << count) == 0,
            Flat::Any => false,
        }
    }

    fn refine(self, relation: Relation, other: Self) -> (Self, Self) {
        match (relation, self, other) {
            (Relation::Equal, Flat::Any, Flat::One(b)) => (Flat::One(b), other),
            (Relation::Equal, Flat::One(a), Flat::Any) => (self, Flat::One(a)),
            _ => (self, other),
        }
    }

    fn clamp(self, _bounds: Bounds) -> Self {
        self
    }

    fn fix(self, _bits: Bits) -> Self {
        self
    }
}
