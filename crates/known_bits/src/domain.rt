//! Known bits as a domain.
ghost use Rattle.std.specs.Prelude.{◌≡◌, ◌<◌, ◌≤◌};
ghost use Rattle.known_bits.specs.KnownBitsTable.{known_operation, known_bounds, known_low_zero};

use crate::known::KnownBits;
use abs_domain::words::operated;
use abs_domain::{Binary, Bits, Bounds, Conversion, Domain, Relation, Shift};
use bpf_profile::Size;

impl Domain for KnownBits {
    ghost use Rattle.known_bits.specs.KnownBitsTable as table;
    ghost use Rattle.known_bits.specs.BoundLaws as single;
    ghost use Rattle.known_bits.specs.JoinLaws as join;
    ghost use Rattle.known_bits.specs.MoveLaws as move;
    ghost use Rattle.known_bits.specs.OperationLaws as operation;
    ghost use Rattle.known_bits.specs.RefinementLaws as refinement;

    ghost contains = { table.KnownContains };

    ghost of_word = { table.known_word };

    ghost of_any = { table.known_any };

    ghost joined = { table.known_join };

    ghost computed = { table.known_operation };

    ghost shifted = { table.known_shift };

    ghost converted = { table.known_conversion };

    ghost bounds_of = { table.known_bounds };

    ghost bits_of = { λ a. a };

    ghost has_low_zeros = { table.known_low_zero };

    ghost refined_first = { table.known_first };

    ghost refined_second = { table.known_second };

    ghost clamped = { λ a bounds. a };

    ghost fixed = { table.known_fixed };

    ghost contained_are_words = { single.contained };

    ghost words_are_contained = { single.word_contained };

    ghost any_contains_all = { single.any_contains };

    ghost joins_contain_the_first = { join.join_first };

    ghost joins_contain_the_second = { join.join_second };

    ghost joins_are_symmetric = { join.join_symmetric };

    ghost joins_are_associative = { join.join_associative };

    ghost operations_are_contained = { operation.operation_contained };

    ghost shifts_are_contained = { λ shift a count n small h. move.shift_contained shift a count n h };

    ghost conversions_are_contained = { move.conversion_contained };

    ghost bounds_hold = { single.bounds_hold };

    ghost unknown_bits_are_clear = { λ a n h. h.0 };

    ghost bits_hold = { single.bits_hold };

    ghost low_zeros_hold = { single.low_zeros_hold };

    ghost refining_keeps_the_first = { refinement.first_kept };

    ghost refining_keeps_the_second = { refinement.second_kept };

    ghost clamping_keeps = { λ a bounds n h low high. h };

    ghost fixing_keeps = { refinement.fixed_kept };

    fn constant(word: u64) -> Self {
        KnownBits::word(word)
    }

    fn top() -> Self {
        KnownBits::any()
    }

    fn join(self, other: Self) -> Self {
        self.joined(other)
    }

    fn operate(self, operation: Binary, other: Self) -> Self {
        match operation {
            Binary::And => self.and(other),
            Binary::Or => self.or(other),
            Binary::Xor => self.xor(other),
            Binary::Add | Binary::Subtract | Binary::Multiply => KnownBits::low_of(
                self.known_low(other),
                operated(operation, self.value(), other.value()),
            ),
            Binary::Divide | Binary::SignedDivide | Binary::Modulo | Binary::SignedModulo => {
                if self.unknown() | other.unknown() == 0 {
                    KnownBits::word(operated(operation, self.value(), other.value()))
                } else {
                    KnownBits::any()
                }
            }
        }
    }

    fn shift(self, shift: Shift, count: u32) -> Self {
        self.shifted(shift, count)
    }

    fn convert(self, conversion: Conversion, size: Size) -> Self {
        self.converted(conversion, size)
    }

    fn bounds(self) -> Bounds {
        Bounds {
            low: self.value(),
            high: self.value() | self.unknown(),
        }
    }

    fn bits(self) -> Bits {
        Bits {
            value: self.value(),
            unknown: self.unknown(),
        }
    }

    fn low_zeros(self, count: u32) -> bool {
        (self.value() | self.unknown()) % (1u64 << count) == 0
    }

    fn refine(self, relation: Relation, other: Self) -> (Self, Self) {
        match relation {
            Relation::Equal => {
                if self.clashes(other) == 0 {
                    let both = self.both(other);
                    (both, both)
                } else {
                    (self, other)
                }
            }
            Relation::Disjoint => (self.apart(other), other),
            Relation::NotEqual
            | Relation::Greater
            | Relation::GreaterOrEqual
            | Relation::Overlapping => (self, other),
        }
    }

    fn clamp(self, _bounds: Bounds) -> Self {
        self
    }

    fn fix(self, bits: Bits) -> Self {
        self.fixed(bits)
    }
}
