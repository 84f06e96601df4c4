//! Ranges of words as a domain.
ghost use Rattle.std.specs.Prelude.{◌≡◌, ◌≤◌, ◌<◌};
ghost use Rattle.ranges.specs.RangeTable.{between, range_any};

mod arithmetic;
mod bitwise;
mod conversions;
mod relations;
mod shifts;

use crate::range::arithmetic::{
    difference, product, quotient, remainder, signed_quotient, signed_remainder, sum,
};
use crate::range::bitwise::{bitwise_and, bitwise_or, bitwise_xor};
use crate::range::conversions::converted;
use crate::range::relations::{above, at_least, at_most, below, common, parted};
use crate::range::shifts::{arithmetic_shift_right, shift_left, shift_right};
use abs_domain::{Binary, Bits, Bounds, Conversion, Domain, Relation, Shift};
use bpf_profile::Size;
use std::marker::Model;

/// The words from `low` to `high`, both included, as unsigned numbers (RFC 9669, section 4.3). A range is
/// never empty.
#[derive(Clone, Copy, Debug, PartialEq, Eq)]
pub struct Range {
    low: u64,
    high: u64,
}

impl Model for Range {
    ghost use Rattle.std.specs.Prelude.{◌≤◌};
    ghost use Rattle.abs_domain.specs.declared.operations.Bounds.{Bounds as ABounds};

    ghost Value = { ABounds };

    ghost view = { λ a. record { low = a.low; high = a.high } };

    ghost invariant = { λ a. a.low ≤ a.high };

    ghost inverse = { λ a. record { low = a.low; high = a.high } };
}

impl Range {
    /// The words from `low` to `high`, both included.
    pub fn new(low: u64, high: u64) -> Self
        requires { low ≤ high }
        ensures { result ≡ between low high }
    {
        Range { low, high }
    }

    /// Every word.
    fn any() -> Self
        ensures { result ≡ range_any }
    {
        Range {
            low: 0,
            high: u64::MAX,
        }
    }

    /// The least word.
    pub fn low(self) -> u64
        ensures { result ≡ self.low }
    {
        self.low
    }

    /// The greatest word.
    pub fn high(self) -> u64
        ensures { result ≡ self.high }
    {
        self.high
    }
}

impl Domain for Range {
    ghost use Rattle.ranges.specs.RangeTable.{RangeContains, between, range_any, range_join, range_operation, range_shift, range_conversion, range_bits, range_low_zero, range_first, range_second};
    ghost use Rattle.ranges.specs.ConversionLaws as conversion_laws;
    ghost use Rattle.ranges.specs.OperationLaws as operation_laws;
    ghost use Rattle.ranges.specs.OrderLaws as order_laws;
    ghost use Rattle.ranges.specs.ShiftLaws as shift_laws;
    ghost use Rattle.ranges.specs.SumLaws as sum_laws;

    ghost contains = { RangeContains };

    ghost of_word = { λ word. between word word };

    ghost of_any = { range_any };

    ghost joined = { range_join };

    ghost computed = { range_operation };

    ghost shifted = { range_shift };

    ghost converted = { range_conversion };

    ghost bounds_of = { λ a. a };

    ghost bits_of = { range_bits };

    ghost has_low_zeros = { range_low_zero };

    ghost refined_first = { range_first };

    ghost refined_second = { range_second };

    ghost clamped = { λ a bounds. bounds };

    ghost fixed = { λ a bits. a };

    ghost contained_are_words = { order_laws.contained };

    ghost words_are_contained = { order_laws.word_contained };

    ghost any_contains_all = { sum_laws.is_any };

    ghost joins_contain_the_first = { order_laws.join_first };

    ghost joins_contain_the_second = { order_laws.join_second };

    ghost joins_are_symmetric = { order_laws.join_symmetric };

    ghost joins_are_associative = { order_laws.join_associative };

    ghost operations_are_contained = { operation_laws.operation_kept };

    ghost shifts_are_contained = { shift_laws.shift_kept };

    ghost conversions_are_contained = { conversion_laws.conversion_kept };

    ghost bounds_hold = { order_laws.bounds_hold };

    ghost unknown_bits_are_clear = { order_laws.bits_apart };

    ghost bits_hold = { order_laws.bits_hold };

    ghost low_zeros_hold = { order_laws.low_zeros_hold };

    ghost refining_keeps_the_first = { order_laws.first_kept };

    ghost refining_keeps_the_second = { order_laws.second_kept };

    ghost clamping_keeps = { λ a bounds n h low high. (order_laws.contained a n h, low, high) };

    ghost fixing_keeps = { λ a bits n h agrees. h };

    fn constant(word: u64) -> Self {
        Range {
            low: word,
            high: word,
        }
    }

    fn top() -> Self {
        Range::any()
    }

    fn join(self, other: Self) -> Self {
        Range {
            low: self.low.min(other.low),
            high: self.high.max(other.high),
        }
    }

    fn operate(self, operation: Binary, other: Self) -> Self {
        match operation {
            Binary::Add => sum(self, other),
            Binary::Subtract => difference(self, other),
            Binary::Multiply => product(self, other),
            Binary::Divide => quotient(self, other),
            Binary::SignedDivide => signed_quotient(self, other),
            Binary::Modulo => remainder(self, other),
            Binary::SignedModulo => signed_remainder(self, other),
            Binary::And => bitwise_and(self, other),
            Binary::Or => bitwise_or(self, other),
            Binary::Xor => bitwise_xor(self, other),
        }
    }

    fn shift(self, shift: Shift, count: u32) -> Self {
        match shift {
            Shift::Left => shift_left(self, count),
            Shift::Right => shift_right(self, count),
            Shift::ArithmeticRight => arithmetic_shift_right(self, count),
        }
    }

    fn convert(self, conversion: Conversion, size: Size) -> Self {
        converted(self, conversion, size)
    }

    fn bounds(self) -> Bounds {
        Bounds {
            low: self.low,
            high: self.high,
        }
    }

    fn bits(self) -> Bits {
        if self.low == self.high {
            Bits {
                value: self.low,
                unknown: 0,
            }
        } else {
            Bits {
                value: 0,
                unknown: u64::MAX,
            }
        }
    }

    fn low_zeros(self, count: u32) -> bool {
        self.low == self.high && self.low % (1u64 << count) == 0
    }

    fn refine(self, relation: Relation, other: Self) -> (Self, Self) {
        match relation {
            Relation::Equal => (common(self, other), common(other, self)),
            Relation::NotEqual => (parted(self, other), parted(other, self)),
            Relation::Greater => (above(self, other), below(other, self)),
            Relation::GreaterOrEqual => (at_least(self, other), at_most(other, self)),
            Relation::Disjoint | Relation::Overlapping => (self, other),
        }
    }

    fn clamp(self, bounds: Bounds) -> Self {
        Range {
            low: bounds.low,
            high: bounds.high,
        }
    }

    fn fix(self, _bits: Bits) -> Self {
        self
    }
}
