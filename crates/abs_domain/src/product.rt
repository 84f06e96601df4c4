//! The reduced product of two domains.
ghost use Rattle.std.specs.Prelude.{◌≡◌, ◌<◌, ◌≤◌};

use crate::domain::Domain;
use crate::operations::{Binary, Bits, Bounds, Conversion, Relation, Shift};
use crate::reduction::{is_consistent, leading, narrow};
use bpf_profile::Size;

/// A value of each of two domains. Together they stand for the words that both contain.
///
/// After each operation and each refinement the two are reduced once: the first is clamped to the bounds
/// that the bits of the second allow, and the leading bits that all words within these bounds share are
/// fixed in the second. Joins, constants, `top`, `clamp` and `fix` are not reduced.
#[derive(Clone, Copy, Debug, PartialEq, Eq)]
pub struct Both<A, B> {
    pub first: A,
    pub second: B,
}

impl<A: Domain, B: Domain> Both<A, B> {
    ghost use Rattle.abs_domain.specs.ProductTable.{reduced};

    /// The reduction: the first value is refined by the bits of the second, and the second by the bounds of
    /// the first. Both stay unchanged where no word could be in both.
    fn reduced(first: A, second: B) -> Self
        ensures { result ≡ reduced ⟦<A as Domain>⟧ ⟦<B as Domain>⟧ first second }
    {
        let bounds = first.bounds();
        let bits = second.bits();
        if !is_consistent(bounds, bits) {
            return Both { first, second };
        }
        let narrowed = narrow(bounds, bits);
        Both {
            first: first.clamp(narrowed),
            second: second.fix(leading(narrowed)),
        }
    }
}

impl<A: Domain, B: Domain> Domain for Both<A, B> {
    ghost use Rattle.abs_domain.specs.ProductTable.{ProductContains, product_word, product_any, product_join, product_operation, product_shift, product_conversion, product_bounds, product_bits, product_low_zero, product_first, product_second, product_clamp, product_fix};
    ghost use Rattle.abs_domain.specs.ReductionLaws as laws;

    ghost contains = { ProductContains ⟦<A as Domain>⟧ ⟦<B as Domain>⟧ };

    ghost of_word = { product_word ⟦<A as Domain>⟧ ⟦<B as Domain>⟧ };

    ghost of_any = { product_any ⟦<A as Domain>⟧ ⟦<B as Domain>⟧ };

    ghost joined = { product_join ⟦<A as Domain>⟧ ⟦<B as Domain>⟧ };

    ghost computed = { product_operation ⟦<A as Domain>⟧ ⟦<B as Domain>⟧ };

    ghost shifted = { product_shift ⟦<A as Domain>⟧ ⟦<B as Domain>⟧ };

    ghost converted = { product_conversion ⟦<A as Domain>⟧ ⟦<B as Domain>⟧ };

    ghost bounds_of = { product_bounds ⟦<A as Domain>⟧ ⟦<B as Domain>⟧ };

    ghost bits_of = { product_bits ⟦<A as Domain>⟧ ⟦<B as Domain>⟧ };

    ghost has_low_zeros = { product_low_zero ⟦<A as Domain>⟧ ⟦<B as Domain>⟧ };

    ghost refined_first = { product_first ⟦<A as Domain>⟧ ⟦<B as Domain>⟧ };

    ghost refined_second = { product_second ⟦<A as Domain>⟧ ⟦<B as Domain>⟧ };

    ghost clamped = { product_clamp ⟦<A as Domain>⟧ ⟦<B as Domain>⟧ };

    ghost fixed = { product_fix ⟦<A as Domain>⟧ ⟦<B as Domain>⟧ };

    ghost contained_are_words = { λ a n h. A.contained_are_words a.first n h.0 };

    ghost words_are_contained = { λ n h. (A.words_are_contained n h, B.words_are_contained n h) };

    ghost any_contains_all = { λ n h. (A.any_contains_all n h, B.any_contains_all n h) };

    ghost joins_contain_the_first = { λ a b n h. (A.joins_contain_the_first a.first b.first n h.0, B.joins_contain_the_first a.second b.second n h.1) };

    ghost joins_contain_the_second = { λ a b n h. (A.joins_contain_the_second a.first b.first n h.0, B.joins_contain_the_second a.second b.second n h.1) };

    ghost joins_are_symmetric = { λ a b i. record { first = A.joins_are_symmetric a.first b.first i; second = B.joins_are_symmetric a.second b.second i } };

    ghost joins_are_associative = { λ a b c i. record { first = A.joins_are_associative a.first b.first c.first i; second = B.joins_are_associative a.second b.second c.second i } };

    ghost operations_are_contained = { λ operation a b n m h k. laws.reduction_keeps A.contains B.contains A.bounds_of A.clamped B.bits_of B.fixed A.contained_are_words A.bounds_hold B.unknown_bits_are_clear B.bits_hold A.clamping_keeps B.fixing_keeps (A.computed operation a.first b.first) (B.computed operation a.second b.second) _ (A.operations_are_contained operation a.first b.first n m h.0 k.0) (B.operations_are_contained operation a.second b.second n m h.1 k.1) };

    ghost shifts_are_contained = { λ shift a count n small h. laws.reduction_keeps A.contains B.contains A.bounds_of A.clamped B.bits_of B.fixed A.contained_are_words A.bounds_hold B.unknown_bits_are_clear B.bits_hold A.clamping_keeps B.fixing_keeps (A.shifted shift a.first count) (B.shifted shift a.second count) _ (A.shifts_are_contained shift a.first count n small h.0) (B.shifts_are_contained shift a.second count n small h.1) };

    ghost conversions_are_contained = { λ conversion size a n h. laws.reduction_keeps A.contains B.contains A.bounds_of A.clamped B.bits_of B.fixed A.contained_are_words A.bounds_hold B.unknown_bits_are_clear B.bits_hold A.clamping_keeps B.fixing_keeps (A.converted conversion size a.first) (B.converted conversion size a.second) _ (A.conversions_are_contained conversion size a.first n h.0) (B.conversions_are_contained conversion size a.second n h.1) };

    ghost bounds_hold = { λ a n h. laws.common_bounds_hold (A.bounds_of a.first) (B.bounds_of a.second) n (A.bounds_hold a.first n h.0) (B.bounds_hold a.second n h.1) };

    ghost unknown_bits_are_clear = { λ a n h. B.unknown_bits_are_clear a.second n h.1 };

    ghost bits_hold = { λ a n h. B.bits_hold a.second n h.1 };

    ghost low_zeros_hold = { λ a count n small e h. laws.either_holds (A.has_low_zeros a.first count) (B.has_low_zeros a.second count) e (λ f. A.low_zeros_hold a.first count n small f h.0) (λ f. B.low_zeros_hold a.second count n small f h.1) };

    ghost refining_keeps_the_first = { λ relation a b n m h k r. laws.reduction_keeps A.contains B.contains A.bounds_of A.clamped B.bits_of B.fixed A.contained_are_words A.bounds_hold B.unknown_bits_are_clear B.bits_hold A.clamping_keeps B.fixing_keeps (A.refined_first relation a.first b.first) (B.refined_first relation a.second b.second) n (A.refining_keeps_the_first relation a.first b.first n m h.0 k.0 r) (B.refining_keeps_the_first relation a.second b.second n m h.1 k.1 r) };

    ghost refining_keeps_the_second = { λ relation a b n m h k r. laws.reduction_keeps A.contains B.contains A.bounds_of A.clamped B.bits_of B.fixed A.contained_are_words A.bounds_hold B.unknown_bits_are_clear B.bits_hold A.clamping_keeps B.fixing_keeps (A.refined_second relation a.first b.first) (B.refined_second relation a.second b.second) m (A.refining_keeps_the_second relation a.first b.first n m h.0 k.0 r) (B.refining_keeps_the_second relation a.second b.second n m h.1 k.1 r) };

    ghost clamping_keeps = { λ a bounds n h low high. (A.clamping_keeps a.first bounds n h.0 low high, h.1) };

    ghost fixing_keeps = { λ a bits n h agrees. (h.0, B.fixing_keeps a.second bits n h.1 agrees) };

    fn constant(word: u64) -> Self {
        Both {
            first: A::constant(word),
            second: B::constant(word),
        }
    }

    fn top() -> Self {
        Both {
            first: A::top(),
            second: B::top(),
        }
    }

    fn join(self, other: Self) -> Self {
        Both {
            first: self.first.join(other.first),
            second: self.second.join(other.second),
        }
    }

    fn operate(self, operation: Binary, other: Self) -> Self {
        Both::reduced(
            self.first.operate(operation, other.first),
            self.second.operate(operation, other.second),
        )
    }

    fn shift(self, shift: Shift, count: u32) -> Self {
        Both::reduced(
            self.first.shift(shift, count),
            self.second.shift(shift, count),
        )
    }

    fn convert(self, conversion: Conversion, size: Size) -> Self {
        Both::reduced(
            self.first.convert(conversion, size),
            self.second.convert(conversion, size),
        )
    }

    fn bounds(self) -> Bounds {
        let first = self.first.bounds();
        let second = self.second.bounds();
        let low = first.low.max(second.low);
        let high = first.high.min(second.high);
        if low <= high {
            Bounds { low, high }
        } else {
            first
        }
    }

    fn bits(self) -> Bits {
        self.second.bits()
    }

    fn low_zeros(self, count: u32) -> bool {
        self.first.low_zeros(count) || self.second.low_zeros(count)
    }

    fn refine(self, relation: Relation, other: Self) -> (Self, Self) {
        let (first, other_first) = self.first.refine(relation, other.first);
        let (second, other_second) = self.second.refine(relation, other.second);
        (
            Both::reduced(first, second),
            Both::reduced(other_first, other_second),
        )
    }

    fn clamp(self, bounds: Bounds) -> Self {
        Both {
            first: self.first.clamp(bounds),
            second: self.second,
        }
    }

    fn fix(self, bits: Bits) -> Self {
        Both {
            first: self.first,
            second: self.second.fix(bits),
        }
    }
}
