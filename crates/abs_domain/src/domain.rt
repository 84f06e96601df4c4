//! The interface of an abstract domain, with the laws that make it sound.
ghost use Rattle.std.specs.Prelude.{◌≡◌, ℕ, ◌<◌, ◌≤◌, ◌%◌, ◌^◌, Bool, true, bit_and};
ghost use Rattle.bpf_profile.specs.Words.{IsWord};
ghost use Rattle.bpf_profile.specs.declared.instruction.Size.{Size as ASize};
ghost use Rattle.abs_domain.specs.Agreement.{Agrees};
ghost use Rattle.abs_domain.specs.Operations.{word_operation, word_shift, word_conversion, Relates};
ghost use Rattle.abs_domain.specs.declared.operations.Binary.{Binary as ABinary};
ghost use Rattle.abs_domain.specs.declared.operations.Bits.{Bits as ABits};
ghost use Rattle.abs_domain.specs.declared.operations.Bounds.{Bounds as ABounds};
ghost use Rattle.abs_domain.specs.declared.operations.Conversion.{Conversion as AConversion};
ghost use Rattle.abs_domain.specs.declared.operations.Relation.{Relation as ARelation};
ghost use Rattle.abs_domain.specs.declared.operations.Shift.{Shift as AShift};

use crate::operations::{Binary, Bits, Bounds, Conversion, Relation, Shift};
use bpf_profile::Size;

/// An abstract domain, whose values stand for sets of words. No method takes memory, and none fails.
///
/// The clause of each method says that its result is a function of its arguments, a ghost member of the
/// trait (`joined` for `join`). The laws, which are the ghost members below the methods, say that these
/// functions are sound: no word is lost.
pub trait Domain: Copy {
    /// Whether a value contains a word.
    ghost contains: { Self → ℕ → Type 0 };

    ghost of_word: { ℕ → Self };

    ghost of_any: { Self };

    ghost joined: { Self → Self → Self };

    ghost computed: { ABinary → Self → Self → Self };

    ghost shifted: { AShift → Self → ℕ → Self };

    ghost converted: { AConversion → ASize → Self → Self };

    ghost bounds_of: { Self → ABounds };

    ghost bits_of: { Self → ABits };

    ghost has_low_zeros: { Self → ℕ → Bool };

    ghost refined_first: { ARelation → Self → Self → Self };

    ghost refined_second: { ARelation → Self → Self → Self };

    ghost clamped: { Self → ABounds → Self };

    ghost fixed: { Self → ABits → Self };

    /// The abstract value of a constant. It contains this word.
    fn constant(word: u64) -> Self
        ensures { result ≡ of_word word };

    /// The greatest value: it contains every word.
    fn top() -> Self
        ensures { result ≡ of_any };

    /// The join: it contains every word that either value contains.
    fn join(self, other: Self) -> Self
        ensures { result ≡ joined self other };

    /// The result of an operation. It contains what the operation makes of any word of this value and any
    /// word of the other.
    fn operate(self, operation: Binary, other: Self) -> Self
        ensures { result ≡ computed operation self other };

    /// The result of a shift by a known count, from 0 to 63. It contains each word of this value, shifted.
    fn shift(self, shift: Shift, count: u32) -> Self
        requires { count < 64 }
        ensures { result ≡ shifted shift self count };

    /// The result of a conversion of the low bytes. It contains each word of this value, converted.
    fn convert(self, conversion: Conversion, size: Size) -> Self
        ensures { result ≡ converted conversion size self };

    /// An unsigned lower and an unsigned upper bound of the contained words.
    fn bounds(self) -> Bounds
        ensures bounds { result ≡ bounds_of self }
        ensures ordered { result.low ≤ result.high };

    /// The bits that the domain knows to be the same in all contained words.
    fn bits(self) -> Bits
        ensures { result ≡ bits_of self };

    /// Whether the lowest `count` bits of all contained words are known to be 0. The count is from 0 to 63.
    fn low_zeros(self, count: u32) -> bool
        requires { count < 64 }
        ensures { result ≡ has_low_zeros self count };

    /// Both values, refined by the fact that the relation holds between a word of this value and a word of
    /// the other. Words for which it can hold are kept; of the others a domain drops what it can.
    fn refine(self, relation: Relation, other: Self) -> (Self, Self)
        ensures first { result.0 ≡ refined_first relation self other }
        ensures second { result.1 ≡ refined_second relation self other };

    /// This value, refined by bounds: words within them are kept; of the others a domain drops what it can.
    fn clamp(self, bounds: Bounds) -> Self
        requires { bounds.low ≤ bounds.high }
        ensures { result ≡ clamped self bounds };

    /// This value, refined by known bits: words that agree with them are kept; of the others a domain drops
    /// what it can.
    fn fix(self, bits: Bits) -> Self
        ensures { result ≡ fixed self bits };

    /// A value contains words alone, numbers below 2^64.
    ghost contained_are_words: { (a : Self) (n : ℕ) → contains a n → IsWord n };

    ghost words_are_contained: { (n : ℕ) → IsWord n → contains (of_word n) n };

    ghost any_contains_all: { (n : ℕ) → IsWord n → contains of_any n };

    ghost joins_contain_the_first: { (a b : Self) (n : ℕ) → contains a n → contains (joined a b) n };

    ghost joins_contain_the_second: { (a b : Self) (n : ℕ) → contains b n → contains (joined a b) n };

    ghost joins_are_symmetric: { (a b : Self) → joined a b ≡ joined b a };

    ghost joins_are_associative: { (a b c : Self) → joined (joined a b) c ≡ joined a (joined b c) };

    ghost operations_are_contained: { (operation : ABinary) (a b : Self) (n m : ℕ) → contains a n → contains b m → contains (computed operation a b) (word_operation operation n m) };

    ghost shifts_are_contained: { (shift : AShift) (a : Self) (count n : ℕ) → count < 64 → contains a n → contains (shifted shift a count) (word_shift shift n count) };

    ghost conversions_are_contained: { (conversion : AConversion) (size : ASize) (a : Self) (n : ℕ) → contains a n → contains (converted conversion size a) (word_conversion conversion size n) };

    ghost bounds_hold: { (a : Self) (n : ℕ) → contains a n → ((bounds_of a).low ≤ n) × (n ≤ (bounds_of a).high) };

    /// An unknown bit is 0 in the answer's `value`.
    ghost unknown_bits_are_clear: { (a : Self) (n : ℕ) → contains a n → bit_and (bits_of a).value (bits_of a).unknown ≡ 0 };

    ghost bits_hold: { (a : Self) (n : ℕ) → contains a n → Agrees (bits_of a).value (bits_of a).unknown n };

    ghost low_zeros_hold: { (a : Self) (count n : ℕ) → count < 64 → has_low_zeros a count ≡ true → contains a n → n % 2 ^ count ≡ 0 };

    ghost refining_keeps_the_first: { (relation : ARelation) (a b : Self) (n m : ℕ) → contains a n → contains b m → Relates relation n m → contains (refined_first relation a b) n };

    ghost refining_keeps_the_second: { (relation : ARelation) (a b : Self) (n m : ℕ) → contains a n → contains b m → Relates relation n m → contains (refined_second relation a b) m };

    ghost clamping_keeps: { (a : Self) (bounds : ABounds) (n : ℕ) → contains a n → bounds.low ≤ n → n ≤ bounds.high → contains (clamped a bounds) n };

    ghost fixing_keeps: { (a : Self) (bits : ABits) (n : ℕ) → contains a n → Agrees bits.value bits.unknown n → contains (fixed a bits) n };
}
