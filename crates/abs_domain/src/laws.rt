//! Laws over any domain: arithmetic and conditional jumps are sound, so no word is lost. And one of the
//! product's reduction: which bits the bounds leave known.
ghost use Rattle.std.specs.Prelude.{◌≡◌, ◌↔◌, ℕ, Bool};
ghost use Rattle.std.specs.Int.{bit_at};
ghost use Rattle.bpf_profile.specs.Words.{IsWord, arithmetic, negation, moved_signed, converted, holds};
ghost use Rattle.abs_domain.specs.Arithmetic.{arithmetic_in, negation_in, signed_move_in, byte_order_in};
ghost use Rattle.abs_domain.specs.Branches.{branch_first, branch_second};
ghost use Rattle.abs_domain.specs.Reduction.{SharesLeadingBit, differing};

use crate::domain::Domain;
use bpf_profile::{ByteOrder, Comparison, Operation, Size, Width};

/// Arithmetic is sound: the result contains what the operation makes of contained words (RFC 9669, section
/// 4.1).
pub fn arithmetic_is_contained<D: Domain>()
    ensures { (operation : Operation) (width : Width) (a b : D) (n m : ℕ) → D.contains a n → D.contains b m → D.contains (arithmetic_in ⟦<D as Domain>⟧ operation width a b) (arithmetic operation width n m) }
{}

/// Negation is sound: the result contains 0 minus each contained word.
pub fn negation_is_contained<D: Domain>()
    ensures { (width : Width) (a : D) (n : ℕ) → D.contains a n → D.contains (negation_in ⟦<D as Domain>⟧ width a) (negation width n) }
{}

/// A move with sign extension is sound: the result contains each contained word, sign-extended.
pub fn signed_move_is_contained<D: Domain>()
    ensures { (width : Width) (size : Size) (a : D) (n : ℕ) → D.contains a n → D.contains (signed_move_in ⟦<D as Domain>⟧ width size a) (moved_signed width size n) }
{}

/// A conversion of the byte order is sound: the result contains each contained word, converted (section
/// 4.2).
pub fn byte_order_is_contained<D: Domain>()
    ensures { (order : ByteOrder) (size : Size) (a : D) (n : ℕ) → D.contains a n → D.contains (byte_order_in ⟦<D as Domain>⟧ order size a) (converted order size n) }
{}

/// Refinement by a conditional jump is sound: where a comparison of two contained words holds, or doesn't,
/// the values refined by that still contain them (section 4.3).
pub fn branches_keep_words<D: Domain>()
    ensures first { (comparison : Comparison) (width : Width) (taken : Bool) (a b : D) (n m : ℕ) → D.contains a n → D.contains b m → holds comparison width n m ≡ taken → D.contains (branch_first ⟦<D as Domain>⟧ comparison width taken a b) n }
    ensures second { (comparison : Comparison) (width : Width) (taken : Bool) (a b : D) (n m : ℕ) → D.contains a n → D.contains b m → holds comparison width n m ≡ taken → D.contains (branch_second ⟦<D as Domain>⟧ comparison width taken a b) m }
{}

/// The bits that the bounds of a value leave known are the leading bits that both bounds share, and no
/// others.
pub fn shared_leading_bits_are_known()
    ensures { (a b bit : ℕ) → IsWord a → IsWord b → ((bit_at (differing a b) bit ≡ 0) ↔ SharesLeadingBit a b bit) }
{}
