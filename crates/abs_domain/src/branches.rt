//! Refinement by conditional jumps, over any domain (RFC 9669, section 4.3).
ghost use Rattle.std.specs.Prelude.{◌≡◌};
ghost use Rattle.abs_domain.specs.Branches.{lesson_of, greatest, is_usable, branch_first, branch_second};

use crate::domain::Domain;
use crate::operations::Relation;
use bpf_profile::{Comparison, Width};

/// The relation between the two words of a comparison, once it is known whether the comparison holds.
#[derive(Clone, Copy)]
pub struct Lesson {
    /// The relation. After a signed comparison it holds only where neither word has its sign bit set.
    pub relation: Relation,
    /// Whether the words are exchanged in it: the second word is related to the first.
    pub exchanged: bool,
    /// Whether the comparison is signed.
    pub signed: bool,
}

/// What is learnt from a comparison that holds, or that doesn't.
fn learnt(comparison: Comparison, holds: bool) -> Lesson
    ensures { result ≡ lesson_of comparison holds }
{
    let (relation, exchanged) = match (comparison, holds) {
        (Comparison::Equal, true) | (Comparison::NotEqual, false) => (Relation::Equal, false),
        (Comparison::Equal, false) | (Comparison::NotEqual, true) => (Relation::NotEqual, false),
        (Comparison::Greater | Comparison::SignedGreater, true) => (Relation::Greater, false),
        (Comparison::Greater | Comparison::SignedGreater, false) => {
            (Relation::GreaterOrEqual, true)
        }
        (Comparison::GreaterOrEqual | Comparison::SignedGreaterOrEqual, true) => {
            (Relation::GreaterOrEqual, false)
        }
        (Comparison::GreaterOrEqual | Comparison::SignedGreaterOrEqual, false) => {
            (Relation::Greater, true)
        }
        (Comparison::Less | Comparison::SignedLess, true) => (Relation::Greater, true),
        (Comparison::Less | Comparison::SignedLess, false) => (Relation::GreaterOrEqual, false),
        (Comparison::LessOrEqual | Comparison::SignedLessOrEqual, true) => {
            (Relation::GreaterOrEqual, true)
        }
        (Comparison::LessOrEqual | Comparison::SignedLessOrEqual, false) => {
            (Relation::Greater, false)
        }
        (Comparison::BitsSet, true) => (Relation::Overlapping, false),
        (Comparison::BitsSet, false) => (Relation::Disjoint, false),
    };
    let signed = match comparison {
        Comparison::SignedGreater
        | Comparison::SignedGreaterOrEqual
        | Comparison::SignedLess
        | Comparison::SignedLessOrEqual => true,
        _ => false,
    };
    Lesson {
        relation,
        exchanged,
        signed,
    }
}

/// The greatest word whose value a comparison of this width, signed or unsigned, reads unchanged.
fn greatest(width: Width, signed: bool) -> u64
    ensures { result ≡ greatest width signed }
{
    match (width, signed) {
        (Width::Bits64, false) => 0xffff_ffff_ffff_ffff,
        (Width::Bits64, true) => 0x7fff_ffff_ffff_ffff,
        (Width::Bits32, false) => 0xffff_ffff,
        (Width::Bits32, true) => 0x7fff_ffff,
    }
}

/// Two values, refined by the fact that a comparison holds (`holds`), or doesn't. Both stay unchanged where
/// the comparison may read a word of either as another number than its unsigned value: where the word may
/// have more bits than the width, or its sign bit set in a signed comparison.
pub fn refined<D: Domain>(comparison: Comparison, width: Width, holds: bool, a: D, b: D) -> (D, D)
    ensures first { result.0 ≡ branch_first ⟦<D as Domain>⟧ comparison width holds a b }
    ensures second { result.1 ≡ branch_second ⟦<D as Domain>⟧ comparison width holds a b }
{
    let lesson = learnt(comparison, holds);
    let greatest = greatest(width, lesson.signed);
    if a.bounds().high > greatest || b.bounds().high > greatest {
        return (a, b);
    }
    if lesson.exchanged {
        let (second, first) = b.refine(lesson.relation, a);
        (first, second)
    } else {
        a.refine(lesson.relation, b)
    }
}
