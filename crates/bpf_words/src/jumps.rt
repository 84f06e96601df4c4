//! Comparisons of words, and where a jump leads (RFC 9669, section 4.3).
ghost use Rattle.std.specs.Prelude.{◌≡◌, ◌≤◌};
ghost use Rattle.bpf_profile.specs.Limits.{most_slots};
ghost use Rattle.bpf_profile.specs.Machine.{target_of};
ghost use Rattle.bpf_profile.specs.Words.{holds, holds_at};

use crate::operations::low32;
use bpf_profile::{Comparison, Width};

/// A comparison of two numbers of 64 bits.
fn holds64(comparison: Comparison, a: u64, b: u64) -> bool
    ensures { result ≡ holds_at comparison 64 a b }
{
    match comparison {
        Comparison::Equal => a == b,
        Comparison::NotEqual => a != b,
        Comparison::Greater => a > b,
        Comparison::GreaterOrEqual => a >= b,
        Comparison::Less => a < b,
        Comparison::LessOrEqual => a <= b,
        Comparison::SignedGreater => a.cast_signed() > b.cast_signed(),
        Comparison::SignedGreaterOrEqual => a.cast_signed() >= b.cast_signed(),
        Comparison::SignedLess => a.cast_signed() < b.cast_signed(),
        Comparison::SignedLessOrEqual => a.cast_signed() <= b.cast_signed(),
        Comparison::BitsSet => a & b != 0,
    }
}

/// A comparison of two numbers of 32 bits.
fn holds32(comparison: Comparison, a: u32, b: u32) -> bool
    ensures { result ≡ holds_at comparison 32 a b }
{
    match comparison {
        Comparison::Equal => a == b,
        Comparison::NotEqual => a != b,
        Comparison::Greater => a > b,
        Comparison::GreaterOrEqual => a >= b,
        Comparison::Less => a < b,
        Comparison::LessOrEqual => a <= b,
        Comparison::SignedGreater => a.cast_signed() > b.cast_signed(),
        Comparison::SignedGreaterOrEqual => a.cast_signed() >= b.cast_signed(),
        Comparison::SignedLess => a.cast_signed() < b.cast_signed(),
        Comparison::SignedLessOrEqual => a.cast_signed() <= b.cast_signed(),
        Comparison::BitsSet => a & b != 0,
    }
}

/// Whether a comparison of two words holds: of the words themselves in class JMP (64 bits), of
/// their low halves in class JMP32 (32 bits).
pub fn holds(comparison: Comparison, width: Width, a: u64, b: u64) -> bool
    ensures { result ≡ holds comparison width a b }
{
    match width {
        Width::Bits64 => holds64(comparison, a, b),
        Width::Bits32 => holds32(comparison, low32(a), low32(b)),
    }
}

/// The target of a jump at `slot`: the slot that lies `distance` slots behind the next one. The
/// distance is a word that is read as signed. A target before slot 0 wraps to one past each
/// program's end.
pub fn target_of(slot: usize, distance: u64) -> usize
    requires { slot ≤ most_slots }
    ensures { result ≡ target_of slot distance }
{
    (slot as u64 + 1).wrapping_add(distance) as usize
}
