//! The reduction: what bounds and known bits of the same words imply for each other.
ghost use Rattle.std.specs.Prelude.{◌≡◌};
ghost use Rattle.abs_domain.specs.Reduction.{narrowed, differing, leading, agree, is_consistent};

use crate::operations::{Bits, Bounds};

/// The bounds, narrowed to the least and the greatest word that has these bits.
pub(crate) fn narrow(bounds: Bounds, bits: Bits) -> Bounds
    ensures { result ≡ narrowed bounds bits }
{
    Bounds {
        low: bounds.low.max(bits.value),
        high: bounds.high.min(bits.value | bits.unknown),
    }
}

/// A mask of ones up to the highest bit in which two words differ; 0 where they are equal.
fn differing(a: u64, b: u64) -> u64
    ensures { result ≡ differing a b }
{
    let difference = a ^ b;
    if difference == 0 {
        return 0;
    }
    let highest = 1u64 << (63 - difference.leading_zeros());
    highest - 1 + highest
}

/// The leading bits that all words within the bounds share.
pub(crate) fn leading(bounds: Bounds) -> Bits
    ensures { result ≡ leading bounds }
{
    Bits {
        value: bounds.low,
        unknown: differing(bounds.low, bounds.high),
    }
}

/// Whether the bits that are known in both are equal.
fn agree(a: Bits, b: Bits) -> bool
    ensures { result ≡ agree a b }
{
    (a.value ^ b.value) & !(a.unknown | b.unknown) == 0
}

/// Whether bounds and bits are consistent: some word may be within the bounds and have the bits.
pub(crate) fn is_consistent(bounds: Bounds, bits: Bits) -> bool
    ensures { result ≡ is_consistent bounds bits }
{
    let narrowed = narrow(bounds, bits);
    narrowed.low <= narrowed.high && agree(bits, leading(narrowed))
}
