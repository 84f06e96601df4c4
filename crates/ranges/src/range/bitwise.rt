//! The bitwise operations on ranges (RFC 9669, section 4.1). Each result contains what the operation
//! makes of any word of the first range and any word of the second.
ghost use Rattle.std.specs.Prelude.{◌≡◌, ◌≤◌, ℕ};
ghost use Rattle.ranges.specs.RangeTable.{IsOnes, ones_over, ones_over_both, range_and, range_or, range_xor};

use crate::range::Range;

/// The least number of the form 2^k - 1 that is at least the word: as many ones as the word has bits,
/// without leading zeros.
pub fn ones_over(word: u64) -> u64
    ensures value { result ≡ ones_over word }
    ensures ones { IsOnes result }
    ensures over { word ≤ result }
    ensures least { (m : ℕ) → IsOnes m → word ≤ m → result ≤ m }
{
    if word == 0 {
        return 0;
    }
    u64::MAX >> word.leading_zeros()
}

/// Ones up to the highest bit that a word of either range may have.
fn ones_over_both(a: Range, b: Range) -> u64
    ensures value { result ≡ ones_over_both a b }
    ensures over { (a.high ≤ result) × (b.high ≤ result) }
{
    ones_over(a.high.max(b.high))
}

/// The bitwise and, which is at most either operand.
pub fn bitwise_and(a: Range, b: Range) -> Range
    ensures { result ≡ range_and a b }
{
    Range {
        low: 0,
        high: a.high.min(b.high),
    }
}

/// The bitwise or, which is at least either operand, and has no bit above the highest one of both.
pub fn bitwise_or(a: Range, b: Range) -> Range
    ensures { result ≡ range_or a b }
{
    Range {
        low: a.low.max(b.low),
        high: ones_over_both(a, b),
    }
}

/// The exclusive or, which has no bit above the highest one of both operands.
pub fn bitwise_xor(a: Range, b: Range) -> Range
    ensures { result ≡ range_xor a b }
{
    Range {
        low: 0,
        high: ones_over_both(a, b),
    }
}
