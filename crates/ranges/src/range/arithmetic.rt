//! Sums, differences, products, quotients and remainders of ranges (RFC 9669, section 4.1). Each result
//! contains what the operation makes of any word of the first range and any word of the second.
ghost use Rattle.std.specs.Prelude.{◌≡◌};
ghost use Rattle.ranges.specs.RangeTable.{range_sum, range_difference, range_product, range_quotient, range_remainder, range_signed_quotient, range_signed_remainder, have_no_sign};

use crate::range::Range;

/// Whether all words of both ranges are below 2^63, so that their signed values are their unsigned ones.
fn have_no_sign(a: Range, b: Range) -> bool
    ensures { result ≡ have_no_sign a b }
{
    a.high < 1 << 63 && b.high < 1 << 63
}

/// The sum. Where it wraps for all words, so do its bounds; where it wraps for some words only, it is any
/// word.
pub fn sum(a: Range, b: Range) -> Range
    ensures { result ≡ range_sum a b }
{
    if let Some(high) = a.high.checked_add(b.high) {
        return Range {
            low: a.low + b.low,
            high,
        };
    }
    if b.low <= u64::MAX - a.low {
        return Range::any();
    }
    Range {
        low: a.low.wrapping_add(b.low),
        high: a.high.wrapping_add(b.high),
    }
}

/// The difference. Where it wraps for all words, so do its bounds; where it wraps for some words only, it
/// is any word.
pub fn difference(a: Range, b: Range) -> Range
    ensures { result ≡ range_difference a b }
{
    if a.low >= b.high {
        return Range {
            low: a.low - b.high,
            high: a.high - b.low,
        };
    }
    if a.high >= b.low {
        return Range::any();
    }
    Range {
        low: a.low.wrapping_sub(b.high),
        high: a.high.wrapping_sub(b.low),
    }
}

/// The product. Where it may wrap, it is any word.
pub fn product(a: Range, b: Range) -> Range
    ensures { result ≡ range_product a b }
{
    match a.high.checked_mul(b.high) {
        Some(high) => Range {
            low: a.low * b.low,
            high,
        },
        None => Range::any(),
    }
}

/// The quotient. A division by 0 gives 0, so where the divisor may be 0 the result may be 0.
pub fn quotient(a: Range, b: Range) -> Range
    ensures { result ≡ range_quotient a b }
{
    if b.low == 0 {
        return Range {
            low: 0,
            high: a.high,
        };
    }
    Range {
        low: a.low / b.high,
        high: a.high / b.low,
    }
}

/// The remainder. By 0 it is the dividend; else it is less than the divisor.
pub fn remainder(a: Range, b: Range) -> Range
    ensures { result ≡ range_remainder a b }
{
    if b.low == 0 {
        return Range {
            low: 0,
            high: a.high,
        };
    }
    Range {
        low: 0,
        high: a.high.min(b.high - 1),
    }
}

/// The signed quotient: that of `quotient` where all words are below 2^63, else any word.
pub fn signed_quotient(a: Range, b: Range) -> Range
    ensures { result ≡ range_signed_quotient a b }
{
    if have_no_sign(a, b) {
        quotient(a, b)
    } else {
        Range::any()
    }
}

/// The signed remainder: that of `remainder` where all words are below 2^63, else any word.
pub fn signed_remainder(a: Range, b: Range) -> Range
    ensures { result ≡ range_signed_remainder a b }
{
    if have_no_sign(a, b) {
        remainder(a, b)
    } else {
        Range::any()
    }
}
