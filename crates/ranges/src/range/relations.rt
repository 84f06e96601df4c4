//! Refinement of ranges by comparisons (RFC 9669, section 4.3).
ghost use Rattle.std.specs.Prelude.{◌≡◌};
ghost use Rattle.ranges.specs.RangeTable.{range_common, range_without, range_parted, range_above, range_below, range_at_least, range_at_most};

use crate::range::Range;

/// `a`, refined by the fact that its word equals one of `b`: the intersection, or `a` itself where that
/// is empty.
pub fn common(a: Range, b: Range) -> Range
    ensures { result ≡ range_common a b }
{
    let low = a.low.max(b.low);
    let high = a.high.min(b.high);
    if low <= high { Range { low, high } } else { a }
}

/// `a`, refined by the fact that its word differs from that of `b`: where `b` is one word, and this is a
/// bound of `a`, the range without it. A range of one word stays.
pub fn parted(a: Range, b: Range) -> Range
    ensures { result ≡ range_parted a b }
{
    if b.low != b.high || a.low == a.high {
        return a;
    }
    if a.low == b.low {
        Range {
            low: a.low + 1,
            high: a.high,
        }
    } else if a.high == b.low {
        Range {
            low: a.low,
            high: a.high - 1,
        }
    } else {
        a
    }
}

/// `a`, refined by the fact that its word is greater than one of `b`; `a` itself where that can't be.
pub fn above(a: Range, b: Range) -> Range
    ensures { result ≡ range_above a b }
{
    if b.low >= a.high {
        return a;
    }
    Range {
        low: a.low.max(b.low + 1),
        high: a.high,
    }
}

/// `a`, refined by the fact that its word is less than one of `b`; `a` itself where that can't be.
pub fn below(a: Range, b: Range) -> Range
    ensures { result ≡ range_below a b }
{
    if b.high <= a.low {
        return a;
    }
    Range {
        low: a.low,
        high: a.high.min(b.high - 1),
    }
}

/// `a`, refined by the fact that its word is at least one of `b`; `a` itself where that can't be.
pub fn at_least(a: Range, b: Range) -> Range
    ensures { result ≡ range_at_least a b }
{
    if b.low > a.high {
        return a;
    }
    Range {
        low: a.low.max(b.low),
        high: a.high,
    }
}

/// `a`, refined by the fact that its word is at most one of `b`; `a` itself where that can't be.
pub fn at_most(a: Range, b: Range) -> Range
    ensures { result ≡ range_at_most a b }
{
    if b.high < a.low {
        return a;
    }
    Range {
        low: a.low,
        high: a.high.min(b.high),
    }
}
