//! Shifts of ranges by a count (RFC 9669, section 4.1). Each result contains the range's words, shifted.
ghost use Rattle.std.specs.Prelude.{◌≡◌, ◌<◌};
ghost use Rattle.ranges.specs.RangeTable.{range_shift_left, range_shift_right, range_arithmetic_shift_right};

use crate::range::Range;
use abs_domain::Shift;
use abs_domain::words::shifted;

/// A shift to the left by a count, from 0 to 63. Where a word may lose bits, the result is any word.
pub fn shift_left(a: Range, count: u32) -> Range
    requires { count < 64 }
    ensures { result ≡ range_shift_left a count }
{
    let power = 1u64 << count;
    match a.high.checked_mul(power) {
        Some(high) => Range {
            low: a.low * power,
            high,
        },
        None => Range::any(),
    }
}

/// A logical shift to the right by a count, from 0 to 63.
pub fn shift_right(a: Range, count: u32) -> Range
    requires { count < 64 }
    ensures { result ≡ range_shift_right a count }
{
    Range {
        low: a.low >> count,
        high: a.high >> count,
    }
}

/// An arithmetic shift to the right by a count, from 0 to 63. Words that all have the same sign bit keep
/// their order; where the sign bits differ, the result is any word.
pub fn arithmetic_shift_right(a: Range, count: u32) -> Range
    requires { count < 64 }
    ensures { result ≡ range_arithmetic_shift_right a count }
{
    if a.high < 1 << 63 {
        return shift_right(a, count);
    }
    if a.low < 1 << 63 {
        return Range::any();
    }
    Range {
        low: shifted(Shift::ArithmeticRight, a.low, count),
        high: shifted(Shift::ArithmeticRight, a.high, count),
    }
}
