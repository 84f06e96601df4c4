//! Conversions of the low bytes of a range's words (RFC 9669, sections 4.1 and 4.2).
ghost use Rattle.std.specs.Prelude.{◌≡◌, ◌-◌, ◌^◌};
ghost use Rattle.bpf_profile.specs.Words.{bits_in};
ghost use Rattle.ranges.specs.RangeTable.{range_conversion, range_of_size};

use crate::range::Range;
use abs_domain::Conversion;
use bpf_profile::Size;

/// The greatest word of this size.
fn last_of_size(size: Size) -> u64
    ensures { result ≡ 2 ^ bits_in size - 1 }
{
    match size {
        Size::Byte => 0xff,
        Size::HalfWord => 0xffff,
        Size::Word => 0xffff_ffff,
        Size::DoubleWord => u64::MAX,
    }
}

/// All words of this size.
fn of_size(size: Size) -> Range
    ensures { result ≡ range_of_size size }
{
    Range {
        low: 0,
        high: last_of_size(size),
    }
}

/// The conversion. A range whose words all fit into the low bytes, for a sign extension without their
/// highest bit, stays as it is. Else zero extension gives all words of the size, and sign extension any
/// word. A byte swap always gives all words of the size.
pub fn converted(a: Range, conversion: Conversion, size: Size) -> Range
    ensures { result ≡ range_conversion conversion size a }
{
    match conversion {
        Conversion::Low => if a.high <= last_of_size(size) {
            a
        } else {
            of_size(size)
        },
        Conversion::SignExtended => {
            if a.high <= last_of_size(size) / 2 {
                a
            } else {
                Range::any()
            }
        }
        Conversion::Swapped => of_size(size),
    }
}
