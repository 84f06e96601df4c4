//! The domain of ranges: what its operations make of values, worked out by hand from the domain's
//! table.
ghost use Rattle.std.specs.Prelude.{◌<◌};

use crate::checks::{is_true_at, same, same_at};
use abs_domain::{Binary, Bits, Bounds, Conversion, Domain, Relation, Shift};
use bpf_profile::Size;
use ranges::Range;
use std::process::Abort;

const MAX: u64 = u64::MAX;
/// The least word with a sign.
const SIGN: u64 = 0x8000_0000_0000_0000;

const TWO_TO_32: u64 = 0x1_0000_0000;

/// The least and the greatest word of a range.
type Ends = (u64, u64);

/// The words between these two.
fn range(rt: &impl Abort, ends: Ends) -> Range {
    let (low, high) = ends;
    assert!(rt; low <= high);
    Range::new(low, high)
}

/// Checks what is known of a word that is in one of two ranges.
fn joins(rt: &impl Abort, a: Ends, b: Ends, wanted: Ends) {
    same(rt, range(rt, a).join(range(rt, b)), range(rt, wanted));
}

#[test]
fn words_and_bounds(rt: HostRuntime) {
    let rt = &rt;
    let three_to_nine = range(rt, (3, 9));
    same(rt, (three_to_nine.low(), three_to_nine.high()), (3, 9));
    same(rt, three_to_nine.bounds(), Bounds { low: 3, high: 9 });
    same(rt, Range::constant(7), range(rt, (7, 7)));
    same(rt, Range::top(), range(rt, (0, MAX)));
    joins(rt, (3, 9), (5, 20), (3, 20));
    joins(rt, (5, 20), (3, 9), (3, 20));
    let clamped = three_to_nine.clamp(Bounds { low: 4, high: 5 });
    same(rt, clamped, range(rt, (4, 5)));
    let odd = Bits {
        value: 1,
        unknown: MAX - 1,
    };
    same(rt, three_to_nine.fix(odd), three_to_nine);
}

/// Checks whether so many low bits are known to be zero.
fn has_low_zeros(rt: &impl Abort, ends: Ends, count: u32, wanted: bool)
    requires { count < 64 }
{
    let found = range(rt, ends).low_zeros(count);
    is_true_at(rt, found == wanted, (&ends, &count));
}

#[test]
fn known_bits(rt: HostRuntime) {
    let rt = &rt;
    let one = Bits {
        value: 7,
        unknown: 0,
    };
    let any = Bits {
        value: 0,
        unknown: MAX,
    };
    same(rt, range(rt, (7, 7)).bits(), one);
    same(rt, range(rt, (7, 8)).bits(), any);
    has_low_zeros(rt, (8, 8), 3, true);
    has_low_zeros(rt, (8, 8), 4, false);
    has_low_zeros(rt, (8, 16), 3, false);
    has_low_zeros(rt, (7, 7), 0, true);
    has_low_zeros(rt, (0, 0), 63, true);
}

/// An operation, two ranges, and what it makes of them.
type Operated = (Binary, Ends, Ends, Ends);

/// Checks what operations make of ranges.
fn are_operated(rt: &impl Abort, rows: &[Operated]) {
    for row in rows {
        let (operation, a, b, wanted) = *row;
        let found = range(rt, a).operate(operation, range(rt, b));
        same_at(rt, found, range(rt, wanted), row);
    }
}

#[test]
fn sums_and_differences(rt: HostRuntime) {
    are_operated(
        &rt,
        &[
            (Binary::Add, (3, 9), (10, 20), (13, 29)),
            (Binary::Add, (0, MAX - 1), (1, 1), (1, MAX)),
            (Binary::Add, (MAX - 1, MAX), (5, 6), (3, 5)),
            (Binary::Add, (1, MAX), (1, 1), (0, MAX)),
            (Binary::Subtract, (30, 40), (10, 20), (10, 30)),
            (Binary::Subtract, (5, 9), (2, 5), (0, 7)),
            (Binary::Subtract, (1, 2), (5, 6), (MAX - 4, MAX - 2)),
            (Binary::Subtract, (5, 10), (7, 8), (0, MAX)),
        ],
    );
}

#[test]
fn products_and_quotients(rt: HostRuntime) {
    are_operated(
        &rt,
        &[
            (Binary::Multiply, (3, 5), (10, 20), (30, 100)),
            (
                Binary::Multiply,
                (2, TWO_TO_32 - 1),
                (3, TWO_TO_32 + 1),
                (6, MAX),
            ),
            (Binary::Multiply, (1, TWO_TO_32), (1, TWO_TO_32), (0, MAX)),
            (Binary::Divide, (20, 100), (3, 7), (2, 33)),
            (Binary::Divide, (20, 100), (0, 7), (0, 100)),
            (Binary::Modulo, (20, 100), (3, 7), (0, 6)),
            (Binary::Modulo, (2, 4), (9, 20), (0, 4)),
            (Binary::Modulo, (2, 4), (0, 3), (0, 4)),
            (Binary::SignedDivide, (20, 100), (3, 7), (2, 33)),
            (Binary::SignedDivide, (1, SIGN), (1, 1), (0, MAX)),
            (Binary::SignedModulo, (20, 100), (3, 7), (0, 6)),
            (Binary::SignedModulo, (1, 2), (1, SIGN), (0, MAX)),
        ],
    );
}

#[test]
fn bitwise_operations(rt: HostRuntime) {
    are_operated(
        &rt,
        &[
            (Binary::And, (12, 20), (5, 9), (0, 9)),
            (Binary::Or, (12, 20), (5, 9), (12, 31)),
            (Binary::Or, (1, 1), (2, 8), (2, 15)),
            (Binary::Or, (0, 0), (0, 0), (0, 0)),
            (Binary::Or, (4, 7), (0, 7), (4, 7)),
            (Binary::Xor, (12, 20), (5, 9), (0, 31)),
            (Binary::Xor, (1, 1), (0, SIGN), (0, MAX)),
        ],
    );
}

/// A shift, a range, a count and what they make.
type Shifted = (Shift, Ends, u32, Ends);

/// Checks what shifts make of ranges.
fn are_shifted(rt: &impl Abort, rows: &[Shifted]) {
    for row in rows {
        let (shift, a, count, wanted) = *row;
        assert!(rt; count < 64);
        let found = range(rt, a).shift(shift, count);
        same_at(rt, found, range(rt, wanted), row);
    }
}

#[test]
fn shifts(rt: HostRuntime) {
    are_shifted(
        &rt,
        &[
            (Shift::Left, (3, 5), 4, (48, 80)),
            (
                Shift::Left,
                (1, 0xfff_ffff_ffff_ffff),
                4,
                (16, 0xffff_ffff_ffff_fff0),
            ),
            (Shift::Left, (1, 0x1000_0000_0000_0000), 4, (0, MAX)),
            (Shift::Right, (48, 100), 4, (3, 6)),
            (Shift::ArithmeticRight, (48, 100), 4, (3, 6)),
            (
                Shift::ArithmeticRight,
                (SIGN, SIGN + 16),
                4,
                (0xf800_0000_0000_0000, 0xf800_0000_0000_0001),
            ),
            (Shift::ArithmeticRight, (SIGN, MAX), 63, (MAX, MAX)),
            (Shift::ArithmeticRight, (SIGN - 1, SIGN), 4, (0, MAX)),
        ],
    );
}

/// A conversion, a size, a range and what they make.
type Converted = (Conversion, Size, Ends, Ends);

/// Checks what conversions make of ranges.
fn are_converted(rt: &impl Abort, rows: &[Converted]) {
    for row in rows {
        let (conversion, size, a, wanted) = *row;
        let found = range(rt, a).convert(conversion, size);
        same_at(rt, found, range(rt, wanted), row);
    }
}

#[test]
fn conversions(rt: HostRuntime) {
    are_converted(
        &rt,
        &[
            (Conversion::Low, Size::Byte, (3, 255), (3, 255)),
            (Conversion::Low, Size::Byte, (3, 256), (0, 255)),
            (Conversion::Low, Size::DoubleWord, (3, MAX), (3, MAX)),
            (Conversion::SignExtended, Size::Byte, (3, 127), (3, 127)),
            (Conversion::SignExtended, Size::Byte, (3, 128), (0, MAX)),
            (
                Conversion::SignExtended,
                Size::DoubleWord,
                (3, SIGN - 1),
                (3, SIGN - 1),
            ),
            (
                Conversion::SignExtended,
                Size::DoubleWord,
                (3, SIGN),
                (0, MAX),
            ),
            (Conversion::Swapped, Size::HalfWord, (1, 2), (0, 0xffff)),
            (Conversion::Swapped, Size::Word, (1, 2), (0, 0xffff_ffff)),
        ],
    );
}

/// A relation and two ranges, each before and after.
type Told = (Relation, Ends, Ends, Ends, Ends);

/// Checks what comparisons tell of two ranges.
fn are_told(rt: &impl Abort, rows: &[Told]) {
    for row in rows {
        let (relation, a, b, a_after, b_after) = *row;
        let found = range(rt, a).refine(relation, range(rt, b));
        same_at(rt, found, (range(rt, a_after), range(rt, b_after)), row);
    }
}

/// Checks that the range of one word begins and ends with it.
fn begin_and_end_with(rt: &impl Abort, words: &[u64]) {
    for word in words {
        same_at(rt, Range::constant(*word), range(rt, (*word, *word)), word);
    }
}

#[test]
fn equal_and_not_equal(rt: HostRuntime) {
    are_told(
        &rt,
        &[
            (Relation::Equal, (3, 9), (5, 20), (5, 9), (5, 9)),
            (Relation::Equal, (3, 9), (10, 20), (3, 9), (10, 20)),
            (Relation::NotEqual, (3, 9), (3, 3), (4, 9), (3, 3)),
            (Relation::NotEqual, (3, 9), (9, 9), (3, 8), (9, 9)),
            (Relation::NotEqual, (3, 9), (5, 5), (3, 9), (5, 5)),
            (Relation::NotEqual, (3, 3), (3, 9), (3, 3), (4, 9)),
            (
                Relation::NotEqual,
                (MAX, MAX),
                (MAX, MAX),
                (MAX, MAX),
                (MAX, MAX),
            ),
        ],
    );
    begin_and_end_with(&rt, &[3, 5, 9, MAX]);
}

#[test]
fn order(rt: HostRuntime) {
    are_told(
        &rt,
        &[
            (Relation::Greater, (3, 9), (5, 20), (6, 9), (5, 8)),
            (Relation::Greater, (3, 9), (9, 20), (3, 9), (9, 20)),
            (
                Relation::Greater,
                (0, MAX),
                (0, MAX),
                (1, MAX),
                (0, MAX - 1),
            ),
            (Relation::GreaterOrEqual, (3, 9), (5, 20), (5, 9), (5, 9)),
            (Relation::GreaterOrEqual, (3, 9), (9, 20), (9, 9), (9, 9)),
            (Relation::GreaterOrEqual, (3, 9), (10, 20), (3, 9), (10, 20)),
            (Relation::Disjoint, (3, 9), (3, 3), (3, 9), (3, 3)),
            (Relation::Overlapping, (3, 9), (3, 3), (3, 9), (3, 3)),
        ],
    );
}

/// The bounds of twice what is contained, whatever the domain.
fn twice<D: Domain>(value: D) -> Bounds {
    value.operate(Binary::Add, value).bounds()
}

#[test]
fn through_the_trait(rt: HostRuntime) {
    same(&rt, twice(range(&rt, (3, 9))), Bounds { low: 6, high: 18 });
}
