//! The domain of known bits: what its operations make of values, worked out by hand from
//! the domain's table.
ghost use Rattle.std.specs.Prelude.{◌<◌};

use crate::checks::{same, same_at};
use abs_domain::{Binary, Bits, Bounds, Conversion, Domain, Relation, Shift};
use bpf_profile::Size;
use known_bits::KnownBits;
use std::process::Abort;

/// The bits that are known to be 1, and those that aren't known.
type Pair = (u64, u64);

const A: Pair = (0b0011, 0b0100);

const B: Pair = (0b0101, 0b0010);

/// Every word with these bits, where they are known.
fn known(value: u64, unknown: u64) -> KnownBits {
    KnownBits::top().fix(Bits { value, unknown })
}

/// Every word with these bits: a single one where each bit is known.
fn having(pair: Pair) -> KnownBits {
    let (value, unknown) = pair;
    if unknown == 0 {
        KnownBits::constant(value)
    } else {
        known(value, unknown)
    }
}

/// The bits, as any caller of a domain sees them.
fn seen<D: Domain>(value: D) -> Pair {
    let bits = value.bits();
    (bits.value, bits.unknown)
}

/// Checks what is known of a word that is in one of two values.
fn joins(rt: &impl Abort, a: Pair, b: Pair, wanted: Pair) {
    same(rt, seen(having(a).join(having(b))), wanted);
}

#[test]
fn single_words_and_joins(rt: HostRuntime) {
    let rt = &rt;
    same(rt, seen(KnownBits::constant(5)), (5, 0));
    same(rt, seen(KnownBits::top()), (0, u64::MAX));
    let twelve_or_ten = having((0b1100, 0)).join(having((0b1010, 0)));
    same(rt, twelve_or_ten.value(), 0b1000);
    same(rt, twelve_or_ten.unknown(), 0b0110);
    let either = (0b1000, 0b0001);
    joins(rt, either, (0b1010, 0), (0b1000, 0b0011));
    joins(rt, either, (0b1001, 0), (0b1000, 0b0001));
}

/// Checks what an operation makes of two values.
fn operates(rt: &impl Abort, operation: Binary, a: Pair, b: Pair, wanted: Pair) {
    let found = having(a).operate(operation, having(b));
    same_at(rt, seen(found), wanted, (&operation, &a, &b));
}

/// An operation, two values and what it makes of them.
type Operated = (Binary, Pair, Pair, Pair);

/// Checks what operations make of values.
fn are_operated(rt: &impl Abort, rows: &[Operated]) {
    for row in rows {
        let (operation, a, b, wanted) = *row;
        operates(rt, operation, a, b, wanted);
    }
}

#[test]
fn low_bits_of_arithmetic(rt: HostRuntime) {
    are_operated(
        &rt,
        &[
            (Binary::Add, (0b0011, 0b1000), (6, 0), (0b001, !0b111)),
            (Binary::Subtract, (0b0011, 0b1000), (6, 0), (0b101, !0b111)),
            (Binary::Multiply, (0b0011, 0b1000), (6, 0), (0b010, !0b111)),
            (Binary::Add, (6, 0), (0b0011, 0b1000), (0b001, !0b111)),
            (Binary::Multiply, (0, 1), (6, 0), (0, u64::MAX)),
            (Binary::Add, (u64::MAX, 0), (1, 0), (0, 0)),
            (Binary::Subtract, (0, 0), (1, 0), (u64::MAX, 0)),
        ],
    );
}

/// An operation, two words and what it makes of them.
type OfWords = (Binary, u64, u64, u64);

/// Checks what operations make of two words, and that nothing is known where either isn't.
fn known_words_are_operated(rt: &impl Abort, rows: &[OfWords]) {
    for row in rows {
        let (operation, a, b, answer) = *row;
        operates(rt, operation, (a, 0), (b, 0), (answer, 0));
        operates(rt, operation, (16, 1), (b, 0), (0, u64::MAX));
        operates(rt, operation, (a, 0), (4, 1), (0, u64::MAX));
    }
}

/// The word of -17.
const MINUS_17: u64 = 0xffff_ffff_ffff_ffef;

#[test]
fn quotients_of_known_words(rt: HostRuntime) {
    known_words_are_operated(
        &rt,
        &[
            (Binary::Divide, 17, 5, 3),
            (Binary::Divide, 17, 0, 0),
            (Binary::Modulo, 17, 5, 2),
            (Binary::Modulo, 17, 0, 17),
            (Binary::SignedDivide, MINUS_17, 5, 0xffff_ffff_ffff_fffd),
            (Binary::SignedModulo, MINUS_17, 5, 0xffff_ffff_ffff_fffe),
        ],
    );
}

#[test]
fn bit_by_bit(rt: HostRuntime) {
    are_operated(
        &rt,
        &[
            (Binary::And, A, B, (0b0001, 0b0110)),
            (Binary::Or, A, B, (0b0111, 0)),
            (Binary::Xor, A, B, (0, 0b0110)),
        ],
    );
}

/// A shift, a value, a count and what they make.
type Shifted = (Shift, Pair, u32, Pair);

/// Checks what shifts make of values.
fn are_shifted(rt: &impl Abort, rows: &[Shifted]) {
    for row in rows {
        let (shift, a, count, wanted) = *row;
        assert!(rt; count < 64);
        same_at(rt, seen(having(a).shift(shift, count)), wanted, row);
    }
}

#[test]
fn shifts(rt: HostRuntime) {
    are_shifted(
        &rt,
        &[
            (Shift::Left, A, 2, (0b1100, 0b1_0000)),
            (Shift::Left, A, 62, (0xc000_0000_0000_0000, 0)),
            (Shift::Right, A, 1, (0b0001, 0b0010)),
            (Shift::ArithmeticRight, A, 1, (0b0001, 0b0010)),
            (
                Shift::ArithmeticRight,
                (0x8000_0000_0000_0000, 0x4000_0000_0000_0000),
                1,
                (0xc000_0000_0000_0000, 0x2000_0000_0000_0000),
            ),
            (
                Shift::ArithmeticRight,
                (0, 0x8000_0000_0000_0000),
                63,
                (0, u64::MAX),
            ),
        ],
    );
}

/// A conversion, a size, a value and what they make.
type Converted = (Conversion, Size, Pair, Pair);

/// Checks what conversions make of values.
fn are_converted(rt: &impl Abort, rows: &[Converted]) {
    for row in rows {
        let (conversion, size, a, wanted) = *row;
        same_at(rt, seen(having(a).convert(conversion, size)), wanted, row);
    }
}

#[test]
fn conversions(rt: HostRuntime) {
    are_converted(
        &rt,
        &[
            (
                Conversion::Low,
                Size::HalfWord,
                (0x0102_0304, 0xf0),
                (0x0304, 0xf0),
            ),
            (
                Conversion::Swapped,
                Size::Word,
                (0x0102_0304, 0xf0),
                (0x0403_0201, 0xf000_0000),
            ),
            (
                Conversion::SignExtended,
                Size::Byte,
                (0x0102_0304, 0xf0),
                (0x04, 0xffff_ffff_ffff_fff0),
            ),
            (
                Conversion::SignExtended,
                Size::Byte,
                (0x80, 0x01),
                (0xffff_ffff_ffff_ff80, 0x01),
            ),
        ],
    );
}

/// Checks whether so many low bits are known to be zero.
fn has_low_zeros(rt: &impl Abort, value: KnownBits, count: u32, wanted: bool)
    requires { count < 64 }
{
    same(rt, value.low_zeros(count), wanted);
}

#[test]
fn what_is_known_of_all_words(rt: HostRuntime) {
    let rt = &rt;
    let a = having((0b1000, 0b0100));
    let bounds = Bounds {
        low: 0b1000,
        high: 0b1100,
    };
    same(rt, a.bounds(), bounds);
    let bits = Bits {
        value: 0b1000,
        unknown: 0b0100,
    };
    same(rt, a.bits(), bits);
    has_low_zeros(rt, a, 2, true);
    has_low_zeros(rt, a, 3, false);
    has_low_zeros(rt, known(0b1000, 0), 4, false);
    has_low_zeros(rt, KnownBits::top(), 0, true);
}

/// A relation and two values, each before and after.
type Told = (Relation, Pair, Pair, Pair, Pair);

/// Checks what relations tell of two values.
fn are_told(rt: &impl Abort, rows: &[Told]) {
    for row in rows {
        let (relation, a, b, a_after, b_after) = *row;
        let found = having(a).refine(relation, having(b));
        same_at(rt, found, (having(a_after), having(b_after)), row);
    }
}

const SEVEN: Pair = (0b0111, 0);

const ODD: Pair = (1, 0);

const EVEN: Pair = (0, 0b10);

const TWO: Pair = (0b0010, 0);

const WIDE: Pair = (0b0001, 0b0110);

#[test]
fn comparisons(rt: HostRuntime) {
    are_told(
        &rt,
        &[
            (Relation::Equal, A, B, SEVEN, SEVEN),
            (Relation::Equal, ODD, EVEN, ODD, EVEN),
            (Relation::Disjoint, WIDE, TWO, (0b0001, 0b0100), TWO),
            (Relation::Disjoint, WIDE, ODD, WIDE, ODD),
            (Relation::Disjoint, WIDE, EVEN, WIDE, EVEN),
            (Relation::NotEqual, A, B, A, B),
            (Relation::Greater, A, B, A, B),
            (Relation::GreaterOrEqual, A, B, A, B),
            (Relation::Overlapping, A, B, A, B),
        ],
    );
}

/// Checks what is left of a value once these bits are known of it.
fn fixes(rt: &impl Abort, a: Pair, known: Pair, wanted: Pair) {
    let (value, unknown) = known;
    let found = having(a).fix(Bits { value, unknown });
    same_at(rt, seen(found), wanted, (&a, &known));
}

#[test]
fn what_is_known_besides(rt: HostRuntime) {
    let pair = (0b0001, 0b0110);
    let a = having(pair);
    same(&rt, a.clamp(Bounds { low: 2, high: 3 }), a);
    fixes(&rt, pair, (0b0011, 0b0100), (0b0011, 0b0100));
    fixes(&rt, pair, (0, u64::MAX), (0b0001, 0b0110));
}
