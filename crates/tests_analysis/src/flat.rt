//! What the flat domain makes of words.
ghost use Rattle.std.specs.Prelude.{◌<◌};

use crate::checks::{same, same_at};
use abs_domain::{Binary, Bits, Bounds, Conversion, Domain, Flat, Relation, Shift};
use bpf_profile::Size;
use std::process::Abort;

const ANY: Flat = Flat::Any;

/// The word that has the sign alone.
const HIGH: u64 = 0x8000_0000_0000_0000;

/// An operation, two words, and what it makes of them.
type Operated = (Binary, u64, u64, u64);

/// Checks what operations make of single words, and of any.
fn words_are_operated(rt: &impl Abort, rows: &[Operated]) {
    for row in rows {
        let (operation, a, b, result) = *row;
        let found = Flat::constant(a).operate(operation, Flat::constant(b));
        same_at(rt, found, Flat::One(result), row);
        same_at(rt, Flat::One(a).operate(operation, ANY), ANY, row);
        same_at(rt, ANY.operate(operation, Flat::One(b)), ANY, row);
    }
}

#[test]
fn one_word_goes_through_each_operation(rt: HostRuntime) {
    words_are_operated(
        &rt,
        &[
            (Binary::Add, u64::MAX, 2, 1),
            (Binary::Subtract, 1, 2, u64::MAX),
            (Binary::Multiply, HIGH, 3, HIGH),
            (Binary::Divide, 7, 0, 0),
            (Binary::SignedDivide, HIGH, u64::MAX, HIGH),
            (Binary::Modulo, 7, 0, 7),
            (Binary::SignedModulo, HIGH, u64::MAX, 0),
            (Binary::And, 0b1100, 0b1010, 0b1000),
            (Binary::Or, 0b1100, 0b1010, 0b1110),
            (Binary::Xor, 0b1100, 0b1010, 0b0110),
        ],
    );
}

/// A shift, a word, and what eight bits make of it.
type Shifted = (Shift, u64, u64);

/// Checks what shifts by eight bits make of words, and of any.
fn are_shifted(rt: &impl Abort, rows: &[Shifted]) {
    for row in rows {
        let (shift, word, wanted) = *row;
        same_at(rt, Flat::One(word).shift(shift, 8), Flat::One(wanted), row);
        same_at(rt, ANY.shift(shift, 8), ANY, row);
    }
}

/// A conversion, a size, and what they make of a word.
type Converted = (Conversion, Size, u64);

/// Checks what conversions make of a word, and of any.
fn are_converted(rt: &impl Abort, rows: &[Converted]) {
    for row in rows {
        let (conversion, size, wanted) = *row;
        let found = Flat::One(0x0123_4567_89ab).convert(conversion, size);
        same_at(rt, found, Flat::One(wanted), row);
        same_at(rt, ANY.convert(conversion, size), ANY, row);
    }
}

#[test]
fn one_word_is_shifted_and_converted(rt: HostRuntime) {
    are_shifted(
        &rt,
        &[
            (Shift::Left, 0xff, 0xff00),
            (Shift::Right, 0xff << 56, 0x00ff_0000_0000_0000),
            (Shift::ArithmeticRight, 0xff << 56, 0xffff_0000_0000_0000),
        ],
    );
    are_converted(
        &rt,
        &[
            (Conversion::Low, Size::HalfWord, 0x89ab),
            (
                Conversion::SignExtended,
                Size::HalfWord,
                0xffff_ffff_ffff_89ab,
            ),
            (Conversion::Swapped, Size::HalfWord, 0xab89),
            (Conversion::Swapped, Size::DoubleWord, 0xab89_6745_2301_0000),
        ],
    );
}

#[test]
fn a_join_keeps_a_word_that_both_have(rt: HostRuntime) {
    let rt = &rt;
    same(rt, Flat::One(3).join(Flat::One(3)), Flat::One(3));
    same(rt, Flat::One(3).join(Flat::One(4)), ANY);
    same(rt, Flat::One(3).join(ANY), ANY);
    same(rt, ANY.join(Flat::One(3)), ANY);
}

/// Checks the bounds of what is known of a word.
fn has_bounds(rt: &impl Abort, value: Flat, low: u64, high: u64) {
    same(rt, value.bounds(), Bounds { low, high });
}

/// Checks the bits of what is known of a word.
fn has_bits(rt: &impl Abort, found: Flat, value: u64, unknown: u64) {
    same(rt, found.bits(), Bits { value, unknown });
}

/// Checks whether so many low bits are known to be zero.
fn has_low_zeros(rt: &impl Abort, value: Flat, count: u32, wanted: bool)
    requires { count < 64 }
{
    same(rt, value.low_zeros(count), wanted);
}

#[test]
fn bounds_and_bits_are_those_of_the_word(rt: HostRuntime) {
    let rt = &rt;
    let twelve = Flat::One(12);
    has_bounds(rt, twelve, 12, 12);
    has_bounds(rt, Flat::top(), 0, u64::MAX);
    has_bits(rt, twelve, 12, 0);
    has_bits(rt, ANY, 0, u64::MAX);
    has_low_zeros(rt, twelve, 2, true);
    has_low_zeros(rt, twelve, 3, false);
    has_low_zeros(rt, ANY, 0, false);
}

/// A relation and two values, each before and after.
type Told = (Relation, Flat, Flat, Flat, Flat);

/// Checks what relations tell of two values.
fn are_told(rt: &impl Abort, rows: &[Told]) {
    for row in rows {
        let (relation, a, b, a_after, b_after) = *row;
        same_at(rt, a.refine(relation, b), (a_after, b_after), row);
    }
}

const FIVE: Flat = Flat::One(5);

const SIX: Flat = Flat::One(6);

#[test]
fn equality_alone_refines(rt: HostRuntime) {
    are_told(
        &rt,
        &[
            (Relation::Equal, ANY, FIVE, FIVE, FIVE),
            (Relation::Equal, FIVE, ANY, FIVE, FIVE),
            (Relation::Equal, FIVE, SIX, FIVE, SIX),
            (Relation::NotEqual, ANY, FIVE, ANY, FIVE),
            (Relation::NotEqual, FIVE, ANY, FIVE, ANY),
            (Relation::Greater, ANY, FIVE, ANY, FIVE),
            (Relation::Greater, FIVE, ANY, FIVE, ANY),
            (Relation::GreaterOrEqual, ANY, FIVE, ANY, FIVE),
            (Relation::GreaterOrEqual, FIVE, ANY, FIVE, ANY),
            (Relation::Disjoint, ANY, FIVE, ANY, FIVE),
            (Relation::Disjoint, FIVE, ANY, FIVE, ANY),
            (Relation::Overlapping, ANY, FIVE, ANY, FIVE),
            (Relation::Overlapping, FIVE, ANY, FIVE, ANY),
        ],
    );
    same(&rt, FIVE.clamp(Bounds { low: 7, high: 9 }), FIVE);
    let one = Bits {
        value: 1,
        unknown: 0,
    };
    same(&rt, ANY.fix(one), ANY);
}
