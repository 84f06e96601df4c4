//! What arithmetic and comparisons make of single words, and of any.
use crate::checks::{same, same_at};
use abs_domain::Flat;
use abs_domain::arithmetic::{arithmetic, converted, moved_signed, negation};
use abs_domain::branches::refined;
use bpf_profile::{ByteOrder, Comparison, Operation, Size, Width};
use std::process::Abort;

const ANY: Flat = Flat::Any;

/// The word that has the sign alone.
const HIGH: u64 = 0x8000_0000_0000_0000;

/// An operation, two words, and what it makes of them.
type Computed = (Operation, u64, u64, u64);

/// Checks what is computed of single words.
fn words_are_computed(rt: &impl Abort, width: Width, rows: &[Computed]) {
    for row in rows {
        let (operation, a, b, result) = *row;
        let found = arithmetic(operation, width, Flat::One(a), Flat::One(b));
        same_at(rt, found, Flat::One(result), row);
    }
}

#[test]
fn halves_are_computed_apart(rt: HostRuntime) {
    words_are_computed(
        &rt,
        Width::Bits32,
        &[
            (Operation::Add, 0x1_ffff_ffff, 1, 0),
            (Operation::Subtract, 0, 1, 0xffff_ffff),
            (Operation::Multiply, 0x1_0001_0000, 0x1_0000, 0),
            (Operation::Divide, 0x1_0000_0007, 0x2_0000_0002, 3),
            (
                Operation::SignedDivide,
                0x8000_0000,
                0xffff_ffff,
                0x8000_0000,
            ),
            (Operation::Modulo, 0xffff_ffff_0000_0007, 0, 7),
            (Operation::SignedModulo, 0xffff_fff3, 3, 0xffff_ffff),
            (Operation::And, 0xf_0000_000f, 0xf_0000_0009, 9),
            (Operation::Or, 0xf_0000_0006, 9, 15),
            (Operation::Xor, 0xf_0000_0006, 5, 3),
            (Operation::Move, 1, 0xf_0000_0002, 2),
            (Operation::ShiftLeft, 0x8000_0001, 33, 2),
            (Operation::ShiftRight, 0xf_8000_0000, 31, 1),
            (
                Operation::ArithmeticShiftRight,
                0x8000_0000,
                31,
                0xffff_ffff,
            ),
        ],
    );
}

#[test]
fn whole_words_are_computed(rt: HostRuntime) {
    words_are_computed(
        &rt,
        Width::Bits64,
        &[
            (Operation::Add, u64::MAX, 2, 1),
            (Operation::SignedDivide, HIGH, u64::MAX, HIGH),
            (Operation::SignedModulo, HIGH, u64::MAX, 0),
            (Operation::Move, 1, HIGH, HIGH),
            (Operation::ShiftLeft, 5, 64, 5),
            (Operation::ArithmeticShiftRight, HIGH, 63, u64::MAX),
        ],
    );
    same(
        &rt,
        arithmetic(Operation::ShiftLeft, Width::Bits64, Flat::One(0), ANY),
        ANY,
    );
    same(
        &rt,
        arithmetic(Operation::Move, Width::Bits64, ANY, Flat::One(7)),
        Flat::One(7),
    );
}

/// Checks what is moved with a sign.
fn is_moved(rt: &impl Abort, width: Width, size: Size, before: u64, after: u64) {
    let found = moved_signed(width, size, Flat::One(before));
    same(rt, found, Flat::One(after));
}

/// Checks what is converted.
fn is_converted(rt: &impl Abort, order: ByteOrder, size: Size, before: u64, after: u64) {
    let found = converted(order, size, Flat::One(before));
    same(rt, found, Flat::One(after));
}

#[test]
fn single_words_are_negated_and_converted(rt: HostRuntime) {
    let rt = &rt;
    let seven = Flat::One(7);
    same(
        rt,
        negation(Width::Bits64, seven),
        Flat::One(0xffff_ffff_ffff_fff9),
    );
    same(rt, negation(Width::Bits32, seven), Flat::One(0xffff_fff9));
    same(rt, negation(Width::Bits64, ANY), ANY);
    let odd = 0x1234_8091;
    is_moved(rt, Width::Bits64, Size::Byte, odd, 0xffff_ffff_ffff_ff91);
    is_moved(rt, Width::Bits32, Size::HalfWord, odd, 0xffff_8091);
    is_converted(rt, ByteOrder::Little, Size::HalfWord, odd, 0x8091);
    is_converted(rt, ByteOrder::Big, Size::HalfWord, odd, 0x9180);
    is_converted(rt, ByteOrder::Swap, Size::Word, odd, 0x9180_3412);
}

/// A comparison, its width, whether it holds, and what it then tells of any word and five.
type Refined = (Comparison, Width, bool, (Flat, Flat));

/// Checks what comparisons of any word with five tell.
fn are_refined(rt: &impl Abort, rows: &[Refined]) {
    for row in rows {
        let (comparison, width, holds, wanted) = *row;
        let found = refined(comparison, width, holds, ANY, Flat::One(5));
        same_at(rt, found, wanted, row);
    }
}

/// Both are five.
const FIVES: (Flat, Flat) = (Flat::One(5), Flat::One(5));

/// Nothing is told.
const NOTHING: (Flat, Flat) = (ANY, Flat::One(5));

#[test]
fn equal_words_become_one(rt: HostRuntime) {
    are_refined(
        &rt,
        &[
            (Comparison::Equal, Width::Bits64, true, FIVES),
            (Comparison::Equal, Width::Bits64, false, NOTHING),
            (Comparison::NotEqual, Width::Bits64, false, FIVES),
            (Comparison::NotEqual, Width::Bits64, true, NOTHING),
            // Any word may have more than 32 bits.
            (Comparison::Equal, Width::Bits32, true, NOTHING),
            (Comparison::GreaterOrEqual, Width::Bits64, true, NOTHING),
            (Comparison::BitsSet, Width::Bits64, true, NOTHING),
        ],
    );
}
