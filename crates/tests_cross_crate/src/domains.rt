//! The product of ranges and known bits, as an analysis uses it.
ghost use Rattle.std.specs.Prelude.{◌<◌};

use crate::checks::{same, same_at};
use crate::programs::EDGES;
use abs_domain::arithmetic::{arithmetic, converted, moved_signed, negation};
use abs_domain::branches::refined;
use abs_domain::{Bits, Both, Bounds, Domain};
use bpf_profile::{ByteOrder, Comparison, Operation, Size, Width};
use known_bits::KnownBits;
use ranges::Range;
use std::process::Abort;

type Number = Both<Range, KnownBits>;

const WIDTHS: [Width; 2] = [Width::Bits32, Width::Bits64];

const OPERATIONS: [Operation; 14] = [
    Operation::Add,
    Operation::Subtract,
    Operation::Multiply,
    Operation::Divide,
    Operation::SignedDivide,
    Operation::Or,
    Operation::And,
    Operation::ShiftLeft,
    Operation::ShiftRight,
    Operation::Modulo,
    Operation::SignedModulo,
    Operation::Xor,
    Operation::Move,
    Operation::ArithmeticShiftRight,
];

const ORDERS: [ByteOrder; 3] = [ByteOrder::Little, ByteOrder::Big, ByteOrder::Swap];

const SIZES: [Size; 3] = [Size::HalfWord, Size::Word, Size::DoubleWord];

/// Checks the bounds of a number, and its bits.
fn is_known<D: Domain>(rt: &impl Abort, number: D, bounds: Bounds, bits: Bits) {
    same(rt, number.bounds(), bounds);
    same(rt, number.bits(), bits);
}

/// Checks that a number is known to be one word.
fn is_word<D: Domain>(rt: &impl Abort, number: D, word: u64) {
    let bounds = Bounds {
        low: word,
        high: word,
    };
    let bits = Bits {
        value: word,
        unknown: 0,
    };
    is_known(rt, number, bounds, bits);
}

/// Checks what is known of an operation on each two of the edges.
fn operation_is_known<D: Domain>(rt: &impl Abort, operation: Operation, width: Width) {
    for a in &EDGES {
        for b in &EDGES {
            let number = arithmetic(operation, width, D::constant(*a), D::constant(*b));
            is_word(rt, number, bpf_words::arithmetic(operation, width, *a, *b));
        }
    }
}

fn operations_are_known<D: Domain>(rt: &impl Abort) {
    for operation in &OPERATIONS {
        for width in &WIDTHS {
            operation_is_known::<D>(rt, *operation, *width);
        }
    }
}

/// Checks what is known of the moves and the negation of a word.
fn moves_are_known<D: Domain>(rt: &impl Abort, a: u64, width: Width) {
    let number = D::constant(a);
    is_word(rt, negation(width, number), bpf_words::negation(width, a));
    for size in &[Size::Byte, Size::HalfWord] {
        let moved = moved_signed(width, *size, number);
        is_word(rt, moved, bpf_words::moved_signed(width, *size, a));
    }
}

/// Checks what is known of a word in another byte order.
fn order_is_known<D: Domain>(rt: &impl Abort, a: u64, order: ByteOrder) {
    for size in &SIZES {
        let found = converted(order, *size, D::constant(a));
        is_word(rt, found, bpf_words::converted(order, *size, a));
    }
}

fn conversions_are_known<D: Domain>(rt: &impl Abort) {
    for a in &EDGES {
        for width in &WIDTHS {
            moves_are_known::<D>(rt, *a, *width);
        }
        for order in &ORDERS {
            order_is_known::<D>(rt, *a, *order);
        }
    }
}

/// Checks the greatest word that a mask leaves, and how many low zeros it is known to have.
fn masks<D: Domain>(rt: &impl Abort, mask: u64, high: u64, zeros: u32)
    requires { zeros < 63 }
{
    let mask = D::constant(mask);
    let number = arithmetic(Operation::And, Width::Bits64, D::top(), mask);
    same(rt, number.bounds(), Bounds { low: 0, high });
    same(rt, number.low_zeros(zeros), true);
    same(rt, number.low_zeros(zeros + 1), false);
}

fn masks_bound_and_align<D: Domain>(rt: &impl Abort) {
    masks::<D>(rt, 56, 56, 3);
    masks::<D>(rt, 63, 63, 0);
    masks::<D>(rt, 120, 120, 3);
}

fn parts_sharpen<D: Domain>(rt: &impl Abort) {
    // From 256 to 271, all bits above the lowest four are known.
    let low_four = arithmetic(Operation::And, Width::Bits64, D::top(), D::constant(15));
    let number = arithmetic(Operation::Add, Width::Bits64, low_four, D::constant(256));
    let bounds = Bounds {
        low: 256,
        high: 271,
    };
    let bits = Bits {
        value: 256,
        unknown: 15,
    };
    is_known(rt, number, bounds, bits);
    // Even words from 0 to 14, and one more: odd words.
    let even = arithmetic(Operation::And, Width::Bits64, D::top(), D::constant(14));
    let odd = arithmetic(Operation::Or, Width::Bits64, even, D::constant(1));
    let bounds = Bounds { low: 1, high: 15 };
    let bits = Bits {
        value: 1,
        unknown: 14,
    };
    is_known(rt, odd, bounds, bits);
}

/// A comparison, its width, whether it holds, and the bounds of any number where it does so beside 2.
type Told = (Comparison, Width, bool, u64, u64);

/// Checks what comparisons of any number with 2 tell.
fn are_told<D: Domain>(rt: &impl Abort, rows: &[Told]) {
    for row in rows {
        let (comparison, width, holds, low, high) = *row;
        let (number, _) = refined(comparison, width, holds, D::top(), D::constant(2));
        same_at(rt, number.bounds(), Bounds { low, high }, row);
    }
}

fn comparisons_tell<D: Domain>(rt: &impl Abort) {
    are_told::<D>(
        rt,
        &[
            (Comparison::LessOrEqual, Width::Bits64, true, 0, 2),
            (Comparison::LessOrEqual, Width::Bits64, false, 3, u64::MAX),
            (Comparison::Less, Width::Bits64, true, 0, 1),
            (Comparison::Greater, Width::Bits64, true, 3, u64::MAX),
            (Comparison::GreaterOrEqual, Width::Bits64, false, 0, 1),
            (Comparison::Equal, Width::Bits64, true, 2, 2),
            (Comparison::NotEqual, Width::Bits64, true, 0, u64::MAX),
            (Comparison::LessOrEqual, Width::Bits32, true, 0, u64::MAX),
            (Comparison::SignedLess, Width::Bits64, true, 0, u64::MAX),
        ],
    );
}

/// A number of 32 bits is read as it stands.
fn comparisons_tell_of_halves<D: Domain>(rt: &impl Abort) {
    let half = D::top().convert(abs_domain::Conversion::Low, Size::Word);
    let two = D::constant(2);
    let (number, _) = refined(Comparison::LessOrEqual, Width::Bits32, true, half, two);
    let bounds = Bounds { low: 0, high: 2 };
    let bits = Bits {
        value: 0,
        unknown: 3,
    };
    is_known(rt, number, bounds, bits);
}

fn comparisons_tell_of_bits<D: Domain>(rt: &impl Abort) {
    let seven = D::constant(7);
    let (number, _) = refined(Comparison::BitsSet, Width::Bits64, false, D::top(), seven);
    same(rt, number.low_zeros(3), true);
}

fn joins_know<D: Domain>(rt: &impl Abort) {
    let joined = D::constant(4).join(D::constant(6));
    let bounds = Bounds { low: 4, high: 6 };
    let bits = Bits {
        value: 4,
        unknown: 2,
    };
    is_known(rt, joined, bounds, bits);
    same(rt, joined.low_zeros(1), true);
}

#[test]
fn operations_on_single_words_are_known(rt: HostRuntime) {
    operations_are_known::<Number>(&rt);
}

#[test]
fn moves_and_conversions_of_single_words_are_known(rt: HostRuntime) {
    conversions_are_known::<Number>(&rt);
}

#[test]
fn a_mask_bounds_and_aligns(rt: HostRuntime) {
    masks_bound_and_align::<Number>(&rt);
}

#[test]
fn each_part_sharpens_the_other(rt: HostRuntime) {
    parts_sharpen::<Number>(&rt);
}

#[test]
fn comparisons_narrow(rt: HostRuntime) {
    comparisons_tell::<Number>(&rt);
    comparisons_tell_of_halves::<Number>(&rt);
    comparisons_tell_of_bits::<Number>(&rt);
}

#[test]
fn a_join_knows_what_both_do(rt: HostRuntime) {
    joins_know::<Number>(&rt);
}
