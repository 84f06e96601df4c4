//! What two domains imply for each other.
ghost use Rattle.std.specs.Prelude.{◌<◌};

use crate::checks::same;
use abs_domain::{Binary, Bits, Both, Bounds, Conversion, Domain, Flat, Relation, Shift};
use bpf_profile::Size;
use std::process::Abort;

const ANY: Flat = Flat::Any;

/// Words from 8 to 13.
const EIGHT_TO_THIRTEEN: Bounds = Bounds { low: 8, high: 13 };

/// Even words below 16.
const EVEN: Bits = Bits {
    value: 0,
    unknown: 0b1110,
};

type Two = Both<Flat, Flat>;

fn both(first: Flat, second: Flat) -> Two {
    Both { first, second }
}

/// Checks a join.
fn joins(rt: &impl Abort, a: Two, b: Two, wanted: Two) {
    same(rt, a.join(b), wanted);
}

/// Checks a sum.
fn adds(rt: &impl Abort, a: Two, b: Two, wanted: Two) {
    same(rt, a.operate(Binary::Add, b), wanted);
}

/// Checks what is known where two values are equal.
fn are_equal(rt: &impl Abort, a: Two, b: Two, wanted: Two) {
    same(rt, a.refine(Relation::Equal, b), (wanted, wanted));
}

#[test]
fn each_part_takes_its_own_step(rt: HostRuntime) {
    let rt = &rt;
    let a = both(Flat::One(6), ANY);
    let b = both(Flat::One(6), Flat::One(3));
    let c = both(ANY, Flat::One(3));
    joins(rt, a, b, both(Flat::One(6), ANY));
    joins(rt, c, b, both(ANY, Flat::One(3)));
    adds(rt, b, b, both(Flat::One(12), Flat::One(6)));
    adds(rt, a, b, both(Flat::One(12), ANY));
    are_equal(rt, c, a, both(Flat::One(6), Flat::One(3)));
    let shifted = b.shift(Shift::Left, 2);
    same(rt, shifted, both(Flat::One(24), Flat::One(12)));
    let converted = c.convert(Conversion::Swapped, Size::HalfWord);
    same(rt, converted, both(ANY, Flat::One(0x300)));
    same(rt, a.clamp(EIGHT_TO_THIRTEEN), a);
    same(rt, a.fix(EVEN), a);
    same(rt, Two::constant(7), both(Flat::One(7), Flat::One(7)));
    same(rt, Two::top(), both(ANY, ANY));
}

/// Checks that the bounds are those of one word.
fn has_bounds(rt: &impl Abort, value: Two, word: u64) {
    let wanted = Bounds {
        low: word,
        high: word,
    };
    same(rt, value.bounds(), wanted);
}

/// Checks whether so many low bits are known to be zero.
fn has_low_zeros(rt: &impl Abort, value: Two, count: u32, wanted: bool)
    requires { count < 64 }
{
    same(rt, value.low_zeros(count), wanted);
}

#[test]
fn either_part_answers(rt: HostRuntime) {
    let rt = &rt;
    let crossed = both(Flat::One(6), Flat::One(3));
    has_bounds(rt, both(ANY, Flat::One(3)), 3);
    has_bounds(rt, both(Flat::One(6), ANY), 6);
    // Where they cross, it is the first.
    has_bounds(rt, crossed, 6);
    let three = Bits {
        value: 3,
        unknown: 0,
    };
    same(rt, crossed.bits(), three);
    has_low_zeros(rt, both(Flat::One(6), ANY), 1, true);
    has_low_zeros(rt, both(ANY, Flat::One(6)), 1, true);
    has_low_zeros(rt, both(ANY, Flat::One(6)), 2, false);
}
