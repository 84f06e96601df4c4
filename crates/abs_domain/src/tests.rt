//! What bounds and bits imply for each other.
use crate::checks::{same, same_at};
use crate::reduction::{is_consistent, leading, narrow};
use crate::{Bits, Bounds};
use std::test::*;

/// Words from 8 to 13.
const EIGHT_TO_THIRTEEN: Bounds = Bounds { low: 8, high: 13 };

/// Even words below 16.
const EVEN: Bits = Bits {
    value: 0,
    unknown: 0b1110,
};

#[test]
fn bits_narrow_bounds(rt: HostRuntime) {
    for (bounds, bits, low, high) in [
        (EIGHT_TO_THIRTEEN, EVEN, 8, 13),
        (Bounds { low: 3, high: 99 }, EVEN, 3, 14),
        (
            EIGHT_TO_THIRTEEN,
            Bits {
                value: 0b1010,
                unknown: 0b0001,
            },
            10,
            11,
        ),
        (
            EIGHT_TO_THIRTEEN,
            Bits {
                value: 64,
                unknown: 1,
            },
            64,
            13,
        ),
    ] {
        same_at(
            &rt,
            narrow(bounds, bits),
            Bounds { low, high },
            (&bounds, &bits),
        );
    }
}

#[test]
fn bounds_have_leading_bits(rt: HostRuntime) {
    for (low, high, unknown) in [
        (8, 13, 0b111),
        (8, 8, 0),
        (7, 8, 0b1111),
        (0x1200, 0x12ff, 0xff),
        (0, u64::MAX, u64::MAX),
        (1 << 63, u64::MAX, u64::MAX / 2),
    ] {
        let found = leading(Bounds { low, high });
        same_at(
            &rt,
            found,
            Bits {
                value: low,
                unknown,
            },
            (&low, &high),
        );
    }
}

#[test]
fn what_no_word_has_is_inconsistent(rt: HostRuntime) {
    let odd = Bits {
        value: 1,
        unknown: 0b1110,
    };
    let apart = Bits {
        value: 64,
        unknown: 1,
    };
    same(&rt, is_consistent(EIGHT_TO_THIRTEEN, EVEN), true);
    same(&rt, is_consistent(EIGHT_TO_THIRTEEN, apart), false);
    same(&rt, is_consistent(Bounds { low: 12, high: 12 }, EVEN), true);
    same(&rt, is_consistent(Bounds { low: 12, high: 12 }, odd), false);
}
