//! Addresses of loads and stores (RFC 9669, section 5).
use super::{ANY, CONTEXT, EIGHT, MINUS_8, MINUS_16, STACK, UNSET};
use crate::checks::same;
use abs_domain::Flat;
use abs_regs::{AbsVal, Address};
use refusals::RefusalNumber;
use std::process::Abort;

/// A value, a distance, and the address so far from it.
type Moved = (AbsVal<Flat>, u64, Address<Flat>);

/// Checks an address, or why there is none.
fn is_address(
    rt: &impl Abort,
    found: Result<Address<Flat>, RefusalNumber>,
    wanted: Result<Address<Flat>, RefusalNumber>,
) {
    same(rt, found, wanted);
}

/// Checks addresses.
fn are_moved(rt: &impl Abort, rows: &[Moved]) {
    for row in rows {
        let (value, distance, address) = *row;
        is_address(rt, value.address(distance), Ok(address));
    }
}

#[test]
fn pointers_are_moved_by_the_offset(rt: HostRuntime) {
    are_moved(
        &rt,
        &[
            (STACK, 0, Address::Stack(MINUS_16)),
            (STACK, 8, Address::Stack(MINUS_8)),
            (STACK, 24, Address::Stack(8)),
            (AbsVal::Stack(0), MINUS_8, Address::Stack(MINUS_8)),
            (AbsVal::Stack(MINUS_8), MINUS_8, Address::Stack(MINUS_16)),
            (CONTEXT, 0, Address::Context(Flat::One(24))),
            (CONTEXT, 8, Address::Context(Flat::One(32))),
            (CONTEXT, MINUS_16, Address::Context(Flat::One(8))),
            // Before the context.
            (
                AbsVal::Context(Flat::One(8)),
                MINUS_16,
                Address::Context(Flat::One(MINUS_8)),
            ),
            (AbsVal::Context(Flat::Any), 8, Address::Context(Flat::Any)),
        ],
    );
}

/// Checks that a value is no address, so far from it.
fn is_no_address(rt: &impl Abort, value: AbsVal<Flat>, distance: u64, refusal: RefusalNumber) {
    let found = value.address(distance);
    is_address(rt, found, Err(refusal));
}

/// Checks that a value is no address.
fn is_never_address(rt: &impl Abort, value: AbsVal<Flat>, refusal: RefusalNumber) {
    is_no_address(rt, value, 0, refusal);
    is_no_address(rt, value, 8, refusal);
    is_no_address(rt, value, MINUS_8, refusal);
}

#[test]
fn other_values_are_no_addresses(rt: HostRuntime) {
    is_never_address(&rt, UNSET, RefusalNumber::UnsetRegister);
    is_never_address(&rt, EIGHT, RefusalNumber::NotPointer);
    is_never_address(&rt, ANY, RefusalNumber::NotPointer);
}
