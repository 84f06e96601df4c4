//! Joins, and values that are read.
use super::{ANY, CONTEXT, EIGHT, MINUS_8, STACK, UNSET, number};
use crate::checks::{is_found, is_value, same};
use abs_domain::Flat;
use abs_regs::AbsVal;
use refusals::RefusalNumber;
use std::process::Abort;

type Value = AbsVal<Flat>;

/// Checks a join, and that of the same values exchanged.
fn joins(rt: &impl Abort, a: Value, b: Value, joined: Value) {
    is_value(rt, a.join(b), joined);
    is_value(rt, b.join(a), joined);
}

#[test]
fn values_of_one_kind_are_joined(rt: HostRuntime) {
    let rt = &rt;
    let any_of_context = AbsVal::Context(Flat::Any);
    let byte_25 = AbsVal::Context(Flat::One(25));
    joins(rt, UNSET, UNSET, UNSET);
    joins(rt, EIGHT, EIGHT, EIGHT);
    joins(rt, EIGHT, number(9), ANY);
    joins(rt, EIGHT, ANY, ANY);
    joins(rt, STACK, STACK, STACK);
    joins(rt, STACK, AbsVal::Stack(MINUS_8), UNSET);
    joins(rt, CONTEXT, CONTEXT, CONTEXT);
    joins(rt, CONTEXT, byte_25, any_of_context);
    joins(rt, CONTEXT, any_of_context, any_of_context);
}

#[test]
fn of_unlike_values_nothing_is_known(rt: HostRuntime) {
    let rt = &rt;
    // The offsets are the same, so the kinds alone tell the values apart.
    let number = EIGHT;
    let stack = AbsVal::Stack(8);
    let context = AbsVal::Context(Flat::One(8));
    joins(rt, UNSET, number, UNSET);
    joins(rt, UNSET, stack, UNSET);
    joins(rt, UNSET, context, UNSET);
    joins(rt, number, stack, UNSET);
    joins(rt, number, context, UNSET);
    joins(rt, stack, context, UNSET);
}

/// Checks what is read of a value, as any and as a number.
fn reads(
    rt: &impl Abort,
    value: Value,
    set: Result<Value, RefusalNumber>,
    number: Result<Flat, RefusalNumber>,
) {
    is_found(rt, value.set(), set);
    same(rt, value.number(), number);
}

#[test]
fn values_are_read(rt: HostRuntime) {
    let rt = &rt;
    let unset = RefusalNumber::UnsetRegister;
    let used = RefusalNumber::PointerUsed;
    reads(rt, UNSET, Err(unset), Err(unset));
    reads(rt, EIGHT, Ok(EIGHT), Ok(Flat::One(8)));
    reads(rt, ANY, Ok(ANY), Ok(Flat::Any));
    reads(rt, STACK, Ok(STACK), Err(used));
    reads(rt, CONTEXT, Ok(CONTEXT), Err(used));
}
