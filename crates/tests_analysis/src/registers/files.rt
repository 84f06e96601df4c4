//! What is known of eleven registers.
use super::{ANY, CONTEXT, EIGHT, STACK, UNSET, number};
use crate::checks::is_value;
use abs_domain::Flat;
use abs_regs::{AbsVal, RegFile};
use bpf_profile::{Operand, Register};
use std::process::Abort;

/// What is known of the register of a number.
fn known(rt: &impl Abort, registers: RegFile<Flat>, number: u8) -> AbsVal<Flat> {
    assert!(rt; number < 11);
    registers.get(Register::new(number))
}

/// Checks what is known of each register, R0 first.
fn are_known(rt: &impl Abort, registers: RegFile<Flat>, wanted: &[AbsVal<Flat>; 11]) {
    for number in 0..11u8 {
        let found = known(rt, registers, number);
        is_value(rt, found, wanted[number as usize]);
    }
}

/// A pointer to the first byte of the context.
const START: AbsVal<Flat> = AbsVal::Context(Flat::One(0));

/// A pointer to the end of the stack.
const END: AbsVal<Flat> = AbsVal::Stack(0);

#[test]
fn at_the_entry_two_pointers_are_known(rt: HostRuntime) {
    are_known(
        &rt,
        RegFile::entry(),
        &[
            UNSET, START, UNSET, UNSET, UNSET, UNSET, UNSET, UNSET, UNSET, UNSET, END,
        ],
    );
}

/// Checks that one register has a value, and that the others have what they have at the entry.
fn one_is_set(rt: &impl Abort, set: u8) {
    assert!(rt; set < 11);
    let registers = RegFile::entry().with(Register::new(set), EIGHT);
    for number in 0..11u8 {
        let wanted = if number == set {
            EIGHT
        } else {
            known(rt, RegFile::entry(), number)
        };
        is_value(rt, known(rt, registers, number), wanted);
    }
}

#[test]
fn one_register_is_set(rt: HostRuntime) {
    for set in 0..11u8 {
        one_is_set(&rt, set);
    }
}

/// The join of two states.
fn joined(one: RegFile<Flat>, other: RegFile<Flat>) -> RegFile<Flat> {
    let mut registers = one;
    registers.join(&other);
    registers
}

fn first_path() -> RegFile<Flat> {
    RegFile::entry()
        .with(Register::new(0), EIGHT)
        .with(Register::new(2), EIGHT)
        .with(Register::new(3), STACK)
        .with(Register::new(4), CONTEXT)
        .with(Register::new(5), EIGHT)
}

fn second_path() -> RegFile<Flat> {
    RegFile::entry()
        .with(Register::new(0), EIGHT)
        .with(Register::new(2), number(9))
        .with(Register::new(3), STACK)
        .with(Register::new(4), EIGHT)
        .with(Register::new(9), EIGHT)
        .with(Register::new(10), STACK)
}

#[test]
fn registers_are_joined_each_with_its_own(rt: HostRuntime) {
    let wanted = &[
        EIGHT, START, ANY, STACK, UNSET, UNSET, UNSET, UNSET, UNSET, UNSET, UNSET,
    ];
    are_known(&rt, joined(first_path(), second_path()), wanted);
    are_known(&rt, joined(second_path(), first_path()), wanted);
}

/// Checks what is read of an operand where the stack's address is in R2.
fn reads(rt: &impl Abort, operand: Operand, wanted: AbsVal<Flat>) {
    let registers = RegFile::entry().with(Register::new(2), STACK);
    is_value(rt, registers.operand(operand), wanted);
}

#[test]
fn operands_are_registers_or_words(rt: HostRuntime) {
    reads(&rt, Operand::Register(Register::new(2)), STACK);
    reads(&rt, Operand::Register(Register::new(0)), UNSET);
    // A word is taken whole: -1 of 32 bits is -1 of 64.
    reads(&rt, Operand::Immediate(u64::MAX), number(u64::MAX));
}

/// Checks that the same is known of each register.
fn are_alike(rt: &impl Abort, one: RegFile<Flat>, other: RegFile<Flat>) {
    for number in 0..11u8 {
        let wanted = known(rt, other, number);
        is_value(rt, known(rt, one, number), wanted);
    }
}

#[test]
fn a_copy_is_the_same(rt: HostRuntime) {
    let registers = RegFile::entry().with(Register::new(7), EIGHT);
    let copy = registers.clone().expect(&rt, "a copy");
    are_alike(&rt, copy, registers);
}
