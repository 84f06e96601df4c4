//! The state at the entry, and where two paths meet.
ghost use Rattle.std.specs.Prelude.{◌<◌};

use super::{
    ANY, CONTEXT, EIGHT, STACK, UNSET, at_entry, cell_of, copy, number, registers_are_alike,
    sample, set_bytes_are, stacks_are_alike, stored_before,
};
use crate::checks::{is_found, is_true, is_value};
use abs_domain::Flat;
use abs_regs::AbsVal;
use abs_states::AbsState;
use bpf_profile::{Register, Size};
use refusals::RefusalNumber;
use stack_track::StackState;
use std::alloc::Global;
use std::process::Abort;

/// The same state with these values stored into cells 0 to 3.
fn with_cells(
    rt: &impl Abort,
    alloc: Global,
    state: &AbsState<Flat>,
    values: [AbsVal<Flat>; 4],
) -> AbsState<Flat> {
    let mut changed = copy(rt, alloc, state);
    for i in 0..4usize {
        changed = stored_before(
            rt,
            alloc,
            &changed,
            512 - 8 * i as u64,
            values[i],
            Size::DoubleWord,
        );
    }
    changed
}

/// A pointer to the first byte of the context.
const START: AbsVal<Flat> = AbsVal::Context(Flat::One(0));

/// A pointer to the end of the stack.
const END: AbsVal<Flat> = AbsVal::Stack(0);

/// Checks what is known of each register, R0 first.
fn are_known(rt: &impl Abort, state: &AbsState<Flat>, wanted: &[AbsVal<Flat>; 11]) {
    for number in 0..11u8 {
        let found = state.registers.get(Register::new(number));
        is_value(rt, found, wanted[number as usize]);
    }
}

/// Checks that nothing is known of the stack.
fn no_cell_is_known(rt: &impl Abort, state: &AbsState<Flat>) {
    for cell in 0..64 {
        let unset = Err(RefusalNumber::UnsetStack);
        is_found(rt, cell_of(state, cell), unset);
    }
    is_true(rt, set_bytes_are(state, 0, 0));
}

#[test]
fn at_the_entry_two_pointers_are_known(rt: HostRuntime) {
    let alloc = rt.alloc();
    let entry = at_entry(&rt, alloc);
    are_known(
        &rt,
        &entry,
        &[
            UNSET, START, UNSET, UNSET, UNSET, UNSET, UNSET, UNSET, UNSET, UNSET, END,
        ],
    );
    no_cell_is_known(&rt, &entry);
}

fn first_path(rt: &impl Abort, alloc: Global) -> AbsState<Flat> {
    with_cells(rt, alloc, &sample(rt, alloc), [EIGHT, EIGHT, STACK, EIGHT])
}

fn second_path(rt: &impl Abort, alloc: Global) -> AbsState<Flat> {
    let registers = at_entry(rt, alloc)
        .registers
        .with(Register::new(2), number(9))
        .with(Register::new(4), STACK)
        .with(Register::new(5), EIGHT);
    let state = AbsState {
        registers,
        stack: at_entry(rt, alloc).stack,
    };
    with_cells(rt, alloc, &state, [EIGHT, number(9), STACK, CONTEXT])
}

/// The join of two states.
fn joined(mut state: AbsState<Flat>, other: &AbsState<Flat>) -> AbsState<Flat> {
    state.join(other);
    state
}

/// Checks what is known of a cell.
fn has_cell(
    rt: &impl Abort,
    state: &AbsState<Flat>,
    cell: u64,
    wanted: Result<AbsVal<Flat>, RefusalNumber>,
)
    requires { cell < 64 }
{
    is_found(rt, cell_of(state, cell), wanted);
}

/// Checks what is known where the two paths meet.
fn is_joined(rt: &impl Abort, state: &AbsState<Flat>) {
    are_known(
        rt,
        state,
        &[
            UNSET, START, ANY, UNSET, STACK, UNSET, UNSET, UNSET, UNSET, UNSET, END,
        ],
    );
    has_cell(rt, state, 0, Ok(EIGHT));
    has_cell(rt, state, 1, Ok(ANY));
    has_cell(rt, state, 2, Ok(STACK));
    has_cell(rt, state, 3, Err(RefusalNumber::UnsetStack));
    has_cell(rt, state, 4, Err(RefusalNumber::UnsetStack));
    is_true(rt, set_bytes_are(state, 0, 16));
}

#[test]
fn registers_and_stacks_are_joined(rt: HostRuntime) {
    let rt = &rt;
    let alloc = rt.alloc();
    is_joined(rt, &joined(first_path(rt, alloc), &second_path(rt, alloc)));
    is_joined(rt, &joined(second_path(rt, alloc), &first_path(rt, alloc)));
}

/// Checks that the same is known of a state and of one that is copied from it.
fn is_copied(rt: &impl Abort, mut copied: AbsState<Flat>, state: &AbsState<Flat>) {
    copied.copy_from(state);
    is_true(rt, registers_are_alike(&copied, state));
    is_true(rt, stacks_are_alike(&copied, state));
}

#[test]
fn a_copy_is_the_same(rt: HostRuntime) {
    let rt = &rt;
    let alloc = rt.alloc();
    let state = with_cells(rt, alloc, &sample(rt, alloc), [EIGHT, ANY, STACK, CONTEXT]);
    is_copied(rt, at_entry(rt, alloc), &state);
    // What was there before is forgotten.
    is_copied(rt, second_path(rt, alloc), &at_entry(rt, alloc));
}
