//! The abstract states that a pass over the slots sends along the edges of each. Each state is in memory of
//! its own, so that it is passed on without a copy.
ghost use Rattle.std.specs.Prelude.{◌≡◌, ◌≢◌, ◌⊎◌, ℕ, ◌<◌, ◌++◌, length, true, false, Some, None, Ok, Err, IfSome, IfOk, IfErr, OnOk, box_value};
ghost use Rattle.bpf_profile.specs.Layouts.{context_size};
ghost use Rattle.abs_states.specs.States.{entry_state};
ghost use Rattle.abs_states.specs.Transfers.{transfer_in};
ghost use Rattle.verifier.specs.Analysis.{message_to, fault_in};
ghost use Rattle.verifier.specs.Memory.{StateFits};
ghost use Rattle.verifier.specs.Passes.{entry_states, seen, delivered, delivered_all, IsJumpJoined};
ghost use Rattle.verifier.specs.Verifying.{out_of_memory};

use crate::nones::nones;
use crate::refusal::Refusal;
use abs_domain::Domain;
use abs_states::AbsState;
use bpf_decode::Decoded;
use bpf_profile::{Instruction, Layout};
use flow_check::Successors;
use std::alloc::{AllocError, Global};

/// The entry state, in memory of its own.
fn boxed_entry<D: Domain>(alloc: Global) -> Result<Box<AbsState<D>>, AllocError>
    requires { StateFits D.row }
    ensures { IfOk result (λ state. box_value state ≡ entry_state ⟦<D as Domain>⟧) }
{
    let state = Box::new(alloc, AbsState::entry(alloc)?)?;
    Ok(state)
}

/// A copy of a state, in memory of its own.
pub(crate) fn boxed_copy<D: Domain>(
    alloc: Global,
    state: &AbsState<D>,
) -> Result<Box<AbsState<D>>, AllocError>
    requires { StateFits D.row }
    ensures { IfOk result (λ copy. box_value copy ≡ state.now) }
{
    let mut copy = boxed_entry(alloc)?;
    copy.copy_from(state);
    Ok(copy)
}

/// The states before the pass: the entry state at slot 0, none elsewhere.
pub(crate) fn first_states<D: Domain>(
    alloc: Global,
    slots: &Decoded,
) -> Result<Vec<Option<Box<AbsState<D>>>>, AllocError>
    requires fits { StateFits D.row }
    requires some { 0 < length slots.now }
    ensures { IfOk result (λ states. seen states.items ≡ entry_states ⟦<D as Domain>⟧ (length slots.now)) }
{
    let mut states = nones(alloc, slots.len())?;
    states[0] = Some(boxed_entry(alloc)?);
    Ok(states)
}

/// Joins an abstract state that was sent to a slot into the state before that slot.
fn join_at<D: Domain>(states: &mut [Option<Box<AbsState<D>>>], to: usize, state: Box<AbsState<D>>)
    requires { to < length states.old }
    ensures { seen states.new ≡ delivered ⟦<D as Domain>⟧ (seen states.old) (record { to = to; state = box_value state }) }
{
    match states[to].take() {
        Some(mut before) => {
            before.join(&state);
            states[to] = Some(before);
        }
        None => states[to] = Some(state),
    }
}

/// The same for an edge that may not be there.
fn deliver<D: Domain>(
    states: &mut [Option<Box<AbsState<D>>>],
    to: Option<u32>,
    state: Box<AbsState<D>>,
)
    requires { IfSome to (λ slot. slot < length states.old) }
    ensures { seen states.new ≡ delivered_all ⟦<D as Domain>⟧ (seen states.old) (message_to to (Ok (box_value state))) }
{
    if let Some(to) = to {
        join_at(states, to as usize, state);
    }
}

/// Makes of a state the one on an edge of the instruction at a slot.
fn follow<D: Domain>(
    state: &mut AbsState<D>,
    taken: bool,
    instruction: &Instruction,
    slot: u32,
    layout: Layout,
) -> Result<(), Refusal>
    ensures passed { OnOk result (transfer_in ⟦<D as Domain>⟧ (context_size layout) state.old taken instruction.now ≡ Ok state.new) }
    ensures refused { IfErr result (λ e. transfer_in ⟦<D as Domain>⟧ (context_size layout) state.old taken instruction.now ≡ Err e.number) }
    ensures slot { IfErr result (λ e. e.slot ≡ slot) }
{
    match state.transfer(layout.context_size(), taken, instruction) {
        Ok(()) => Ok(()),
        Err(number) => Err(Refusal { slot, number }),
    }
}

/// Sends the state after an instruction that goes one way at most, or ends the program.
#[inline(always)]
fn send_one<D: Domain>(
    states: &mut [Option<Box<AbsState<D>>>],
    mut state: Box<AbsState<D>>,
    instruction: &Instruction,
    slot: u32,
    next: Option<u32>,
    layout: Layout,
) -> Result<(), Refusal>
    requires { IfSome next (λ to. to < length states.old) }
    ensures passed { OnOk result (fault_in (transfer_in ⟦<D as Domain>⟧ (context_size layout) (box_value state) false instruction.now) ≡ None) }
    ensures sent { OnOk result (seen states.new ≡ delivered_all ⟦<D as Domain>⟧ (seen states.old) (message_to next (transfer_in ⟦<D as Domain>⟧ (context_size layout) (box_value state) false instruction.now))) }
    ensures fault { IfErr result (λ e. (transfer_in ⟦<D as Domain>⟧ (context_size layout) (box_value state) false instruction.now ≡ Err e.number) × (e.slot ≡ slot)) }
{
    follow(&mut state, false, instruction, slot, layout)?;
    deliver(states, next, state);
    Ok(())
}

/// Sends the states after a jump, of which a second one is made for its target.
fn send_copied<D: Domain>(
    alloc: Global,
    states: &mut [Option<Box<AbsState<D>>>],
    mut state: Box<AbsState<D>>,
    instruction: &Instruction,
    slot: u32,
    next: Option<u32>,
    target: u32,
    layout: Layout,
) -> Result<(), Refusal>
    requires fits { StateFits D.row }
    requires next { IfSome next (λ to. to < length states.old) }
    requires target { target < length states.old }
    ensures passed { OnOk result (fault_in (transfer_in ⟦<D as Domain>⟧ (context_size layout) (box_value state) false instruction.now) ≡ None) }
    ensures sent { OnOk result (seen states.new ≡ delivered_all ⟦<D as Domain>⟧ (seen states.old) (message_to next (transfer_in ⟦<D as Domain>⟧ (context_size layout) (box_value state) false instruction.now) ++ message_to (Some target) (transfer_in ⟦<D as Domain>⟧ (context_size layout) (box_value state) true instruction.now))) }
    ensures fault { IfErr result (λ e. (e ≡ out_of_memory) ⊎ ((transfer_in ⟦<D as Domain>⟧ (context_size layout) (box_value state) false instruction.now ≡ Err e.number) × (e.slot ≡ slot))) }
{
    let mut other = boxed_copy(alloc, &state)?;
    follow(&mut state, false, instruction, slot, layout)?;
    follow(&mut other, true, instruction, slot, layout)?;
    deliver(states, next, state);
    join_at(states, target as usize, other);
    Ok(())
}

/// Joins the state on the jump edge of a conditional jump into the one that is held for its target, so that
/// no second state is made. Answers whether it did: it changes nothing where no state is held yet, where the
/// instruction is no conditional jump, and where it is refused.
fn join_jump<D: Domain>(
    states: &mut [Option<Box<AbsState<D>>>],
    target: usize,
    state: &AbsState<D>,
    instruction: &Instruction,
) -> bool
    requires { target < length states.old }
    ensures joined { result ≡ true → IsJumpJoined ⟦<D as Domain>⟧ (seen states.old) target state.now instruction.now (seen states.new) }
    ensures kept { result ≡ false → seen states.new ≡ seen states.old }
{
    let Instruction::Branch {
        comparison,
        width,
        left,
        ref right,
        ..
    } = *instruction
    else {
        return false;
    };
    let Some(mut before) = states[target].take() else {
        return false;
    };
    match state.join_branch(&mut before, comparison, width, true, left, right) {
        Ok(()) => {
            states[target] = Some(before);
            true
        }
        Err(_) => {
            states[target] = Some(before);
            false
        }
    }
}

/// Whether an edge leads to another slot than this one, if it is there.
fn leads_elsewhere(next: Option<u32>, target: u32) -> bool
    ensures { result ≡ true → (slot : ℕ) → next ≡ Some slot → slot ≢ target }
{
    match next {
        Some(slot) => slot != target,
        None => true,
    }
}

/// Sends the states after a jump. Where a state is held for its target already, and the other edge leads
/// elsewhere, the one on the jump edge is joined into that; else there is a second one for the target.
#[inline(never)]
fn send_two<D: Domain>(
    alloc: Global,
    states: &mut [Option<Box<AbsState<D>>>],
    mut state: Box<AbsState<D>>,
    instruction: &Instruction,
    slot: u32,
    next: Option<u32>,
    target: u32,
    layout: Layout,
) -> Result<(), Refusal>
    requires fits { StateFits D.row }
    requires next { IfSome next (λ to. to < length states.old) }
    requires target { target < length states.old }
    ensures passed { OnOk result (fault_in (transfer_in ⟦<D as Domain>⟧ (context_size layout) (box_value state) false instruction.now) ≡ None) }
    ensures sent { OnOk result (seen states.new ≡ delivered_all ⟦<D as Domain>⟧ (seen states.old) (message_to next (transfer_in ⟦<D as Domain>⟧ (context_size layout) (box_value state) false instruction.now) ++ message_to (Some target) (transfer_in ⟦<D as Domain>⟧ (context_size layout) (box_value state) true instruction.now))) }
    ensures fault { IfErr result (λ e. (e ≡ out_of_memory) ⊎ ((transfer_in ⟦<D as Domain>⟧ (context_size layout) (box_value state) false instruction.now ≡ Err e.number) × (e.slot ≡ slot))) }
{
    if leads_elsewhere(next, target) && join_jump(states, target as usize, &state, instruction) {
        return send_one(states, state, instruction, slot, next, layout);
    }
    send_copied(
        alloc,
        states,
        state,
        instruction,
        slot,
        next,
        target,
        layout,
    )
}

/// Sends the states after an instruction along its edges. The state before it becomes the one on the
/// fall-through edge; a second one is made for a jump's target alone.
pub(crate) fn send<D: Domain>(
    alloc: Global,
    states: &mut [Option<Box<AbsState<D>>>],
    state: Box<AbsState<D>>,
    instruction: &Instruction,
    slot: u32,
    edges: Successors,
    layout: Layout,
) -> Result<(), Refusal>
    requires fits { StateFits D.row }
    requires next { IfSome edges.next (λ to. to < length states.old) }
    requires target { IfSome edges.target (λ to. to < length states.old) }
    ensures passed { OnOk result (fault_in (transfer_in ⟦<D as Domain>⟧ (context_size layout) (box_value state) false instruction.now) ≡ None) }
    ensures sent { OnOk result (seen states.new ≡ delivered_all ⟦<D as Domain>⟧ (seen states.old) (message_to edges.next (transfer_in ⟦<D as Domain>⟧ (context_size layout) (box_value state) false instruction.now) ++ message_to edges.target (transfer_in ⟦<D as Domain>⟧ (context_size layout) (box_value state) true instruction.now))) }
    ensures fault { IfErr result (λ e. (e ≡ out_of_memory) ⊎ ((transfer_in ⟦<D as Domain>⟧ (context_size layout) (box_value state) false instruction.now ≡ Err e.number) × (e.slot ≡ slot))) }
{
    match edges.target {
        Some(to) => send_two(
            alloc,
            states,
            state,
            instruction,
            slot,
            edges.next,
            to,
            layout,
        ),
        None => send_one(states, state, instruction, slot, edges.next, layout),
    }
}
