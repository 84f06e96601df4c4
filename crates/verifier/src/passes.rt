//! The pass over the slots, in order. All edges lead forward, so each slot comes after all its
//! predecessors.
ghost use Rattle.std.specs.Prelude.{◌≡◌, ◌⊎◌, ◌<◌, length, Some, None, IfSome, IfErr, OnOk};
ghost use Rattle.bpf_profile.specs.Layouts.{context_size};
ghost use Rattle.bpf_profile.specs.Limits.{most_slots};
ghost use Rattle.bpf_profile.specs.Flow.{successors};
ghost use Rattle.bpf_profile.specs.FlowFaults.{flow_fault};
ghost use Rattle.bpf_profile.specs.Meaning.{instruction_at};
ghost use Rattle.bpf_profile.specs.Spelling.{IsProgram};
ghost use Rattle.flow_check.specs.Routes.{successor_list};
ghost use Rattle.verifier.specs.Analysis.{sent_with, fault_with, analysis_fault, AreKnown};
ghost use Rattle.verifier.specs.Memory.{StateFits};
ghost use Rattle.verifier.specs.Passes.{state_of, entry_states, seen, delivered_all};
ghost use Rattle.verifier.specs.Verifying.{IsFlowOf, fault_of, out_of_memory};

use crate::refusal::Refusal;
use crate::sending::{boxed_copy, send};
use abs_domain::Domain;
use abs_states::AbsState;
use bpf_decode::Decoded;
use bpf_profile::Layout;
use flow_check::{Flow, Successors};
use std::alloc::Global;

/// The edges of a slot of an accepted program.
pub(crate) fn edges_at(flow: &Flow, slots: &Decoded, place: usize) -> Successors
    requires place { place < length slots.now }
    requires program { IsProgram slots.now }
    requires accepted { flow_fault slots.now ≡ None }
    requires flow { IsFlowOf slots.now flow.now.edges }
    ensures edges { successor_list result ≡ successors slots.now place }
    ensures next { IfSome result.next (λ slot. slot < length slots.now) }
    ensures target { IfSome result.target (λ slot. slot < length slots.now) }
{
    flow.successors(place)
}

/// Sends the abstract states after the instruction at a slot along its edges, and keeps the one before it.
/// A tail sends nothing.
fn pass<D: Domain>(
    alloc: Global,
    states: &mut [Option<Box<AbsState<D>>>],
    slots: &Decoded,
    flow: &Flow,
    place: usize,
    layout: Layout,
) -> Result<(), Refusal>
    // A state over the domain is no larger than memory.
    requires fits { StateFits D.row }
    requires place { place < length slots.now }
    requires states { length states.old ≡ length slots.now }
    requires program { IsProgram slots.now }
    requires accepted { flow_fault slots.now ≡ None }
    requires flow { IsFlowOf slots.now flow.now.edges }
    ensures passed { OnOk result (fault_with ⟦<D as Domain>⟧ (context_size layout) (instruction_at slots.now place) (state_of (seen states.old) place) ≡ None) }
    ensures sent { OnOk result (seen states.new ≡ delivered_all ⟦<D as Domain>⟧ (seen states.old) (sent_with ⟦<D as Domain>⟧ (context_size layout) place (instruction_at slots.now place) (state_of (seen states.old) place))) }
    ensures fault { IfErr result (λ e. (e ≡ out_of_memory) ⊎ ((fault_with ⟦<D as Domain>⟧ (context_size layout) (instruction_at slots.now place) (state_of (seen states.old) place) ≡ Some e.number) × (e.slot ≡ place))) }
{
    let Some(instruction) = slots.at(place) else {
        return Ok(());
    };
    let Some(held) = &states[place] else {
        return Ok(());
    };
    let state = boxed_copy(alloc, held)?;
    let edges = edges_at(flow, slots, place);
    send(
        alloc,
        states,
        state,
        &instruction,
        place as u32,
        edges,
        layout,
    )
}

/// Passes over all slots in order, up to the first fault.
pub(crate) fn pass_all<D: Domain>(
    alloc: Global,
    states: &mut [Option<Box<AbsState<D>>>],
    slots: &Decoded,
    flow: &Flow,
    layout: Layout,
) -> Result<(), Refusal>
    requires fits { StateFits D.row }
    requires entered { seen states.old ≡ entry_states ⟦<D as Domain>⟧ (length slots.now) }
    requires program { IsProgram slots.now }
    requires accepted { flow_fault slots.now ≡ None }
    requires flow { IsFlowOf slots.now flow.now.edges }
    ensures passed { OnOk result (analysis_fault ⟦<D as Domain>⟧ (context_size layout) slots.now ≡ None) }
    ensures known { OnOk result (AreKnown ⟦<D as Domain>⟧ (context_size layout) slots.now (seen states.new)) }
    ensures fault { IfErr result (λ e. (e ≡ out_of_memory) ⊎ (analysis_fault ⟦<D as Domain>⟧ (context_size layout) slots.now ≡ Some (fault_of e))) }
    ensures slot { IfErr result (λ e. e.slot < most_slots) }
{
    for place in 0..slots.len() {
        match pass(alloc, states, slots, flow, place, layout) {
            Ok(()) => {}
            Err(refusal) => return Err(refusal),
        }
    }
    Ok(())
}
