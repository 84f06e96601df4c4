//! The analysis of a program, over any domain.
ghost use Rattle.std.specs.Prelude.{◌≡◌, ◌⊎◌, ◌<◌, ℕ, length, map, option_map, slice_index_or, Some, None, IfOk, IfErr, OnOk};
ghost use Rattle.std.specs.List.{range_with_len};
ghost use Rattle.bpf_flat.specs.Flattened.{IsFlattened};
ghost use Rattle.bpf_profile.specs.Layouts.{context_size};
ghost use Rattle.bpf_profile.specs.Limits.{most_slots};
ghost use Rattle.bpf_profile.specs.Flow.{successors, IsBudget};
ghost use Rattle.bpf_profile.specs.FlowFaults.{flow_fault};
ghost use Rattle.bpf_profile.specs.Safety.{IsSafe};
ghost use Rattle.bpf_profile.specs.Spelling.{IsProgram};
ghost use Rattle.verifier.specs.Analysis.{analysis_fault, AreKnown};
ghost use Rattle.verifier.specs.Memory.{StateFits};
ghost use Rattle.verifier.specs.Regions.{ReadsNamedRegions};
ghost use Rattle.verifier.specs.Verifying.{out_of_memory, fault_of};

use crate::awaited::pass_awaited;
use crate::passes::pass_all;
use crate::refusal::Refusal;
use crate::sending::first_states;
use abs_domain::Domain;
use abs_states::AbsState;
use bpf_decode::{Decoded, Program};
use bpf_flat::FlatProgram;
use bpf_profile::Layout;
use flow_check::Flow;
use std::alloc::Global;
use std::marker::Model;

/// The abstract state before each slot of a program, over a domain. Contracts see the list of states; a
/// tail has none.
#[derive(Drop)]
pub struct States<D> {
    states: Vec<Option<Box<AbsState<D>>>>,
}

impl<D> Model for States<D> {
    ghost use Rattle.std.specs.Prelude.{List, Option};
    ghost use Rattle.abs_states.specs.declared.state.AbsState.{AbsState};
    ghost use Rattle.verifier.specs.Passes.{seen};

    ghost Value = { List (Option (AbsState D)) };

    ghost view = { λ s. seen s.states.items };
}

impl<D: Domain> States<D> {
    /// The abstract state before the instruction at a slot; None at a tail and past the program's end.
    pub fn at(&self, slot: usize) -> Option<&AbsState<D>>
        ensures { option_map (λ state. state.now) result ≡ slice_index_or self.now slot None }
    {
        match self.states.get(slot) {
            Some(state) => state.as_deref(),
            None => None,
        }
    }
}

/// Analyses a program, whose flow this is, on records of this layout, and returns the abstract state before each of its
/// slots. The error is the least slot that fails a check, with the refusal of the first check that it fails (numbers 12
/// to 22). The only other error is `ProgramOutOfMemory`, at slot 0. A program that passes over any domain is safe.
pub fn analyse<D: Domain>(
    alloc: Global,
    program: &Program,
    flow: &Flow,
    layout: Layout,
) -> Result<States<D>, Refusal>
    // A state over the domain is no larger than memory, which only a domain of 2^62 bytes would break.
    requires fits { StateFits D.row }
    // The flow is this program's.
    requires accepted { flow_fault program.now ≡ None }
    requires flow { flow.now.edges ≡ map (successors program.now) (range_with_len 0 (length program.now)) }
    ensures known { IfOk result (λ states. AreKnown ⟦<D as Domain>⟧ (context_size layout) program.now states) }
    ensures accepted { OnOk result (analysis_fault ⟦<D as Domain>⟧ (context_size layout) program.now ≡ None) }
    ensures safe { OnOk result ((budget : ℕ) → IsBudget program.now budget → IsSafe (context_size layout) program.now budget) }
    ensures refused { IfErr result (λ e. (e ≡ out_of_memory) ⊎ (analysis_fault ⟦<D as Domain>⟧ (context_size layout) program.now ≡ Some (fault_of e))) }
    ensures slot { IfErr result (λ e. e.slot < most_slots) }
{
    let slots = Decoded::of(alloc, program)?;
    let mut states = first_states(alloc, &slots)?;
    pass_all(alloc, &mut states, &slots, flow, layout)?;
    Ok(States { states })
}

/// The same check, which holds no more states than it still awaits, and keeps none. It answers the program
/// in the flat form, in which each load names the region that it reads.
pub(crate) fn analyse_awaited<D: Domain>(
    alloc: Global,
    program: &Decoded,
    flow: &Flow,
    layout: Layout,
) -> Result<FlatProgram, Refusal>
    requires fits { StateFits D.row }
    requires program { IsProgram program.now }
    requires accepted { flow_fault program.now ≡ None }
    requires flow { flow.now.edges ≡ map (successors program.now) (range_with_len 0 (length program.now)) }
    ensures accepted { OnOk result (analysis_fault ⟦<D as Domain>⟧ (context_size layout) program.now ≡ None) }
    ensures safe { OnOk result ((budget : ℕ) → IsBudget program.now budget → IsSafe (context_size layout) program.now budget) }
    ensures flattened { IfOk result (λ flat. IsFlattened program.now flat) }
    ensures regions { IfOk result (λ flat. ReadsNamedRegions (context_size layout) program.now flat) }
    ensures refused { IfErr result (λ e. (e ≡ out_of_memory) ⊎ (analysis_fault ⟦<D as Domain>⟧ (context_size layout) program.now ≡ Some (fault_of e))) }
    ensures slot { IfErr result (λ e. e.slot < most_slots) }
{
    let flat = pass_awaited::<D>(alloc, program, flow, layout)?;
    Ok(flat)
}
