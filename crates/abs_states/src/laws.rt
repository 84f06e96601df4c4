//! Soundness of the transfer function: where it refuses nothing, the tagged machine doesn't trap, and the
//! abstract state on the edge that it takes describes it (RFC 9669, sections 4 and 5).
ghost use Rattle.std.specs.Prelude.{◌≡◌, ◌⊎◌, ℕ, Bool, false, Ok};
ghost use Rattle.abs_states.specs.declared.state.AbsState.{AbsState};
ghost use Rattle.abs_states.specs.States.{IsKnown, entry_state, joined_state};
ghost use Rattle.abs_states.specs.Steps.{HasWords, Answers, Goes};
ghost use Rattle.abs_states.specs.Transfers.{transfer_in};
ghost use Rattle.bpf_profile.specs.Machine.{State};
ghost use Rattle.bpf_profile.specs.Meaning.{effect_of, entry};
ghost use Rattle.bpf_profile.specs.Outcomes.{Outcome, IsOutcome};

use abs_domain::Domain;
use bpf_profile::Instruction;

/// The entry state describes the machine before its first step.
pub fn entry_is_known<D: Domain>()
    ensures { IsKnown ⟦<D as Domain>⟧ (entry_state ⟦<D as Domain>⟧) entry }
{}

/// The join of two states describes every machine that either of them describes.
pub fn joins_keep_states<D: Domain>()
    ensures first { (a b : AbsState D) (s : State) → IsKnown ⟦<D as Domain>⟧ a s → IsKnown ⟦<D as Domain>⟧ (joined_state ⟦<D as Domain>⟧ a b) s }
    ensures second { (a b : AbsState D) (s : State) → IsKnown ⟦<D as Domain>⟧ b s → IsKnown ⟦<D as Domain>⟧ (joined_state ⟦<D as Domain>⟧ a b) s }
{}

/// An instruction that isn't refused on the fall-through edge isn't refused on its jump edge either.
pub fn ways_pass_alike<D: Domain>()
    ensures { (context : ℕ) (a after : AbsState D) (taken : Bool) (i : Instruction) → transfer_in ⟦<D as Domain>⟧ context a false i ≡ Ok after → (b : AbsState D) × (transfer_in ⟦<D as Domain>⟧ context a taken i ≡ Ok b) }
{}

/// On every outcome's record, a step at an instruction that isn't refused doesn't trap: it answers at
/// most 2, or goes along one of the instruction's edges, and the abstract state on that edge describes
/// the machine after it.
pub fn steps_follow<D: Domain>()
    ensures { (context : ℕ) (outcome : Outcome) (s : State) (a after : AbsState D) (i : Instruction) → IsKnown ⟦<D as Domain>⟧ a s → IsOutcome context outcome → HasWords i → transfer_in ⟦<D as Domain>⟧ context a false i ≡ Ok after → Answers (effect_of context outcome s i) ⊎ Goes ⟦<D as Domain>⟧ context s.slot i a (effect_of context outcome s i) }
{}
