//! What the definitions of verifying entail, stated apart from them.
ghost use Rattle.std.specs.Prelude.{◌≡◌, ◌↔◌, ℕ, List, length, IsPermutation, Option, Some, None};
ghost use Rattle.abs_states.specs.declared.state.AbsState.{AbsState};
ghost use Rattle.abs_states.specs.States.{joined_state};
ghost use Rattle.bpf_profile.specs.declared.layout.Layout.{Layout};
ghost use Rattle.bpf_profile.specs.declared.slot.Slot.{Slot};
ghost use Rattle.bpf_profile.specs.Layouts.{context_size};
ghost use Rattle.bpf_profile.specs.Faults.{IsLeastFault, IsFaultless};
ghost use Rattle.bpf_profile.specs.Flow.{IsBudget};
ghost use Rattle.bpf_profile.specs.FlowFaults.{flow_fault};
ghost use Rattle.bpf_profile.specs.Safety.{IsSafe};
ghost use Rattle.bpf_profile.specs.Spelling.{IsProgram};
ghost use Rattle.bpf_profile.specs.SpellingFaults.{Fault};
ghost use Rattle.verifier.specs.Analysis.{analysis_fault, fault_at, known_at};
ghost use Rattle.bpf_profile.specs.Programs.{VerifiedProgram};
ghost use Rattle.verifier.specs.Joins.{sent_to, join_of, AreJoins};
ghost use Rattle.verifier.specs.Verifying.{IsVerification};

use abs_domain::{Both, Domain};
use known_bits::KnownBits;
use ranges::Range;

/// A program in which neither its flow nor an analysis finds a fault is safe within its budget,
/// whatever the domain of the analysis.
pub fn faultless_programs_are_safe<D: Domain>()
    ensures { (layout : Layout) (slots : List Slot) (budget : ℕ) → IsProgram slots → flow_fault slots ≡ None → analysis_fault ⟦<D as Domain>⟧ (context_size layout) slots ≡ None → IsBudget slots budget → IsSafe (context_size layout) slots budget }
{}

/// So what decoding, flow and the analysis of `verify` accept is safe within its budget.
pub fn accepted_programs_are_safe()
    ensures { (bytes : List ℕ) (program : VerifiedProgram) → IsVerification bytes program → IsSafe (context_size program.layout) program.slots program.budget }
{
    faultless_programs_are_safe::<Both<Range, KnownBits>>();
}

/// The fault that an analysis finds is that of the least slot that has one, whatever its domain. Where
/// no slot has one it finds none.
pub fn analysis_fault_is_the_least<D: Domain>()
    ensures some { (layout : Layout) (slots : List Slot) (fault : Fault) → (analysis_fault ⟦<D as Domain>⟧ (context_size layout) slots ≡ Some fault) ↔ IsLeastFault (fault_at ⟦<D as Domain>⟧ (context_size layout) slots) (length slots) fault }
    ensures none { (layout : Layout) (slots : List Slot) → (analysis_fault ⟦<D as Domain>⟧ (context_size layout) slots ≡ None) ↔ IsFaultless (fault_at ⟦<D as Domain>⟧ (context_size layout) slots) (length slots) }
{}

/// Which of two states is joined into the other makes no difference, nor does it in which order three
/// are joined, whatever the domain.
pub fn states_join_in_any_order<D: Domain>()
    ensures symmetric { (a b : AbsState D) → joined_state ⟦<D as Domain>⟧ a b ≡ joined_state ⟦<D as Domain>⟧ b a }
    ensures associative { (a b c : AbsState D) → joined_state ⟦<D as Domain>⟧ (joined_state ⟦<D as Domain>⟧ a b) c ≡ joined_state ⟦<D as Domain>⟧ a (joined_state ⟦<D as Domain>⟧ b c) }
{}

/// In a program with an accepted flow, what is known before a slot is the join of the states that all
/// edges of the program send there, in any order: the order in which a pass visits the slots leaves no
/// trace in its answer. A slot to which nothing is sent has no state.
pub fn known_is_the_join_of_all_that_is_sent<D: Domain>()
    ensures { (layout : Layout) (slots : List Slot) (place : ℕ) (states : List (AbsState D)) → IsProgram slots → flow_fault slots ≡ None → IsPermutation (sent_to ⟦<D as Domain>⟧ (context_size layout) slots (known_at ⟦<D as Domain>⟧ (context_size layout) slots) place) states → known_at ⟦<D as Domain>⟧ (context_size layout) slots place ≡ join_of (joined_state ⟦<D as Domain>⟧) states }
{}

/// Nothing else is: whatever gives each slot the join of what is sent to it by what it gives to the
/// others, gives what is known.
pub fn nothing_else_joins_all_that_is_sent<D: Domain>()
    ensures { (layout : Layout) (slots : List Slot) (place : ℕ) (known : ℕ → Option (AbsState D)) → IsProgram slots → flow_fault slots ≡ None → AreJoins ⟦<D as Domain>⟧ (context_size layout) slots known → known place ≡ known_at ⟦<D as Domain>⟧ (context_size layout) slots place }
{}
