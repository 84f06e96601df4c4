//! What the promises say of small things, and that they don't hold of like ones.
ghost use Rattle.std.specs.Prelude.{◌∷◌, [], List};
ghost use Rattle.bpf_profile.specs.declared.machine.Verdict.TheVariants as verdict;
ghost use Rattle.bpf_profile.specs.JudgedWork.{IsTied};
ghost use Rattle.bpf_profile.specs.Safety.{IsSafe};
ghost use Rattle.service_profile.specs.Configured.{default_parts};
ghost use Rattle.service_profile.specs.Events.{installs};
ghost use Rattle.service_profile.specs.FirstOpening.{first_opening};
ghost use Rattle.service_profile.specs.Histories.{past_of};
ghost use Rattle.service_profile.specs.Machine.{meant};
ghost use Rattle.service_profile.specs.MeantVerdicts.{IsMeantLine};
ghost use Rattle.book.specs.Accepted.{IsEvent, IsSafeProgram};
ghost use Rattle.book.specs.Interleavings.{AreSteps, Given, IsCourse, World, begun};
ghost use Rattle.book.specs.Sound.{IsSound};
ghost use Rattle.book.specs.Verified.{IsVerifiedProgram};
ghost use Rattle.worked_examples.specs.Promises.{bare_exit, bare_program, first_ticket, reported_line, steps_with, zero_program, zero_slots, zero_work};

use book::Acceptance;
use book::laws::{interleavings_are_legal, judgements_are_the_meaning};
use verifier::Verified;

/// A program that moves 0 into its answer and exits is safe: it ends on every outcome's record within two steps, with an
/// answer of at most 2.
pub fn program_that_answers_is_safe()
    ensures { IsSafe 128 zero_slots 2 }
{
    Verified::accepted_are_safe();
}

/// One that exits with nothing in its answer's register isn't safe, whatever its budget: the machine traps.
pub fn program_without_an_answer_is_not_safe()
    ensures { IsSafe 128 bare_exit 1 → ⊥ }
{}

/// Work is tied where its verdict and its steps are the program's, and to no other verdict.
pub fn work_is_tied_to_one_verdict()
    ensures tied { IsTied (zero_work verdict.Success) }
    ensures untied { IsTied (zero_work verdict.Failure) → ⊥ }
{
    judgements_are_the_meaning::<Verified>();
}

/// A safe program may be installed, and one that isn't safe may not, where safe programs are accepted.
pub fn installs_bring_what_is_accepted()
    ensures brought { IsEvent IsSafeProgram (installs zero_program) }
    ensures refused { IsEvent IsSafeProgram (installs bare_program) → ⊥ }
{
    Verified::accepted_are_safe();
    program_without_an_answer_is_not_safe();
}

/// An entry carries the meaning's verdict where its ticket was issued and the program of the ticket's version gives that
/// verdict; not where no ticket was issued, and not with another verdict.
pub fn verdicts_are_meant_for_their_ticket()
    ensures meant { IsMeantLine 1 (zero_program ∷ []) (first_ticket ∷ []) (reported_line verdict.Success) }
    ensures unissued { IsMeantLine 1 (zero_program ∷ []) [] (reported_line verdict.Success) → ⊥ }
    ensures other { IsMeantLine 1 (zero_program ∷ []) (first_ticket ∷ []) (reported_line verdict.Failure) → ⊥ }
{
    work_is_tied_to_one_verdict();
}

/// After an acquire, an install, a release and a reading, however they are answered, the history is sound: so the premises of
/// that law can be met by steps of all four kinds. Steps that install a program which isn't safe are none of those that the law
/// speaks of.
pub fn steps_leave_a_sound_history()
    ensures steps { AreSteps IsSafeProgram (steps_with zero_program) }
    ensures others { AreSteps IsSafeProgram (steps_with bare_program) → ⊥ }
    ensures sound { (given : List Given) (after : World) → IsCourse meant (begun (first_opening default_parts zero_program)) (steps_with zero_program) given after → IsSound IsVerifiedProgram (past_of after.history) }
{
    interleavings_are_legal::<Verified>();
    installs_bring_what_is_accepted();
}
