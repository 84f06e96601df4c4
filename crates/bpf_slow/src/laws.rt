//! What the definition of an end entails.
ghost use Rattle.std.specs.Prelude.{◌≡◌, ◌≤◌, ℕ, List};
ghost use Rattle.bpf_profile.specs.declared.machine.TrapReason.{TrapReason};
ghost use Rattle.bpf_profile.specs.declared.machine.Verdict.{Verdict};
ghost use Rattle.bpf_profile.specs.declared.slot.Slot.{Slot};
ghost use Rattle.bpf_profile.specs.Meaning.{Judges, answer_of};
ghost use Rattle.bpf_profile.specs.Outcomes.{Outcome, IsOutcome};
ghost use Rattle.bpf_profile.specs.Safety.{IsSafe};
ghost use Rattle.bpf_slow.specs.declared.ending.End.{End};
ghost use Rattle.bpf_slow.specs.Ending.{IsEnd};

/// Within a limit a run of a program on a record has one end.
pub fn end_is_determined()
    ensures { (size limit : ℕ) (slots : List Slot) (outcome : Outcome) (a b : End) → IsEnd size slots outcome limit a → IsEnd size slots outcome limit b → a ≡ b }
{}

/// An answer or a trap within a limit is the end within each greater limit too.
pub fn greater_limits_agree()
    ensures answer { (size limit greater answer steps : ℕ) (slots : List Slot) (outcome : Outcome) → limit ≤ greater → IsEnd size slots outcome limit (End.Done answer steps) → IsEnd size slots outcome greater (End.Done answer steps) }
    ensures trap { (size limit greater place : ℕ) (reason : TrapReason) (slots : List Slot) (outcome : Outcome) → limit ≤ greater → IsEnd size slots outcome limit (End.Trap place reason) → IsEnd size slots outcome greater (End.Trap place reason) }
{}

/// Within its budget a safe program is done, with the answer of its verdict.
pub fn safe_programs_are_done()
    ensures { (size budget limit : ℕ) (slots : List Slot) (outcome : Outcome) (end : End) → IsSafe size slots budget → IsOutcome size outcome → budget ≤ limit → IsEnd size slots outcome limit end → (v : Verdict) × (steps : ℕ) × (steps ≤ budget) × (end ≡ End.Done (answer_of v) steps) × Judges size slots outcome v steps }
{}
