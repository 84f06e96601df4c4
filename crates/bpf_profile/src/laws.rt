//! What the definitions entail, stated apart from them.
ghost use Rattle.std.specs.Prelude.{◌≡◌, ◌≢◌, ◌↔◌, ℕ, ◌+◌, ◌-◌, ◌*◌, ◌/◌, ◌^◌, ◌<◌, ◌≤◌, true, false, List, length, Option, None, Some, IsSome, Result, Ok};
ghost use Rattle.refusals.specs.declared.RefusalNumber.TheVariants.{Length};
ghost use Rattle.bpf_profile.specs.declared.instruction.Operation.{Operation};
ghost use Rattle.bpf_profile.specs.declared.instruction.Width.{Width};
ghost use Rattle.bpf_profile.specs.declared.machine.TrapReason.{TrapReason};
ghost use Rattle.bpf_profile.specs.declared.machine.Verdict.{Verdict};
ghost use Rattle.bpf_profile.specs.declared.slot.Slot.{Slot};
ghost use Rattle.bpf_profile.specs.Words.{IsWord, arithmetic, low, bits_of};
ghost use Rattle.bpf_profile.specs.Faults.{IsLeastFault, IsFaultless, decoding_fault_at, slots_of};
ghost use Rattle.bpf_profile.specs.Spelling.{IsProgram};
ghost use Rattle.bpf_profile.specs.SpellingFaults.{Fault, first_fault, is_bad_length};
ghost use Rattle.bpf_profile.specs.Outcomes.{Outcome, IsOutcome, AgreeOn, shortened};
ghost use Rattle.bpf_profile.specs.Machine.{State, Effect};
ghost use Rattle.bpf_profile.specs.Meaning.{step, Ends, Judges, instruction_at};
ghost use Rattle.bpf_profile.specs.Flow.{IsBudget, Edge};
ghost use Rattle.bpf_profile.specs.FlowFaults.{flow_fault, flow_fault_at};
ghost use Rattle.bpf_profile.specs.Safety.{IsSafe};

/// Division by 0 gives 0, and the remainder by 0 is the dividend (RFC 9669, section 4.1).
pub fn division_by_zero()
    ensures quotient { (w : Width) (a : ℕ) → arithmetic Operation.Divide w a 0 ≡ 0 }
    ensures signed_quotient { (w : Width) (a : ℕ) → arithmetic Operation.SignedDivide w a 0 ≡ 0 }
    ensures remainder { (w : Width) (a : ℕ) → arithmetic Operation.Modulo w a 0 ≡ low (bits_of w) a }
    ensures signed_remainder { (w : Width) (a : ℕ) → arithmetic Operation.SignedModulo w a 0 ≡ low (bits_of w) a }
    ensures dividend { (a : ℕ) → IsWord a → low 64 a ≡ a }
{}

/// The least signed number divided by -1 is itself, and the remainder is 0.
pub fn least_number_by_minus_one()
    ensures quotient { arithmetic Operation.SignedDivide Width.Bits64 (2 ^ 63) (2 ^ 64 - 1) ≡ 2 ^ 63 }
    ensures remainder { arithmetic Operation.SignedModulo Width.Bits64 (2 ^ 63) (2 ^ 64 - 1) ≡ 0 }
    ensures low_quotient { arithmetic Operation.SignedDivide Width.Bits32 (2 ^ 31) (2 ^ 32 - 1) ≡ 2 ^ 31 }
    ensures low_remainder { arithmetic Operation.SignedModulo Width.Bits32 (2 ^ 31) (2 ^ 32 - 1) ≡ 0 }
{}

/// Signed division truncates towards zero: -13 by 3 is -4, and the remainder is -1.
pub fn division_truncates()
    ensures quotient { arithmetic Operation.SignedDivide Width.Bits64 (2 ^ 64 - 13) 3 ≡ 2 ^ 64 - 4 }
    ensures remainder { arithmetic Operation.SignedModulo Width.Bits64 (2 ^ 64 - 13) 3 ≡ 2 ^ 64 - 1 }
{}

/// A shift by the width's own number of bits is a shift by 0, since the count is masked.
pub fn shift_by_the_width()
    ensures left { (w : Width) (a : ℕ) → arithmetic Operation.ShiftLeft w a (bits_of w) ≡ arithmetic Operation.ShiftLeft w a 0 }
    ensures right { (w : Width) (a : ℕ) → arithmetic Operation.ShiftRight w a (bits_of w) ≡ arithmetic Operation.ShiftRight w a 0 }
    ensures arithmetic_right { (w : Width) (a : ℕ) → arithmetic Operation.ArithmeticShiftRight w a (bits_of w) ≡ arithmetic Operation.ArithmeticShiftRight w a 0 }
{}

/// A result has no more bits than its operation.
pub fn results_fit()
    ensures { (operation : Operation) (w : Width) (a b : ℕ) → arithmetic operation w a b < 2 ^ bits_of w }
{}

/// From one state there is one step.
pub fn step_is_determined()
    ensures { (size : ℕ) (slots : List Slot) (outcome : Outcome) (s : State) (a b : Result Effect TrapReason) → step size slots outcome s ≡ a → step size slots outcome s ≡ b → a ≡ b }
{}

/// A program ends on a record with one answer after one number of steps, or not at all.
pub fn answer_is_determined()
    ensures answer { (size : ℕ) (slots : List Slot) (outcome : Outcome) (m n j k : ℕ) → Ends size slots outcome m j → Ends size slots outcome n k → m ≡ n }
    ensures steps { (size : ℕ) (slots : List Slot) (outcome : Outcome) (m n j k : ℕ) → Ends size slots outcome m j → Ends size slots outcome n k → j ≡ k }
{}

/// So there is one verdict.
pub fn verdict_is_determined()
    ensures { (size : ℕ) (slots : List Slot) (outcome : Outcome) (v w : Verdict) (j k : ℕ) → Judges size slots outcome v j → Judges size slots outcome w k → v ≡ w }
{}

/// A program has one budget, or none.
pub fn budget_is_determined()
    ensures { (slots : List Slot) (b c : ℕ) → IsBudget slots b → IsBudget slots c → b ≡ c }
{}

/// A budget is at least 1, and where the flow is accepted no more than the program has slots: so it is
/// at most 4,096.
pub fn budgets_are_few()
    ensures some { (slots : List Slot) (budget : ℕ) → IsBudget slots budget → 1 ≤ budget }
    ensures few { (slots : List Slot) (budget : ℕ) → IsProgram slots → flow_fault slots ≡ None → IsBudget slots budget → budget ≤ length slots }
{}

/// The first fault of bytes is that of their length, or else that of the least slot that has one. Where
/// no slot has one the bytes have none.
pub fn first_fault_is_the_least()
    ensures bad_length { (bytes : List ℕ) → is_bad_length (length bytes) ≡ true → first_fault bytes ≡ Some (record { slot = 0; number = Length }) }
    ensures some { (bytes : List ℕ) (fault : Fault) → is_bad_length (length bytes) ≡ false → ((first_fault bytes ≡ Some fault) ↔ IsLeastFault (decoding_fault_at (slots_of bytes)) (length bytes / 8) fault) }
    ensures none { (bytes : List ℕ) → is_bad_length (length bytes) ≡ false → ((first_fault bytes ≡ None) ↔ IsFaultless (decoding_fault_at (slots_of bytes)) (length bytes / 8)) }
{}

/// The fault of a program's flow is that of the least slot that has one. Where no slot has one the flow
/// is accepted.
pub fn flow_fault_is_the_least()
    ensures some { (slots : List Slot) (fault : Fault) → (flow_fault slots ≡ Some fault) ↔ IsLeastFault (flow_fault_at slots) (length slots) fault }
    ensures none { (slots : List Slot) → (flow_fault slots ≡ None) ↔ IsFaultless (flow_fault_at slots) (length slots) }
{}

/// Each edge of a program whose flow is accepted leads forward, to an instruction.
pub fn edges_lead_forward()
    ensures { (slots : List Slot) → IsProgram slots → flow_fault slots ≡ None → (from to : ℕ) → Edge slots from to → (from < to) × IsSome (instruction_at slots to) }
{}

/// The part of a record that a program sees decides alone: on two records whose first bytes, so many as the context has,
/// facts and tag agree, a program has the same verdict after the same number of steps.
pub fn context_decides()
    ensures { (size : ℕ) (slots : List Slot) (left right : Outcome) (v : Verdict) (steps : ℕ) → AgreeOn size left right → (Judges size slots left v steps ↔ Judges size slots right v steps) }
{}

/// So its verdict on a record is the one on a record that has no more than the context.
pub fn longer_records_change_nothing()
    ensures { (size : ℕ) (slots : List Slot) (outcome : Outcome) (v : Verdict) (steps : ℕ) → Judges size slots outcome v steps ↔ Judges size slots (shortened size outcome) v steps }
{}

/// A safe program has a verdict on every outcome, within its budget.
pub fn safe_programs_judge()
    ensures { (size budget : ℕ) (slots : List Slot) (outcome : Outcome) → IsSafe size slots budget → IsOutcome size outcome → (v : Verdict) × (steps : ℕ) × (steps ≤ budget) × Judges size slots outcome v steps }
{}
