//! Laws of programs and their bytes (RFC 9669, section 3): spelling, and slots and instructions, which
//! stand for each other.
ghost use Rattle.std.specs.Prelude.{◌≡◌, ◌<◌, ℕ, List, slice_index, Ok, Option, Some, IfSome, true};
ghost use Rattle.bpf_profile.specs.declared.instruction.Instruction.{Instruction};
ghost use Rattle.bpf_profile.specs.declared.opcode.Opcode.{Opcode};
ghost use Rattle.bpf_profile.specs.declared.slot.Slot.{Slot};
ghost use Rattle.bpf_profile.specs.Opcodes.{opcode_of};
ghost use Rattle.bpf_profile.specs.Slots.{instruction_of};
ghost use Rattle.bpf_profile.specs.Spelling.{Spells, IsSlot};
ghost use Rattle.bpf_profile.specs.SpellingFaults.{first_fault};
ghost use Rattle.bpf_decode.specs.Encoding.{first_slot, second_slot, IsInstruction, Stands};
ghost use Rattle.bpf_decode.specs.OpcodeNumbers.{opcode_number, is_listed};

/// A list of slots has one spelling.
pub fn spelling_is_unique()
    ensures { (a b : List ℕ) (slots : List Slot) → Spells a slots → Spells b slots → a ≡ b }
{}

/// Bytes spell one list of slots.
pub fn meaning_is_unique()
    ensures { (bytes : List ℕ) (s t : List Slot) → Spells bytes s → Spells bytes t → s ≡ t }
{}

/// Bytes that spell a program have no fault.
pub fn spelled_is_faultless()
    ensures { (bytes : List ℕ) (slots : List Slot) → Spells bytes slots → first_fault bytes ≡ None }
{}

/// Bytes with no fault spell a program.
pub fn faultless_is_spelled()
    ensures { (bytes : List ℕ) → ((i : ℕ) → slice_index bytes i < 256) → first_fault bytes ≡ None → (slots : List Slot) × Spells bytes slots }
{}

/// The byte that stands for a listed opcode names that opcode.
pub fn opcode_numbers_name()
    ensures { (opcode : Opcode) → is_listed opcode ≡ true → opcode_of (opcode_number opcode) ≡ Ok opcode }
{}

/// An opcode that a byte names has that byte as its number.
pub fn opcodes_are_numbered()
    ensures { (byte : ℕ) (opcode : Opcode) → byte < 256 → opcode_of byte ≡ Ok opcode → (opcode_number opcode ≡ byte) × (is_listed opcode ≡ true) }
{}

/// An instruction of the profile that is encoded, and then read, is the same instruction.
pub fn encoded_is_read()
    ensures { (i : Instruction) (next : Option Slot) → IsInstruction i → IfSome (second_slot i) (λ tail. next ≡ Some tail) → instruction_of (first_slot i) next ≡ Ok i }
{}

/// A slot of a program that is read, and then encoded, is the same slot, with the same tail behind it
/// where it has one.
pub fn read_is_encoded()
    ensures { (slot : Slot) (next : Option Slot) (i : Instruction) → IsSlot slot → IfSome next IsSlot → instruction_of slot next ≡ Ok i → Stands slot next i }
{}

/// The slots of an instruction of the profile fit in their bits.
pub fn encoded_fits()
    ensures { (i : Instruction) → IsInstruction i → IsSlot (first_slot i) × IfSome (second_slot i) IsSlot }
{}
