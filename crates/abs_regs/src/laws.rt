//! Soundness of the transfer functions of registers: where they refuse nothing, the tagged machine doesn't
//! trap, and their results describe its values (RFC 9669, sections 4 and 5).
ghost use Rattle.std.specs.Prelude.{◌≡◌, ℕ, Bool, List, Ok};
ghost use Rattle.abs_regs.specs.declared.address.Address.{Address as AnAddress};
ghost use Rattle.abs_regs.specs.declared.value.AbsVal.{AbsVal as Known};
ghost use Rattle.abs_regs.specs.Steps.{AreAs, Gives, HasWord, IsAt, Branches};
ghost use Rattle.abs_regs.specs.Transfers.{operand_in, result_in, negated_in, extended_in, reordered_in, branched_in, address_in};
ghost use Rattle.abs_regs.specs.Values.{IsAs, entry_values, joined_values, value_in};
ghost use Rattle.bpf_profile.specs.declared.machine.Value.{Value};
ghost use Rattle.bpf_profile.specs.Machine.{State, Address as Place, arithmetic_value, number_value, set_value, address_of};
ghost use Rattle.bpf_profile.specs.Meaning.{entry};
ghost use Rattle.bpf_profile.specs.Words.{IsWord, negation, moved_signed, converted};

use abs_domain::Domain;
use bpf_profile::{ByteOrder, Comparison, Operand, Operation, Size, Width};

/// The entry state describes the machine's registers before the first step.
pub fn entry_is_known<D: Domain>()
    ensures { AreAs ⟦<D as Domain>⟧ (entry_values ⟦<D as Domain>⟧) entry.registers }
{}

/// The join of two states describes all registers that either of them describes.
pub fn joins_keep_registers<D: Domain>()
    ensures first { (a b : List (Known D)) (values : List Value) → AreAs ⟦<D as Domain>⟧ a values → AreAs ⟦<D as Domain>⟧ (joined_values ⟦<D as Domain>⟧ a b) values }
    ensures second { (a b : List (Known D)) (values : List Value) → AreAs ⟦<D as Domain>⟧ b values → AreAs ⟦<D as Domain>⟧ (joined_values ⟦<D as Domain>⟧ a b) values }
{}

/// An operation that isn't refused doesn't trap, and the abstract result describes the machine's.
pub fn arithmetic_follows<D: Domain>()
    ensures { (s : State) (registers : List (Known D)) (operation : Operation) (width : Width) (dst : ℕ) (operand : Operand) (a : Known D) → AreAs ⟦<D as Domain>⟧ registers s.registers → HasWord operand → result_in ⟦<D as Domain>⟧ operation width (value_in registers dst) (operand_in ⟦<D as Domain>⟧ registers operand) ≡ Ok a → Gives ⟦<D as Domain>⟧ a (arithmetic_value s operation width dst operand) }
{}

/// The same for a negation.
pub fn negation_follows<D: Domain>()
    ensures { (s : State) (registers : List (Known D)) (width : Width) (dst : ℕ) (a : Known D) → AreAs ⟦<D as Domain>⟧ registers s.registers → negated_in ⟦<D as Domain>⟧ width (value_in registers dst) ≡ Ok a → Gives ⟦<D as Domain>⟧ a (number_value s dst (negation width)) }
{}

/// The same for a move with sign extension.
pub fn signed_move_follows<D: Domain>()
    ensures { (s : State) (registers : List (Known D)) (width : Width) (size : Size) (src : ℕ) (a : Known D) → AreAs ⟦<D as Domain>⟧ registers s.registers → extended_in ⟦<D as Domain>⟧ width size (value_in registers src) ≡ Ok a → Gives ⟦<D as Domain>⟧ a (number_value s src (moved_signed width size)) }
{}

/// The same for a conversion of the byte order.
pub fn byte_order_follows<D: Domain>()
    ensures { (s : State) (registers : List (Known D)) (order : ByteOrder) (size : Size) (dst : ℕ) (a : Known D) → AreAs ⟦<D as Domain>⟧ registers s.registers → reordered_in ⟦<D as Domain>⟧ order size (value_in registers dst) ≡ Ok a → Gives ⟦<D as Domain>⟧ a (number_value s dst (converted order size)) }
{}

/// A conditional jump that isn't refused doesn't trap, and the registers as they are refined for the edge
/// that it takes describe the machine's.
pub fn branches_follow<D: Domain>()
    ensures { (s : State) (registers after : List (Known D)) (comparison : Comparison) (width : Width) (taken : Bool) (left : ℕ) (right : Operand) (distance : ℕ) → AreAs ⟦<D as Domain>⟧ registers s.registers → HasWord right → branched_in ⟦<D as Domain>⟧ comparison width taken registers left right ≡ Ok after → Branches ⟦<D as Domain>⟧ s registers comparison width left right distance }
{}

/// Where an abstract address isn't refused, the machine has an address, and the abstract one describes it.
pub fn addresses_follow<D: Domain>()
    ensures { (a : Known D) (found : AnAddress D) (v : Value) (distance : ℕ) → IsAs ⟦<D as Domain>⟧ a v → IsWord distance → address_in ⟦<D as Domain>⟧ a distance ≡ Ok found → (set_value v ≡ Ok v) × (at : Place) × (address_of v distance ≡ Ok at) × IsAt ⟦<D as Domain>⟧ found at }
{}
