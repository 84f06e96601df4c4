//! Soundness of the analysis of the stack: where it refuses nothing, the tagged machine doesn't trap, and
//! the cells describe its stack.
ghost use Rattle.std.specs.Prelude.{◌≡◌, ℕ, ◌+◌, ◌≤◌, true, List, length, map, take, drop, replicate, Some, Ok};
ghost use Rattle.abs_regs.specs.declared.address.Address.{Address as Known};
ghost use Rattle.abs_regs.specs.declared.value.AbsVal.{AbsVal};
ghost use Rattle.abs_regs.specs.Steps.{Gives, IsAt};
ghost use Rattle.abs_regs.specs.Values.{IsAs};
ghost use Rattle.bpf_profile.specs.declared.machine.Cell.{Cell as Byte};
ghost use Rattle.bpf_profile.specs.declared.machine.Cell.TheVariants as byte;
ghost use Rattle.bpf_profile.specs.Limits.{stack_size};
ghost use Rattle.bpf_profile.specs.Machine.{State, Address, cell_bytes, overwritten};
ghost use Rattle.bpf_profile.specs.Outcomes.{Outcome, AreBytes};
ghost use Rattle.stack_track.specs.declared.cell.Cell.{Cell};
ghost use Rattle.stack_track.specs.Accesses.{load_at, store_at, stretch_is_set, stretch_written};
ghost use Rattle.stack_track.specs.Cells.{entry_cells, joined_cells};
ghost use Rattle.stack_track.specs.Steps.{AreCells, Stores, loaded_from};

use abs_domain::Domain;
use bpf_profile::{Extension, Size, Value};

/// The join of two lists of cells describes all stacks that either of them describes.
pub fn joined_cells_are_kept<D: Domain>()
    ensures first { (a b : List (Cell D)) (stack : List Byte) → AreCells ⟦<D as Domain>⟧ a stack → AreCells ⟦<D as Domain>⟧ (joined_cells ⟦<D as Domain>⟧ a b) stack }
    ensures second { (a b : List (Cell D)) (stack : List Byte) → AreCells ⟦<D as Domain>⟧ b stack → AreCells ⟦<D as Domain>⟧ (joined_cells ⟦<D as Domain>⟧ a b) stack }
{}

/// The entry state describes the machine's stack before the first step, of which no byte is set.
pub fn entry_is_known<D: Domain>()
    ensures { AreCells ⟦<D as Domain>⟧ entry_cells (replicate stack_size byte.Unset) }
{}

/// A load that isn't refused doesn't trap on any outcome's record, and the abstract value describes the one
/// that is loaded (RFC 9669, section 5).
pub fn loads_follow<D: Domain>()
    ensures { (context : ℕ) (outcome : Outcome) (s : State) (cells : List (Cell D)) (address : Known D) (at : Address) (extension : Extension) (size : Size) (a : AbsVal D)
        → AreCells ⟦<D as Domain>⟧ cells s.stack → IsAt ⟦<D as Domain>⟧ address at → load_at ⟦<D as Domain>⟧ context cells address extension size ≡ Ok a
        → Gives ⟦<D as Domain>⟧ a (loaded_from context outcome s at extension size) }
{}

/// A store that isn't refused doesn't trap, and the cells after it describe the stack after it (section 5).
pub fn stores_follow<D: Domain>()
    ensures { (context : ℕ) (stack : List Byte) (cells after : List (Cell D)) (address : Known D) (at : Address) (v : AbsVal D) (size : Size) (x : Value)
        → AreCells ⟦<D as Domain>⟧ cells stack → IsAt ⟦<D as Domain>⟧ address at → IsAs ⟦<D as Domain>⟧ v x → store_at cells address v size ≡ Ok after
        → Stores ⟦<D as Domain>⟧ after context stack at size x }
{}

/// A byte range that is known to be set can be read as bytes, and after bytes were written to a range the
/// cells describe the stack.
pub fn stretches_follow<D: Domain>()
    ensures read { (cells : List (Cell D)) (stack : List Byte) (place count : ℕ) → AreCells ⟦<D as Domain>⟧ cells stack → place + count ≤ stack_size → stretch_is_set cells place count ≡ true
        → (bytes : List ℕ) × (cell_bytes (take count (drop place stack)) ≡ Some bytes) × AreBytes bytes }
    ensures written { (cells : List (Cell D)) (stack : List Byte) (place : ℕ) (bytes : List ℕ) → AreCells ⟦<D as Domain>⟧ cells stack → place + length bytes ≤ stack_size → AreBytes bytes
        → AreCells ⟦<D as Domain>⟧ (stretch_written cells place (length bytes)) (overwritten stack place (map byte.Byte bytes)) }
{}
