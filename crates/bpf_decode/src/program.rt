//! Programs.
ghost use Rattle.std.specs.Prelude.{◌≡◌, ◌<◌, suc, List, length, slice_get, IfSome, IfOk, IfErr, MatchResult, false};
ghost use Rattle.bpf_profile.specs.declared.slot.Slot.{Slot};
ghost use Rattle.bpf_profile.specs.Limits.{most_slots};
ghost use Rattle.bpf_profile.specs.Slots.{instruction_of};
ghost use Rattle.bpf_profile.specs.Spelling.{Spells, IsProgram, is_tail};
ghost use Rattle.bpf_decode.specs.Faults.{out_of_memory, IsFirstFault};

use crate::error::DecodeError;
use crate::instructions::Decoded;
use crate::reading::{SLOT_BYTES, instruction_at};
use crate::writing::slot_bytes;
use bpf_profile::{Instruction, Slot};
use std::alloc::{AllocError, Global};
use std::marker::Model;

/// A program of the profile: 1 to 4,096 slots, each an instruction or the tail of a wide immediate.
/// Contracts see the list of its slots.
#[derive(Drop)]
pub struct Program {
    slots: Vec<Slot>,
}

impl Model for Program {
    ghost use Rattle.std.specs.Prelude.{List};
    ghost use Rattle.bpf_profile.specs.declared.slot.Slot.{Slot};
    ghost use Rattle.bpf_profile.specs.Spelling.{IsProgram};

    ghost Value = { List Slot };

    ghost view = { λ p. p.slots.items };

    ghost invariant = { λ p. IsProgram p.slots.items };
}

impl Program {
    /// Decodes bytes (RFC 9669, section 3). The error is the first fault: of the length, else of the least
    /// slot that has one. The program keeps the allocator.
    pub fn decode(alloc: Global, bytes: &[u8]) -> Result<Program, DecodeError>
        // The bytes spell the program that is decoded.
        ensures program { IfOk result (λ slots. Spells bytes.now slots) }
        // An error is the first fault of the bytes, unless memory ran out.
        ensures fault { IfErr result (λ e. IsFirstFault bytes.now e) }
        // The slot of an error is one that a program may have.
        ensures slot { IfErr result (λ e. e.slot < most_slots) }
        // Bytes that spell a program are decoded to it, unless memory ran out.
        ensures complete { (slots : List Slot) → Spells bytes.now slots → MatchResult result (λ p. p ≡ slots) (λ e. e ≡ out_of_memory) }
    {
        Ok(Decoded::decode(alloc, bytes)?.into_program())
    }

    /// Makes a program of slots that the caller knows to be one. It tests nothing, and takes no memory.
    pub fn from_slots(slots: Vec<Slot>) -> Program
        requires { IsProgram slots.items }
        ensures { result ≡ slots.items }
    {
        Self { slots }
    }

    /// Encodes the program, eight bytes a slot. Memory is taken once, before the first byte is written.
    pub fn encode(&self) -> Result<Vec<u8>, AllocError>
        ensures { IfOk result (λ v. Spells v.items self.now) }
    {
        let mut bytes = Vec::with_capacity(*self.slots.allocator(), SLOT_BYTES * self.len())?;
        for slot in &self.slots {
            bytes.extend_from_slice(&slot_bytes(*slot)).unwrap();
        }
        Ok(bytes)
    }

    /// How many slots there are, from 1 to 4,096. A program is never empty.
    pub fn len(&self) -> usize
        ensures count { result ≡ length self.now }
        ensures program { IsProgram self.now }
    {
        self.slots.len()
    }

    /// The slots in order.
    pub fn slots(&self) -> &[Slot]
        ensures all { result.now ≡ self.now }
        ensures program { IsProgram self.now }
    {
        self.slots.as_slice()
    }

    /// The slot at an index.
    pub fn slot(&self, i: usize) -> Slot
        requires { i < length self.now }
        ensures { slice_get self.now i ≡ Some result }
    {
        self.slots[i]
    }

    /// The instruction at the index of a slot that is no tail.
    pub fn instruction(&self, i: usize) -> Instruction
        requires place { i < length self.now }
        requires begins { IfSome (slice_get self.now i) (λ s. is_tail s ≡ false) }
        ensures { IfSome (slice_get self.now i) (λ s. instruction_of s (slice_get self.now (suc i)) ≡ Ok result) }
    {
        match instruction_at(&self.slots, i) {
            Ok(instruction) => instruction,
            Err(_) => unreachable!(),
        }
    }
}
