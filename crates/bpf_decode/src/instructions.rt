//! Programs with the instructions of their slots.
ghost use Rattle.std.specs.Prelude.{◌≡◌, ◌<◌, List, length, IfOk, IfErr, MatchResult};
ghost use Rattle.bpf_profile.specs.declared.slot.Slot.{Slot};
ghost use Rattle.bpf_profile.specs.Limits.{most_slots};
ghost use Rattle.bpf_profile.specs.Meaning.{instruction_at};
ghost use Rattle.bpf_profile.specs.Spelling.{Spells, IsProgram};
ghost use Rattle.bpf_decode.specs.Faults.{out_of_memory, IsFirstFault};

use crate::error::DecodeError;
use crate::program::Program;
use crate::reading::{has_bad_length, read_slots, slots_of};
use bpf_profile::{Instruction, Operand, Slot};
use refusals::RefusalNumber;
use std::alloc::{AllocError, Global};
use std::marker::Model;

/// A program with the instruction of each of its slots, which is decoded once: for those who pass over the
/// slots more than once. It takes some 40 bytes a slot more than the program, so it is meant to be let go
/// once the program is checked. Contracts see the list of the slots.
#[derive(Drop)]
pub struct Decoded {
    program: Program,
    instructions: Vec<Option<Instruction>>,
}

impl Model for Decoded {
    ghost use Rattle.std.specs.Prelude.{List};
    ghost use Rattle.bpf_profile.specs.declared.slot.Slot.{Slot};

    ghost Value = { List Slot };

    ghost use Rattle.bpf_decode.specs.Kept.{AreInstructions};

    ghost view = { λ d. d.program };

    ghost invariant = { λ d. AreInstructions d.program d.instructions.items };
}

impl Decoded {
    /// Decodes bytes (RFC 9669, section 3). The error is the first fault: of the length, else of the least
    /// slot that has one. The program keeps the allocator.
    pub fn decode(alloc: Global, bytes: &[u8]) -> Result<Decoded, DecodeError>
        // The bytes spell the program that is decoded.
        ensures program { IfOk result (λ slots. Spells bytes.now slots) }
        // An error is the first fault of the bytes, unless memory ran out.
        ensures fault { IfErr result (λ e. IsFirstFault bytes.now e) }
        // The slot of an error is one that a program may have.
        ensures slot { IfErr result (λ e. e.slot < most_slots) }
        // Bytes that spell a program are decoded to it, unless memory ran out.
        ensures complete { (slots : List Slot) → Spells bytes.now slots → MatchResult result (λ p. p ≡ slots) (λ e. e ≡ out_of_memory) }
    {
        if has_bad_length(bytes.len()) {
            return Err(DecodeError {
                slot: 0,
                number: RefusalNumber::Length,
            });
        }
        let slots = slots_of(alloc, bytes)?;
        let mut instructions = Vec::with_capacity(alloc, slots.len())?;
        read_slots(&slots, &mut instructions)?;
        Ok(Decoded {
            program: Program::from_slots(slots),
            instructions,
        })
    }

    /// Decodes the slots of a program. The program is copied.
    pub fn of(alloc: Global, program: &Program) -> Result<Decoded, AllocError>
        ensures same { IfOk result (λ slots. slots ≡ program.now) }
        ensures program { IfOk result IsProgram }
    {
        let slots = Vec::from_slice(alloc, program.slots())?;
        let mut instructions = Vec::with_capacity(alloc, slots.len())?;
        match read_slots(&slots, &mut instructions) {
            Ok(()) => Ok(Decoded {
                program: Program::from_slots(slots),
                instructions,
            }),
            Err(_) => unreachable!(),
        }
    }

    /// The program, without the instructions.
    pub fn into_program(self) -> Program
        ensures { result ≡ self }
    {
        self.program
    }

    /// The slots in order.
    pub fn slots(&self) -> &[Slot]
        ensures all { result.now ≡ self.now }
        ensures program { IsProgram self.now }
    {
        self.program.slots()
    }

    /// How many slots there are, from 1 to 4,096.
    pub fn len(&self) -> usize
        ensures count { result ≡ length self.now }
        ensures program { IsProgram self.now }
    {
        self.program.len()
    }

    /// The instruction at the index of a slot; none at the tail of a wide immediate.
    pub fn at(&self, place: usize) -> Option<Instruction>
        requires { place < length self.now }
        ensures { result ≡ instruction_at self.now place }
    {
        self.instructions[place]
    }
}
