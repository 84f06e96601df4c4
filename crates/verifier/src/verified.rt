//! Verified programs.
ghost use Rattle.std.specs.Prelude.{◌≡◌, ◌⊎◌, ℕ, ◌<◌, ◌≤◌, List, length, IfOk, IfErr, OnOk};
ghost use Rattle.bpf_profile.specs.declared.slot.Slot.{Slot};
ghost use Rattle.bpf_profile.specs.Layouts.{context_size};
ghost use Rattle.bpf_profile.specs.Limits.{most_slots};
ghost use Rattle.bpf_profile.specs.Safety.{IsSafe};
ghost use Rattle.bpf_profile.specs.Spelling.{IsProgram, Spells};
ghost use Rattle.bpf_profile.specs.Flow.{IsBudget};
ghost use Rattle.verifier.specs.Regions.{IsRunnable};
ghost use Rattle.verifier.specs.Verifying.{out_of_memory, fault_of, IsAccepted, IsProgramRefused, IsRefused, IsVerification};

use crate::analysis::analyse_awaited;
use crate::refusal::Refusal;
use abs_domain::Both;
use bpf_decode::{Decoded, Program};
use bpf_flat::FlatProgram;
use bpf_profile::Layout;
use flow_check::check_decoded;
use known_bits::KnownBits;
use ranges::Range;
use std::alloc::{AllocError, Global};
use std::marker::Model;

/// A program that was verified: on every outcome's record it ends within its budget, with an answer
/// of at most 2, and never does what it must not. Contracts see its slots, its budget and its layout.
#[derive(Drop)]
pub struct Verified {
    program: Program,
    bytes: Vec<u8>,
    flat: FlatProgram,
    budget: u32,
    layout: Layout,
}

impl Model for Verified {
    ghost use Rattle.bpf_profile.specs.Programs.{VerifiedProgram};

    ghost Value = { VerifiedProgram };

    ghost use Rattle.verifier.specs.Kept.{IsVerified};

    ghost view = { λ v. record { slots = v.program; budget = v.budget; layout = v.layout } };

    ghost invariant = { λ v. IsVerified v.program v.bytes.items v.flat v.budget v.layout };
}

impl Verified {
    /// How many instructions a run executes at most, from 1 to 4,096.
    pub fn budget(&self) -> u32
        ensures budget { result ≡ self.now.budget }
        ensures some { 1 ≤ result }
        ensures most { result ≤ most_slots }
        ensures safe { IsSafe (context_size self.now.layout) self.now.slots self.now.budget }
        ensures few { length self.now.slots ≤ most_slots }
        // Decoding, flow and the analysis accepted some bytes as this program.
        ensures verified { (bytes : List ℕ) × IsVerification bytes self.now }
    {
        self.budget
    }

    /// How much of a record it sees.
    pub fn layout(&self) -> Layout
        ensures { result ≡ self.now.layout }
    {
        self.layout
    }

    /// The bytes that were verified.
    pub fn bytes(&self) -> &[u8]
        ensures { Spells result.now self.now.slots }
    {
        self.bytes.as_slice()
    }

    /// The program that the bytes spell.
    pub fn program(&self) -> &Program
        ensures { result.now ≡ self.now.slots }
    {
        &self.program
    }

    /// The program in the flat form, in which it is run: it was made when the program was verified. Each
    /// load names the region that it reads.
    pub fn flat(&self) -> &FlatProgram
        ensures { IsRunnable (context_size self.now.layout) self.now.slots self.now.budget result.now }
    {
        &self.flat
    }
}

/// The budget of a program that passes flow and analysis, and its flat form, or the first fault.
fn checked(alloc: Global, program: &Decoded, layout: Layout) -> Result<(u32, FlatProgram), Refusal>
    requires { IsProgram program.now }
    ensures budget { IfOk result (λ checked. IsBudget program.now checked.0) }
    ensures some { IfOk result (λ checked. 1 ≤ checked.0) }
    ensures runnable { IfOk result (λ checked. IsRunnable (context_size layout) program.now checked.0 checked.1) }
    ensures accepted { OnOk result (IsAccepted layout program.now) }
    ensures refused { IfErr result (λ e. (e ≡ out_of_memory) ⊎ IsProgramRefused layout program.now (fault_of e)) }
    ensures slot { IfErr result (λ e. e.slot < most_slots) }
{
    let flow = check_decoded(alloc, program)?;
    let flat = analyse_awaited::<Both<Range, KnownBits>>(alloc, program, &flow, layout)?;
    Ok((flow.budget(), flat))
}

/// The verified program, made of what was checked.
fn kept(
    alloc: Global,
    program: Decoded,
    bytes: &[u8],
    budget: u32,
    flat: FlatProgram,
    layout: Layout,
) -> Result<Verified, AllocError>
    requires verified { IsVerification bytes.now (record { slots = program; budget = budget; layout = layout }) }
    requires some { 1 ≤ budget }
    requires runnable { IsRunnable (context_size layout) program budget flat }
    ensures program { IfOk result (λ v. v.slots ≡ program) }
    ensures budget { IfOk result (λ v. v.budget ≡ budget) }
    ensures layout { IfOk result (λ v. v.layout ≡ layout) }
{
    let bytes = bytes.to_vec(alloc)?;
    Ok(Verified {
        program: program.into_program(),
        bytes,
        flat,
        budget,
        layout,
    })
}

/// Verifies the program that bytes spell, on records of this layout. The error is the first fault: of decoding, then of
/// flow, then of the analysis, in which the least slot comes first. Where memory runs out it is `ProgramOutOfMemory` at
/// slot 0.
pub fn verify(alloc: Global, bytes: &[u8], layout: Layout) -> Result<Verified, Refusal>
    // The bytes spell the program that is verified, its flow and the analysis accept it, and it is safe.
    ensures spelled { IfOk result (λ v. Spells bytes.now v.slots) }
    ensures accepted { IfOk result (λ v. IsAccepted layout v.slots) }
    ensures safe { IfOk result (λ v. IsSafe (context_size layout) v.slots v.budget) }
    // It has the budget of its flow, and this layout.
    ensures verified { IfOk result (λ v. IsVerification bytes.now v) }
    ensures layout { IfOk result (λ v. v.layout ≡ layout) }
    // A refusal is the first fault, unless memory ran out.
    ensures refused { IfErr result (λ e. (e ≡ out_of_memory) ⊎ IsRefused layout bytes.now (fault_of e)) }
    // Its slot is one that a program may have.
    ensures slot { IfErr result (λ e. e.slot < most_slots) }
{
    let program = Decoded::decode(alloc, bytes)?;
    let (budget, flat) = checked(alloc, &program, layout)?;
    Ok(kept(alloc, program, bytes, budget, flat, layout)?)
}
