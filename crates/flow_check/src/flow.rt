//! The flow of an accepted program, and its check.
ghost use Rattle.std.specs.Prelude.{◌≡◌, ℕ, ◌+◌, ◌<◌, ◌≤◌, ◌⊎◌, length, map, replicate, [], slice_get, option_map, All, OnOk, IfOk, IfErr, IfSome, option_to_list};
ghost use Rattle.std.specs.List.{range_with_len};
ghost use Rattle.bpf_profile.specs.Limits.{most_slots};
ghost use Rattle.bpf_profile.specs.Spelling.{IsProgram};
ghost use Rattle.bpf_profile.specs.Flow.{IsBudget, successors};
ghost use Rattle.bpf_profile.specs.FlowFaults.{flow_fault};
ghost use Rattle.flow_check.specs.Passes.{IsLengthened};
ghost use Rattle.flow_check.specs.Routes.{Routes, successor_list, successors_at, AreFew};
ghost use Rattle.flow_check.specs.Refused.{out_of_memory, fault_of};

use crate::edges::{Successors, successors_of};
use crate::entered::mark_entered;
use crate::error::FlowError;
use crate::faults::first_fault;
use bpf_decode::{Decoded, Program};
use bpf_profile::MOST_SLOTS;
use std::alloc::{AllocError, Global};
use std::marker::Model;

/// The flow of an accepted program: the edges of each slot, and the budget.
#[derive(Drop)]
pub struct Flow {
    edges: Vec<Successors>,
    budget: u32,
}

impl Model for Flow {
    ghost Value = { Routes };

    ghost view = { λ flow. record { edges = map successor_list flow.edges.items; successors = flow.edges.items; budget = flow.budget } };

    ghost invariant = { λ flow. AreFew flow.edges.items flow.budget };
}

impl Flow {
    /// The slots to which edges lead from a slot; none from a tail.
    pub fn successors(&self, slot: usize) -> Successors
        requires { slot < length self.now.edges }
        ensures edges { slice_get self.now.edges slot ≡ Some (successor_list result) }
        ensures kinds { slice_get self.now.successors slot ≡ Some result }
        ensures few { All (λ to. to < most_slots) (successor_list result) }
    {
        self.edges[slot]
    }

    /// How many instructions the program executes at most, from 1 to 4,096.
    pub fn budget(&self) -> u32
        ensures budget { result ≡ self.now.budget }
        ensures some { 1 ≤ result }
        ensures few { result ≤ most_slots }
    {
        self.budget
    }
}

/// Records that a walk of `count` slots ends at a slot, if there is one, unless a longer one is recorded.
fn lengthen(longest: &mut [u32], to: Option<u32>, count: u32)
    requires { IfSome to (λ slot. slot < length longest.old) }
    ensures { IsLengthened longest.old longest.new count (option_to_list to) }
{
    if let Some(to) = to {
        let slot = to as usize;
        longest[slot] = longest[slot].max(count);
    }
}

/// Records that walks of `count` slots end at the successors.
fn follow(longest: &mut [u32], successors: Successors, count: u32)
    requires { All (λ to. to < length longest.old) (successor_list successors) }
    ensures { IsLengthened longest.old longest.new count (successor_list successors) }
{
    lengthen(longest, successors.next, count);
    lengthen(longest, successors.target, count);
}

/// The edges of an accepted program are kept, and its budget is answered. A slot's number is the length
/// of the longest walk that ends there, and 0 before one is found. Since edges lead forward, it is
/// final when the pass comes to the slot.
fn follow_all(
    longest: &mut [u32],
    slots: &Decoded,
    edges: &mut Vec<Successors>,
) -> Result<u32, AllocError>
    requires program { IsProgram slots.now }
    requires accepted { flow_fault slots.now ≡ None }
    requires unfound { longest.old ≡ replicate (length slots.now) 0 }
    requires empty { edges.old.items ≡ [] }
    ensures budget { IfOk result (λ budget. IsBudget slots.now budget) }
    ensures counted { OnOk result (length (map successor_list edges.new.items) ≡ length slots.now) }
    ensures edges { OnOk result (map successor_list edges.new.items ≡ map (successors slots.now) (range_with_len 0 (length slots.now))) }
    ensures kinds { OnOk result (edges.new.items ≡ map (successors_at slots.now) (range_with_len 0 (length slots.now))) }
{
    longest[0] = 1;
    let mut budget = 0;
    for place in 0..slots.len() {
        let successors = successors_of(slots, place);
        let count = longest[place];
        budget = count.max(budget);
        follow(longest, successors, count + 1);
        edges.push(successors)?;
    }
    Ok(budget)
}

/// The flow of an accepted program of few slots, which needs few counts.
#[inline(never)]
fn routes_of_few(alloc: Global, slots: &Decoded) -> Result<Flow, AllocError>
    requires few { length slots.now ≤ 64 }
    requires program { IsProgram slots.now }
    requires accepted { flow_fault slots.now ≡ None }
    ensures budget { IfOk result (λ flow. IsBudget slots.now flow.budget) }
    ensures counted { IfOk result (λ flow. length flow.edges ≡ length slots.now) }
    ensures edges { IfOk result (λ flow. flow.edges ≡ map (successors slots.now) (range_with_len 0 (length slots.now))) }
    ensures kinds { IfOk result (λ flow. flow.successors ≡ map (successors_at slots.now) (range_with_len 0 (length slots.now))) }
{
    let mut edges = Vec::with_capacity(alloc, slots.len())?;
    let mut longest = [0u32; 64];
    let budget = follow_all(&mut longest[..slots.len()], slots, &mut edges)?;
    Ok(Flow { edges, budget })
}

/// The flow of an accepted program of any number of slots.
#[inline(never)]
fn routes_of_many(alloc: Global, slots: &Decoded) -> Result<Flow, AllocError>
    requires program { IsProgram slots.now }
    requires accepted { flow_fault slots.now ≡ None }
    ensures budget { IfOk result (λ flow. IsBudget slots.now flow.budget) }
    ensures counted { IfOk result (λ flow. length flow.edges ≡ length slots.now) }
    ensures edges { IfOk result (λ flow. flow.edges ≡ map (successors slots.now) (range_with_len 0 (length slots.now))) }
    ensures kinds { IfOk result (λ flow. flow.successors ≡ map (successors_at slots.now) (range_with_len 0 (length slots.now))) }
{
    let mut edges = Vec::with_capacity(alloc, slots.len())?;
    let mut longest = [0u32; MOST_SLOTS];
    let budget = follow_all(&mut longest[..slots.len()], slots, &mut edges)?;
    Ok(Flow { edges, budget })
}

/// The flow of an accepted program. It takes memory for what it answers alone.
fn routes_of(alloc: Global, slots: &Decoded) -> Result<Flow, AllocError>
    requires { flow_fault slots.now ≡ None }
    ensures budget { IfOk result (λ flow. IsBudget slots.now flow.budget) }
    ensures counted { IfOk result (λ flow. length flow.edges ≡ length slots.now) }
    ensures edges { IfOk result (λ flow. flow.edges ≡ map (successors slots.now) (range_with_len 0 (length slots.now))) }
    ensures kinds { IfOk result (λ flow. flow.successors ≡ map (successors_at slots.now) (range_with_len 0 (length slots.now))) }
{
    if slots.len() <= 64 {
        routes_of_few(alloc, slots)
    } else {
        routes_of_many(alloc, slots)
    }
}

/// The first fault of a program of few slots, which needs few marks.
#[inline(never)]
fn fault_of_few(slots: &Decoded) -> Option<FlowError>
    requires { length slots.now ≤ 64 }
    ensures fault { option_map fault_of result ≡ flow_fault slots.now }
    ensures slot { IfSome result (λ e. e.slot < most_slots) }
{
    let mut marks = [false; 64];
    let entered = &mut marks[..slots.len()];
    mark_entered(entered, slots);
    first_fault(slots, entered)
}

/// The first fault of a program of any number of slots.
#[inline(never)]
fn fault_of_many(slots: &Decoded) -> Option<FlowError>
    requires { length slots.now ≤ most_slots }
    ensures fault { option_map fault_of result ≡ flow_fault slots.now }
    ensures slot { IfSome result (λ e. e.slot < most_slots) }
{
    let mut marks = [false; MOST_SLOTS];
    let entered = &mut marks[..slots.len()];
    mark_entered(entered, slots);
    first_fault(slots, entered)
}

/// The first fault of a program. Of few slots there are few marks, and setting them up takes less time.
fn fault(slots: &Decoded) -> Option<FlowError>
    ensures fault { option_map fault_of result ≡ flow_fault slots.now }
    ensures slot { IfSome result (λ e. e.slot < most_slots) }
{
    if slots.len() <= 64 {
        fault_of_few(slots)
    } else {
        fault_of_many(slots)
    }
}

/// Checks the flow of a program: each instruction is entered, every jump goes forward to an
/// instruction, and none falls off the end. The refusal is that of the first slot with a fault, or
/// `ProgramOutOfMemory` at slot 0 where memory ran out. Takes time linear in the number of slots.
pub fn check(alloc: Global, program: &Program) -> Result<Flow, FlowError>
    // What is accepted has no fault.
    ensures accepted { OnOk result (flow_fault program.now ≡ None) }
    // A walk as long as the budget exists, and none is longer.
    ensures budget { IfOk result (λ flow. IsBudget program.now flow.budget) }
    // The edges of each slot, in the order of the slots.
    ensures counted { IfOk result (λ flow. length flow.edges ≡ length program.now) }
    ensures edges { IfOk result (λ flow. flow.edges ≡ map (successors program.now) (range_with_len 0 (length program.now))) }
    // Which of them leads behind the instruction, and which to the target of its jump.
    ensures kinds { IfOk result (λ flow. flow.successors ≡ map (successors_at program.now) (range_with_len 0 (length program.now))) }
    // An error is the first fault, unless memory ran out.
    ensures refused { IfErr result (λ e. (e ≡ out_of_memory) ⊎ (flow_fault program.now ≡ Some (fault_of e))) }
    // Its slot is one that a program may have.
    ensures slot { IfErr result (λ e. e.slot < most_slots) }
{
    let decoded = Decoded::of(alloc, program)?;
    check_decoded(alloc, &decoded)
}

/// The same check of a program whose instructions are decoded.
pub fn check_decoded(alloc: Global, program: &Decoded) -> Result<Flow, FlowError>
    // What is accepted has no fault.
    ensures accepted { OnOk result (flow_fault program.now ≡ None) }
    // A walk as long as the budget exists, and none is longer.
    ensures budget { IfOk result (λ flow. IsBudget program.now flow.budget) }
    // The edges of each slot, in the order of the slots.
    ensures counted { IfOk result (λ flow. length flow.edges ≡ length program.now) }
    ensures edges { IfOk result (λ flow. flow.edges ≡ map (successors program.now) (range_with_len 0 (length program.now))) }
    // Which of them leads behind the instruction, and which to the target of its jump.
    ensures kinds { IfOk result (λ flow. flow.successors ≡ map (successors_at program.now) (range_with_len 0 (length program.now))) }
    // An error is the first fault, unless memory ran out.
    ensures refused { IfErr result (λ e. (e ≡ out_of_memory) ⊎ (flow_fault program.now ≡ Some (fault_of e))) }
    // Its slot is one that a program may have.
    ensures slot { IfErr result (λ e. e.slot < most_slots) }
{
    if let Some(error) = fault(program) {
        return Err(error);
    }
    Ok(routes_of(alloc, program)?)
}
