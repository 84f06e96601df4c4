//! Faults of control flow.
ghost use Rattle.std.specs.Prelude.{◌≡◌, ℕ, ◌<◌, ◌≤◌, length, option_map, IfSome};
ghost use Rattle.bpf_profile.specs.Limits.{most_slots};
ghost use Rattle.bpf_profile.specs.FlowFaults.{jump_fault, next_fault, flow_fault_at, flow_fault, is_tail_at};
ghost use Rattle.flow_check.specs.Passes.{AreEntered, edge_fault};
ghost use Rattle.flow_check.specs.Refused.{fault_of};

use crate::edges::{distance_of, next_of};
use crate::error::FlowError;
use bpf_decode::Decoded;
use bpf_profile::{Instruction, Slot};
use bpf_words::target_of;
use refusals::RefusalNumber;

/// A jump offset from here on is negative, as a word.
const LEAST_NEGATIVE: u64 = 1 << 63;

fn is_tail_at(slots: &[Slot], place: usize) -> bool
    requires { place < length slots.now }
    ensures { result ≡ is_tail_at slots.now place }
{
    matches!(slots[place], Slot::Tail { .. })
}

/// What is wrong with a jump: `BackJump`, `JumpOut` or `IntoTail`.
fn jump_fault(slots: &[Slot], place: usize, distance: u64) -> Option<RefusalNumber>
    requires { place ≤ most_slots }
    ensures { result ≡ jump_fault slots.now place distance }
{
    let target = target_of(place, distance);
    if distance >= LEAST_NEGATIVE {
        Some(RefusalNumber::BackJump)
    } else if target >= slots.len() {
        Some(RefusalNumber::JumpOut)
    } else if is_tail_at(slots, target) {
        Some(RefusalNumber::IntoTail)
    } else {
        None
    }
}

/// `FallsOff`, where control would fall through past the end.
fn next_fault(slots: &[Slot], next: usize) -> Option<RefusalNumber>
    ensures { result ≡ next_fault slots.now next }
{
    if next >= slots.len() {
        Some(RefusalNumber::FallsOff)
    } else {
        None
    }
}

/// The first fault of an instruction's outgoing edges.
fn edge_fault(slots: &[Slot], place: usize, instruction: &Instruction) -> Option<RefusalNumber>
    requires { place ≤ most_slots }
    ensures { result ≡ edge_fault slots.now place instruction.now }
{
    if let Some(distance) = distance_of(instruction)
        && let Some(number) = jump_fault(slots, place, distance)
    {
        return Some(number);
    }
    let next = next_of(place, instruction)?;
    next_fault(slots, next)
}

/// The first fault of the instruction at a slot, in the order in which faults are tried. A tail has none.
fn fault_at(slots: &Decoded, entered: &[bool], place: usize) -> Option<RefusalNumber>
    requires few { length slots.now ≤ most_slots }
    requires entered { AreEntered slots.now (length slots.now) entered.now }
    requires within { place < length slots.now }
    ensures { result ≡ flow_fault_at slots.now place }
{
    match slots.at(place) {
        Some(_) if !entered[place] => Some(RefusalNumber::Unreachable),
        Some(instruction) => edge_fault(slots.slots(), place, &instruction),
        None => None,
    }
}

/// The first fault of a program.
pub fn first_fault(slots: &Decoded, entered: &[bool]) -> Option<FlowError>
    requires few { length slots.now ≤ most_slots }
    requires entered { AreEntered slots.now (length slots.now) entered.now }
    ensures fault { option_map fault_of result ≡ flow_fault slots.now }
    ensures slot { IfSome result (λ e. e.slot < most_slots) }
{
    for place in 0..slots.len() {
        if let Some(number) = fault_at(slots, entered, place) {
            let slot = place as u32;
            return Some(FlowError { slot, number });
        }
    }
    None
}
