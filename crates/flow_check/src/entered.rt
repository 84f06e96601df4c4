//! Which slots have an incoming edge.
ghost use Rattle.std.specs.Prelude.{◌≡◌, ℕ, ◌<◌, ◌≤◌, length, option_to_list, replicate, false};
ghost use Rattle.flow_check.specs.Passes.{AreEntered, marked_all};
ghost use Rattle.bpf_profile.specs.Limits.{most_slots};
ghost use Rattle.bpf_profile.specs.Flow.{successors};

use crate::edges::{jump_of, next_of};
use bpf_decode::Decoded;

/// Marks a slot, if there is one; past the end of the program there are no marks.
fn mark(entered: &mut [bool], slot: Option<usize>)
    ensures { entered.new ≡ marked_all entered.old (option_to_list slot) }
{
    if let Some(slot) = slot
        && slot < entered.len()
    {
        entered[slot] = true;
    }
}

/// Marks the slots to which edges lead from a slot.
fn mark_successors(entered: &mut [bool], slots: &Decoded, place: usize)
    requires few { length slots.now ≤ most_slots }
    requires within { place < length slots.now }
    ensures { entered.new ≡ marked_all entered.old (successors slots.now place) }
{
    if let Some(instruction) = slots.at(place) {
        mark(entered, next_of(place, &instruction));
        mark(entered, jump_of(place, &instruction));
    }
}

/// Marks each slot that control may reach by an edge: slot 0, and the successors of every instruction.
pub fn mark_entered(entered: &mut [bool], slots: &Decoded)
    requires few { length slots.now ≤ most_slots }
    requires unmarked { entered.old ≡ replicate (length slots.now) false }
    ensures { AreEntered slots.now (length slots.now) entered.new }
{
    mark(entered, Some(0));
    for place in 0..slots.len() {
        mark_successors(entered, slots, place);
    }
}
