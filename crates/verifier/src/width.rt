//! The width of a program: how many states a pass over its slots has to hold at most.
ghost use Rattle.std.specs.Prelude.{◌≡◌, ℕ, ◌+◌, ◌<◌, ◌≤◌, length, max, false, replicate, option_to_list, None, IfSome};
ghost use Rattle.std.specs.Option.{option_map_or};
ghost use Rattle.bpf_profile.specs.Flow.{successors};
ghost use Rattle.bpf_profile.specs.FlowFaults.{flow_fault};
ghost use Rattle.bpf_profile.specs.Meaning.{instruction_at};
ghost use Rattle.bpf_profile.specs.Spelling.{IsProgram};
ghost use Rattle.flow_check.specs.Passes.{marked_all};
ghost use Rattle.verifier.specs.Verifying.{IsFlowOf};
ghost use Rattle.verifier.specs.Width.{IsWidth, count_from};

use crate::passes::edges_at;
use bpf_decode::Decoded;
use bpf_profile::MOST_SLOTS;
use flow_check::Flow;

/// Marks a slot, if there is one, and answers how many marks are new.
fn mark(marks: &mut [bool], to: Option<u32>) -> u32
    requires { IfSome to (λ slot. slot < length marks.old) }
    ensures marked { marks.new ≡ marked_all marks.old (option_to_list to) }
    ensures counted { (from : ℕ) → IfSome to (λ slot. from ≤ slot) → count_from from marks.new ≡ count_from from marks.old + result }
    ensures one { result ≤ 1 }
{
    let Some(to) = to else {
        return 0;
    };
    let slot = to as usize;
    let is_marked = marks[slot];
    marks[slot] = true;
    if is_marked { 0 } else { 1 }
}

/// How many marks there are behind a place, where there are so many from it on.
fn behind(marks: &[bool], place: usize, awaited: u32) -> u32
    requires place { place < length marks.now }
    requires awaited { awaited ≡ count_from place marks.now }
    ensures { result ≡ count_from (place + 1) marks.now }
{
    if marks[place] { awaited - 1 } else { awaited }
}

/// Marks the slots to which edges lead from a slot. There are so many marks from this slot on; the answer
/// is how many there are behind it then.
fn pass(marks: &mut [bool], slots: &Decoded, flow: &Flow, place: usize, awaited: u32) -> u32
    requires place { place < length slots.now }
    requires marks { length marks.old ≡ length slots.now }
    requires awaited { awaited ≡ count_from place marks.old }
    requires program { IsProgram slots.now }
    requires accepted { flow_fault slots.now ≡ None }
    requires flow { IsFlowOf slots.now flow.now.edges }
    ensures marked { marks.new ≡ marked_all marks.old (successors slots.now place) }
    ensures counted { result ≡ count_from (place + 1) marks.new }
{
    let edges = edges_at(flow, slots, place);
    let others = behind(marks, place, awaited);
    let next = mark(marks, edges.next);
    let target = mark(marks, edges.target);
    others + next + target
}

/// The greater of both numbers at an instruction, the second at a tail.
fn widened(slots: &Decoded, place: usize, awaited: u32, width: u32) -> u32
    requires { place < length slots.now }
    ensures { result ≡ option_map_or (λ i. max awaited width) (instruction_at slots.now place) width }
{
    match slots.at(place) {
        Some(_) => awaited.max(width),
        None => width,
    }
}

/// The most slots that are awaited after an instruction.
fn most_awaited(marks: &mut [bool], slots: &Decoded, flow: &Flow) -> u32
    requires unmarked { marks.old ≡ replicate (length slots.now) false }
    requires program { IsProgram slots.now }
    requires accepted { flow_fault slots.now ≡ None }
    requires flow { IsFlowOf slots.now flow.now.edges }
    ensures { IsWidth slots.now result }
{
    let mut awaited = mark(marks, Some(0));
    let mut width = 0;
    for place in 0..slots.len() {
        awaited = pass(marks, slots, flow, place, awaited);
        width = widened(slots, place, awaited, width);
    }
    width
}

/// The width of a program: the most different slots, over its instructions, that stand behind one and to
/// which edges lead from it or from a slot before it.
pub(crate) fn width_of(slots: &Decoded, flow: &Flow) -> u32
    requires program { IsProgram slots.now }
    requires accepted { flow_fault slots.now ≡ None }
    requires flow { IsFlowOf slots.now flow.now.edges }
    ensures { IsWidth slots.now result }
{
    let mut marks = [false; MOST_SLOTS];
    most_awaited(&mut marks[..slots.len()], slots, flow)
}
