//! Where control may go on after an instruction.
ghost use Rattle.std.specs.Prelude.{◌≡◌, ℕ, ◌+◌, ◌^◌, ◌<◌, ◌≤◌, length, All, IfSome, option_map, option_and_then};
ghost use Rattle.bpf_profile.specs.Limits.{most_slots};
ghost use Rattle.bpf_profile.specs.Spelling.{IsProgram};
ghost use Rattle.bpf_profile.specs.Machine.{target_of};
ghost use Rattle.bpf_profile.specs.Meaning.{instruction_at};
ghost use Rattle.bpf_profile.specs.Flow.{next_of, distance_of, successors};
ghost use Rattle.bpf_profile.specs.FlowFaults.{flow_fault};
ghost use Rattle.flow_check.specs.Routes.{successor_list};

use bpf_decode::Decoded;
use bpf_profile::Instruction;
use bpf_words::target_of;

/// The slots to which edges lead from a slot of an accepted program, each below 4,096.
#[derive(Clone, Copy, Debug, PartialEq, Eq)]
pub struct Successors {
    /// The fall-through edge: the next slot, two on for a wide immediate; none after an unconditional jump
    /// and after exit (RFC 9669, sections 3.2 and 4.3).
    pub next: Option<u32>,
    /// The jump edge: the target of an unconditional or a conditional jump (RFC 9669, section 4.3).
    pub target: Option<u32>,
}

/// The slot after the instruction, if control may fall through to it.
pub fn next_of(place: usize, instruction: &Instruction) -> Option<usize>
    requires { place ≤ most_slots }
    ensures { result ≡ next_of place instruction.now }
{
    match instruction {
        Instruction::Exit | Instruction::Jump { .. } => None,
        Instruction::LoadImmediate { .. } => Some(place + 2),
        _ => Some(place + 1),
    }
}

/// The distance of a jump or of a conditional jump, a word that is read as signed. None for any other
/// instruction.
pub fn distance_of(instruction: &Instruction) -> Option<u64>
    ensures { result ≡ distance_of instruction.now }
{
    match instruction {
        Instruction::Jump { distance, .. } | Instruction::Branch { distance, .. } => Some(
            *distance,
        ),
        _ => None,
    }
}

/// The slot to which the jump in the slot `place` leads, which may lie outside the program. None for an
/// instruction that is no jump.
pub fn jump_of(place: usize, instruction: &Instruction) -> Option<usize>
    requires { place ≤ most_slots }
    ensures { result ≡ option_map (target_of place) (distance_of instruction.now) }
{
    distance_of(instruction).map(|distance| target_of(place, distance))
}

/// A slot of a program in 32 bits.
fn narrow(slot: Option<usize>) -> Option<u32>
    requires { IfSome slot (λ n. n < most_slots) }
    ensures { result ≡ slot }
{
    match slot {
        Some(slot) => Some(slot as u32),
        None => None,
    }
}

/// The edges of a slot of an accepted program.
pub fn successors_of(slots: &Decoded, place: usize) -> Successors
    requires program { IsProgram slots.now }
    requires accepted { flow_fault slots.now ≡ None }
    requires within { place < length slots.now }
    ensures edges { successor_list result ≡ successors slots.now place }
    ensures inside { All (λ to. to < length slots.now) (successor_list result) }
    ensures next { result.next ≡ option_and_then (next_of place) (instruction_at slots.now place) }
    ensures target { result.target ≡ option_and_then (λ i. option_map (target_of place) (distance_of i)) (instruction_at slots.now place) }
{
    match slots.at(place) {
        Some(instruction) => Successors {
            next: narrow(next_of(place, &instruction)),
            target: narrow(jump_of(place, &instruction)),
        },
        None => Successors {
            next: None,
            target: None,
        },
    }
}
