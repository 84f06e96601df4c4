//! The slots of eight bytes that a program is made of (RFC 9669, section 3).
ghost use Rattle.std.specs.Prelude.{◌≡◌, ◌<◌, length};
ghost use Rattle.bpf_profile.specs.Slots.{instruction_of};
ghost use Rattle.bpf_profile.specs.Meaning.{instruction_at};

use crate::fields::Fields;
use crate::instruction::Instruction;
use crate::opcode::Opcode;
use refusals::RefusalNumber;

/// A slot, as its fields stand in its eight bytes.
#[derive(Clone, Copy, PartialEq, Eq)]
pub enum Slot {
    /// Opcode, destination and source register (0 to 15 each), offset and immediate. The last two are
    /// two's complement.
    Ins {
        op: u8,
        dst: u8,
        src: u8,
        off: u16,
        imm: u32,
    },
    /// The second slot of a wide immediate, with the high half of its value.
    Tail {
        imm: u32,
    },
}

impl Slot {
    /// The instruction that the slot stands for, where `next` is the slot after it, or the first of
    /// its faults: `UnknownOpcode`, `LeftOut`, `BadField`, `BadRegister`, `BadTail`, in this order. A
    /// tail stands for none: it is `UnknownOpcode`.
    #[tactic(auto, unfolding(crate::specs::Slots::instruction_of))]
    pub fn instruction(self, next: Option<Slot>) -> Result<Instruction, RefusalNumber>
        ensures { result ≡ instruction_of self next }
    {
        match self {
            Slot::Ins {
                op,
                dst,
                src,
                off,
                imm,
            } => {
                let opcode = Opcode::named(op)?;
                Fields { dst, src, off, imm }.instruction(opcode, next)
            }
            Slot::Tail { .. } => Err(RefusalNumber::UnknownOpcode),
        }
    }
}

/// The instruction at the index `place`, from 0 on, of a program's slots. None at the tail of a wide
/// immediate, and at a slot that stands for no instruction.
pub fn instruction_at(slots: &[Slot], place: usize) -> Option<Instruction>
    requires { place < length slots.now }
    ensures { result ≡ instruction_at slots.now place }
{
    let next = slots.get(place + 1).copied();
    match slots[place].instruction(next) {
        Ok(instruction) => Some(instruction),
        Err(_) => None,
    }
}
