//! Why bytes are no program.
use refusals::{RefusalNumber, RefusalText};
use std::alloc::AllocError;
use std::fmt;
use thiserror::Error;

/// The first fault of bytes that spell no program, or want of memory.
#[derive(Clone, Copy, Debug, PartialEq, Eq, Error)]
pub struct DecodeError {
    /// The place of the fault in slots of eight bytes, from 0 to 4,095. It is 0 where the length is
    /// wrong and where memory runs out.
    pub slot: u32,
    /// `Length`, `UnknownOpcode`, `LeftOut`, `BadField`, `BadRegister` or `BadTail`, or
    /// `ProgramOutOfMemory`.
    pub number: RefusalNumber,
}

impl fmt::Display for DecodeError {
    ghost use Rattle.std.specs.Prelude.{Some};
    ghost use Rattle.refusals.specs.Texts.{refusal_text};

    ghost output = { λ error. Some (refusal_text error.number error.slot) };

    fn fmt<W: fmt::Write>(&self, f: &mut fmt::Formatter<W>) -> fmt::Result {
        let shown = RefusalText {
            number: self.number,
            place: self.slot as usize,
        };
        write!(f, "{shown}")
    }
}

impl From<AllocError> for DecodeError {
    ghost use Rattle.std.specs.Prelude.{◌≡◌};
    ghost use Rattle.bpf_decode.specs.Faults.{out_of_memory};

    ghost from_gives = { λ _ e. e ≡ out_of_memory };

    fn from(_e: AllocError) -> DecodeError {
        DecodeError {
            slot: 0,
            number: RefusalNumber::ProgramOutOfMemory,
        }
    }
}
