//! Why a flow is refused.
ghost use Rattle.std.specs.Prelude.{◌≡◌};
ghost use Rattle.flow_check.specs.Refused.{out_of_memory};

use refusals::{RefusalNumber, RefusalText};
use std::alloc::AllocError;
use std::fmt;
use thiserror::Error;

/// The refusal of a program by its flow: the first slot with a fault, and what is wrong with it, or
/// `ProgramOutOfMemory` at slot 0.
#[derive(Clone, Copy, Debug, PartialEq, Eq, Error)]
pub struct FlowError {
    /// Below 4,096.
    pub slot: u32,
    /// The first that fits of `Unreachable`, `BackJump`, `JumpOut`, `IntoTail` and `FallsOff`, or
    /// `ProgramOutOfMemory`.
    pub number: RefusalNumber,
}

impl fmt::Display for FlowError {
    ghost use Rattle.std.specs.Prelude.{Some};
    ghost use Rattle.refusals.specs.Texts.{refusal_text};

    ghost output = { λ error. Some (refusal_text error.number error.slot) };

    fn fmt<W: fmt::Write>(&self, f: &mut fmt::Formatter<W>) -> fmt::Result {
        let shown = RefusalText {
            number: self.number,
            place: self.slot as usize,
        };
        write!(f, "{shown}")
    }
}

impl From<AllocError> for FlowError {
    ghost from_gives = { λ _ e. e ≡ out_of_memory };

    fn from(_error: AllocError) -> FlowError {
        FlowError {
            slot: 0,
            number: RefusalNumber::ProgramOutOfMemory,
        }
    }
}
