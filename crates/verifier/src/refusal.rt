//! Why bytes are no verified program.
use bpf_decode::DecodeError;
use flow_check::FlowError;
use refusals::{RefusalNumber, RefusalText};
use std::alloc::AllocError;
use std::fmt;
use thiserror::Error;

/// The first fault of bytes that are refused, in the order decoding, flow, analysis.
#[derive(Clone, Copy, Debug, PartialEq, Eq, Error)]
pub struct Refusal {
    /// The slot of the fault, from 0 to 4,095. It is 0 where the length is wrong and where memory
    /// runs out.
    pub slot: u32,
    /// One of the refusals numbered 1 to 22, or `ProgramOutOfMemory`.
    pub number: RefusalNumber,
}

impl Refusal {
    ghost use Rattle.std.specs.Prelude.{◌≡◌};
    ghost use Rattle.verifier.specs.Verifying.{out_of_memory};

    /// The refusal for want of memory.
    pub(crate) fn out_of_memory() -> Refusal
        ensures { result ≡ out_of_memory }
    {
        Refusal {
            slot: 0,
            number: RefusalNumber::ProgramOutOfMemory,
        }
    }
}

impl fmt::Display for Refusal {
    ghost use Rattle.std.specs.Prelude.{Some};
    ghost use Rattle.refusals.specs.Texts.{refusal_text};

    ghost output = { λ refusal. Some (refusal_text refusal.number refusal.slot) };

    fn fmt<W: fmt::Write>(&self, f: &mut fmt::Formatter<W>) -> fmt::Result {
        let shown = RefusalText {
            number: self.number,
            place: self.slot as usize,
        };
        write!(f, "{shown}")
    }
}

impl From<AllocError> for Refusal {
    ghost use Rattle.std.specs.Prelude.{◌≡◌};
    ghost use Rattle.verifier.specs.Verifying.{out_of_memory};

    ghost from_gives = { λ _ e. e ≡ out_of_memory };

    fn from(_error: AllocError) -> Refusal {
        Refusal::out_of_memory()
    }
}

impl From<DecodeError> for Refusal {
    ghost use Rattle.std.specs.Prelude.{◌≡◌};
    ghost use Rattle.verifier.specs.declared.refusal.Refusal.{Refusal};
    ghost use Rattle.bpf_decode.specs.declared.error.DecodeError.{DecodeError};

    ghost from_gives = { λ error e. e ≡ record { slot = error.slot; number = error.number } };

    fn from(error: DecodeError) -> Refusal {
        Refusal {
            slot: error.slot,
            number: error.number,
        }
    }
}

impl From<FlowError> for Refusal {
    ghost use Rattle.std.specs.Prelude.{◌≡◌};

    ghost from_gives = { λ error e. e ≡ record { slot = error.slot; number = error.number } };

    fn from(error: FlowError) -> Refusal {
        Refusal {
            slot: error.slot,
            number: error.number,
        }
    }
}
