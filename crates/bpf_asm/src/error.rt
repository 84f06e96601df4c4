//! Why a text is no program.
use refusals::{RefusalNumber, RefusalText};
use std::alloc::AllocError;
use std::fmt;
use thiserror::Error;

/// The first fault of a text, or want of memory. Its text is the one that the program prints, as
/// `refused 41 UnknownWord line 2`.
#[derive(Clone, Copy, Debug, PartialEq, Eq, Error)]
pub struct AsmError {
    /// The line of the fault, counted from 1. It is 0 where the text has no instruction and where
    /// memory runs out.
    pub line: usize,
    /// `UnknownWord`, `BadOperand`, `BadNumber` or `BadTextLength`, or `AssemblerOutOfMemory`.
    pub kind: RefusalNumber,
}

impl fmt::Display for AsmError {
    ghost use Rattle.std.specs.Prelude.{Some};
    ghost use Rattle.refusals.specs.Texts.{refusal_text};

    ghost output = { λ e. Some (refusal_text e.kind e.line) };

    fn fmt<W: fmt::Write>(&self, f: &mut fmt::Formatter<W>) -> fmt::Result {
        let shown = RefusalText {
            number: self.kind,
            place: self.line,
        };
        write!(f, "{shown}")
    }
}

impl From<AllocError> for AsmError {
    ghost use Rattle.std.specs.Prelude.{◌≡◌};
    ghost use Rattle.bpf_asm.specs.Assembly.{out_of_memory};

    ghost from_gives = { λ _ e. e ≡ out_of_memory };

    fn from(_error: AllocError) -> AsmError {
        AsmError {
            line: 0,
            kind: RefusalNumber::AssemblerOutOfMemory,
        }
    }
}
