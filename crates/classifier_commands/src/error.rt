//! Why a command fails.
use std::alloc::AllocError;
use thiserror::Error;

/// Why a command fails, with no answer that says so.
#[derive(Clone, Copy, Debug, PartialEq, Eq, Error)]
pub enum CommandError {
    /// A read failed. One that was interrupted failed too.
    #[error("a read failed")]
    ReadFailed,
    /// A write failed, or took nothing. One that was interrupted failed too.
    #[error("a write failed")]
    WriteFailed,
    /// Memory ran out.
    #[error("out of memory")]
    OutOfMemory,
}

impl From<AllocError> for CommandError {
    ghost use Rattle.std.specs.Prelude.{◌≡◌};
    ghost use Rattle.classifier_commands.specs.declared.error.CommandError.TheVariants.{OutOfMemory};

    ghost from_gives = { λ _ error. error ≡ OutOfMemory };

    fn from(_error: AllocError) -> CommandError {
        CommandError::OutOfMemory
    }
}
