//! Why a replay ended early.
use std::alloc::AllocError;
use thiserror::Error;

/// Why a replay ended early.
#[derive(Clone, Copy, Debug, PartialEq, Eq, Error)]
pub enum ReplayError {
    /// A read failed. One that was interrupted failed too.
    #[error("a read failed")]
    ReadFailed,
    /// A write failed, or took nothing. One that was interrupted failed too.
    #[error("a write failed")]
    WriteFailed,
    /// Memory ran out.
    #[error("out of memory")]
    OutOfMemory,
    /// The input has 2^64 - 1 lines or more. No other input ends so.
    #[error("too many lines")]
    TooLong,
}

impl From<AllocError> for ReplayError {
    ghost use Rattle.std.specs.Prelude.{◌≡◌};
    ghost use Rattle.replay.specs.declared.error.ReplayError.TheVariants.{OutOfMemory};

    ghost from_gives = { λ _ error. error ≡ OutOfMemory };

    fn from(_error: AllocError) -> ReplayError {
        ReplayError::OutOfMemory
    }
}
