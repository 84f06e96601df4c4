//! How a server ended.
ghost use Rattle.std.specs.Prelude.{◌≡◌};
ghost use Rattle.server_output.specs.Lines.{code_of};

use refusals::RefusalNumber;
use std::alloc::AllocError;

/// How the server ended.
#[derive(Clone, Copy, Debug, PartialEq, Eq)]
pub enum ServerStatus {
    /// It has served its connections.
    Done,
    /// It has served connections, and the listener accepts no more.
    ListenerFailed,
    /// It was refused, and the refusal was printed: `BadConfig` where the file can't be read or used,
    /// `Listen` where the address can't be bound.
    Refused(RefusalNumber),
    /// A write failed.
    WriteFailed,
    /// What was written can't be flushed.
    FlushFailed,
    /// Memory ran out.
    OutOfMemory,
}

impl ServerStatus {
    /// The status with which the program ends: 0 where it is done, else 1.
    pub fn code(self) -> u8
        ensures { result ≡ code_of self }
    {
        match self {
            ServerStatus::Done => 0,
            ServerStatus::ListenerFailed
            | ServerStatus::Refused(_)
            | ServerStatus::WriteFailed
            | ServerStatus::FlushFailed
            | ServerStatus::OutOfMemory => 1,
        }
    }
}

impl From<AllocError> for ServerStatus {
    ghost use Rattle.std.specs.Prelude.{◌≡◌};
    ghost use Rattle.server_output.specs.declared.status.ServerStatus.TheVariants.{OutOfMemory};

    ghost from_gives = { λ _ status. status ≡ OutOfMemory };

    fn from(_error: AllocError) -> ServerStatus {
        ServerStatus::OutOfMemory
    }
}
