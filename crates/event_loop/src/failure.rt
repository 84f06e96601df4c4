//! Why a listener accepts no more connections.
ghost use Rattle.std.specs.Prelude.{◌≡◌};
ghost use Rattle.std.specs.IoError.{raw_os_error};
ghost use Rattle.event_loop.specs.Failures.{failure_of, is_listener_error};

use std::fmt::{Display, Formatter};
use std::{fmt, io};

/// A listener accepts no more connections. Its text says why, as the system does. The event loop alone makes one, of an
/// error of accepting: a crate above can only pass on what `work` answers.
#[derive(Clone, Copy, Debug, PartialEq, Eq)]
pub struct ListenerFailed {
    /// The number of the system's error (`errno`).
    code: i32,
}

/// Errors of Linux's accept(2) that lie in the listener: it is closed (EBADF), its memory is none (EFAULT), it doesn't
/// listen (EINVAL), it is no socket (ENOTSOCK), and none that accepts (EOPNOTSUPP).
const EBADF: i32 = 9;

const EFAULT: i32 = 14;

const EINVAL: i32 = 22;

const ENOTSOCK: i32 = 88;

const EOPNOTSUPP: i32 = 95;

/// Whether an error of accepting, by its number, lies in the listener.
fn is_listener_error(code: i32) -> bool
    ensures { result ≡ is_listener_error code }
{
    matches!(code, EBADF | EFAULT | EINVAL | ENOTSOCK | EOPNOTSUPP)
}

impl ListenerFailed {
    /// Returns the failure where an error of accepting lies in the listener. Each other error may pass, as too few
    /// file descriptors or too little memory, or lies in the one connection.
    pub(crate) fn from_error(error: &io::Error) -> Option<ListenerFailed>
        // Just the errors of the system that lie in the listener are failures, each with its own number.
        ensures { result ≡ failure_of (raw_os_error error.now) }
    {
        let code = error.raw_os_error()?;
        if is_listener_error(code) {
            Some(ListenerFailed { code })
        } else {
            None
        }
    }
}

impl Display for ListenerFailed {
    fn fmt<W: fmt::Write>(&self, f: &mut Formatter<W>) -> fmt::Result {
        let error = io::Error::from_raw_os_error(self.code);
        write!(f, "the listener accepts no more connections: {error}")
    }
}
