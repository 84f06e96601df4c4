//! How sessions leave.
ghost use Rattle.std.specs.Prelude.{◌≡◌, List, Option, [], ◌∷◌, None};
ghost use Rattle.http_connection.specs.Connections.{new_connection};
ghost use Rattle.http_connection.specs.Sessions.{SessionData};
ghost use Rattle.event_loop.specs.Departures.{Departed, LeavesSo, Records};

use http_connection::{Ended, Phase, Session};

/// Why a session leaves.
#[derive(Clone, Copy, Debug, PartialEq, Eq)]
pub enum Cause {
    /// Its last turn ended it so.
    Ended(Ended),
    /// The worker closed it, since its time was over or for another one: it was idle, or in the middle of a message with all
    /// answers sent, or an answer wasn't taken.
    Closed(Phase),
}

/// Takes the sessions that leave. Streams of which nothing else is known can't be let go in any other way: so none leaves
/// without its cause.
pub trait Departures<T> {
    // The sessions that left, the last one first, where they are known.
    ghost departed: { Self → Option (List (Departed T)) } = { λ _. None };

    /// Takes a session of a number that was served, and closes its stream.
    fn take(&mut self, number: u64, session: Session<T>, cause: Cause)
        requires { LeavesSo cause session.connection }
        ensures { Records (departed self.old) (departed self.new) (record { number = number; session = session; cause = cause } ∷ []) };

    /// Takes a session that was never served, and closes its stream.
    fn turn_away(&mut self, session: Session<T>)
        requires { session.connection ≡ new_connection }
        ensures { departed self.new ≡ departed self.old };
}

/// Closes the streams of sessions that leave, and remembers nothing of them.
#[derive(Drop)]
pub struct Closing;

impl<T: Drop> Departures<T> for Closing {
    fn take(&mut self, _number: u64, session: Session<T>, _cause: Cause)
        ensures { self.new ≡ self.old }
    {
        drop(session);
    }

    fn turn_away(&mut self, session: Session<T>)
        ensures { self.new ≡ self.old }
    {
        drop(session);
    }
}
