//! A turn of a session over a stream in memory, whose bytes are known.
ghost use Rattle.tests_turns.specs.Memory.{HasTakenTurn};

use counted_io::Halves;
use http_connection::{Clock, Intake, Responder, Session, Turned};

/// Gives a session over bytes in memory a turn. Here the clause of `Session::turn` speaks of known bytes.
pub fn turn_in_memory<'a, S, P: Responder<S>, C: Clock>(
    session: &mut Session<Halves<&'a [u8], Vec<u8>>>,
    intake: &mut Intake,
    responder: &P,
    state: &mut S,
    clock: &mut C,
) -> Turned
    ensures { HasTakenTurn P.refusal P.responds C.ticks session.old.connection session.old.wire.inner.reader.now session.old.wire.inner.writer.items state.old clock.old session.new.connection session.new.wire.inner.reader.now session.new.wire.inner.writer.items state.new clock.new }
{
    session.turn(intake, responder, state, clock)
}
