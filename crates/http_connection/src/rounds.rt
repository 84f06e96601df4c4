//! One round of a turn.
ghost use Rattle.std.specs.Prelude.{◌≡◌};
ghost use Rattle.http_connection.specs.Exchanges.{HasRounds};
ghost use Rattle.http_connection.specs.Ends.{IsTurned};

use crate::answering::{Answered, answer_next};
use crate::clock::Clock;
use crate::connection::Connection;
use crate::ended::Ended;
use crate::input::{fill, turned_by};
use crate::intake::Intake;
use crate::output::{Written, write_pending};
use crate::responder::Responder;
use crate::stage::Stage;
use crate::turned::{Turned, Want};
use counted_io::Transport;

/// Writes what is pending, and where that is all, answers the next message, or reads where it isn't whole.
pub(crate) fn round<S, P: Responder<S>, T: Transport, C: Clock>(
    connection: &mut Connection,
    intake: &mut Intake,
    transport: &mut T,
    responder: &P,
    state: &mut S,
    clock: &mut C,
) -> Turned
    ensures gone { HasRounds P.refusal P.responds C.ticks 1 2048 (result ≡ Turned.GoesOn) connection.old (T.remaining transport.old) state.old clock.old (T.contents transport.old) connection.new (T.remaining transport.new) state.new clock.new (T.contents transport.new) }
    ensures turned { IsTurned result connection.new (T.remaining transport.new) (T.reads transport.old) (T.reads transport.new) (T.writes transport.old) (T.writes transport.new) }
    ensures lenders { T.lenders transport.new ≡ T.lenders transport.old }
{
    match write_pending(connection, transport) {
        Written::All => {}
        Written::Part => return Turned::Waits(Want::Room),
        Written::Failed => return Turned::Ended(Ended::WriteFailed),
    }
    match connection.stage {
        Stage::Open => {}
        Stage::Last => return Turned::Ended(Ended::Finished),
        Stage::Lost => return Turned::Ended(Ended::OutOfMemory),
    }
    match answer_next(connection, &mut intake.parser, responder, state, clock) {
        Answered::Yes => return Turned::GoesOn,
        Answered::Incomplete => {}
        Answered::NoMemory => return Turned::Ended(Ended::OutOfMemory),
    }
    let filled = fill(transport, &mut intake.piece, &mut connection.unread);
    turned_by(filled, connection.unread.is_empty())
}
