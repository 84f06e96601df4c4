//! Answering one message.
ghost use Rattle.std.specs.Prelude.{◌≡◌, []};
ghost use Rattle.http_messages.specs.Messages.{HasFault};
ghost use Rattle.http_connection.specs.Answering.{HasAnswered};

use crate::clock::Clock;
use crate::connection::Connection;
use crate::requests::{drop_front, request_at};
use crate::responder::Responder;
use crate::stage::Stage;
use http_messages::{Fault, Front, HeadParser};

/// What became of the next message.
#[derive(Clone, Copy)]
pub(crate) enum Answered {
    /// It was answered, or refused.
    Yes,
    /// It isn't whole.
    Incomplete,
    /// There is no memory for its answer.
    NoMemory,
}

/// Answers a message that is refused.
fn refuse<S, P: Responder<S>, C: Clock>(
    connection: &mut Connection,
    responder: &P,
    fault: Fault,
    state: &S,
    clock: &C,
) -> Answered
    requires open { connection.old.stage ≡ Stage.Open }
    requires faulty { HasFault connection.old.unread fault }
    ensures { HasAnswered P.refusal P.responds C.ticks result connection.old state.now clock.now connection.new state.now clock.now }
{
    connection.sent = 0;
    if responder.refuse(fault, &mut connection.text).is_err() {
        connection.text.clear();
        return Answered::NoMemory;
    }
    connection.stage = Stage::Last;
    Answered::Yes
}

/// Answers the message at the front of the unread bytes at the moment that the clock tells, or refuses it, if it is whole.
pub(crate) fn answer_next<S, P: Responder<S>, C: Clock>(
    connection: &mut Connection,
    parser: &mut HeadParser,
    responder: &P,
    state: &mut S,
    clock: &mut C,
) -> Answered
    requires open { connection.old.stage ≡ Stage.Open }
    requires written { connection.old.pending ≡ [] }
    ensures { HasAnswered P.refusal P.responds C.ticks result connection.old state.old clock.old connection.new state.new clock.new }
{
    if connection.unread.is_empty() {
        return Answered::Incomplete;
    }
    if connection.unread.len() < connection.awaited {
        return Answered::Incomplete;
    }
    match parser.front(&connection.unread) {
        Front::Part => Answered::Incomplete,
        Front::Refused(fault) => refuse(connection, responder, fault, state, clock),
        Front::Whole(head) => {
            if connection.unread.len() < head.size + head.body {
                connection.awaited = head.size + head.body;
                return Answered::Incomplete;
            }
            let moment = clock.now_ms();
            let request = request_at(&connection.unread, &head);
            connection.answers = connection.answers.wrapping_add(1);
            connection.sent = 0;
            if responder
                .respond(state, moment, &request, &mut connection.text)
                .is_err()
            {
                connection.text.clear();
                connection.stage = Stage::Lost;
                return Answered::NoMemory;
            }
            if head.closes {
                connection.stage = Stage::Last;
                return Answered::Yes;
            }
            connection.awaited = 0;
            drop_front(&mut connection.unread, head.size + head.body);
            Answered::Yes
        }
    }
}
