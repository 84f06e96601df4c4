//! Serving one input, turn by turn.
ghost use Rattle.std.specs.Prelude.{◌≡◌, ℕ, List};
ghost use Rattle.std.specs.Io.KnownBytes.{Consumes, IsAtEnd};
ghost use Rattle.counted_io.specs.Counting.{counted};
ghost use Rattle.http_connection.specs.Blocking.{blocking_counts};
ghost use Rattle.http_connection.specs.Causes.{ends_input, IsServingCause};
ghost use Rattle.http_connection.specs.Ends.{IsTurned};
ghost use Rattle.http_connection.specs.Exchanges.{HasGone};
ghost use Rattle.http_connection.specs.Serving.{IsServed};

use crate::blocking::Blocking;
use crate::clock::Clock;
use crate::connection::Connection;
use crate::ended::Ended;
use crate::intake::Intake;
use crate::responder::Responder;
use crate::turned::Turned;
use crate::turning::turn;
use counted_io::Counted;
use std::alloc::Global;
use std::io::{Read, Write};
use std::sync::Wait;

/// Gives a connection a turn over a reader and a writer that wait.
fn turn_over<S, P: Responder<S>, R: Read, W: Write, C: Clock>(
    connection: &mut Connection,
    intake: &mut Intake,
    reader: &mut Counted<R>,
    writer: &mut Counted<W>,
    responder: &P,
    state: &mut S,
    clock: &mut C,
) -> Turned
    ensures gone { HasGone P.refusal P.responds C.ticks connection.old (R.remaining reader.old.inner) state.old clock.old (W.contents writer.old.inner) connection.new (R.remaining reader.new.inner) state.new clock.new (W.contents writer.new.inner) }
    ensures turned { IsTurned result connection.new (R.remaining reader.new.inner) (blocking_counts reader.old) (blocking_counts reader.new) (blocking_counts writer.old) (blocking_counts writer.new) }
{
    let mut blocking = Blocking { reader, writer };
    turn(connection, intake, &mut blocking, responder, state, clock)
}

/// Serves the messages of an input, one after another, by giving one connection turns until it ends: each message is
/// answered by the responder, at the moment that the clock tells once its body is whole. Where it returns, `Ended` says
/// why. The reader and the writer may wait; a call of theirs that answers an error ends serving, whatever the error says.
/// Each answer is one write where the writer takes it whole.
pub fn serve<S, P: Responder<S>, R: Read, W: Write, C: Clock>(
    rt: &impl Wait,
    alloc: Global,
    reader: &mut Counted<R>,
    writer: &mut Counted<W>,
    responder: &P,
    state: &mut S,
    clock: &mut C,
) -> Ended
    // What was written are the answers to the messages of the bytes that were read, in order, as far as serving came;
    // where a write failed, a beginning of them.
    ensures served { (bytes : List ℕ) × Consumes (R.remaining reader.old.inner) (R.remaining reader.new.inner) bytes
        × IsServed P.refusal P.responds C.ticks result bytes state.old clock.old state.new clock.new (W.contents writer.old.inner) (W.contents writer.new.inner) }
    // `Closed` and `Truncated` come only where no byte is left.
    ensures closed { result ≡ Ended.Closed → IsAtEnd (R.remaining reader.new.inner) }
    ensures truncated { result ≡ Ended.Truncated → IsAtEnd (R.remaining reader.new.inner) }
    // `ReadFailed` and `WriteFailed` come only where that count went up by one, and no other call failed.
    ensures cause { IsServingCause result reader.old.failures reader.new.failures writer.old.failures writer.new.failures }
    // `Closed` and `Truncated` come where one read met the end of the input; in each other case none did. So no read is
    // made behind a message that ends the connection: it could meet the end, or fail.
    ensures ends { reader.new.ends ≡ counted (ends_input result) reader.old.ends }
{
    let Ok(mut intake) = Intake::new(alloc) else {
        return Ended::OutOfMemory;
    };
    let mut connection = Connection::new(alloc);
    'turns: for _ in rt.forever() {
        match turn_over(
            &mut connection,
            &mut intake,
            reader,
            writer,
            responder,
            state,
            clock,
        ) {
            Turned::GoesOn => {}
            Turned::Waits(_) => unreachable!(),
            Turned::Ended(ended) => return ended,
        }
    }
    unreachable!()
}
