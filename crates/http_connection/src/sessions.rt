//! A stream with the connection that is served over it.
ghost use Rattle.std.specs.Prelude.{◌≡◌, ◌↔◌, IsTrue};
ghost use Rattle.counted_io.specs.Wires.{new_counts};
ghost use Rattle.http_connection.specs.Exchanges.{HasGone, HasGoneWithin, HasProgressed};
ghost use Rattle.http_connection.specs.Ends.{IsTurned};
ghost use Rattle.http_connection.specs.Connections.{new_connection};
ghost use Rattle.http_connection.specs.Phases.{IsPhase};
ghost use Rattle.http_connection.specs.Sessions.{IsFinished, ReadsOn};

use crate::clock::Clock;
use crate::connection::Connection;
use crate::intake::Intake;
use crate::phase::Phase;
use crate::responder::Responder;
use crate::stage::Stage;
use crate::turned::Turned;
use crate::turning::turn;
use counted_io::{Polling, Stream, Wire};
use std::alloc::Global;
use std::marker::Model;

/// A stream with the connection that is served over it. Its fields are private, and no method hands the stream out to be
/// read or written: so what is taken off the stream is answered as this connection's, and what is written to it are this
/// connection's answers.
#[derive(Drop)]
pub struct Session<T> {
    wire: Wire<T>,
    connection: Connection,
}

impl<T> Model for Session<T> {
    ghost use Rattle.http_connection.specs.Sessions.{SessionData};

    ghost Value = { SessionData T };

    ghost view = { λ s. record { wire = s.wire; connection = s.connection } };
}

impl<T> Session<T> {
    /// A session over a stream, of which nothing was read. It takes no memory.
    pub fn new(alloc: Global, stream: T) -> Self
        ensures stream { result.wire.inner ≡ stream }
        ensures connection { result.connection ≡ new_connection }
    {
        Session {
            wire: Wire::new(stream),
            connection: Connection::new(alloc),
        }
    }

    /// The stream, to look at.
    pub fn stream(&self) -> &T
        ensures { result.now ≡ self.now.wire.inner }
    {
        self.wire.inner()
    }

    /// What the connection is about.
    pub fn phase(&self) -> Phase
        ensures { IsPhase result self.now.connection }
    {
        self.connection.phase()
    }

    /// How many messages the responder was given.
    pub fn answers(&self) -> u64
        ensures { result ≡ self.now.connection.answers }
    {
        self.connection.answers()
    }

    /// Whether its last message was answered, and all of that is written.
    pub fn is_finished(&self) -> bool
        ensures { IsTrue result ↔ IsFinished self.now.connection }
    {
        self.connection.is_finished()
    }

    /// Gives back memory that an idle connection needs no more.
    pub fn rest(&mut self, alloc: Global)
        ensures { self.new ≡ self.old }
    {
        self.connection.rest(alloc);
    }
}

impl<T: Stream> Session<T> {
    /// Gives the connection a turn over its stream, as `turn` does.
    pub fn turn<S, P: Responder<S>, C: Clock>(
        &mut self,
        intake: &mut Intake,
        responder: &P,
        state: &mut S,
        clock: &mut C,
    ) -> Turned
        // What was taken off this stream, answered, and written to this stream.
        ensures gone { HasGone P.refusal P.responds C.ticks self.old.connection (T.remaining self.old.wire.inner) state.old clock.old (T.contents self.old.wire.inner) self.new.connection (T.remaining self.new.wire.inner) state.new clock.new (T.contents self.new.wire.inner) }
        ensures share { HasGoneWithin P.refusal P.responds C.ticks 64 131072 self.old.connection (T.remaining self.old.wire.inner) state.old clock.old (T.contents self.old.wire.inner) self.new.connection (T.remaining self.new.wire.inner) state.new clock.new (T.contents self.new.wire.inner) }
        ensures progress { result ≡ Turned.GoesOn → HasProgressed P.refusal P.responds C.ticks self.old.connection (T.remaining self.old.wire.inner) state.old clock.old (T.contents self.old.wire.inner) self.new.connection (T.remaining self.new.wire.inner) state.new clock.new (T.contents self.new.wire.inner) }
        ensures turned { IsTurned result self.new.connection (T.remaining self.new.wire.inner) self.old.wire.reads self.new.wire.reads self.old.wire.writes self.new.wire.writes }
    {
        turn(
            &mut self.connection,
            intake,
            &mut self.wire,
            responder,
            state,
            clock,
        )
    }

    /// Behind the last answer: reads what the other side still sends, into memory that nobody looks at. Where the
    /// connection isn't finished it reads nothing, and fails.
    pub fn read_on(&mut self, piece: &mut [u8]) -> Polling
        ensures connection { self.new.connection ≡ self.old.connection }
        ensures written { T.contents self.new.wire.inner ≡ T.contents self.old.wire.inner }
        ensures read { ReadsOn (T.remaining self.old.wire.inner) (T.remaining self.new.wire.inner) self.old.connection }
    {
        if !self.connection.is_finished() {
            return Polling::Failed;
        }
        self.wire.take(piece)
    }

    /// Behind the last answer: tells the other side that no more is sent. Answers whether that succeeded; where the
    /// connection isn't finished it tells nothing.
    pub fn end_sending(&mut self) -> bool
        ensures connection { self.new.connection ≡ self.old.connection }
        ensures written { T.contents self.new.wire.inner ≡ T.contents self.old.wire.inner }
        ensures read { T.remaining self.new.wire.inner ≡ T.remaining self.old.wire.inner }
    {
        self.connection.is_finished() && self.wire.end_sending()
    }
}
