//! What follows from the definitions alone.
ghost use Rattle.std.specs.Prelude.{◌≡◌, ◌++◌, ℕ, List, Option};
ghost use Rattle.std.specs.Io.KnownBytes.{Consumes};
ghost use Rattle.counted_io.specs.Wires.{CountsOf};
ghost use Rattle.http_messages.specs.declared.front.Fault.{Fault};
ghost use Rattle.http_connection.specs.Serving.{AreAnswered, IsServed};
ghost use Rattle.http_connection.specs.declared.ended.Ended.{Ended};
ghost use Rattle.http_connection.specs.Connections.{ConnectionData, new_connection};
ghost use Rattle.http_connection.specs.Ends.{IsTurned};
ghost use Rattle.http_connection.specs.Exchanges.{HasGone};
ghost use Rattle.http_connection.specs.Lives.{HasLived};
ghost use Rattle.http_connection.specs.Steps.{Step, AreAllAnswered, AreSteps, messages_of, texts_of};
ghost use Rattle.http_connection.specs.Turns.{Goes};

use crate::clock::Clock;
use crate::responder::Responder;
use crate::turned::Turned;

/// Turns of one connection, one after another, come to one exchange: what the first read, answered and wrote, and then
/// what the next one did.
pub fn turns_are_one_exchange<S, P: Responder<S>, C: Clock>()
    // How far the connection comes with its bytes. That names no state, so it holds whatever others' turns did between.
    ensures bytes { (refusal : Fault → List ℕ) (from between to : ConnectionData) (more again : List ℕ) (one two : List Step) (text next : List ℕ)
        → Goes refusal from.stage from.unread more one text between.stage between.unread
        → Goes refusal between.stage between.unread again two next to.stage to.unread
        → Goes refusal from.stage from.unread (more ++ again) (one ++ two) (text ++ next) to.stage to.unread }
    // The same with the state and the clock, where the second turn finds them as the first left them.
    ensures gone { (from between to : ConnectionData) (had has left : Option (List ℕ)) (state between_state after : S) (clock between_clock later : C) (held holds written : Option (List ℕ))
        → HasGone P.refusal P.responds C.ticks from had state clock held between has between_state between_clock holds
        → HasGone P.refusal P.responds C.ticks between has between_state between_clock holds to left after later written
        → HasGone P.refusal P.responds C.ticks from had state clock held to left after later written }
{}

/// From a new connection on, what all its turns did is its whole life: the steps are those of the messages of the bytes
/// that were read, in order, and what was written, with what is pending behind it, is the text of their answers.
pub fn exchanges_of_a_new_connection_are_its_life<S, P: Responder<S>, C: Clock>()
    ensures { (to : ConnectionData) (had has : Option (List ℕ)) (state after : S) (clock later : C) (held holds : Option (List ℕ))
        → HasGone P.refusal P.responds C.ticks new_connection had state clock held to has after later holds
        → HasLived P.refusal P.responds C.ticks to had state clock held has after later holds }
{}

/// Steps of one connection, with no other's between them, are what `serve` says of the messages that it answers.
pub fn steps_alone_are_answers<S, P: Responder<S>, C: Clock>()
    ensures { (steps : List Step) (state after : S) (clock later : C) → AreAllAnswered steps → AreSteps P.responds C.ticks state clock steps after later
        → AreAnswered P.refusal P.responds C.ticks state clock (messages_of steps) (texts_of steps) after later }
{}

/// A connection of which all turns find the state and the clock as its turn before left them, so that no other's steps
/// stand between its own, is served as `serve` serves it: where its last turn ended it, this says what `serve` says.
pub fn turns_alone_are_served<S, P: Responder<S>, C: Clock>()
    ensures { (ended : Ended) (connection : ConnectionData) (had has : Option (List ℕ)) (state after : S) (clock later : C) (held holds : Option (List ℕ)) (reads reads_after writes writes_after : CountsOf)
        → HasLived P.refusal P.responds C.ticks connection had state clock held has after later holds
        → IsTurned (Turned.Ended ended) connection has reads reads_after writes writes_after
        → (bytes : List ℕ) × Consumes had has bytes × IsServed P.refusal P.responds C.ticks ended bytes state clock after later held holds }
{}
