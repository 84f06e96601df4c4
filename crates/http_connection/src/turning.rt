//! A turn of a connection.
ghost use Rattle.std.specs.Prelude.{◌≡◌};
ghost use Rattle.http_connection.specs.Exchanges.{HasGone, HasGoneWithin, HasProgressed};
ghost use Rattle.http_connection.specs.Ends.{IsTurned};

use crate::clock::Clock;
use crate::connection::Connection;
use crate::intake::Intake;
use crate::responder::Responder;
use crate::rounds::round;
use crate::turned::Turned;
use counted_io::Transport;

/// How often a turn reads, or answers a message, before others come first.
const MOST_ROUNDS: u32 = 64;

/// Gives a connection a turn: it writes what is pending, answers each whole message at the moment that the clock tells,
/// and reads, until a call would have to wait, the connection ends, or the turn was long enough: it answers at most 64
/// messages, and reads at most 131,072 bytes. It waits nowhere itself: over a `Wire` no call does. Nothing is read or
/// answered while an answer isn't written.
///
/// The connection is to be given the same transport at each turn, and no turn behind one that said `Ended`. A `Session` sees
/// to the first: it owns both.
pub fn turn<S, P: Responder<S>, T: Transport, C: Clock>(
    connection: &mut Connection,
    intake: &mut Intake,
    transport: &mut T,
    responder: &P,
    state: &mut S,
    clock: &mut C,
) -> Turned
    // What was read, answered and written. It says the same of several turns one after another, and from a new connection
    // on of its whole life: what was written, and what is pending, are the answers to the messages of the bytes that were
    // read, in order (`laws`).
    ensures gone { HasGone P.refusal P.responds C.ticks connection.old (T.remaining transport.old) state.old clock.old (T.contents transport.old) connection.new (T.remaining transport.new) state.new clock.new (T.contents transport.new) }
    // A turn is short: others wait for it.
    ensures share { HasGoneWithin P.refusal P.responds C.ticks 64 131072 connection.old (T.remaining transport.old) state.old clock.old (T.contents transport.old) connection.new (T.remaining transport.new) state.new clock.new (T.contents transport.new) }
    // It goes on only where it read, answered, refused or wrote something: so no connection goes on for ever without its peer.
    ensures progress { result ≡ Turned.GoesOn → HasProgressed P.refusal P.responds C.ticks connection.old (T.remaining transport.old) state.old clock.old (T.contents transport.old) connection.new (T.remaining transport.new) state.new clock.new (T.contents transport.new) }
    // Why it waits or ended: where it waits for bytes no whole message is left, and where it waits for room an answer is.
    ensures turned { IsTurned result connection.new (T.remaining transport.new) (T.reads transport.old) (T.reads transport.new) (T.writes transport.old) (T.writes transport.new) }
    // The transport keeps the references that it reads and writes by: so whoever lent them knows what became of them.
    ensures lenders { T.lenders transport.new ≡ T.lenders transport.old }
{
    'rounds: for _ in 0..MOST_ROUNDS {
        match round(connection, intake, transport, responder, state, clock) {
            Turned::GoesOn => {}
            ended => return ended,
        }
    }
    Turned::GoesOn
}
