//! What becomes of a connection behind its last answer: it is told that no more is sent, and what its other side still
//! sends is read and dropped for a while. A connection that is closed while bytes of it are unread is reset, and the
//! other side may then lose the answer before it has read it (RFC 9112, section 9.6).
ghost use Rattle.event_loop.specs.Lives.{Lingers};

use counted_io::{Polling, Stream};
use http_connection::Session;

/// How many pieces of what the other side sends are dropped at most, and how many bytes each has: 8 MiB in all.
pub(crate) const MOST_PIECES: u32 = 1_024;

const PIECE: usize = 8_192;

/// How many pieces are read before other connections come first.
const PIECES_AT_ONCE: u32 = 8;

/// How lingering goes on.
#[derive(Clone, Copy, Debug, PartialEq, Eq)]
pub(crate) enum Lingering {
    /// The other side closed too, sent too much, or a read failed.
    Over,
    /// Nothing more is there for now; so many pieces may still come.
    Waits(u32),
    /// More may be there; so many pieces may still come.
    GoesOn(u32),
}

/// Reads a piece and drops it.
fn read_piece<T: Stream>(session: &mut Session<T>, left: u32) -> Lingering
    ensures { Lingers T.remaining T.contents session.old session.new }
{
    let mut piece = [0; PIECE];
    match session.read_on(&mut piece) {
        Polling::Done(0) => Lingering::Over,
        Polling::Done(_) => Lingering::GoesOn(left),
        Polling::Waits => Lingering::Waits(left),
        Polling::Failed => Lingering::Over,
    }
}

/// Reads what is there, and drops it, a few pieces at once, where so many may still come.
pub(crate) fn read_on<T: Stream>(session: &mut Session<T>, most: u32) -> Lingering
    ensures { Lingers T.remaining T.contents session.old session.new }
{
    let mut left = most;
    'pieces: for _ in 0..PIECES_AT_ONCE {
        if left == 0 {
            return Lingering::Over;
        }
        left -= 1;
        match read_piece(session, left) {
            Lingering::GoesOn(_) => {}
            ended => return ended,
        }
    }
    Lingering::GoesOn(left)
}
