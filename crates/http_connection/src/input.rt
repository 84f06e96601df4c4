//! Reading what there is.
ghost use Rattle.std.specs.Prelude.{◌≡◌, ◌≤◌, ◌+◌, length};
ghost use Rattle.http_connection.specs.Reading.{ReadsMore};
ghost use Rattle.http_connection.specs.Calls.{IsFilled, turned_by};

use crate::ended::Ended;
use crate::intake::PIECE;
use crate::turned::{Turned, Want};
use counted_io::{Polling, Transport};

/// What a read brought.
#[derive(Clone, Copy)]
pub(crate) enum Filled {
    /// Some more bytes.
    More,
    /// The end of the input.
    End,
    /// Nothing for now.
    Nothing,
    /// It failed.
    Failed,
    /// There is no memory to read into.
    NoMemory,
}

/// Reads some more bytes, as far as they are there, by way of a piece of memory.
pub(crate) fn fill<T: Transport>(
    transport: &mut T,
    piece: &mut [u8; PIECE],
    unread: &mut Vec<u8>,
) -> Filled
    ensures read { ReadsMore (T.remaining transport.old) (T.remaining transport.new) unread.old.items unread.new.items }
    ensures most { length unread.new.items ≤ length unread.old.items + 2048 }
    ensures filled { IsFilled result unread.old.items unread.new.items (T.remaining transport.new) (T.reads transport.old) (T.reads transport.new) }
    ensures apart { T.contents transport.new ≡ T.contents transport.old }
    ensures writes { T.writes transport.new ≡ T.writes transport.old }
    ensures lenders { T.lenders transport.new ≡ T.lenders transport.old }
{
    if unread.reserve(PIECE).is_err() {
        return Filled::NoMemory;
    }
    match transport.take(piece) {
        Polling::Done(0) => Filled::End,
        Polling::Done(taken) => {
            if unread.extend_from_slice(&piece[..taken]).is_err() {
                unreachable!()
            }
            Filled::More
        }
        Polling::Waits => Filled::Nothing,
        Polling::Failed => Filled::Failed,
    }
}

/// How a turn goes on behind a read.
pub(crate) fn turned_by(filled: Filled, is_empty: bool) -> Turned
    ensures { result ≡ turned_by filled is_empty }
{
    match filled {
        Filled::More => Turned::GoesOn,
        Filled::End => Turned::Ended(if is_empty {
            Ended::Closed
        } else {
            Ended::Truncated
        }),
        Filled::Nothing => Turned::Waits(Want::Bytes),
        Filled::Failed => Turned::Ended(Ended::ReadFailed),
        Filled::NoMemory => Turned::Ended(Ended::OutOfMemory),
    }
}
