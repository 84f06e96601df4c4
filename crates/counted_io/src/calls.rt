//! Calls that are tried again where they are interrupted, and what they came to.
ghost use Rattle.std.specs.Prelude.{◌≡◌};
ghost use Rattle.std.specs.Io.{ReadsAtMost, WritesAtMost};
ghost use Rattle.std.specs.Io.KnownBytes.{ReadConsumes, WriteAppends};
ghost use Rattle.counted_io.specs.Calls.{IsTried, read_polling, write_polling};

use crate::polling::Polling;
use crate::streams::Stream;
use std::io;
use std::io::ErrorKind;

/// How often a call is tried that is interrupted. The last try is the call that counts.
const MOST_TRIES: u32 = 16;

/// Reads a stream once, and again where the read was interrupted, sixteen times at most.
pub(crate) fn receive_again<T: Stream>(stream: &mut T, buf: &mut [u8]) -> io::Result<usize>
    ensures bound { ReadsAtMost result buf.new }
    ensures bytes { ReadConsumes (T.remaining stream.old) (T.remaining stream.new) result buf.new }
    ensures apart { T.contents stream.new ≡ T.contents stream.old }
    ensures tried { IsTried 16 (T.read_answers stream.old) (T.read_answers stream.new) result }
    ensures unwritten { T.write_answers stream.new ≡ T.write_answers stream.old }
{
    'tries: for tried in 1..MOST_TRIES {
        match stream.receive(buf) {
            Err(error) if error.kind() == ErrorKind::Interrupted => {}
            result => return result,
        }
    }
    stream.receive(buf)
}

/// Writes a stream once, and again where the write was interrupted, sixteen times at most.
pub(crate) fn send_again<T: Stream>(stream: &mut T, buf: &[u8]) -> io::Result<usize>
    ensures bound { WritesAtMost result buf.now }
    ensures bytes { WriteAppends (T.contents stream.old) (T.contents stream.new) result buf.now }
    ensures apart { T.remaining stream.new ≡ T.remaining stream.old }
    ensures tried { IsTried 16 (T.write_answers stream.old) (T.write_answers stream.new) result }
    ensures unread { T.read_answers stream.new ≡ T.read_answers stream.old }
{
    'tries: for tried in 1..MOST_TRIES {
        match stream.send(buf) {
            Err(error) if error.kind() == ErrorKind::Interrupted => {}
            result => return result,
        }
    }
    stream.send(buf)
}

/// What a read came to.
pub(crate) fn read_polling(given: io::Result<usize>) -> Polling
    ensures { result ≡ read_polling given }
{
    match given {
        Ok(taken) => Polling::Done(taken),
        Err(error) if error.kind() == ErrorKind::WouldBlock => Polling::Waits,
        Err(_) => Polling::Failed,
    }
}

/// What a write of a piece of this length came to. A write that takes nothing of a piece that isn't empty failed.
pub(crate) fn write_polling(given: io::Result<usize>, size: usize) -> Polling
    ensures { result ≡ write_polling given size }
{
    match given {
        Ok(taken) if taken == 0 && size > 0 => Polling::Failed,
        Ok(taken) => Polling::Done(taken),
        Err(error) if error.kind() == ErrorKind::WouldBlock => Polling::Waits,
        Err(_) => Polling::Failed,
    }
}
