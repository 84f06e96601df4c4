//! Serving services over HTTP.
ghost use Rattle.std.specs.Prelude.{◌≡◌, ℕ, List};
ghost use Rattle.std.specs.Io.KnownBytes.{Consumes, IsAtEnd};
ghost use Rattle.counted_io.specs.Counting.{counted};
ghost use Rattle.http_connection.specs.Causes.{ends_input, IsServingCause};
ghost use Rattle.http_connection.specs.Serving.{IsServed};
ghost use Rattle.http_front.specs.Answered.{fault_text, IsAnswered};

use crate::answerer::Answerer;
use crate::responder::HttpResponder;
use counted_io::Counted;
use http_connection::{Clock, Ended};
use std::alloc::Global;
use std::io::{Read, Write};
use std::sync::Wait;

/// Serves one connection: answers its messages, one after another, until the input or the connection
/// ends, a call fails or memory runs out. Each is answered at the moment that the clock tells once its
/// body is whole.
pub fn serve<R: Read, W: Write, A: Answerer, C: Clock>(
    rt: &impl Wait,
    alloc: Global,
    reader: &mut Counted<R>,
    writer: &mut Counted<W>,
    answerer: &mut A,
    clock: &mut C,
) -> Ended
    // What was written are the answers to the messages of the bytes that were read, in order, as far as serving came;
    // where a write failed, a beginning of them.
    ensures served { (bytes : List ℕ) × Consumes (R.remaining reader.old.inner) (R.remaining reader.new.inner) bytes
        × IsServed fault_text (IsAnswered A.names_of A.answers) C.ticks result bytes answerer.old clock.old answerer.new clock.new (W.contents writer.old.inner) (W.contents writer.new.inner) }
    // `Closed` and `Truncated` come only where no byte is left.
    ensures closed { result ≡ Ended.Closed → IsAtEnd (R.remaining reader.new.inner) }
    ensures truncated { result ≡ Ended.Truncated → IsAtEnd (R.remaining reader.new.inner) }
    // `ReadFailed` and `WriteFailed` come only where that count went up by one, and no other call failed.
    ensures cause { IsServingCause result reader.old.failures reader.new.failures writer.old.failures writer.new.failures }
    // `Closed` and `Truncated` come where one read met the end of the input; in each other case none did. So no read is
    // made behind a message that ends the connection: it could meet the end, or fail.
    ensures ends { reader.new.ends ≡ counted (ends_input result) reader.old.ends }
{
    let Ok(responder) = HttpResponder::new(alloc) else {
        return Ended::OutOfMemory;
    };
    http_connection::serve(rt, alloc, reader, writer, &responder, answerer, clock)
}
