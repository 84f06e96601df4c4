//! What lines are answered with.
ghost use Rattle.std.specs.Prelude.{◌≡◌, IfOk, OnOk};
ghost use Rattle.service_profile.specs.Answers.{map_ok};
ghost use Rattle.service.specs.Asked.{response_data};
ghost use Rattle.replay.specs.Answering.{IsAnswered, answer_line};
ghost use Rattle.replay.specs.Causes.{IsWriteCause};
ghost use Rattle.replay.specs.Asking.{wished, asked};
ghost use Rattle.replay.specs.Parts.{IsLinePart};
ghost use Rattle.replay.specs.Replaying.{IsLineAnswered};

use crate::asking::{Asked, asked_on};
use crate::error::ReplayError;
use answers::{body, status};
use book::{Book, Reply};
use counted_io::Counted;
use refusals::RefusalNumber;
use service::{ONLY_SEAT, OpenGate, Response, Upkeep, ask};
use std::alloc::{AllocError, Global};
use std::io::Write;

fn answer(alloc: Global, book: &mut Book, asked: Result<Asked, RefusalNumber>) -> Response
    ensures { IsAnswered book.old (map_ok wished asked) (response_data result) book.new }
{
    match asked {
        Ok(asked) => ask(
            alloc,
            book,
            &ONLY_SEAT,
            Upkeep::NONE,
            asked.moment,
            asked.request,
            &OpenGate,
        ),
        Err(number) => Response::Reply(Reply::Refused(number)),
    }
}

/// The line of an answer: status, blank and body.
fn answer_line(alloc: Global, answer: &Response) -> Result<Vec<u8>, AllocError>
    ensures { IfOk result (λ line. line.items ≡ answer_line (response_data answer.now)) }
{
    let status = status(answer);
    let body = body(alloc, answer)?;
    let mut line = format!(in alloc; "{status} ")?.into_bytes();
    line.extend_from_slice(&body)?;
    line.push(b'\n')?;
    Ok(line)
}

/// Answers a line.
pub(crate) fn answer_to<W: Write>(
    alloc: Global,
    book: &mut Book,
    line: &[u8],
    out: &mut Counted<W>,
) -> Result<(), ReplayError>
    ensures answered { OnOk result (IsLineAnswered book.old line.now book.new (W.contents out.old.inner) (W.contents out.new.inner)) }
    ensures part { IsLinePart book.old line.now (W.contents out.old.inner) (W.contents out.new.inner) }
    ensures cause { IsWriteCause result out.old.failures out.new.failures }
{
    let asked = asked_on(alloc, line)?;
    let answer = answer(alloc, book, asked);
    let text = answer_line(alloc, &answer)?;
    if out.send(text.as_slice()).is_err() {
        return Err(ReplayError::WriteFailed);
    }
    Ok(())
}
