//! Printing answers and texts.
ghost use Rattle.std.specs.Prelude.{◌≡◌, ◌++◌, [], ◌∷◌, IfOk, IfErr, string_bytes};
ghost use Rattle.std.specs.Io.KnownBytes.{Appends};
ghost use Rattle.counted_io.specs.Counting.{AppendsPart};
ghost use Rattle.classifier_commands.specs.Causes.{IsWriteCause};
ghost use Rattle.classifier_commands.specs.Commands.{IsPrinted, IsSettled};
ghost use Rattle.classifier_commands.specs.Endings.{IsCut};
ghost use Rattle.classifier_commands.specs.Text.{answer_text};

use crate::answer::Answer;
use crate::commands::Status;
use crate::error::CommandError;
use counted_io::Counted;
use std::alloc::{AllocError, Global};
use std::io::Write;

/// Writes a text.
fn send<O: Write>(text: &str, out: &mut Counted<O>) -> Result<(), CommandError>
    ensures sent { IfOk result (λ done. Appends (O.contents out.old.inner) (O.contents out.new.inner) text.now) }
    ensures part { IfErr result (λ error. IsCut error out.old out.new (AppendsPart (O.contents out.old.inner) (O.contents out.new.inner) text.now)) }
    ensures cause { IsWriteCause result out.old.failures out.new.failures }
{
    match out.send(text.as_bytes()) {
        Ok(()) => Ok(()),
        Err(_) => Err(CommandError::WriteFailed),
    }
}

/// The line of an answer.
fn answer_line(alloc: Global, answer: Answer) -> Result<String, AllocError>
    ensures { IfOk result (λ line. string_bytes line ≡ answer_text answer ++ 10 ∷ []) }
{
    format!(in alloc; "{answer}\n")
}

/// A text with a line feed behind it.
fn with_end(alloc: Global, text: &str) -> Result<String, AllocError>
    ensures { IfOk result (λ line. string_bytes line ≡ text.now ++ 10 ∷ []) }
{
    format!(in alloc; "{text}\n")
}

/// Prints an answer as a line, and answers how the command ends: refused where the answer is a refusal, else
/// done. An error says why less than the line was printed.
pub fn print<O: Write>(
    alloc: Global,
    answer: Answer,
    out: &mut Counted<O>,
) -> Result<Status, CommandError>
    // The line of the answer was printed, and the status is the answer's.
    ensures printed { IfOk result (λ status. IsPrinted answer status (O.contents out.old.inner) (O.contents out.new.inner)) }
    ensures settled { IfOk result IsSettled }
    // A failed write leaves a beginning of the line, and want of memory nothing.
    ensures part { IfErr result (λ error. IsCut error out.old out.new (AppendsPart (O.contents out.old.inner) (O.contents out.new.inner) (answer_text answer ++ 10 ∷ []))) }
    // A failed write is answered where that count went up by one, and in no other case.
    ensures cause { IsWriteCause result out.old.failures out.new.failures }
{
    let line = answer_line(alloc, answer)?;
    send(&line, out)?;
    Ok(Status::from(answer))
}

/// Prints a text as a line.
pub(crate) fn print_line<O: Write>(
    alloc: Global,
    text: &str,
    out: &mut Counted<O>,
) -> Result<Status, CommandError>
    ensures printed { IfOk result (λ status. (status ≡ Status.Done) × Appends (O.contents out.old.inner) (O.contents out.new.inner) (text.now ++ 10 ∷ [])) }
    ensures part { IfErr result (λ error. IsCut error out.old out.new (AppendsPart (O.contents out.old.inner) (O.contents out.new.inner) (text.now ++ 10 ∷ []))) }
    ensures cause { IsWriteCause result out.old.failures out.new.failures }
{
    let line = with_end(alloc, text)?;
    send(&line, out)?;
    Ok(Status::Done)
}

/// Prints lines that end by themselves.
pub(crate) fn print_lines<O: Write>(
    text: &str,
    out: &mut Counted<O>,
) -> Result<Status, CommandError>
    ensures printed { IfOk result (λ status. (status ≡ Status.Done) × Appends (O.contents out.old.inner) (O.contents out.new.inner) text.now) }
    ensures part { IfErr result (λ error. IsCut error out.old out.new (AppendsPart (O.contents out.old.inner) (O.contents out.new.inner) text.now)) }
    ensures cause { IsWriteCause result out.old.failures out.new.failures }
{
    send(text, out)?;
    Ok(Status::Done)
}
