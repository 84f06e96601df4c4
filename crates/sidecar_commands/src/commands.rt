//! The commands that the program's words name.
ghost use Rattle.std.specs.Prelude.{◌≡◌, ◌++◌, [], ◌∷◌, Ok, Decides, IfOk, IfErr};
ghost use Rattle.std.specs.Io.KnownBytes.{Appends};
ghost use Rattle.counted_io.specs.Counting.{AppendsPart, AtMostOneMore};
ghost use Rattle.classifier_commands.specs.Commands.{IsPrinted, IsSettled, usage};
ghost use Rattle.classifier_commands.specs.Endings.{IsExplained, IsUsageShown};
ghost use Rattle.classifier_commands.specs.Text.{answer_text};
ghost use Rattle.replay.specs.Causes.{IsReplayCause, IsWriteCause};
ghost use Rattle.replay.specs.Parts.{IsReplayedPart};
ghost use Rattle.sidecar_commands.specs.Commands.{NamesReplay, NamesNone, NamesExplained, AsksForInput, HasReplayed, HasAnswered, status_of_error, replay_error_of, bad_config};
ghost use Rattle.sidecar_commands.specs.Endings.{IsSidecarEnd, IsUnanswered, IsAnsweredInPart, IsCut, IsReplayCut};

use classifier_commands::{Answer, CommandError, CommandRefusal, Status, print};
use config_mistakes::config_mistake;
use counted_io::Counted;
use refusals::RefusalNumber;
use replay::{ReplayEnded, ReplayError, replay_with};
use std::alloc::Global;
use std::io::{Read, Write};

/// How a replay ends that failed.
fn status_of(error: ReplayError) -> Status
    ensures { result ≡ status_of_error error }
{
    match error {
        ReplayError::ReadFailed => Status::ReadFailed,
        ReplayError::WriteFailed => Status::WriteFailed,
        ReplayError::OutOfMemory => Status::OutOfMemory,
        ReplayError::TooLong => Status::TooLong,
    }
}

/// The error of a replay whose answer could not be printed.
fn replay_error(error: CommandError) -> ReplayError
    ensures { result ≡ replay_error_of error }
{
    match error {
        CommandError::ReadFailed => ReplayError::ReadFailed,
        CommandError::WriteFailed => ReplayError::WriteFailed,
        CommandError::OutOfMemory => ReplayError::OutOfMemory,
    }
}

/// Why a replay is refused.
const NO_CONFIG: CommandRefusal = CommandRefusal {
    number: RefusalNumber::BadConfig,
    place: 0,
};

/// Prints that the configuration can't be used.
fn refuse<O: Write>(alloc: Global, out: &mut Counted<O>) -> Result<Status, ReplayError>
    ensures printed { IfOk result (λ status. IsPrinted bad_config status (O.contents out.old.inner) (O.contents out.new.inner)) }
    ensures settled { IfOk result IsSettled }
    ensures part { IfErr result (λ error. IsCut error out.old out.new (AppendsPart (O.contents out.old.inner) (O.contents out.new.inner) (answer_text bad_config ++ 10 ∷ []))) }
    ensures cause { IsWriteCause result out.old.failures out.new.failures }
{
    match print(alloc, Answer::Refused(NO_CONFIG), out) {
        Ok(status) => Ok(status),
        Err(error) => Err(replay_error(error)),
    }
}

/// Prints that the configuration on a line can't be used, and then what is wrong with it on `err`.
fn refuse_line<O: Write, E: Write>(
    alloc: Global,
    first: &[u8],
    out: &mut Counted<O>,
    err: &mut Counted<E>,
) -> Result<Status, ReplayError>
    ensures printed { IfOk result (λ status. IsPrinted bad_config status (O.contents out.old.inner) (O.contents out.new.inner)) }
    ensures settled { IfOk result IsSettled }
    ensures part { IfErr result (λ error. IsCut error out.old out.new (AppendsPart (O.contents out.old.inner) (O.contents out.new.inner) (answer_text bad_config ++ 10 ∷ []))) }
    ensures quiet { (result ≡ Ok Status.Refused → ⊥) → err.new ≡ err.old }
    ensures explained { IsExplained (E.contents err.old.inner) (E.contents err.new.inner) }
    ensures cause { IsWriteCause result out.old.failures out.new.failures }
{
    let status = refuse(alloc, out)?;
    if status == Status::Refused {
        notify_mistake(alloc, first, err);
    }
    Ok(status)
}

/// Writes what is wrong with the first line of a replay, for people. It is the first line that isn't blank, and empty
/// where all are: `replay_with` ensures that of a replay whose configuration is refused. Where the line on `err` can't be
/// made or written, nothing else changes.
fn notify_mistake<E: Write>(alloc: Global, first: &[u8], err: &mut Counted<E>)
    ensures { IsExplained (E.contents err.old.inner) (E.contents err.new.inner) }
{
    if first.is_empty() {
        let _sent = err.send(
            b"the input has no first line: the configuration stands there, as {}\n",
        );
        return;
    }
    if let Ok(Some(mistake)) = config_mistake(alloc, first)
        && let Ok(line) = format!(in alloc; "{mistake}\n")
    {
        let _sent = err.send(line.as_bytes());
    }
}

/// Answers the events that are read. Where the configuration is refused, what is wrong with it is written on `err`.
fn replay_events<R: Read, O: Write, E: Write>(
    alloc: Global,
    reader: &mut Counted<R>,
    out: &mut Counted<O>,
    err: &mut Counted<E>,
) -> Result<Status, ReplayError>
    ensures replayed { IfOk result (λ status. HasReplayed (R.remaining reader.old.inner) status (O.contents out.old.inner) (O.contents out.new.inner)) }
    ensures settled { IfOk result IsSettled }
    ensures part { IfErr result (λ error. IsReplayCut error (R.remaining reader.old.inner) (O.contents out.old.inner) (O.contents out.new.inner)) }
    ensures quiet { (result ≡ Ok Status.Refused → ⊥) → err.new ≡ err.old }
    ensures explained { IsExplained (E.contents err.old.inner) (E.contents err.new.inner) }
    ensures cause { IsReplayCause result reader.old.failures reader.new.failures out.old.failures out.new.failures (R.remaining reader.old.inner) }
    ensures ends { AtMostOneMore reader.old.ends reader.new.ends }
{
    let mut first = Vec::new(alloc);
    match replay_with(alloc, &mut first, reader, out)? {
        ReplayEnded::Done => Ok(Status::Done),
        ReplayEnded::BadConfig => refuse_line(alloc, &first, out, err),
    }
}

/// Whether the words ask for a replay.
fn is_replay(words: &[&str]) -> bool
    ensures { Decides result (NamesReplay words.now) }
{
    matches!(*words, ["replay"])
}

/// Does what the words ask for, `replay` or a command on a classifier (`classifier_commands::command`), and answers how
/// that ended.
///
/// An answer, also a refusal, is one line on `out`; for wrong words there is a line on `err` and nothing on `out`.
/// Behind the refusal of a replay's configuration, and of the program of `judge` or `verify`, there are lines on `err`
/// too, which say what is wrong with it, for people. Where the reader or the writer fails, or memory runs out with no
/// answer that says so, nothing more is written. One failed read or write ends the command, also one that was
/// interrupted. Input is read byte by byte: give it a reader that is buffered.
pub fn command<R: Read, O: Write, E: Write>(
    alloc: Global,
    words: &[&str],
    reader: &mut Counted<R>,
    out: &mut Counted<O>,
    err: &mut Counted<E>,
) -> Status
    // Where it is done, the command's answer was printed.
    ensures done { result ≡ Status.Done → HasAnswered words.now (R.remaining reader.old.inner) Status.Done (O.contents out.old.inner) (O.contents out.new.inner) }
    // Where it is refused, the refusal of what the words ask for was printed.
    ensures refused { result ≡ Status.Refused → HasAnswered words.now (R.remaining reader.old.inner) Status.Refused (O.contents out.old.inner) (O.contents out.new.inner) }
    // With wrong arguments the words name no command, and the usage was printed.
    ensures wrong { result ≡ Status.WrongArguments → NamesNone words.now × Appends (E.contents err.old.inner) (E.contents err.new.inner) usage }
    ensures unnamed { result ≡ Status.UsageFailed → NamesNone words.now }
    // Where a read fails or memory runs out, a command on a classifier writes nothing on `out`, and a replay what it
    // answered up to then.
    ensures unanswered { IsUnanswered result → (NamesReplay words.now → ⊥) → out.new ≡ out.old }
    ensures replayed { IsUnanswered result → NamesReplay words.now → IsReplayedPart (R.remaining reader.old.inner) (O.contents out.old.inner) (O.contents out.new.inner) }
    // Where a write fails, a beginning of an answer to the words is written.
    ensures part { result ≡ Status.WriteFailed → IsAnsweredInPart words.now (R.remaining reader.old.inner) (O.contents out.old.inner) (O.contents out.new.inner) }
    // No input is taken but by a replay, by `asm`, and by `judge` with a program that is accepted.
    ensures unread { (AsksForInput words.now → ⊥) → reader.new ≡ reader.old }
    // Words that name no command print nothing on `out`, and the usage on `err`, or a beginning of it where a write failed.
    ensures silent { NamesNone words.now → out.new ≡ out.old }
    ensures usage { NamesNone words.now → IsUsageShown result (E.contents err.old.inner) (E.contents err.new.inner) err.old.failures err.new.failures }
    // Words that name a command write nothing on `err`, but where a replay's configuration is refused, or the program of
    // `judge` or `verify`; a text is then written there, or a part of it, or nothing.
    ensures quiet { (NamesNone words.now → ⊥) → (NamesExplained words.now × (result ≡ Status.Refused) → ⊥) → err.new ≡ err.old }
    ensures explained { (NamesNone words.now → ⊥) → IsExplained (E.contents err.old.inner) (E.contents err.new.inner) }
    // A failed read or write is answered where that count went up by one, and in no other case.
    ensures cause { IsSidecarEnd result reader.old.failures reader.new.failures out.old.failures out.new.failures (R.remaining reader.old.inner) }
    // The end of the input is met once at most: no read is made behind it.
    ensures ends { AtMostOneMore reader.old.ends reader.new.ends }
{
    if !is_replay(words) {
        return classifier_commands::command(alloc, words, reader, out, err);
    }
    match replay_events(alloc, reader, out, err) {
        Ok(status) => status,
        Err(error) => status_of(error),
    }
}
