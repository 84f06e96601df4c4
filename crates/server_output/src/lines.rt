//! Lines on standard output, each of which is printed at once, and the lines on standard error that say why.
ghost use Rattle.std.specs.Prelude.{◌≡◌, IfErr, OnOk};
ghost use Rattle.std.specs.Io.KnownBytes.{Appends};
ghost use Rattle.server_output.specs.Lines.{IsLineCut, IsLossTold, IsPrinted, IsRefused, IsQuiet, IsServerCause, IsSilent, status_of};

use crate::status::ServerStatus;
use counted_io::Counted;
use refusals::{RefusalNumber, RefusalText};
use std::alloc::Global;
use std::io;
use std::io::Write;

/// What is written on standard error where standard output takes no line.
const LOST_OUTPUT: &str = "standard output: a line couldn't be written\n";

/// Says on `err`, for people, that a line couldn't be written on standard output, where a server ended for that.
pub fn notify_lost_output<E: Write>(status: ServerStatus, err: &mut Counted<E>)
    // Where a write or a flush failed, `err` has the line, or a beginning of it where that write failed too; and else nothing
    // more.
    ensures { IsLossTold status err.old.failures err.new.failures (E.contents err.old.inner) (E.contents err.new.inner) }
{
    match status {
        ServerStatus::WriteFailed | ServerStatus::FlushFailed => {
            match err.send(LOST_OUTPUT.as_bytes()) {
                Ok(()) => {}
                // There is nobody left to tell.
                Err(_) => {}
            }
        }
        ServerStatus::Done
        | ServerStatus::ListenerFailed
        | ServerStatus::Refused(_)
        | ServerStatus::OutOfMemory => {}
    }
}

/// Prints a line at once.
pub(crate) fn print<O: Write>(line: &str, out: &mut Counted<O>) -> Result<(), ServerStatus>
    ensures printed { OnOk result (Appends (O.contents out.old.inner) (O.contents out.new.inner) line.now) }
    ensures failed { IfErr result (λ status. IsLineCut status line.now (O.contents out.old.inner) (O.contents out.new.inner)) }
    ensures cause { IsServerCause (status_of result) out.old.failures out.new.failures }
{
    if out.send(line.as_bytes()).is_err() {
        return Err(ServerStatus::WriteFailed);
    }
    if out.flush().is_err() {
        return Err(ServerStatus::FlushFailed);
    }
    Ok(())
}

/// Prints a text, whose last line ends by itself, and flushes it. Answers `Done` where it was printed, and else how that
/// failed.
pub fn print_text<O: Write>(text: &str, out: &mut Counted<O>) -> ServerStatus
    // The text is whole where it is done and where it can't be flushed, and where a write failed it is cut short.
    ensures printed { IsPrinted result text.now (O.contents out.old.inner) (O.contents out.new.inner) }
    // It asks for no memory, and never ends for want of it.
    ensures memory { result ≡ ServerStatus.OutOfMemory → ⊥ }
    // A failed write and a failed flush are answered where that count went up by one, and in no other case.
    ensures cause { IsServerCause result out.old.failures out.new.failures }
{
    match print(text, out) {
        Ok(()) => ServerStatus::Done,
        Err(status) => status,
    }
}

/// Prints a refusal as a line. Answers `Refused` with its number where it was printed, and else how that failed.
pub fn refuse<O: Write>(alloc: Global, number: RefusalNumber, out: &mut Counted<O>) -> ServerStatus
    // The line is whole where it was refused and where it can't be flushed; where a write failed it is cut short; and
    // nothing was written where there is no memory for it.
    ensures refused { IsRefused result number (O.contents out.old.inner) (O.contents out.new.inner) }
    // A failed write and a failed flush are answered where that count went up by one, and in no other case.
    ensures cause { IsServerCause result out.old.failures out.new.failures }
{
    let shown = RefusalText { number, place: 0 };
    let Ok(line) = format!(in alloc; "{shown}\n") else {
        return ServerStatus::OutOfMemory;
    };
    match print(&line, out) {
        Ok(()) => ServerStatus::Refused(number),
        Err(status) => status,
    }
}

/// Writes an error of the system that was met with something of a name. Where the line can't be made or written,
/// nothing else changes.
fn notify_error<E: Write>(alloc: Global, name: &str, error: &io::Error, err: &mut Counted<E>) {
    if let Ok(line) = format!(in alloc; "{name}: {error}\n") {
        let _sent = err.send(line.as_bytes());
    }
}

/// Prints a refusal as a line, and then why on `err`, for people: an error of the system, and the name of what it was
/// met with.
#[tactic(auto, using(crate::proofs::Silence::quiet_kept))]
pub fn refuse_for<O: Write, E: Write>(
    alloc: Global,
    number: RefusalNumber,
    name: &str,
    error: &io::Error,
    out: &mut Counted<O>,
    err: &mut Counted<E>,
) -> ServerStatus
    // On `out` stands what `refuse` prints.
    ensures refused { IsRefused result number (O.contents out.old.inner) (O.contents out.new.inner) }
    // Where the refusal wasn't printed, `err` has at most more what a server may say without one.
    ensures quiet { IsQuiet result (E.contents err.old.inner) (E.contents err.new.inner) }
    // Nothing of `err` changes then.
    ensures silent { IsSilent result err.old err.new }
    ensures cause { IsServerCause result out.old.failures out.new.failures }
{
    let status = refuse(alloc, number, out);
    if let ServerStatus::Refused(_) = status {
        notify_error(alloc, name, error, err);
    }
    status
}
