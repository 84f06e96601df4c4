//! Checking a file.
ghost use Rattle.std.specs.Prelude.{◌≡◌, List, ℕ, None, IfOk, string_bytes};
ghost use Rattle.std.specs.Io.KnownBytes.{Appends};
ghost use Rattle.refusals.specs.declared.RefusalNumber.TheVariants.{BadConfig};
ghost use Rattle.service_file.specs.Settled.{IsRead};
ghost use Rattle.server_output.specs.Lines.{refused_line, IsPrinted, IsRefused, IsServerCause, IsSilent};
ghost use Rattle.file_check.specs.Checks.{accepted_line, IsAccepted, IsCheckCut, IsLineOf, IsLineOfSome};

use config_mistakes::file_mistake;
use counted_io::Counted;
use refusals::RefusalNumber;
use server_output::{ServerStatus, print_text, refuse, refuse_for};
use service_file::{FileMistake, Settings, read_settings};
use std::alloc::{AllocError, Global};
use std::fs::{File, Files};
use std::io;
use std::io::{ErrorKind, Read, Write};

/// The line of settings that can be used. The error is want of memory.
fn accepted_line(alloc: Global, settings: &Settings) -> Result<String, AllocError>
    ensures { IfOk result (λ line. string_bytes line ≡ accepted_line settings.now) }
{
    let services = settings.services.len();
    let workers = settings.workers;
    format!(in alloc; "ok services={services} workers={workers}\n")
}

/// Prints the line of settings that can be used.
fn accept<O: Write>(alloc: Global, settings: &Settings, out: &mut Counted<O>) -> ServerStatus
    ensures printed { IsPrinted result (accepted_line settings.now) (O.contents out.old.inner) (O.contents out.new.inner) }
    ensures cause { IsServerCause result out.old.failures out.new.failures }
{
    match accepted_line(alloc, settings) {
        Ok(line) => print_text(&line, out),
        Err(_) => ServerStatus::OutOfMemory,
    }
}

/// Writes what is wrong with a file's text. Where the line can't be made or written, nothing else changes.
fn notify_mistake<E: Write>(
    alloc: Global,
    text: &[u8],
    mistake: FileMistake,
    err: &mut Counted<E>,
) {
    if let Ok(mistake) = file_mistake(alloc, text, mistake)
        && let Ok(line) = format!(in alloc; "{mistake}\n")
    {
        let _sent = err.send(line.as_bytes());
    }
}

/// Prints that a file's text can't be used, and then what is wrong with it on `err`.
fn refuse_text<O: Write, E: Write>(
    alloc: Global,
    text: &[u8],
    mistake: FileMistake,
    out: &mut Counted<O>,
    err: &mut Counted<E>,
) -> ServerStatus
    ensures refused { IsRefused result BadConfig (O.contents out.old.inner) (O.contents out.new.inner) }
    ensures silent { IsSilent result err.old err.new }
    ensures cause { IsServerCause result out.old.failures out.new.failures }
{
    let status = refuse(alloc, RefusalNumber::BadConfig, out);
    if let ServerStatus::Refused(_) = status {
        notify_mistake(alloc, text, mistake, err);
    }
    status
}

/// Checks whether a server can serve by the text of a file, which `service_file::read_settings` reads, as `serve` does.
/// It prints the line `ok services=N workers=N`; or the refusal as a line, and then a line on `err` that says what is
/// wrong with the text, for people.
pub fn check_text<O: Write, E: Write>(
    alloc: Global,
    text: &[u8],
    out: &mut Counted<O>,
    err: &mut Counted<E>,
) -> ServerStatus
    // Where it is done, the text is a file that can be used, and the line of its settings was printed.
    ensures done { result ≡ ServerStatus.Done → IsAccepted text.now (O.contents out.old.inner) (O.contents out.new.inner) }
    // Where it is refused, the text is no file that can be used, and the refusal `BadConfig` was printed.
    ensures refused { (number : RefusalNumber) → result ≡ ServerStatus.Refused number → IsRead text.now None × (number ≡ BadConfig) × Appends (O.contents out.old.inner) (O.contents out.new.inner) (refused_line number) }
    // Where a write failed, all that was added on `out` is a beginning of this text's one line, and not all of it. Where
    // it couldn't be flushed, it is the whole line. Where memory ran out, nothing was added.
    ensures part { IsCheckCut (IsLineOf text.now) result (O.contents out.old.inner) (O.contents out.new.inner) }
    // Nothing of `err` changes, but where the refusal was printed.
    ensures silent { IsSilent result err.old err.new }
    // A failed write and a failed flush are answered where that count went up by one, and in no other case.
    ensures cause { IsServerCause result out.old.failures out.new.failures }
{
    match read_settings(alloc, text) {
        Ok(Ok(settings)) => accept(alloc, &settings, out),
        Ok(Err(mistake)) => refuse_text(alloc, text, mistake, out, err),
        Err(_) => ServerStatus::OutOfMemory,
    }
}

/// The bytes of a file.
fn read<R: Files>(rt: &R, alloc: Global, path: &str) -> io::Result<Vec<u8>> {
    let mut file = File::open(rt, path)?;
    let mut text = Vec::new(alloc);
    file.read_to_end(&mut text)?;
    Ok(text)
}

/// Checks whether a server can serve by the file at a path. One that can't be read is refused as one that can't be used,
/// and the line on `err` says why.
pub fn check_path<R: Files, O: Write, E: Write>(
    rt: &R,
    alloc: Global,
    path: &str,
    out: &mut Counted<O>,
    err: &mut Counted<E>,
) -> ServerStatus
    // Where it is done, some text is a file that can be used, and the line of its settings was printed: no clause knows
    // a file's text.
    ensures done { result ≡ ServerStatus.Done → (text : List ℕ) × IsAccepted text (O.contents out.old.inner) (O.contents out.new.inner) }
    // Where it is refused, the refusal `BadConfig` was printed, and no other.
    ensures refused { (number : RefusalNumber) → result ≡ ServerStatus.Refused number → (number ≡ BadConfig) × Appends (O.contents out.old.inner) (O.contents out.new.inner) (refused_line number) }
    // Where a write failed, all that was added on `out` is a beginning of one line, and not all of it: of the line of some
    // text, or of the refusal. Where it couldn't be flushed, it is the whole line. Where memory ran out, nothing was added.
    ensures part { IsCheckCut IsLineOfSome result (O.contents out.old.inner) (O.contents out.new.inner) }
    // Nothing of `err` changes, but where the refusal was printed.
    ensures silent { IsSilent result err.old err.new }
    // A failed write and a failed flush are answered where that count went up by one, and in no other case.
    ensures cause { IsServerCause result out.old.failures out.new.failures }
{
    match read(rt, alloc, path) {
        Ok(text) => check_text(alloc, &text, out, err),
        Err(error) if error.kind() == ErrorKind::OutOfMemory => ServerStatus::OutOfMemory,
        Err(error) => refuse_for(alloc, RefusalNumber::BadConfig, path, &error, out, err),
    }
}
