//! Lines on standard error, which tell an operator what standard output can't. Where a line can't be made or written,
//! nothing else changes.
ghost use Rattle.std.specs.Prelude.{◌≡◌};
ghost use Rattle.counted_io.specs.Counting.{AppendsPart};
ghost use Rattle.server_output.specs.Lines.{IsNotice};

use config_mistakes::file_mistake;
use counted_io::Counted;
use http_pool::threads_at_once;
use service_file::FileMistake;
use std::alloc::{AllocError, Global};
use std::io::Write;
use std::thread::Threads;
use std::time;

/// Writes what is wrong with a file's text.
pub(crate) fn notify_mistake<E: Write>(
    alloc: Global,
    text: &[u8],
    mistake: FileMistake,
    err: &mut Counted<E>,
) {
    if let Ok(mistake) = file_mistake(alloc, text, mistake)
        && let Ok(line) = format!(in alloc; "{mistake}\n")
    {
        let _sent = err.send(line.as_bytes());
    }
}

/// Tries how many of so many workers run at once, and writes how many, where they are fewer. The error is want of
/// memory.
pub(crate) fn notify_workers<R: Threads + time::Clock + Sync, E: Write>(
    rt: &R,
    alloc: Global,
    workers: u64,
    err: &mut Counted<E>,
) -> Result<(), AllocError>
    ensures { IsNotice (E.contents err.old.inner) (E.contents err.new.inner) }
{
    let running = threads_at_once(rt, alloc, workers as usize)?;
    if running >= workers {
        return Ok(());
    }
    let line = format!(in alloc; "the system runs only {running} of {workers} workers at once\n")?;
    let _sent = err.send(line.as_bytes());
    Ok(())
}
