//! What the program `sidecar` says of itself: its version, and its commands.
#![tactic(auto)]

ghost use Rattle.std.specs.Prelude.{◌≡◌};
ghost use Rattle.server_output.specs.Lines.{IsPrinted, IsServerCause};
ghost use Rattle.program_words.specs.Words.{version_line};

use counted_io::Counted;
use server_output::{ServerStatus, print_text};
use std::alloc::Global;
use std::io::Write;

/// The version of the program. The file `VERSION` at the top of the repository has the same text.
pub const VERSION: &str = "0.1.0";

/// A line for each command of the program.
pub const COMMANDS: &str = "\
sidecar judge PROGRAM [LAYOUT]    judges the outcome that is read from standard input
sidecar verify PROGRAM [LAYOUT]   says whether a program is accepted, and its budget
sidecar asm                       assembles the text that is read from standard input
sidecar dis PROGRAM               prints the text of a program
sidecar replay                    answers the events that are read from standard input
sidecar serve FILE                serves the services of a file over HTTP
sidecar check FILE                says whether a file can be served, and opens nothing
sidecar version                   prints the version
sidecar help                      prints these lines
";

/// Prints the name of the program and its version as a line.
pub fn print_version<O: Write>(alloc: Global, out: &mut Counted<O>) -> ServerStatus
    // Where it is done the line was printed. A failed write leaves a beginning of it, and not all of it; a failed flush the
    // whole line; and want of memory nothing.
    ensures printed { IsPrinted result (version_line VERSION.now) (O.contents out.old.inner) (O.contents out.new.inner) }
    // A failed write and a failed flush are answered where that count went up by one, and in no other case.
    ensures cause { IsServerCause result out.old.failures out.new.failures }
{
    match format!(in alloc; "sidecar {VERSION}\n") {
        Ok(line) => print_text(&line, out),
        Err(_) => ServerStatus::OutOfMemory,
    }
}

/// Prints a line for each command of the program.
pub fn print_help<O: Write>(out: &mut Counted<O>) -> ServerStatus
    // Where it is done all lines were printed. A failed write leaves a beginning of them, and not all of them, and a failed
    // flush all.
    ensures printed { IsPrinted result COMMANDS.now (O.contents out.old.inner) (O.contents out.new.inner) }
    // It asks for no memory, and never ends for want of it.
    ensures memory { result ≡ ServerStatus.OutOfMemory → ⊥ }
    // A failed write and a failed flush are answered where that count went up by one, and in no other case.
    ensures cause { IsServerCause result out.old.failures out.new.failures }
{
    print_text(COMMANDS, out)
}
