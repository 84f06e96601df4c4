//! The program `serve_only`: serves by a file, as `sidecar` does for the same words, and has no other command.
#![tactic(auto)]

use counted_io::Counted;
use sidecar_server::{SystemClock, notify_lost_output, serve_path};
use std::alloc::AllocError;
use std::process::ExitCode;
use std::{env, io};

/// What is printed where the words aren't `serve` and a file.
const USAGE: &[u8] = b"usage: serve_only serve FILE\n";

/// The status with which the program ends then.
const WRONG_ARGUMENTS: u8 = 2;

/// The program's arguments, without its name.
fn arguments(rt: &HostRuntime) -> io::Result<Vec<String>> {
    let mut arguments = Vec::new(rt.alloc());
    for argument in env::args(rt)?.skip(1) {
        arguments.push(argument)?;
    }
    Ok(arguments)
}

fn main(rt: HostRuntime) -> ExitCode {
    let Ok(arguments) = arguments(&rt) else {
        return ExitCode::FAILURE;
    };
    let collected = arguments
        .iter()
        .map(|word| word.as_str())
        .collect(rt.alloc());
    let Ok(words): Result<Vec<&str>, AllocError> = collected else {
        return ExitCode::FAILURE;
    };
    let mut out = Counted::new(rt.stdout());
    let mut err = Counted::new(rt.stderr());
    if let ["serve", path] = *words.as_slice() {
        let mut clock = SystemClock::new(&rt);
        let end = serve_path(&rt, rt.alloc(), path, &mut out, &mut err, &mut clock);
        notify_lost_output(end.status, &mut err);
        return ExitCode::from(end.status.code());
    }
    // Where this can't be written, the status says it all the same.
    let _sent = err.send(USAGE);
    ExitCode::from(WRONG_ARGUMENTS)
}
