//! The program `sidecar`: passes its arguments, its input and its output on to the commands, and serves.
#![tactic(auto)]

use counted_io::Counted;
use file_check::check_path;
use program_words::{print_help, print_version};
use sidecar_commands::command;
use sidecar_server::{ServerStatus, SystemClock, notify_lost_output, serve_path};
use std::alloc::AllocError;
use std::io::BufReader;
use std::process::ExitCode;
use std::{env, io};

/// The program's arguments, without its name.
fn arguments(rt: &HostRuntime) -> io::Result<Vec<String>> {
    let mut arguments = Vec::new(rt.alloc());
    for argument in env::args(rt)?.skip(1) {
        arguments.push(argument)?;
    }
    Ok(arguments)
}

/// How words end that check a file, or ask for what the program says of itself; nothing for other words.
fn check_or_tell(rt: &HostRuntime, words: &[&str]) -> Option<ServerStatus> {
    let alloc = rt.alloc();
    let mut out = Counted::new(rt.stdout());
    let mut err = Counted::new(rt.stderr());
    let status = match *words {
        ["check", path] => check_path(rt, alloc, path, &mut out, &mut err),
        ["version"] | ["--version"] => print_version(alloc, &mut out),
        ["help"] | ["--help"] => print_help(&mut out),
        _ => return None,
    };
    notify_lost_output(status, &mut err);
    Some(status)
}

/// The status with which the command of these words ends.
fn run_command(rt: &HostRuntime, words: &[&str]) -> io::Result<u8> {
    let mut reader = Counted::new(BufReader::new(rt.alloc(), rt.stdin())?);
    let mut out = Counted::new(rt.stdout());
    let mut err = Counted::new(rt.stderr());
    Ok(command(rt.alloc(), words, &mut reader, &mut out, &mut err).code())
}

fn main(rt: HostRuntime) -> ExitCode {
    let Ok(arguments) = arguments(&rt) else {
        return ExitCode::FAILURE;
    };
    let collected = arguments
        .iter()
        .map(|word| word.as_str())
        .collect(rt.alloc());
    let Ok(words): Result<Vec<&str>, AllocError> = collected else {
        return ExitCode::FAILURE;
    };
    if let ["serve", path] = *words.as_slice() {
        let mut out = Counted::new(rt.stdout());
        let mut err = Counted::new(rt.stderr());
        let mut clock = SystemClock::new(&rt);
        let end = serve_path(&rt, rt.alloc(), path, &mut out, &mut err, &mut clock);
        notify_lost_output(end.status, &mut err);
        return ExitCode::from(end.status.code());
    }
    if let Some(status) = check_or_tell(&rt, &words) {
        return ExitCode::from(status.code());
    }
    match run_command(&rt, &words) {
        Ok(code) => ExitCode::from(code),
        Err(_) => ExitCode::FAILURE,
    }
}
