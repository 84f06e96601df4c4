//! Mistakes of the file of `sidecar serve`.
use crate::services::service_words;
use crate::values::{Object, bad_keys, bad_number, parsed, wrong};
use serde_json::Value;
use service_file::{COUNTS, FILE_KEYS, FileMistake, OPEN_LIMITS};
use service_profile::Range;
use std::alloc::{AllocError, Global};

/// The numbers of connections after which serving may end.
const CONNECTIONS: Range = Range {
    least: 0,
    most: u64::MAX,
};

/// Returns the mistake of the number of services, or that they are none.
fn services_words(alloc: Global, file: Object<'_>) -> Result<String, AllocError> {
    let Range { least, most } = COUNTS;
    match file.value.get("services") {
        Some(Value::Array(services)) => {
            let count = services.len();
            format!(in alloc; "services: the array has {count} services, and not {least} to {most}")
        }
        _ => {
            let wanted = format!(in alloc; "an array of {least} to {most} services")?;
            wrong(alloc, file, "services", &wanted)
        }
    }
}

/// Returns the mistake of a file in words.
fn file_words(alloc: Global, file: Object<'_>, mistake: FileMistake) -> Result<String, AllocError> {
    match mistake {
        FileMistake::NoJson | FileMistake::Keys => bad_keys(
            alloc,
            file,
            "the file",
            FILE_KEYS,
            "listen, workers, keeper, connections, open, tickets, log and services",
        ),
        FileMistake::Listen => wrong(
            alloc,
            file,
            "listen",
            "an IP address with a port, as \"127.0.0.1:8080\"",
        ),
        FileMistake::Workers => bad_number(alloc, file, "workers", COUNTS),
        FileMistake::Keeper => wrong(alloc, file, "keeper", "\"lock\" or \"slot\""),
        FileMistake::Connections => bad_number(alloc, file, "connections", CONNECTIONS),
        FileMistake::Open => bad_number(alloc, file, "open", OPEN_LIMITS),
        FileMistake::Tickets => wrong(alloc, file, "tickets", "\"from 1\" or \"by the clock\""),
        FileMistake::Log => wrong(alloc, file, "log", "\"silent\" or \"changes\""),
        FileMistake::Services => services_words(alloc, file),
        FileMistake::Service(number, mistake) => service_words(alloc, file.value, number, mistake),
    }
}

/// Returns the mistake in a file's text in words, as `services[1].config.failureRateThreshold: 101 is not from 1 to
/// 100`. The error is want of memory.
pub fn file_mistake(
    alloc: Global,
    text: &[u8],
    mistake: FileMistake,
) -> Result<String, AllocError> {
    match parsed(alloc, text)? {
        Ok(value) => {
            let path = "";
            file_words(
                alloc,
                Object {
                    path,
                    value: &value,
                },
                mistake,
            )
        }
        Err(mistake) => Ok(mistake),
    }
}
