//! Mistakes of the services in a file.
use crate::configurations::config_words;
use crate::values::{Object, bad_keys, bad_number, wrong};
use serde_json::Value;
use service_file::{COUNTS, SERVICE_KEYS, ServiceMistake};
use service_profile::Range;
use std::alloc::{AllocError, Global};

/// How old tickets may get, in milliseconds; 0 for any age.
const AGES: Range = Range {
    least: 0,
    most: u64::MAX,
};

/// Returns the service of a number in a file, from 0 on, or the file where it has none.
fn found(file: &Value, number: usize) -> &Value {
    match file.get("services") {
        Some(Value::Array(services)) => services.get(number).unwrap_or(file),
        _ => file,
    }
}

/// Returns the mistake of a service's name.
fn name_words(alloc: Global, service: Object<'_>) -> Result<String, AllocError> {
    let Range { least, most } = COUNTS;
    let wanted = format!(in alloc;
        "a name of {least} to {most} small letters, digits, hyphens and underscores"
    )?;
    wrong(alloc, service, "name", &wanted)
}

/// Returns the mistake of the service of a number, from 0 on, in words.
pub(crate) fn service_words(
    alloc: Global,
    file: &Value,
    number: usize,
    mistake: ServiceMistake,
) -> Result<String, AllocError> {
    let path = format!(in alloc; "services[{number}].")?;
    let value = found(file, number);
    let service = Object { path: &path, value };
    match mistake {
        ServiceMistake::Keys => bad_keys(
            alloc,
            service,
            "",
            SERVICE_KEYS,
            "name, config, program, layout, journal and maxTicketAge",
        ),
        ServiceMistake::Name => name_words(alloc, service),
        ServiceMistake::NameTaken => wrong(
            alloc,
            service,
            "name",
            "new: another service has this name",
        ),
        ServiceMistake::Config(mistake) => {
            let path = format!(in alloc; "{path}config.")?;
            let value = value.get("config").unwrap_or(value);
            config_words(alloc, Object { path: &path, value }, mistake)
        }
        ServiceMistake::Layout => wrong(alloc, service, "layout", "the whole number 1 or 2"),
        ServiceMistake::Journal => wrong(alloc, service, "journal", "\"keep\" or \"last\""),
        ServiceMistake::MaxTicketAge => bad_number(alloc, service, "maxTicketAge", AGES),
        ServiceMistake::NoProgram => wrong(
            alloc,
            service,
            "program",
            "a program's bytes as text in hexadecimal",
        ),
        ServiceMistake::Refused(refusal) => format!(in alloc; "{path}program: {refusal}"),
    }
}
