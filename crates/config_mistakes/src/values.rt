//! Mistakes of single values, and of texts that are no JSON.
use requests::{is_one_of, number_at};
use serde_json::Value;
use service_profile::Range;
use std::alloc::{AllocError, Global};

/// The longest text that is shown whole, in bytes.
const MOST_SHOWN: usize = 40;

/// The bytes of a byte order mark in UTF-8.
const BYTE_ORDER_MARK: &[u8] = b"\xEF\xBB\xBF";

/// A value that has to be an object, and the path to its keys, as `services[1].config.`.
#[derive(Clone, Copy)]
pub(crate) struct Object<'a> {
    pub path: &'a str,
    pub value: &'a Value,
}

/// Returns a value as it is shown: as it stands in the JSON, or what it is, where that is long.
fn shown(alloc: Global, value: &Value) -> Result<String, AllocError> {
    match value {
        Value::Array(_) => String::from_str(alloc, "an array"),
        Value::Object(_) => String::from_str(alloc, "an object"),
        Value::String(text) if text.len() > MOST_SHOWN => String::from_str(alloc, "a long text"),
        _ => value.to_string(alloc),
    }
}

/// Returns the mistake that the value of a key isn't what it has to be, or that the key is missing.
pub(crate) fn wrong(
    alloc: Global,
    object: Object<'_>,
    key: &str,
    wanted: &str,
) -> Result<String, AllocError> {
    let Object { path, value } = object;
    match value.get(key) {
        Some(found) => {
            let shown = shown(alloc, found)?;
            format!(in alloc; "{path}{key}: {shown} is not {wanted}")
        }
        None => format!(in alloc; "{path}{key}: the key is missing"),
    }
}

/// Returns the mistake that the value of a key isn't a whole number in a range, or that the key is missing.
pub(crate) fn bad_number(
    alloc: Global,
    object: Object<'_>,
    key: &str,
    range: Range,
) -> Result<String, AllocError> {
    let Range { least, most } = range;
    let wanted = if least == most {
        format!(in alloc; "{least}, the one value that is taken")?
    } else if number_at(object.value, key).is_some() {
        format!(in alloc; "from {least} to {most}")?
    } else {
        format!(in alloc; "a whole number from {least} to {most}")?
    };
    wrong(alloc, object, key, &wanted)
}

/// Returns the mistake that a value is no object, which is called so where it has no path, or that it has a key that
/// isn't known.
pub(crate) fn bad_keys(
    alloc: Global,
    object: Object<'_>,
    name: &str,
    keys: &[&str],
    known: &str,
) -> Result<String, AllocError> {
    let Object { path, value } = object;
    let Some(members) = value.as_object() else {
        let name = path.strip_suffix('.').unwrap_or(name);
        let shown = shown(alloc, value)?;
        return format!(in alloc; "{name}: {shown} is not an object");
    };
    for key in members.keys() {
        let key = key.as_str();
        if !is_one_of(keys, key) {
            return format!(in alloc; "{path}{key}: there is no such key; the keys are {known}");
        }
    }
    Ok(String::new(alloc))
}

/// Returns the JSON value of a text, or why it is none, with its line and column. The outer error is want of memory.
pub(crate) fn parsed(alloc: Global, text: &[u8]) -> Result<Result<Value, String>, AllocError> {
    let error = match Value::from_slice(alloc, text) {
        Ok(value) => return Ok(Ok(value)),
        Err(error) if error.is_memory() => return Err(AllocError),
        Err(error) => error,
    };
    let why = if text.starts_with(BYTE_ORDER_MARK) {
        String::from_str(
            alloc,
            "line 1, column 1: a byte order mark stands before the JSON; save the text without it",
        )?
    } else {
        let (line, column) = (error.line(), error.column());
        format!(in alloc; "line {line}, column {column}: this is no JSON ({error})")?
    };
    Ok(Err(why))
}
