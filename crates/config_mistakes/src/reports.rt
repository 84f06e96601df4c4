//! Mistakes of the reports of outcomes.
use crate::values::{Object, bad_number, parsed, wrong};
use bpf_profile::{FACT_COUNT, FRONT_SIZE, MOST_TAG_BYTES};
use helpers::Kind;
use requests::number_at;
use serde_json::Value;
use service_profile::Range;
use std::alloc::{AllocError, Global};

/// Numbers below 2^64.
const NUMBERS: Range = Range {
    least: 0,
    most: u64::MAX,
};

/// Numbers below 2^32.
const SMALL_NUMBERS: Range = Range {
    least: 0,
    most: u32::MAX as u64,
};

/// The keys of an outcome whose values are numbers, in the order in which they are read.
const NUMBER_KEYS: [(&str, Range); 7] = [
    ("status", SMALL_NUMBERS),
    ("duration_ms", NUMBERS),
    ("request_bytes", NUMBERS),
    ("response_bytes", NUMBERS),
    ("attempt", SMALL_NUMBERS),
    ("flags", NUMBERS),
    ("body_length", NUMBERS),
];

/// Whether a value is a number in a range.
fn is_number(value: &Value, range: Range) -> bool {
    match value.as_u64() {
        Some(number) => range.least <= number && number <= range.most,
        None => false,
    }
}

/// Whether a value is a text that names how a call ended.
fn is_kind(value: &Value) -> bool {
    match value.as_str() {
        Some(text) => Kind::named(text).is_some(),
        None => false,
    }
}

/// Whether a value is so many bytes at most, as text in hexadecimal.
fn is_bytes(value: &Value, most: usize) -> bool {
    let Some(text) = value.as_str() else {
        return false;
    };
    let count = text.len() / 2;
    let mut room = [0; FRONT_SIZE];
    count <= most && count <= FRONT_SIZE && hex::decode_to_slice(text, &mut room[..count]).is_ok()
}

/// Whether a value is an array of at most sixteen numbers.
fn are_facts(value: &Value) -> bool {
    match value.as_array() {
        Some(items) => {
            items.len() <= FACT_COUNT && items.iter().all(|item| item.as_u64().is_some())
        }
        None => false,
    }
}

/// Returns the first mistake of an outcome in words, and no words where none is found.
fn outcome_words(alloc: Global, outcome: Object<'_>) -> Result<Option<String>, AllocError> {
    let value = outcome.value;
    for (key, range) in NUMBER_KEYS {
        if let Some(found) = value.get(key)
            && !is_number(found, range)
        {
            return Ok(Some(bad_number(alloc, outcome, key, range)?));
        }
    }
    let texts = [
        (
            "kind",
            value.get("kind").is_none_or(|found| is_kind(found)),
            "\"response\", \"timeout\", \"refused\", \"reset\" or \"error\"",
        ),
        (
            "method",
            value
                .get("method")
                .is_none_or(|found| found.as_str().is_some()),
            "a text",
        ),
        (
            "body_front",
            value
                .get("body_front")
                .is_none_or(|found| is_bytes(found, FRONT_SIZE)),
            "at most 128 bytes as text in hexadecimal",
        ),
        (
            "facts",
            value.get("facts").is_none_or(|found| are_facts(found)),
            "an array of at most 16 whole numbers from 0 to 18446744073709551615",
        ),
        (
            "tag",
            value
                .get("tag")
                .is_none_or(|found| is_bytes(found, MOST_TAG_BYTES)),
            "at most 32 bytes as text in hexadecimal",
        ),
    ];
    for (key, is_right, wanted) in texts {
        if !is_right {
            return Ok(Some(wrong(alloc, outcome, key, wanted)?));
        }
    }
    Ok(None)
}

/// Returns what is wrong with the body of a report, as `outcome.status: "500" is not a whole number from 0 to 4294967295`; no
/// words where nothing is found. The error is want of memory.
pub fn report_mistake(alloc: Global, text: &[u8]) -> Result<Option<String>, AllocError> {
    let value = match parsed(alloc, text)? {
        Ok(value) => value,
        Err(mistake) => return Ok(Some(mistake)),
    };
    let report = Object {
        path: "",
        value: &value,
    };
    if number_at(&value, "ticket").is_none() {
        return Ok(Some(bad_number(alloc, report, "ticket", NUMBERS)?));
    }
    match value.get("outcome") {
        Some(found) if found.is_object() => {
            let outcome = Object {
                path: "outcome.",
                value: found,
            };
            outcome_words(alloc, outcome)
        }
        _ => Ok(Some(wrong(alloc, report, "outcome", "an object")?)),
    }
}
