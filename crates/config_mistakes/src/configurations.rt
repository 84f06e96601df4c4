//! Mistakes of configurations.
use crate::values::{Object, bad_keys, bad_number, parsed, wrong};
use book::SlidingWindowType;
use requests::{CONFIG_KEYS, ConfigMistake, config, config_key, window};
use serde_json::Value;
use std::alloc::{AllocError, Global};

/// Returns the mistake of a configuration in words.
pub(crate) fn config_words(
    alloc: Global,
    object: Object<'_>,
    mistake: ConfigMistake,
) -> Result<String, AllocError> {
    let ConfigMistake::BadValue(field) = mistake else {
        return bad_keys(
            alloc,
            object,
            "the configuration",
            CONFIG_KEYS,
            "those of the documentation's table",
        );
    };
    let window = window(object.value).unwrap_or(SlidingWindowType::CountBased);
    match field.range(window) {
        Some(range) => bad_number(alloc, object, config_key(field), range),
        None => wrong(
            alloc,
            object,
            config_key(field),
            "\"COUNT_BASED\" or \"TIME_BASED\"",
        ),
    }
}

/// Returns what is wrong with a configuration's text, as `failureRateThreshold: 101 is not from 1 to 100`, or nothing
/// where it can be used. The error is want of memory.
pub fn config_mistake(alloc: Global, text: &[u8]) -> Result<Option<String>, AllocError> {
    let value = match parsed(alloc, text)? {
        Ok(value) => value,
        Err(mistake) => return Ok(Some(mistake)),
    };
    let Err(mistake) = config(&value) else {
        return Ok(None);
    };
    let object = Object {
        path: "",
        value: &value,
    };
    Ok(Some(config_words(alloc, object, mistake)?))
}
