//! Reading JSON texts one after another.
ghost use Rattle.std.specs.Prelude.{◌≡◌, IfOk, option_map, option_and_then};
ghost use Rattle.json.specs.Json.{value, if_last};
ghost use Rattle.json.specs.Lex.{tokens};
ghost use Rattle.json.specs.Value.{value_view};
ghost use Rattle.serde_json.specs.Read.{max_depth, read};
ghost use Rattle.serde_json.specs.View.{view};
ghost use Rattle.texts.specs.JsonText.{json_of};

use crate::owned_values::owned;
use json::{Error, Reader, Scratch, Value as Borrowed};
use serde_json::Value;
use std::alloc::{AllocError, Global};

/// How deep arrays and objects may be nested.
const MOST_DEPTH: usize = 127;

/// Reads JSON texts by memory that it keeps from one to the next: 16 KB, and as many bytes as the longest text has.
#[derive(Drop)]
pub struct JsonReader {
    scratch: Scratch,
}

/// The value that a text stands for, with its texts borrowed; None where it is no JSON. The error is want of memory.
fn borrowed<'a>(
    alloc: Global,
    text: &'a str,
    scratch: &'a mut Scratch,
) -> Result<Option<Borrowed<'a>>, AllocError>
    ensures { IfOk result (λ found. option_map value_view found
        ≡ option_and_then (λ read. if_last read.0 read.1) (value max_depth (tokens text.now))) }
{
    let mut reader = Reader::new(text, scratch)?;
    let value = match Borrowed::read(alloc, &mut reader, MOST_DEPTH) {
        Ok(value) => value,
        Err(Error::OutOfMemory) => return Err(AllocError),
        Err(_) => return Ok(None),
    };
    if reader.next().is_some() {
        return Ok(None);
    }
    Ok(Some(value))
}

/// The value that a text stands for; None where it is no JSON, or has a number that is too large for a float. The error
/// is want of memory.
fn value_of(alloc: Global, text: &str, scratch: &mut Scratch) -> Result<Option<Value>, AllocError>
    ensures { IfOk result (λ found. option_map view found ≡ read text.now) }
{
    match borrowed(alloc, text, scratch)? {
        Some(value) => owned(alloc, &value),
        None => Ok(None),
    }
}

impl JsonReader {
    /// A reader that has read nothing.
    pub fn new(alloc: Global) -> JsonReader {
        JsonReader {
            scratch: Scratch::new(alloc),
        }
    }

    /// Reads the value that JSON text stands for (RFC 8259). None where the bytes are no UTF-8 or no JSON, where arrays
    /// and objects are nested more than 127 deep, or where a number is too large for a float. The error is want of
    /// memory.
    pub fn read(&mut self, alloc: Global, text: &[u8]) -> Result<Option<Value>, AllocError>
        ensures { IfOk result (λ value. option_map view value ≡ json_of text.now) }
    {
        match str::from_utf8(text) {
            Ok(text) => value_of(alloc, text, &mut self.scratch),
            Err(_) => Ok(None),
        }
    }
}
