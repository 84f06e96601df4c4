//! JSON text.
ghost use Rattle.std.specs.Prelude.{◌≡◌, IfOk, option_map};
ghost use Rattle.serde_json.specs.View.{view};
ghost use Rattle.texts.specs.JsonText.{json_of};

use serde_json::{Category, Value};
use std::alloc::{AllocError, Global};

/// Reads the value that JSON text stands for (RFC 8259). None where the bytes are no UTF-8 or no JSON.
/// The error is want of memory.
pub fn json(alloc: Global, text: &[u8]) -> Result<Option<Value>, AllocError>
    ensures { IfOk result (λ value. option_map view value ≡ json_of text.now) }
{
    match Value::from_slice(alloc, text) {
        Ok(value) => Ok(Some(value)),
        Err(error) if error.classify() == Category::Memory => Err(AllocError),
        Err(_) => Ok(None),
    }
}
