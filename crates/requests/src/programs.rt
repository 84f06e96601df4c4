//! Programs in JSON objects, as hexadecimal text.
ghost use Rattle.std.specs.Prelude.{◌≡◌, IfOk, option_map};
ghost use Rattle.serde_json.specs.View.{view};
ghost use Rattle.requests.specs.Programs.{program_of};

use crate::values::text_at;
use serde_json::Value;
use std::alloc::{AllocError, Global};
use texts::hex_bytes;

/// The bytecode that a JSON object has under `program`: hexadecimal text of either case, in which blanks
/// don't count. Other keys are ignored. None where it is missing, of another kind or no hexadecimal:
/// the refusal `BadValue`. The error is want of memory.
pub fn program(alloc: Global, value: &Value) -> Result<Option<Vec<u8>>, AllocError>
    ensures { IfOk result (λ bytes. option_map (λ b. b.items) bytes ≡ program_of (view value.now)) }
{
    match text_at(value, "program") {
        Some(text) => hex_bytes(alloc, text),
        None => Ok(None),
    }
}
