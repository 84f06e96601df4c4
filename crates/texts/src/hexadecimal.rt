//! Bytes as hexadecimal text.
ghost use Rattle.std.specs.Prelude.{◌≡◌, IfOk, option_map};
ghost use Rattle.texts.specs.Hexadecimal.{without_blanks, hex_of};

use hex::FromHexError;
use std::alloc::{AllocError, Global};

/// The text without its blanks.
fn digits(alloc: Global, text: &str) -> Result<Vec<u8>, AllocError>
    ensures { IfOk result (λ digits. digits.items ≡ without_blanks text.now) }
{
    text.as_bytes()
        .iter()
        .copied()
        .filter(|byte| *byte != b' ')
        .collect(alloc)
}

/// The bytes that hexadecimal text of either case spells, in which blanks don't count; None where it
/// spells none. The error is want of memory.
pub fn hex_bytes(alloc: Global, text: &str) -> Result<Option<Vec<u8>>, AllocError>
    ensures { IfOk result (λ bytes. option_map (λ b. b.items) bytes ≡ hex_of text.now) }
{
    let digits = digits(alloc, text)?;
    match hex::decode(alloc, digits.as_slice()) {
        Ok(bytes) => Ok(Some(bytes)),
        Err(FromHexError::OutOfMemory) => Err(AllocError),
        Err(_) => Ok(None),
    }
}
