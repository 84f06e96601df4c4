//! Programs written in hexadecimal.
ghost use Rattle.std.specs.Prelude.{◌≡◌, ◌⊎◌, Some, None, MatchResult};
ghost use Rattle.texts.specs.Hexadecimal.{hex_of};

use refusals::RefusalNumber;
use std::alloc::Global;

/// The bytes that hexadecimal text of either case spells; blanks in it don't count. `BadHex` where
/// it spells none, and `ProgramOutOfMemory` where memory runs out.
pub(crate) fn hex_bytes(alloc: Global, text: &str) -> Result<Vec<u8>, RefusalNumber>
    ensures { MatchResult result
        (λ bytes. hex_of text.now ≡ Some bytes.items)
        (λ number. (number ≡ RefusalNumber.ProgramOutOfMemory)
        ⊎ ((number ≡ RefusalNumber.BadHex) × (hex_of text.now ≡ None))) }
{
    match texts::hex_bytes(alloc, text) {
        Ok(Some(bytes)) => Ok(bytes),
        Ok(None) => Err(RefusalNumber::BadHex),
        Err(_) => Err(RefusalNumber::ProgramOutOfMemory),
    }
}
