//! Reading the whole input.
ghost use Rattle.std.specs.Prelude.{◌≡◌, IfOk, OnErr};
ghost use Rattle.counted_io.specs.Counting.{one_more};
ghost use Rattle.classifier_commands.specs.Answers.{IsAllOf};
ghost use Rattle.classifier_commands.specs.Causes.{IsReadCause};

use crate::error::CommandError;
use counted_io::Counted;
use std::alloc::Global;
use std::io::Read;

/// All that a reader has.
pub(crate) fn read_all<R: Read>(
    alloc: Global,
    reader: &mut Counted<R>,
) -> Result<Vec<u8>, CommandError>
    ensures all { IfOk result (λ text. IsAllOf (R.remaining reader.old.inner) text.items) }
    ensures cause { IsReadCause result reader.old.failures reader.new.failures }
    // The end of the input was met once, and no read is made behind it.
    ensures end { IfOk result (λ text. reader.new.ends ≡ one_more reader.old.ends) }
    ensures none { OnErr result (reader.new.ends ≡ reader.old.ends) }
{
    let mut text = Vec::new(alloc);
    'bytes: loop {
        let Ok(next) = reader.next_byte() else {
            return Err(CommandError::ReadFailed);
        };
        let Some(byte) = next else {
            return Ok(text);
        };
        if text.push(byte).is_err() {
            return Err(CommandError::OutOfMemory);
        }
    }
}
