//! Why a program is refused, on standard error. Where the lines can't be made or written, nothing else changes.
ghost use Rattle.std.specs.Prelude.{◌≡◌, IfSome};
ghost use Rattle.classifier_commands.specs.Answers.{IsFaulty};
ghost use Rattle.classifier_commands.specs.Endings.{IsExplained};

use crate::hexadecimal::hex_bytes;
use bpf_profile::Layout;
use counted_io::Counted;
use fault_reasons::fault_reason;
use refusals::RefusalNumber;
use std::alloc::Global;
use std::io::Write;

/// Returns why the program of hexadecimal text is refused on records of a layout, or nothing where it isn't, where the text is
/// no hexadecimal, or where memory runs out.
fn reason(alloc: Global, text: &str, layout: Layout) -> Option<String>
    ensures { IfSome result (λ _. IsFaulty layout text.now) }
{
    let Ok(bytes) = hex_bytes(alloc, text) else {
        return None;
    };
    let Err(refusal) = verifier::verify(alloc, &bytes, layout) else {
        return None;
    };
    if refusal.number == RefusalNumber::ProgramOutOfMemory {
        return None;
    }
    let Ok(Some(reason)) = fault_reason(alloc, &bytes, layout, refusal) else {
        return None;
    };
    Some(reason)
}

/// Writes why a program in hexadecimal is refused on records of a layout, for people.
pub(crate) fn notify_reason<E: Write>(
    alloc: Global,
    text: &str,
    layout: Layout,
    err: &mut Counted<E>,
)
    ensures quiet { (IsFaulty layout text.now → ⊥) → err.new ≡ err.old }
    ensures explained { IsExplained (E.contents err.old.inner) (E.contents err.new.inner) }
{
    if let Some(reason) = reason(alloc, text, layout) {
        let _sent = err.send(reason.as_bytes());
    }
}
