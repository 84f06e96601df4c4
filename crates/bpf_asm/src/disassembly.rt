//! From programs to text.
ghost use Rattle.std.specs.Prelude.{◌≡◌, IfOk};
ghost use Rattle.std.specs.String.{string_bytes};
ghost use Rattle.bpf_asm.specs.Canonical.{text_of};

use crate::printing::push_line;
use bpf_decode::Program;
use bpf_profile::instruction_at;
use std::alloc::{AllocError, Global};

/// The program's canonical text: a line for each instruction, ended by a line feed.
pub fn disassemble(alloc: Global, program: &Program) -> Result<String, AllocError>
    ensures { IfOk result (λ text. string_bytes text ≡ text_of program.now) }
{
    let slots = program.slots();
    let mut text = String::new(alloc);
    for place in 0..slots.len() {
        if let Some(instruction) = instruction_at(slots, place) {
            push_line(&mut text, &instruction)?;
        }
    }
    Ok(text)
}
