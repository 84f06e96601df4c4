//! The answers of `asm` and `dis`.
ghost use Rattle.std.specs.Prelude.{◌≡◌, ◌≤◌, ◌==◌, length, filter, MatchResult, IfOk, string_bytes};
ghost use Rattle.classifier_commands.specs.Assembling.{IsAssembled, IsAssemblyRefused, IsTextAssembled, IsTextFault, IsHexadecimalOf, IsDecoded, IsDisassembled, IsDisassemblyRefused, line_at};

use crate::answer::CommandRefusal;
use crate::hexadecimal::hex_bytes;
use bpf_asm::{assemble, disassemble};
use bpf_decode::Program;
use refusals::RefusalNumber;
use std::alloc::{AllocError, Global};

/// How many line feeds there are.
fn line_feeds(text: &[u8]) -> usize
    ensures { result ≡ length (filter (λ byte. byte == 10) text.now) }
{
    text.iter().filter(|byte| **byte == b'\n').count()
}

/// The line of the byte at an index, from 1 on.
fn line_at(text: &[u8], index: usize) -> usize
    requires { index ≤ length text.now }
    ensures { result ≡ line_at text.now index }
{
    line_feeds(&text[..index]) + 1
}

/// The hexadecimal of a program's bytes.
fn hexadecimal(alloc: Global, program: &Program) -> Result<String, AllocError>
    ensures { IfOk result (λ text. IsHexadecimalOf program.now (string_bytes text)) }
{
    let bytes = program.encode()?;
    hex::encode(alloc, &bytes)
}

/// The hexadecimal of the program that assembler text stands for, or the first fault.
fn assembled_text(alloc: Global, text: &str) -> Result<String, CommandRefusal>
    ensures { MatchResult result (λ hex. IsTextAssembled text.now (string_bytes hex)) (λ fault. IsTextFault text.now fault) }
{
    let program = assemble(alloc, text)?;
    match hexadecimal(alloc, &program) {
        Ok(hex) => Ok(hex),
        Err(_) => Err(CommandRefusal::from(RefusalNumber::AssemblerOutOfMemory)),
    }
}

/// The hexadecimal of the program that bytes are the assembler text of, or the first fault: at the line
/// of the first byte that is no UTF-8, or of the text.
pub(crate) fn assembled(alloc: Global, bytes: &[u8]) -> Result<String, CommandRefusal>
    ensures { MatchResult result (λ hex. IsAssembled bytes.now (string_bytes hex)) (λ fault. IsAssemblyRefused bytes.now fault) }
{
    match str::from_utf8(bytes) {
        Ok(text) => assembled_text(alloc, text),
        Err(error) => Err(CommandRefusal {
            number: RefusalNumber::UnknownWord,
            place: line_at(bytes, error.valid_up_to()),
        }),
    }
}

/// The program that hexadecimal spells; it is decoded alone.
fn decoded(alloc: Global, text: &str) -> Result<Program, CommandRefusal>
    ensures { MatchResult result (λ program. IsDecoded text.now program) (λ fault. IsDisassemblyRefused text.now fault) }
{
    let bytes = hex_bytes(alloc, text)?;
    Ok(Program::decode(alloc, &bytes)?)
}

/// The canonical lines of a program in hexadecimal, or why it is refused.
pub(crate) fn disassembled(alloc: Global, text: &str) -> Result<String, CommandRefusal>
    ensures { MatchResult result (λ lines. IsDisassembled text.now (string_bytes lines)) (λ fault. IsDisassemblyRefused text.now fault) }
{
    let program = decoded(alloc, text)?;
    match disassemble(alloc, &program) {
        Ok(lines) => Ok(lines),
        Err(_) => Err(CommandRefusal::from(RefusalNumber::ProgramOutOfMemory)),
    }
}
