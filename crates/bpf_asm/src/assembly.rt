//! From text to programs.
ghost use Rattle.std.specs.Prelude.{◌≡◌, ◌==◌, ◌++◌, ◌∷◌, [], ◌⊎◌, ◌<◌, List, Ok, Err, Some, None, IfOk, IfErr, MatchResult, MatchOption, length};
ghost use Rattle.bpf_profile.specs.declared.slot.Slot.{Slot};
ghost use Rattle.bpf_profile.specs.Spelling.{IsProgram};
ghost use Rattle.bpf_decode.specs.Encoding.{encoding};
ghost use Rattle.bpf_asm.specs.Assembly.{small_letters, lines_of, statement_on, at_line, with_line, with_lines, assembly_of, out_of_memory, Assembles};
ghost use Rattle.bpf_asm.specs.Canonical.{text_of};

use crate::error::AsmError;
use crate::reading::statement_of;
use crate::tokens::{place_of, read_tokens};
use bpf_decode::{Encoded, Program};
use bpf_profile::{Instruction, MOST_SLOTS, Slot};
use refusals::RefusalNumber;
use std::alloc::{AllocError, Global};

/// Appends the slots of an instruction.
fn push_slots(slots: &mut Vec<Slot>, instruction: &Instruction) -> Result<(), AllocError>
    ensures { IfOk result (λ _. slots.new.items ≡ slots.old.items ++ encoding instruction.now) }
{
    let encoded = Encoded::of(instruction);
    slots.push(encoded.first)?;
    if let Some(second) = encoded.second {
        slots.push(second)?;
    }
    Ok(())
}

/// What a line is read as: an instruction, or nothing where it is blank.
fn statement_on(line: &[u8]) -> Result<Option<Instruction>, RefusalNumber>
    ensures { result ≡ statement_on (small_letters line.now) }
{
    let tokens = read_tokens(line);
    statement_of(tokens.as_slice())
}

/// Appends the slots of a line, which is the one of this number.
#[tactic(auto, unfolding(crate::specs::Assembly::with_line))]
fn push_line(slots: &mut Vec<Slot>, line: &[u8], number: usize) -> Result<(), AsmError>
    ensures { MatchResult result
        (λ _. with_line slots.old.items (small_letters line.now) ≡ Ok slots.new.items)
        (λ e. (e ≡ out_of_memory) ⊎ (at_line number (with_line slots.old.items (small_letters line.now)) ≡ Err e)) }
{
    let statement = match statement_on(line) {
        Ok(statement) => statement,
        Err(kind) => {
            return Err(AsmError { line: number, kind });
        }
    };
    if let Some(instruction) = statement {
        push_slots(slots, &instruction)?;
    }
    if slots.len() > MOST_SLOTS {
        return Err(AsmError {
            line: number,
            kind: RefusalNumber::BadTextLength,
        });
    }
    Ok(())
}

/// The first line, and what follows its line feed.
fn cut_line(text: &[u8]) -> (&[u8], Option<&[u8]>)
    ensures { MatchOption result.1
        (lines_of text.now ≡ result.0.now ∷ [])
        (λ more. (lines_of text.now ≡ result.0.now ∷ lines_of more.now) × (length more.now < length text.now)) }
{
    match place_of(b'\n', text) {
        Some(end) => (&text[..end], Some(&text[end + 1..])),
        None => (text, None),
    }
}

/// The slots of all lines.
fn slots_of(alloc: Global, text: &[u8]) -> Result<Vec<Slot>, AsmError>
    ensures { MatchResult result
        (λ slots. with_lines 1 [] (lines_of (small_letters text.now)) ≡ Ok slots.items)
        (λ e. (e ≡ out_of_memory) ⊎ (with_lines 1 [] (lines_of (small_letters text.now)) ≡ Err e)) }
{
    let mut slots = Vec::new(alloc);
    let mut rest = text;
    let mut number = 1;
    'lines: loop {
        let (line, more) = cut_line(rest);
        push_line(&mut slots, line, number)?;
        let Some(more) = more else {
            return Ok(slots);
        };
        rest = more;
        number += 1;
    }
}

/// The program that the text stands for, in the forms that the crate's page lists, or the first line
/// with a fault: `UnknownWord` where its first token is no word, `BadOperand` where the operands have
/// another form or number than the word takes, or name a register that doesn't exist or R10 where it
/// would be written, `BadNumber` where a number is out of range, and `BadTextLength` where the line
/// passes 4,096 slots, or at line 0 where there is no instruction. `AssemblerOutOfMemory` is at line 0.
/// The program keeps the allocator.
pub fn assemble(alloc: Global, text: &str) -> Result<Program, AsmError>
    // What is assembled is the program that the text stands for.
    ensures program { IfOk result (λ program. Assembles text.now program) }
    // A text is refused only where it stands for no program, unless memory ran out.
    ensures refused { IfErr result (λ e. (e ≡ out_of_memory) ⊎ ((slots : List Slot) → ¬ Assembles text.now slots)) }
    // An error is the first fault, with its line, unless memory ran out.
    ensures fault { IfErr result (λ e. (e ≡ out_of_memory) ⊎ (assembly_of text.now ≡ Err e)) }
    // The text that a program is disassembled to is assembled to that program, unless memory ran out.
    ensures round_trip { (slots : List Slot) → IsProgram slots → text.now ≡ text_of slots → MatchResult result (λ program. program ≡ slots) (λ e. e ≡ out_of_memory) }
{
    let slots = slots_of(alloc, text.as_bytes())?;
    if slots.is_empty() {
        return Err(AsmError {
            line: 0,
            kind: RefusalNumber::BadTextLength,
        });
    }
    Ok(Program::from_slots(slots))
}
