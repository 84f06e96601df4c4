//! Instructions as the lines of the canonical text.
ghost use Rattle.std.specs.Prelude.{◌≡◌, IfOk, List, ◌++◌, ◌∷◌, []};
ghost use Rattle.std.specs.Fmt.{signed_decimal};
ghost use Rattle.std.specs.String.{string_bytes};
ghost use Rattle.bpf_asm.specs.Canonical.{with_sign, word_of, line_of, operand_text, operands_text};
ghost use Rattle.bpf_asm.specs.Printing.{shown, all_shown};

use crate::words::{Word, word_end, word_stem};
use bpf_profile::{Instruction, Operand, Register};
use std::alloc::AllocError;
use std::fmt;

/// The plus before a number that is not negative.
fn plus_of(number: i64) -> &'static str
    ensures { result.now ++ signed_decimal number ≡ with_sign number }
{
    if number < 0 { "" } else { "+" }
}

/// One operand.
#[derive(Clone, Copy)]
enum OperandText {
    Register(Register),
    /// An immediate, by its signed reading.
    Immediate(u64),
    /// An offset or a distance, which always has its sign.
    Offset(u64),
    /// The address of a load or a store.
    Place(Register, u64),
    /// A number that has no sign.
    Natural(u64),
}

impl fmt::Display for OperandText {
    ghost use Rattle.std.specs.Prelude.{Some};
    ghost use Rattle.bpf_asm.specs.Printing.{shown};

    ghost output = { λ text. Some (shown text) };

    fn fmt<W: fmt::Write>(&self, f: &mut fmt::Formatter<W>) -> fmt::Result {
        match *self {
            OperandText::Register(register) => {
                let index = register.index();
                write!(f, "r{index}")
            }
            OperandText::Immediate(word) => {
                let number = word.cast_signed();
                write!(f, "{number}")
            }
            OperandText::Offset(word) => {
                let number = word.cast_signed();
                let plus = plus_of(number);
                write!(f, "{plus}{number}")
            }
            OperandText::Place(base, word) => {
                let (index, number) = (base.index(), word.cast_signed());
                let plus = plus_of(number);
                write!(f, "[r{index}{plus}{number}]")
            }
            OperandText::Natural(number) => write!(f, "{number}"),
        }
    }
}

/// The word that an instruction is written with.
fn word_of(instruction: &Instruction) -> Word
    ensures { result ≡ word_of instruction.now }
{
    match *instruction {
        Instruction::Arithmetic {
            operation,
            width,
            ..
        } => Word::Arithmetic(operation, width),
        Instruction::Negate { width, .. } => Word::Negate(width),
        Instruction::MoveSigned { width, size, .. } => Word::MoveSigned(width, size),
        Instruction::Convert { order, size, .. } => Word::Convert(order, size),
        Instruction::LoadImmediate { .. } => Word::LoadImmediate,
        Instruction::Load {
            size,
            extension,
            ..
        } => Word::Load(size, extension),
        Instruction::Store {
            size,
            operand: Operand::Immediate(_),
            ..
        } => Word::Store(size),
        Instruction::Store {
            size,
            operand: Operand::Register(_),
            ..
        } => Word::StoreRegister(size),
        Instruction::Jump { width, .. } => Word::Jump(width),
        Instruction::Branch {
            comparison,
            width,
            ..
        } => Word::Branch(comparison, width),
        Instruction::Call { .. } => Word::Call,
        Instruction::Exit => Word::Exit,
    }
}

/// The operands of an instruction, with the blank before them. None has more than three.
#[derive(Clone, Copy)]
enum OperandsText {
    Zero,
    One(OperandText),
    Two(OperandText, OperandText),
    Three(OperandText, OperandText, OperandText),
}

impl fmt::Display for OperandsText {
    ghost use Rattle.std.specs.Prelude.{Some};
    ghost use Rattle.bpf_asm.specs.Printing.{all_shown};

    ghost output = { λ texts. Some (all_shown texts) };

    fn fmt<W: fmt::Write>(&self, f: &mut fmt::Formatter<W>) -> fmt::Result {
        match self {
            OperandsText::Zero => Ok(()),
            OperandsText::One(first) => write!(f, " {first}"),
            OperandsText::Two(first, second) => write!(f, " {first}, {second}"),
            OperandsText::Three(first, second, third) => write!(f, " {first}, {second}, {third}"),
        }
    }
}

/// A register or an immediate.
fn operand_of(operand: &Operand) -> OperandText
    ensures { shown result ≡ operand_text operand.now }
{
    match *operand {
        Operand::Register(register) => OperandText::Register(register),
        Operand::Immediate(word) => OperandText::Immediate(word),
    }
}

/// The operands that an instruction is written with.
fn operands_of(instruction: &Instruction) -> OperandsText
    ensures { all_shown result ≡ operands_text instruction.now }
{
    match *instruction {
        Instruction::Arithmetic {
            destination,
            operand,
            ..
        } => OperandsText::Two(OperandText::Register(destination), operand_of(&operand)),
        Instruction::Negate { destination, .. } | Instruction::Convert { destination, .. } => {
            OperandsText::One(OperandText::Register(destination))
        }
        Instruction::MoveSigned {
            destination,
            source,
            ..
        } => OperandsText::Two(
            OperandText::Register(destination),
            OperandText::Register(source),
        ),
        Instruction::LoadImmediate { destination, value } => OperandsText::Two(
            OperandText::Register(destination),
            OperandText::Natural(value),
        ),
        Instruction::Load {
            destination,
            base,
            offset,
            ..
        } => OperandsText::Two(
            OperandText::Register(destination),
            OperandText::Place(base, offset),
        ),
        Instruction::Store {
            base,
            offset,
            operand,
            ..
        } => OperandsText::Two(OperandText::Place(base, offset), operand_of(&operand)),
        Instruction::Jump { distance, .. } => OperandsText::One(OperandText::Offset(distance)),
        Instruction::Branch {
            left,
            right,
            distance,
            ..
        } => OperandsText::Three(
            OperandText::Register(left),
            operand_of(&right),
            OperandText::Offset(distance),
        ),
        Instruction::Call { helper } => OperandsText::One(OperandText::Natural(u64::from(helper))),
        Instruction::Exit => OperandsText::Zero,
    }
}

/// Appends the line of an instruction, with its end.
pub(crate) fn push_line(text: &mut String, instruction: &Instruction) -> Result<(), AllocError>
    ensures { IfOk result (λ _. string_bytes text.new ≡ string_bytes text.old ++ (line_of instruction.now ++ 10 ∷ [])) }
{
    let word = word_of(instruction);
    let (stem, end) = (word_stem(word), word_end(word));
    let operands = operands_of(instruction);
    writeln!(text, "{stem}{end}{operands}")
}
