//! Tokens read as instructions.
ghost use Rattle.std.specs.Prelude.{◌≡◌, ◌^◌, ◌-◌, ◌≤◌, nat_lt};
ghost use Rattle.bpf_asm.specs.Reading.{word_within, immediate_of, wide_of, helper_of, offset_of, distance_of, operand_of, arithmetic_of, negate_of, move_signed_of, convert_of, load_immediate_of, load_of, store_of, store_register_of, jump_of, branch_of, call_of, exit_of, instruction_from, instruction_of_tokens, statement_of};

use crate::arguments::{Argument, Arguments, Numeral, Sign, arguments_of};
use crate::tokens::Token;
use crate::words::Word;
use bpf_profile::{
    ByteOrder, Comparison, Extension, Instruction, Operand, Operation, Register, Size, Width,
};
use refusals::RefusalNumber;

/// The word of a number from `-least` to `most`.
fn word_within(least: u64, most: u64, numeral: &Numeral) -> Result<u64, RefusalNumber>
    ensures { result ≡ word_within least most numeral.now }
{
    let Some(magnitude) = numeral.magnitude else {
        return Err(RefusalNumber::BadNumber);
    };
    match numeral.sign {
        Sign::Minus if magnitude <= least => Ok(0u64.wrapping_sub(magnitude)),
        Sign::Absent | Sign::Plus if magnitude <= most => Ok(magnitude),
        _ => Err(RefusalNumber::BadNumber),
    }
}

/// An immediate of 32 bits, signed or unsigned, as the word that it is sign-extended to.
fn immediate_of(numeral: &Numeral) -> Result<u64, RefusalNumber>
    ensures { result ≡ immediate_of numeral.now }
{
    if matches!(numeral.sign, Sign::Plus) {
        return Err(RefusalNumber::BadOperand);
    }
    let word = word_within(1 << 31, 0xffff_ffff, numeral)?;
    let low = (word % 0x1_0000_0000) as u32;
    Ok(i64::from(low.cast_signed()).cast_unsigned())
}

/// An immediate of 64 bits, signed or unsigned.
fn wide_of(numeral: &Numeral) -> Result<u64, RefusalNumber>
    ensures { result ≡ wide_of numeral.now }
{
    if matches!(numeral.sign, Sign::Plus) {
        return Err(RefusalNumber::BadOperand);
    }
    word_within(1 << 63, u64::MAX, numeral)
}

/// The number of a helper function, which is never below 0.
fn helper_of(numeral: &Numeral) -> Result<u32, RefusalNumber>
    ensures { result ≡ helper_of numeral.now }
{
    if matches!(numeral.sign, Sign::Plus) {
        return Err(RefusalNumber::BadOperand);
    }
    Ok(word_within(0, 0xffff_ffff, numeral)? as u32)
}

/// The offset of an address or of a jump.
fn offset_of(numeral: &Numeral) -> Result<u64, RefusalNumber>
    ensures { result ≡ offset_of numeral.now }
{
    word_within(0x8000, 0x7fff, numeral)
}

/// The distance of a jump, whose width says which field has it.
fn distance_of(width: Width, numeral: &Numeral) -> Result<u64, RefusalNumber>
    ensures { result ≡ distance_of width numeral.now }
{
    match width {
        Width::Bits32 => word_within(0x8000_0000, 0x7fff_ffff, numeral),
        Width::Bits64 => offset_of(numeral),
    }
}

/// Whether a register may be written: R10 is read only (RFC 9669, section 2).
fn may_be_written(register: Register) -> bool
    ensures { result ≡ nat_lt register 10 }
{
    register.index() < 10
}

fn operand_of(argument: &Argument) -> Result<Operand, RefusalNumber>
    ensures { result ≡ operand_of argument.now }
{
    match argument {
        Argument::Register(register) => Ok(Operand::Register(*register)),
        Argument::Number(numeral) => Ok(Operand::Immediate(immediate_of(numeral)?)),
        Argument::Place(_, _) => Err(RefusalNumber::BadOperand),
    }
}

fn arithmetic_of(
    operation: Operation,
    width: Width,
    arguments: &Arguments,
) -> Result<Instruction, RefusalNumber>
    ensures { result ≡ arithmetic_of operation width arguments.now }
{
    match arguments {
        Arguments::Two(Argument::Register(destination), right) if may_be_written(*destination) => {
            Ok(Instruction::Arithmetic {
                operation,
                width,
                destination: *destination,
                operand: operand_of(right)?,
            })
        }
        _ => Err(RefusalNumber::BadOperand),
    }
}

fn negate_of(width: Width, arguments: &Arguments) -> Result<Instruction, RefusalNumber>
    ensures { result ≡ negate_of width arguments.now }
{
    match arguments {
        Arguments::One(Argument::Register(destination)) if may_be_written(*destination) => {
            Ok(Instruction::Negate {
                width,
                destination: *destination,
            })
        }
        _ => Err(RefusalNumber::BadOperand),
    }
}

fn move_signed_of(
    width: Width,
    size: Size,
    arguments: &Arguments,
) -> Result<Instruction, RefusalNumber>
    ensures { result ≡ move_signed_of width size arguments.now }
{
    match arguments {
        Arguments::Two(Argument::Register(destination), Argument::Register(source))
            if may_be_written(*destination) => {
            Ok(Instruction::MoveSigned {
                width,
                size,
                destination: *destination,
                source: *source,
            })
        }
        _ => Err(RefusalNumber::BadOperand),
    }
}

fn convert_of(
    order: ByteOrder,
    size: Size,
    arguments: &Arguments,
) -> Result<Instruction, RefusalNumber>
    ensures { result ≡ convert_of order size arguments.now }
{
    match arguments {
        Arguments::One(Argument::Register(destination)) if may_be_written(*destination) => {
            Ok(Instruction::Convert {
                order,
                size,
                destination: *destination,
            })
        }
        _ => Err(RefusalNumber::BadOperand),
    }
}

fn load_immediate_of(arguments: &Arguments) -> Result<Instruction, RefusalNumber>
    ensures { result ≡ load_immediate_of arguments.now }
{
    match arguments {
        Arguments::Two(Argument::Register(destination), Argument::Number(numeral))
            if may_be_written(*destination) => {
            Ok(Instruction::LoadImmediate {
                destination: *destination,
                value: wide_of(numeral)?,
            })
        }
        _ => Err(RefusalNumber::BadOperand),
    }
}

fn load_of(
    size: Size,
    extension: Extension,
    arguments: &Arguments,
) -> Result<Instruction, RefusalNumber>
    ensures { result ≡ load_of size extension arguments.now }
{
    match arguments {
        Arguments::Two(Argument::Register(destination), Argument::Place(base, offset))
            if may_be_written(*destination) => {
            Ok(Instruction::Load {
                size,
                extension,
                destination: *destination,
                base: *base,
                offset: offset_of(offset)?,
            })
        }
        _ => Err(RefusalNumber::BadOperand),
    }
}

fn store_of(size: Size, arguments: &Arguments) -> Result<Instruction, RefusalNumber>
    ensures { result ≡ store_of size arguments.now }
{
    let Arguments::Two(Argument::Place(base, offset), Argument::Number(numeral)) = arguments else {
        return Err(RefusalNumber::BadOperand);
    };
    let offset = offset_of(offset)?;
    let operand = Operand::Immediate(immediate_of(numeral)?);
    Ok(Instruction::Store {
        size,
        base: *base,
        offset,
        operand,
    })
}

fn store_register_of(size: Size, arguments: &Arguments) -> Result<Instruction, RefusalNumber>
    ensures { result ≡ store_register_of size arguments.now }
{
    let Arguments::Two(Argument::Place(base, offset), Argument::Register(source)) = arguments else {
        return Err(RefusalNumber::BadOperand);
    };
    let offset = offset_of(offset)?;
    Ok(Instruction::Store {
        size,
        base: *base,
        offset,
        operand: Operand::Register(*source),
    })
}

fn jump_of(width: Width, arguments: &Arguments) -> Result<Instruction, RefusalNumber>
    ensures { result ≡ jump_of width arguments.now }
{
    let Arguments::One(Argument::Number(numeral)) = arguments else {
        return Err(RefusalNumber::BadOperand);
    };
    let distance = distance_of(width, numeral)?;
    Ok(Instruction::Jump { width, distance })
}

fn branch_of(
    comparison: Comparison,
    width: Width,
    arguments: &Arguments,
) -> Result<Instruction, RefusalNumber>
    ensures { result ≡ branch_of comparison width arguments.now }
{
    let Arguments::Three(Argument::Register(left), right, Argument::Number(numeral)) = arguments
    else {
        return Err(RefusalNumber::BadOperand);
    };
    let right = operand_of(right)?;
    let distance = offset_of(numeral)?;
    Ok(Instruction::Branch {
        comparison,
        width,
        left: *left,
        right,
        distance,
    })
}

fn call_of(arguments: &Arguments) -> Result<Instruction, RefusalNumber>
    ensures { result ≡ call_of arguments.now }
{
    let Arguments::One(Argument::Number(numeral)) = arguments else {
        return Err(RefusalNumber::BadOperand);
    };
    let helper = helper_of(numeral)?;
    Ok(Instruction::Call { helper })
}

fn exit_of(arguments: &Arguments) -> Result<Instruction, RefusalNumber>
    ensures { result ≡ exit_of arguments.now }
{
    match arguments {
        Arguments::Zero => Ok(Instruction::Exit),
        _ => Err(RefusalNumber::BadOperand),
    }
}

/// The instruction of a word with its arguments.
fn instruction_from(word: Word, arguments: &Arguments) -> Result<Instruction, RefusalNumber>
    ensures { result ≡ instruction_from word arguments.now }
{
    match word {
        Word::Arithmetic(operation, width) => arithmetic_of(operation, width, arguments),
        Word::Negate(width) => negate_of(width, arguments),
        Word::MoveSigned(width, size) => move_signed_of(width, size, arguments),
        Word::Convert(order, size) => convert_of(order, size, arguments),
        Word::LoadImmediate => load_immediate_of(arguments),
        Word::Load(size, extension) => load_of(size, extension, arguments),
        Word::Store(size) => store_of(size, arguments),
        Word::StoreRegister(size) => store_register_of(size, arguments),
        Word::Jump(width) => jump_of(width, arguments),
        Word::Branch(comparison, width) => branch_of(comparison, width, arguments),
        Word::Call => call_of(arguments),
        Word::Exit => exit_of(arguments),
    }
}

/// The instruction of a line that is not blank: its first token, and the others.
#[tactic(auto, unfolding(crate::specs::Reading::instruction_of_tokens))]
fn instruction_of_tokens(first: &Token, rest: &[Token]) -> Result<Instruction, RefusalNumber>
    ensures { result ≡ instruction_of_tokens first.now rest.now }
{
    let Token::Word(word) = first else {
        return Err(RefusalNumber::UnknownWord);
    };
    match arguments_of(rest) {
        Some(arguments) => instruction_from(*word, &arguments),
        None => Err(RefusalNumber::BadOperand),
    }
}

/// The instruction of a line; none of a blank one.
#[tactic(auto, unfolding(crate::specs::Reading::statement_of))]
pub(crate) fn statement_of(tokens: &[Token]) -> Result<Option<Instruction>, RefusalNumber>
    ensures { result ≡ statement_of tokens.now }
{
    match tokens.split_first() {
        Some((first, rest)) => Ok(Some(instruction_of_tokens(first, rest)?)),
        None => Ok(None),
    }
}
