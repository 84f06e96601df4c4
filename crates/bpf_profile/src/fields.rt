//! The fields of a slot beside its opcode: which of them an instruction uses, and what it makes of them
//! (RFC 9669, sections 3.1, 3.2, 4 and 5).
ghost use Rattle.std.specs.Prelude.{◌≡◌, ◌<◌, ◌^◌, true};
ghost use Rattle.bpf_profile.specs.Words.{sign_extended};
ghost use Rattle.bpf_profile.specs.Slots.{read_fields, instruction_with, wide_instruction, arithmetic_instruction, fields_fit, registers_fit, is_left_out, is_signed_variant, is_extending_variant, writes_dst, bits_size, operand_of, immediate_word, offset_word, signed_variant};

use crate::instruction::{Instruction, Operand, Operation, Size, Width};
use crate::opcode::{Opcode, Source};
use crate::register::Register;
use crate::slot::Slot;
use refusals::RefusalNumber;

#[derive(Clone, Copy)]
pub(crate) struct Fields {
    pub(crate) dst: u8,
    pub(crate) src: u8,
    pub(crate) off: u16,
    pub(crate) imm: u32,
}

/// Whether an offset of 1 makes the operation signed.
fn has_signed_variant(operation: Operation, off: u16) -> bool
    ensures { result ≡ is_signed_variant operation off }
{
    match operation {
        Operation::Divide | Operation::Modulo => off == 1,
        _ => false,
    }
}

/// Whether the offset makes the operation a move with sign extension.
fn has_extending_variant(operation: Operation, width: Width, off: u16) -> bool
    ensures { result ≡ is_extending_variant operation width off }
{
    match (operation, width) {
        (Operation::Move, Width::Bits32) => off == 8 || off == 16,
        (Operation::Move, Width::Bits64) => off == 8 || off == 16 || off == 32,
        _ => false,
    }
}

fn signed(operation: Operation) -> Operation
    ensures { result ≡ signed_variant operation }
{
    match operation {
        Operation::Divide => Operation::SignedDivide,
        Operation::Modulo => Operation::SignedModulo,
        other => other,
    }
}

/// The size of 8, 16, 32 or 64 bits.
fn size_of_bits(bits: u32) -> Size
    ensures { result ≡ bits_size bits }
{
    match bits {
        8 => Size::Byte,
        16 => Size::HalfWord,
        32 => Size::Word,
        _ => Size::DoubleWord,
    }
}

impl Opcode {
    fn is_left_out(self, src: u8) -> bool
        ensures { result ≡ is_left_out self src }
    {
        match self {
            Opcode::Call => src == 1 || src == 2,
            Opcode::LoadImmediate => 0 < src && src < 7,
            _ => false,
        }
    }

    fn writes_dst(self) -> bool
        ensures { result ≡ writes_dst self }
    {
        matches!(
            self,
            Opcode::Arithmetic { .. }
                | Opcode::Negate { .. }
                | Opcode::Convert { .. }
                | Opcode::LoadImmediate
                | Opcode::Load { .. }
        )
    }
}

impl Fields {
    fn arithmetic_fits(self, operation: Operation, width: Width, source: Source) -> bool
        ensures { result ≡ fields_fit (Opcode.Arithmetic operation width source) self }
    {
        let is_signed = has_signed_variant(operation, self.off);
        match source {
            Source::Immediate => self.src == 0 && (self.off == 0 || is_signed),
            Source::Register => {
                self.imm == 0
                    && (self.off == 0
                        || is_signed
                        || has_extending_variant(operation, width, self.off))
            }
        }
    }

    /// Whether the fields that the opcode doesn't use are 0, and the others have listed values.
    fn fit(self, opcode: Opcode) -> bool
        ensures { result ≡ fields_fit opcode self }
    {
        match opcode {
            Opcode::Arithmetic {
                operation,
                width,
                source,
            } => { self.arithmetic_fits(operation, width, source) }
            Opcode::Negate { .. } => self.src == 0 && self.off == 0 && self.imm == 0,
            Opcode::Convert { .. } => {
                self.src == 0
                    && self.off == 0
                    && (self.imm == 16 || self.imm == 32 || self.imm == 64)
            }
            Opcode::LoadImmediate => self.src == 0 && self.off == 0,
            Opcode::Load { .. } => self.imm == 0,
            Opcode::Store { source, .. } | Opcode::Branch { source, .. } => match source {
                Source::Immediate => self.src == 0,
                Source::Register => self.imm == 0,
            },
            Opcode::Jump {
                width: Width::Bits32,
            }
            | Opcode::Call => { self.dst == 0 && self.src == 0 && self.off == 0 }
            Opcode::Jump {
                width: Width::Bits64,
            } => { self.dst == 0 && self.src == 0 && self.imm == 0 }
            Opcode::Exit => { self.dst == 0 && self.src == 0 && self.off == 0 && self.imm == 0 }
        }
    }

    fn registers_fit(self, opcode: Opcode) -> bool
        ensures { result ≡ registers_fit opcode self }
    {
        let end = if opcode.writes_dst() { 10 } else { 11 };
        self.dst < end && self.src < 11
    }

    fn immediate_word(self) -> u64
        ensures { result ≡ immediate_word self }
    {
        i64::from(self.imm.cast_signed()).cast_unsigned()
    }

    fn offset_word(self) -> u64
        ensures { result ≡ offset_word self }
    {
        i64::from(self.off.cast_signed()).cast_unsigned()
    }

    fn operand(self, source: Source) -> Operand
        requires { self.src < 11 }
        ensures { result ≡ operand_of source self }
    {
        match source {
            Source::Immediate => Operand::Immediate(self.immediate_word()),
            Source::Register => Operand::Register(Register::new(self.src)),
        }
    }

    fn arithmetic(self, operation: Operation, width: Width, source: Source) -> Instruction
        requires dst { self.dst < 11 }
        requires src { self.src < 11 }
        ensures { result ≡ arithmetic_instruction operation width source self }
    {
        let destination = Register::new(self.dst);
        if self.off < 2 {
            let operation = if self.off == 1 {
                signed(operation)
            } else {
                operation
            };
            let operand = self.operand(source);
            Instruction::Arithmetic {
                operation,
                width,
                destination,
                operand,
            }
        } else {
            let size = size_of_bits(u32::from(self.off));
            let source = Register::new(self.src);
            Instruction::MoveSigned {
                width,
                size,
                destination,
                source,
            }
        }
    }

    fn wide(self, next: Option<Slot>) -> Result<Instruction, RefusalNumber>
        requires { self.dst < 11 }
        ensures { result ≡ wide_instruction self next }
    {
        match next {
            Some(Slot::Tail { imm }) => Ok(Instruction::LoadImmediate {
                destination: Register::new(self.dst),
                value: u64::from(imm) * 0x1_0000_0000 + u64::from(self.imm),
            }),
            _ => Err(RefusalNumber::BadTail),
        }
    }

    /// The instruction of an opcode whose fields fit.
    fn instruction_with(
        self,
        opcode: Opcode,
        next: Option<Slot>,
    ) -> Result<Instruction, RefusalNumber>
        requires dst { self.dst < 11 }
        requires src { self.src < 11 }
        ensures { result ≡ instruction_with opcode self next }
    {
        let dst = Register::new(self.dst);
        Ok(match opcode {
            Opcode::LoadImmediate => return self.wide(next),
            Opcode::Arithmetic {
                operation,
                width,
                source,
            } => { self.arithmetic(operation, width, source) }
            Opcode::Negate { width } => Instruction::Negate {
                width,
                destination: dst,
            },
            Opcode::Convert { order } => {
                Instruction::Convert {
                    order,
                    size: size_of_bits(self.imm),
                    destination: dst,
                }
            }
            Opcode::Load { size, extension } => Instruction::Load {
                size,
                extension,
                destination: dst,
                base: Register::new(self.src),
                offset: self.offset_word(),
            },
            Opcode::Store { size, source } => Instruction::Store {
                size,
                base: dst,
                offset: self.offset_word(),
                operand: self.operand(source),
            },
            Opcode::Jump {
                width: Width::Bits32,
            } => {
                Instruction::Jump {
                    width: Width::Bits32,
                    distance: self.immediate_word(),
                }
            }
            Opcode::Jump {
                width: Width::Bits64,
            } => {
                Instruction::Jump {
                    width: Width::Bits64,
                    distance: self.offset_word(),
                }
            }
            Opcode::Branch {
                comparison,
                width,
                source,
            } => Instruction::Branch {
                comparison,
                width,
                left: dst,
                right: self.operand(source),
                distance: self.offset_word(),
            },
            Opcode::Call => Instruction::Call { helper: self.imm },
            Opcode::Exit => Instruction::Exit,
        })
    }

    /// The instruction of these fields, or the first fault after those of the opcode itself.
    #[tactic(auto, unfolding(crate::specs::Slots::read_fields))]
    pub(crate) fn instruction(
        self,
        opcode: Opcode,
        next: Option<Slot>,
    ) -> Result<Instruction, RefusalNumber>
        ensures { result ≡ read_fields opcode self next }
    {
        if opcode.is_left_out(self.src) {
            return Err(RefusalNumber::LeftOut);
        }
        if !self.fit(opcode) {
            return Err(RefusalNumber::BadField);
        }
        if !self.registers_fit(opcode) {
            return Err(RefusalNumber::BadRegister);
        }
        self.instruction_with(opcode, next)
    }
}
