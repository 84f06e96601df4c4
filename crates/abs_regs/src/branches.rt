//! Refinement of the registers by conditional jumps (RFC 9669, section 4.3).
ghost use Rattle.std.specs.Prelude.{◌≡◌, Ok, Err, IfErr, OnErr, OnOk};
ghost use Rattle.abs_regs.specs.Transfers.{compared_in, learnt_in, branched_in};

use crate::operands::numbers;
use crate::registers::RegFile;
use crate::value::AbsVal;
use abs_domain::Domain;
use abs_domain::branches::refined;
use bpf_profile::{Comparison, Operand, Register, Width};
use refusals::RefusalNumber;

/// The abstract value of the right operand. Of an immediate a comparison of 32 bits reads the low half.
fn compared<D: Domain>(registers: &RegFile<D>, width: Width, right: &Operand) -> AbsVal<D>
    ensures { result ≡ compared_in ⟦<D as Domain>⟧ width registers.now right.now }
{
    match *right {
        Operand::Register(register) => registers.get(register),
        Operand::Immediate(word) => AbsVal::Number(D::constant(match width {
            Width::Bits32 => word % 0x1_0000_0000,
            Width::Bits64 => word,
        })),
    }
}

impl<D: Domain> RegFile<D> {
    /// Refines the registers by the fact that a comparison holds (`holds`), or doesn't. It is refused with
    /// `UnsetRegister` where either operand may be unset, else with `PointerUsed` where either is a
    /// pointer; the registers are then as before.
    pub fn branch(
        &mut self,
        comparison: Comparison,
        width: Width,
        holds: bool,
        left: Register,
        right: &Operand,
    ) -> Result<(), RefusalNumber>
        ensures branched { OnOk result (branched_in ⟦<D as Domain>⟧ comparison width holds self.old left right.now ≡ Ok self.new) }
        ensures refused { IfErr result (λ number. branched_in ⟦<D as Domain>⟧ comparison width holds self.old left right.now ≡ Err number) }
        ensures unchanged { OnErr result (self.new ≡ self.old) }
    {
        let (a, b) = numbers(self.get(left), compared(self, width, right))?;
        let (first, second) = refined(comparison, width, holds, a, b);
        match *right {
            Operand::Register(right) if left == right => Ok(()),
            Operand::Register(right) => {
                self.set(left, AbsVal::Number(first));
                self.set(right, AbsVal::Number(second));
                Ok(())
            }
            Operand::Immediate(_) => {
                self.set(left, AbsVal::Number(first));
                Ok(())
            }
        }
    }
}
