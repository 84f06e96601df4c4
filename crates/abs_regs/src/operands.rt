//! The abstract values of an instruction's operands.
ghost use Rattle.std.specs.Prelude.{◌≡◌};
ghost use Rattle.abs_regs.specs.Transfers.{set_in, number_in, numbers_in, operand_in};

use crate::registers::RegFile;
use crate::value::AbsVal;
use abs_domain::Domain;
use bpf_profile::Operand;
use refusals::RefusalNumber;

impl<D: Domain> AbsVal<D> {
    /// This value, where it is known to be set: a number or a pointer. It is refused with `UnsetRegister`
    /// where it may be unset.
    pub fn set(self) -> Result<Self, RefusalNumber>
        ensures { result ≡ set_in self }
    {
        match self {
            AbsVal::Unset => Err(RefusalNumber::UnsetRegister),
            set => Ok(set),
        }
    }

    /// The number. It is refused with `UnsetRegister` where the value may be unset, and with `PointerUsed`
    /// where it is a pointer.
    pub fn number(self) -> Result<D, RefusalNumber>
        ensures { result ≡ number_in self }
    {
        match self {
            AbsVal::Unset => Err(RefusalNumber::UnsetRegister),
            AbsVal::Number(number) => Ok(number),
            AbsVal::Stack(_) | AbsVal::Context(_) => Err(RefusalNumber::PointerUsed),
        }
    }
}

/// Both numbers. They are refused with `UnsetRegister` where either value may be unset, else with
/// `PointerUsed` where either is a pointer.
pub(crate) fn numbers<D: Domain>(a: AbsVal<D>, b: AbsVal<D>) -> Result<(D, D), RefusalNumber>
    ensures { result ≡ numbers_in a b }
{
    match (a, b) {
        (AbsVal::Unset, _) | (_, AbsVal::Unset) => Err(RefusalNumber::UnsetRegister),
        (AbsVal::Number(a), AbsVal::Number(b)) => Ok((a, b)),
        _ => Err(RefusalNumber::PointerUsed),
    }
}

impl<D: Domain> RegFile<D> {
    /// The abstract value of the second operand, a register or an immediate.
    pub fn operand(&self, operand: Operand) -> AbsVal<D>
        ensures { result ≡ operand_in ⟦<D as Domain>⟧ self.now operand }
    {
        match operand {
            Operand::Register(register) => self.get(register),
            Operand::Immediate(word) => AbsVal::Number(D::constant(word)),
        }
    }
}
