//! The addresses of loads and stores (RFC 9669, section 5).
ghost use Rattle.std.specs.Prelude.{◌≡◌};
ghost use Rattle.abs_regs.specs.Transfers.{address_in};

use crate::value::AbsVal;
use abs_domain::{Binary, Domain};
use refusals::RefusalNumber;

/// An abstract address: what is known of the address of an access.
#[derive(Clone, Copy, Debug, PartialEq, Eq)]
pub enum Address<D> {
    /// In the stack, at this offset in bytes from its end, a word that is read as signed.
    Stack(u64),
    /// In the context, at an offset in bytes that the domain's value contains.
    Context(D),
}

impl<D: Domain> AbsVal<D> {
    /// The address of an access: this value, of the base register, plus the instruction's offset. It is
    /// refused with `UnsetRegister` where the value may be unset, and with `NotPointer` where it is a
    /// number.
    pub fn address(self, distance: u64) -> Result<Address<D>, RefusalNumber>
        ensures { result ≡ address_in ⟦<D as Domain>⟧ self distance }
    {
        match self {
            AbsVal::Unset => Err(RefusalNumber::UnsetRegister),
            AbsVal::Number(_) => Err(RefusalNumber::NotPointer),
            AbsVal::Stack(offset) => Ok(Address::Stack(offset.wrapping_add(distance))),
            AbsVal::Context(offset) => {
                let distance = D::constant(distance);
                Ok(Address::Context(offset.operate(Binary::Add, distance)))
            }
        }
    }
}
