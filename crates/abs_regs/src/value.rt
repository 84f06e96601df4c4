//! Abstract values of registers.
ghost use Rattle.std.specs.Prelude.{◌≡◌};
ghost use Rattle.abs_regs.specs.Values.{joined_value};

use abs_domain::Domain;

/// An abstract value: what is known of a register's value on all paths. `D` is the domain of numbers.
#[derive(Clone, Copy, Debug, PartialEq, Eq)]
pub enum AbsVal<D> {
    /// Nothing is known: it may be unset, a number or a pointer.
    Unset,
    /// A number that the domain's value contains.
    Number(D),
    /// The pointer into the stack at this offset in bytes from the stack's end, a word that is read as
    /// signed.
    Stack(u64),
    /// A pointer into the context, at an offset in bytes that the domain's value contains.
    Context(D),
}

impl<D: Domain> AbsVal<D> {
    /// The join: what is known where two paths meet.
    pub fn join(self, other: Self) -> Self
        ensures { result ≡ joined_value ⟦<D as Domain>⟧ self other }
    {
        match (self, other) {
            (AbsVal::Number(a), AbsVal::Number(b)) => AbsVal::Number(a.join(b)),
            (AbsVal::Context(a), AbsVal::Context(b)) => AbsVal::Context(a.join(b)),
            (AbsVal::Stack(a), AbsVal::Stack(b)) if a == b => AbsVal::Stack(a),
            _ => AbsVal::Unset,
        }
    }
}
