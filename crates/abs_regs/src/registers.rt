//! The abstract state of the registers before an instruction.
ghost use Rattle.std.specs.Prelude.{◌≡◌, slice_index_or, slice_set, length};
ghost use Rattle.abs_regs.specs.Values.{entry_values, joined_values, value_in};

use crate::value::AbsVal;
use abs_domain::Domain;
use bpf_profile::Register;
use std::alloc::AllocError;
use std::marker::Model;

/// The abstract values of R0 to R10. Contracts see the list of them.
#[derive(Copy)]
pub struct RegFile<D> {
    values: [AbsVal<D>; 11],
}

impl<D: Copy> Clone for RegFile<D> {
    ghost use Rattle.std.specs.Prelude.{◌≡◌, ⊤};

    /// A clone equals its original, and takes no memory.
    ghost is_clone = { λ registers copy. copy ≡ registers };

    ghost is_infallible = { λ _. ⊤ };

    fn clone(&self) -> Result<Self, AllocError> {
        Ok(*self)
    }
}

impl<D> Model for RegFile<D> {
    ghost use Rattle.std.specs.Prelude.{List};
    ghost use Rattle.abs_regs.specs.declared.value.AbsVal.{AbsVal};

    ghost Value = { List (AbsVal D) };

    ghost view = { λ r. r.values };

    ghost inverse = { λ values. record { values = values } };
}

impl<D: Domain> RegFile<D> {
    /// The state before the first instruction: R1 points to the start of the context, R10 to the end of the
    /// stack, and nothing is known of the others.
    pub fn entry() -> Self
        ensures { result ≡ entry_values ⟦<D as Domain>⟧ }
    {
        let mut values = [AbsVal::Unset; 11];
        values[1] = AbsVal::Context(D::constant(0));
        values[10] = AbsVal::Stack(0);
        RegFile { values }
    }

    /// The abstract value of a register.
    pub fn get(&self, register: Register) -> AbsVal<D>
        ensures { result ≡ value_in self.now register }
    {
        self.values[register.index()]
    }

    /// Replaces the value of one register.
    pub fn set(&mut self, register: Register, value: AbsVal<D>)
        ensures { self.new ≡ slice_set self.old register value }
    {
        self.values[register.index()] = value;
    }

    /// This state, with the value of one register replaced.
    pub fn with(mut self, register: Register, value: AbsVal<D>) -> Self
        ensures { result ≡ slice_set self register value }
    {
        self.set(register, value);
        self
    }

    /// Joins another state into this one, register by register: what is known where two paths meet.
    pub fn join(&mut self, other: &Self)
        ensures { self.new ≡ joined_values ⟦<D as Domain>⟧ self.old other.now }
    {
        join_values(&mut self.values, &other.values);
    }
}

/// Joins values into others, each with the one in its place. A value of which nothing is known stays as it
/// is, as most are in most programs.
fn join_values<D: Domain>(values: &mut [AbsVal<D>], others: &[AbsVal<D>])
    requires { length values.old ≡ length others.now }
    ensures { values.new ≡ joined_values ⟦<D as Domain>⟧ values.old others.now }
{
    for i in 0..values.len() {
        if !matches!(values[i], AbsVal::Unset) {
            values[i] = values[i].join(others[i]);
        }
    }
}
