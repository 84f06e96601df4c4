//! The general purpose registers (RFC 9669, section 2).
ghost use Rattle.std.specs.Prelude.{◌≡◌, ◌<◌, ◌≤◌, ℕ, ◌↔◌, IsSome, IfSome};

use std::marker::Model;

/// A register from R0 to R10. Contracts see its number.
#[derive(Clone, Copy, PartialEq, Eq)]
pub struct Register {
    number: u8,
}

impl Model for Register {
    ghost Value = { ℕ };

    ghost view = { λ r. r.number };

    ghost invariant = { λ r. r.number < 11 };

    ghost inverse = { λ n. record { number = n } };
}

impl Register {
    /// How many registers there are.
    pub const COUNT: usize = 11;

    /// The register of a number below `COUNT`.
    pub fn new(number: u8) -> Register
        requires { number < 11 }
        ensures { result ≡ number }
    {
        Register { number }
    }

    /// The number, from 0 to 10, as the index into the eleven registers.
    pub fn index(self) -> usize
        ensures number { result ≡ self }
        ensures in_range { result < 11 }
    {
        self.number as usize
    }
}
