//! Registers as operands.
ghost use Rattle.std.specs.Prelude.{◌≡◌};
ghost use Rattle.bpf_profile.specs.Machine.{set_value, read_register, read_operand, number_or};

use crate::machine::PlainMachine;
use bpf_profile::{Operand, Register, TrapReason, Value};

/// The value, which has to be set.
fn set_value(value: Value) -> Result<Value, TrapReason>
    ensures { result ≡ set_value value }
{
    match value {
        Value::Unset => Err(TrapReason::Unset),
        set => Ok(set),
    }
}

/// The number that a value is; another value is this trap.
pub(crate) fn number_or(reason: TrapReason, value: Value) -> Result<u64, TrapReason>
    ensures { result ≡ number_or reason value }
{
    match value {
        Value::Number(number) => Ok(number),
        _ => Err(reason),
    }
}

impl PlainMachine {
    /// The value of a register that is set.
    pub(crate) fn read_register(&self, register: Register) -> Result<Value, TrapReason>
        ensures { result ≡ read_register self.now register }
    {
        set_value(self.register(register))
    }

    /// The value of an operand.
    pub(crate) fn read_operand(&self, operand: &Operand) -> Result<Value, TrapReason>
        ensures { result ≡ read_operand self.now operand.now }
    {
        match *operand {
            Operand::Register(register) => self.read_register(register),
            Operand::Immediate(number) => Ok(Value::Number(number)),
        }
    }
}
