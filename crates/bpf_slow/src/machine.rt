//! The state of the tagged machine.
ghost use Rattle.std.specs.Prelude.{◌≡◌, ◌<◌, ◌≤◌, ◌+◌, ◌^◌, List, length, take, drop, slice_set, IfOk};
ghost use Rattle.bpf_profile.specs.Limits.{stack_size};
ghost use Rattle.bpf_profile.specs.Machine.{State, goes, register_of, sets_register, jumps, overwritten};
ghost use Rattle.bpf_profile.specs.Meaning.{entry};
ghost use Rattle.bpf_profile.specs.Helpers.{after_call};

use bpf_profile::{Cell, Region, Register, STACK_SIZE, Value};
use std::alloc::{AllocError, Global};
use std::marker::Model;

/// A slot, eleven registers, and the cells of the stack's offsets from -512 to -1. Contracts see the
/// state of the definitions.
#[derive(Drop)]
pub(crate) struct PlainMachine {
    slot: usize,
    registers: [Value; Register::COUNT],
    stack: Vec<Cell>,
}

impl Model for PlainMachine {
    ghost use Rattle.std.specs.Prelude.{◌≡◌, length};
    ghost use Rattle.bpf_profile.specs.Limits.{stack_size};
    ghost use Rattle.bpf_profile.specs.Machine.{State};

    ghost Value = { State };

    ghost view = { λ m. record { slot = m.slot; registers = m.registers; stack = m.stack.items } };

    ghost invariant = { λ m. length m.stack.items ≡ stack_size };
}

impl PlainMachine {
    /// The state before the first step.
    pub(crate) fn new(alloc: Global) -> Result<PlainMachine, AllocError>
        ensures { IfOk result (λ machine. machine ≡ entry) }
    {
        let mut registers = [Value::Unset; Register::COUNT];
        registers[1] = Value::Pointer(Region::Context, 0);
        registers[10] = Value::Pointer(Region::Stack, 0);
        let stack = vec![in alloc; Cell::Unset; STACK_SIZE]?;
        Ok(PlainMachine {
            slot: 0,
            registers,
            stack,
        })
    }

    /// The slot whose instruction is next.
    pub(crate) fn slot(&self) -> usize
        ensures { result ≡ self.now.slot }
    {
        self.slot
    }

    /// What a register holds.
    pub(crate) fn register(&self, register: Register) -> Value
        ensures { result ≡ register_of self.now register }
    {
        self.registers[register.index()]
    }

    /// Goes to the slot after the next `skipped` ones, with this value in the register.
    pub(crate) fn set_register(&mut self, skipped: usize, register: Register, value: Value)
        requires { self.old.slot + 1 + skipped < 2 ^ 64 }
        ensures { goes self.new ≡ sets_register self.old skipped register value }
    {
        self.slot += 1 + skipped;
        self.registers[register.index()] = value;
    }

    /// Goes to the slot.
    pub(crate) fn jump(&mut self, slot: usize)
        ensures { goes self.new ≡ jumps self.old slot }
    {
        self.slot = slot;
    }

    /// So many cells of the stack, from a place on.
    pub(crate) fn cells(&self, place: usize, count: usize) -> &[Cell]
        requires { place + count ≤ stack_size }
        ensures cells { result.now ≡ take count (drop place self.now.stack) }
        ensures count { length result.now ≡ count }
    {
        &self.stack[place..place + count]
    }

    /// Writes the cells to the stack, from a place on.
    pub(crate) fn overwrite(&mut self, place: usize, cells: &[Cell])
        requires { place + length cells.now ≤ stack_size }
        ensures { self.new ≡ record { slot = self.old.slot; registers = self.old.registers; stack = overwritten self.old.stack place cells.now } }
    {
        self.stack[place..place + cells.len()].copy_from_slice(cells);
    }

    /// Puts the answer into R0, and unsets the arguments R1 to R5.
    pub(crate) fn answer_call(&mut self, answer: u64)
        ensures { self.new ≡ record { slot = self.old.slot; registers = after_call self.old.registers answer; stack = self.old.stack } }
    {
        self.registers[0] = Value::Number(answer);
        self.registers[1..6].fill(Value::Unset);
    }
}
