//! The abstract state of the machine before an instruction.
ghost use Rattle.std.specs.Prelude.{◌≡◌, IfOk};
ghost use Rattle.abs_states.specs.States.{entry_state, joined_state};

use abs_domain::Domain;
use abs_regs::RegFile;
use stack_track::StackState;
use std::alloc::{AllocError, Global};

/// An abstract state: what is known of the registers and of the stack on all paths to an instruction.
#[derive(Drop)]
pub struct AbsState<D> {
    pub registers: RegFile<D>,
    pub stack: StackState<D>,
}

impl<D: Domain> AbsState<D> {
    /// The state before the first instruction. It takes the memory that the state will ever want.
    pub fn entry(alloc: Global) -> Result<Self, AllocError>
        ensures { IfOk result (λ state. state ≡ entry_state ⟦<D as Domain>⟧) }
    {
        Ok(AbsState {
            stack: StackState::entry(alloc)?,
            registers: RegFile::entry(),
        })
    }

    /// Joins another state into this one: what is known where two paths meet.
    pub fn join(&mut self, other: &Self)
        ensures { self.new ≡ joined_state ⟦<D as Domain>⟧ self.old other.now }
    {
        self.registers.join(&other.registers);
        self.stack.join(&other.stack);
    }

    /// Makes this state the same as another one.
    pub fn copy_from(&mut self, other: &Self)
        ensures { self.new ≡ other.now }
    {
        self.registers = other.registers;
        self.stack.copy_from(&other.stack);
    }
}
