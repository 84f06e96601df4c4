//! One step.
ghost use Rattle.std.specs.Prelude.{◌≡◌, ◌≤◌, ◌<◌, ◌+◌, ◌^◌, length};
ghost use Rattle.bpf_profile.specs.Layouts.{context_size};
ghost use Rattle.bpf_profile.specs.Limits.{most_slots};
ghost use Rattle.bpf_profile.specs.Machine.{goes};
ghost use Rattle.bpf_profile.specs.Meaning.{sets, effect_of, step};
ghost use Rattle.bpf_slow.specs.Progress.{effect_of_step};

use crate::machine::PlainMachine;
use crate::progress::Progress;
use bpf_profile::{
    Instruction, Layout, Operand, Register, Slot, TrapReason, Value, instruction_at,
};
use bpf_words::target_of;
use helpers::Record;

impl PlainMachine {
    /// Goes to the next slot with this value in the register.
    fn set(
        &mut self,
        register: Register,
        value: Result<Value, TrapReason>,
    ) -> Result<Progress, TrapReason>
        requires { self.old.slot < most_slots }
        ensures { effect_of_step result self.new ≡ sets self.old register value }
    {
        self.set_register(0, register, value?);
        Ok(Progress::Goes)
    }

    /// Does what an instruction says.
    #[tactic(auto, unfolding(bpf_profile::specs::Meaning::effect_of))]
    fn execute(
        &mut self,
        outcome: &Record,
        layout: Layout,
        instruction: &Instruction,
    ) -> Result<Progress, TrapReason>
        requires { self.old.slot < most_slots }
        ensures { effect_of_step result self.new ≡ effect_of (context_size layout) outcome.now self.old instruction.now }
    {
        match *instruction {
            Instruction::Arithmetic {
                operation,
                width,
                destination,
                ref operand,
            } => {
                let value = self.arithmetic_value(operation, width, destination, operand);
                self.set(destination, value)
            }
            Instruction::Negate { width, destination } => {
                let value = self.negated(width, destination);
                self.set(destination, value)
            }
            Instruction::MoveSigned {
                width,
                size,
                destination,
                source,
            } => {
                let value = self.moved_signed(width, size, source);
                self.set(destination, value)
            }
            Instruction::Convert {
                order,
                size,
                destination,
            } => {
                let value = self.converted(order, size, destination);
                self.set(destination, value)
            }
            Instruction::LoadImmediate { destination, value } => {
                self.set_register(1, destination, Value::Number(value));
                Ok(Progress::Goes)
            }
            Instruction::Load {
                size,
                extension,
                destination,
                base,
                offset,
            } => {
                let value = self.load_value(outcome, layout, size, extension, base, offset);
                self.set(destination, value)
            }
            Instruction::Store {
                size,
                base,
                offset,
                ref operand,
            } => self.store(layout, size, base, offset, operand),
            Instruction::Jump { distance, .. } => {
                self.jump(target_of(self.slot(), distance));
                Ok(Progress::Goes)
            }
            Instruction::Branch {
                comparison,
                width,
                left,
                ref right,
                distance,
            } => self.branch(comparison, width, left, right, distance),
            Instruction::Call { helper } => self.call(outcome, layout, helper),
            Instruction::Exit => self.exit(),
        }
    }

    /// One step of the program. On a trap or an answer nothing is said of the state.
    #[tactic(auto, unfolding(bpf_profile::specs::Meaning::step))]
    pub(crate) fn step(
        &mut self,
        slots: &[Slot],
        outcome: &Record,
        layout: Layout,
    ) -> Result<Progress, TrapReason>
        requires { length slots.now ≤ most_slots }
        ensures { effect_of_step result self.new ≡ step (context_size layout) slots.now outcome.now self.old }
    {
        let slot = self.slot();
        if slot >= slots.len() {
            return Err(TrapReason::OutsideProgram);
        }
        match instruction_at(slots, slot) {
            Some(instruction) => self.execute(outcome, layout, &instruction),
            None => Err(TrapReason::OutsideProgram),
        }
    }
}
