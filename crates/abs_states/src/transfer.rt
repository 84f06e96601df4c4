//! The transfer function: the abstract state after an instruction.
ghost use Rattle.std.specs.Prelude.{◌≡◌, slice_set, Ok, Err, IfErr, OnOk, OnErr};
ghost use Rattle.abs_states.specs.Joining.{joined_with};
ghost use Rattle.abs_states.specs.Transfers.{stores_in, branches_in, calls_in, exits_in, transfer_in};

use crate::calls::{Answered, answer, write};
use crate::state::AbsState;
use abs_domain::Domain;
use abs_regs::AbsVal;
use bpf_profile::{Comparison, Instruction, Operand, Register, Size, Width};
use refusals::RefusalNumber;

impl<D: Domain> AbsState<D> {
    /// Makes of this state the one after a store of an operand's low bytes.
    fn store(
        &mut self,
        size: Size,
        base: Register,
        distance: u64,
        operand: &Operand,
    ) -> Result<(), RefusalNumber>
        ensures stored { OnOk result (stores_in ⟦<D as Domain>⟧ self.old size base distance operand.now ≡ Ok self.new) }
        ensures refused { IfErr result (λ number. stores_in ⟦<D as Domain>⟧ self.old size base distance operand.now ≡ Err number) }
        ensures unchanged { OnErr result (self.new ≡ self.old) }
    {
        let pointer = self.registers.get(base).set()?;
        let value = self.registers.operand(*operand).set()?;
        let address = pointer.address(distance)?;
        self.stack.store(address, value, size)
    }

    /// Makes of this state the one after a call of a helper function.
    fn call(&mut self, context_size: u64, helper: u32) -> Result<(), RefusalNumber>
        ensures called { OnOk result (calls_in ⟦<D as Domain>⟧ context_size self.old helper ≡ Ok self.new) }
        ensures refused { IfErr result (λ number. calls_in ⟦<D as Domain>⟧ context_size self.old helper ≡ Err number) }
        ensures unchanged { OnErr result (self.new ≡ self.old) }
    {
        let Answered {
            answer: known,
            written,
        } = self.answered(context_size, helper)?;
        answer(&mut self.registers, known);
        write(&mut self.stack, written);
        Ok(())
    }

    /// The end of the program. It is refused where R0 is no number, and with `AnswerRange` where it may
    /// be over 2.
    fn exit(&self) -> Result<(), RefusalNumber>
        ensures ended { OnOk result (exits_in ⟦<D as Domain>⟧ self.now ≡ Ok self.now) }
        ensures refused { IfErr result (λ number. exits_in ⟦<D as Domain>⟧ self.now ≡ Err number) }
    {
        let answer = self.registers.get(Register::new(0)).number()?;
        if answer.bounds().high > 2 {
            return Err(RefusalNumber::AnswerRange);
        }
        Ok(())
    }

    /// Joins into another state the one on an edge of a conditional jump, the jump edge if `taken`, else
    /// fall-through. This state stays as it is, and no second one is made. It is refused as `transfer` is;
    /// the other state is then as before.
    pub fn join_branch(
        &self,
        other: &mut AbsState<D>,
        comparison: Comparison,
        width: Width,
        taken: bool,
        left: Register,
        right: &Operand,
    ) -> Result<(), RefusalNumber>
        ensures joined { OnOk result (joined_with ⟦<D as Domain>⟧ other.old (branches_in ⟦<D as Domain>⟧ self.now taken comparison width left right.now) ≡ Ok other.new) }
        ensures refused { IfErr result (λ number. branches_in ⟦<D as Domain>⟧ self.now taken comparison width left right.now ≡ Err number) }
        ensures unchanged { OnErr result (other.new ≡ other.old) }
    {
        let mut registers = self.registers;
        registers.branch(comparison, width, taken, left, right)?;
        other.registers.join(&registers);
        other.stack.join(&self.stack);
        Ok(())
    }

    /// Makes of this state the one on an outgoing edge of an instruction: the jump edge if `taken`, else
    /// fall-through. The context has `context_size` bytes. An error is the first fault of the instruction,
    /// the same on both edges: `UnsetRegister`, `PointerUsed`, `BadPointerSum`, `NotPointer`,
    /// `ContextWrite`, `Misaligned`, `OutOfBounds`, `UnsetStack`, `HelperUnknown`, `HelperArgument` or
    /// `AnswerRange`; the state is then as before.
    #[tactic(auto, unfolding(crate::specs::Transfers::transfer_in))]
    pub fn transfer(
        &mut self,
        context_size: u64,
        taken: bool,
        instruction: &Instruction,
    ) -> Result<(), RefusalNumber>
        ensures passed { OnOk result (transfer_in ⟦<D as Domain>⟧ context_size self.old taken instruction.now ≡ Ok self.new) }
        ensures refused { IfErr result (λ number. transfer_in ⟦<D as Domain>⟧ context_size self.old taken instruction.now ≡ Err number) }
        ensures unchanged { OnErr result (self.new ≡ self.old) }
    {
        match *instruction {
            Instruction::Arithmetic {
                operation,
                width,
                destination,
                operand,
            } => {
                let operand = self.registers.operand(operand);
                let value = self
                    .registers
                    .get(destination)
                    .arithmetic(operation, width, operand)?;
                self.registers.set(destination, value);
                Ok(())
            }
            Instruction::Negate { width, destination } => {
                let value = self.registers.get(destination).negated(width)?;
                self.registers.set(destination, value);
                Ok(())
            }
            Instruction::MoveSigned {
                width,
                size,
                destination,
                source,
            } => {
                let value = self.registers.get(source).moved_signed(width, size)?;
                self.registers.set(destination, value);
                Ok(())
            }
            Instruction::Convert {
                order,
                size,
                destination,
            } => {
                let value = self.registers.get(destination).converted(order, size)?;
                self.registers.set(destination, value);
                Ok(())
            }
            Instruction::LoadImmediate { destination, value } => {
                self.registers
                    .set(destination, AbsVal::Number(D::constant(value)));
                Ok(())
            }
            Instruction::Load {
                size,
                extension,
                destination,
                base,
                offset,
            } => {
                let address = self.registers.get(base).address(offset)?;
                let value = self.stack.load(context_size, address, extension, size)?;
                self.registers.set(destination, value);
                Ok(())
            }
            Instruction::Store {
                size,
                base,
                offset,
                ref operand,
            } => { self.store(size, base, offset, operand) }
            Instruction::Jump { .. } => Ok(()),
            Instruction::Branch {
                comparison,
                width,
                left,
                ref right,
                ..
            } => { self.registers.branch(comparison, width, taken, left, right) }
            Instruction::Call { helper } => self.call(context_size, helper),
            Instruction::Exit => self.exit(),
        }
    }
}
