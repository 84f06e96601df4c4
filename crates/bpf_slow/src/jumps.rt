//! Jumps (RFC 9669, section 4.3).
ghost use Rattle.std.specs.Prelude.{◌≡◌, ◌<◌, ◌≤◌};
ghost use Rattle.bpf_profile.specs.Limits.{most_slots};
ghost use Rattle.bpf_profile.specs.Machine.{branched, exited};
ghost use Rattle.bpf_slow.specs.Progress.{effect_of_step};

use crate::machine::PlainMachine;
use crate::progress::Progress;
use crate::registers::number_or;
use bpf_profile::{Comparison, Operand, Register, TrapReason, Width};
use bpf_words::{holds, target_of};

impl PlainMachine {
    /// Goes to the target where the comparison holds, else to the next slot.
    pub(crate) fn branch(
        &mut self,
        comparison: Comparison,
        width: Width,
        left: Register,
        right: &Operand,
        distance: u64,
    ) -> Result<Progress, TrapReason>
        requires { self.old.slot < most_slots }
        ensures { effect_of_step result self.new ≡ branched self.old comparison width left right.now distance }
    {
        let a = self.read_register(left)?;
        let b = self.read_operand(right)?;
        let x = number_or(TrapReason::Pointer, a)?;
        let y = number_or(TrapReason::Pointer, b)?;
        let slot = self.slot();
        let next = if holds(comparison, width, x, y) {
            target_of(slot, distance)
        } else {
            slot + 1
        };
        self.jump(next);
        Ok(Progress::Goes)
    }

    /// The answer in R0, a number of at most 2.
    pub(crate) fn exit(&self) -> Result<Progress, TrapReason>
        ensures { effect_of_step result self.now ≡ exited self.now }
    {
        let answer = self.number_in(Register::new(0))?;
        if answer > 2 {
            return Err(TrapReason::Answer);
        }
        Ok(Progress::Answers(answer))
    }
}
