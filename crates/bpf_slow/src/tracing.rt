//! Runs of the tagged machine.
ghost use Rattle.std.specs.Prelude.{◌≡◌, IfOk};
ghost use Rattle.bpf_slow.specs.Ending.{IsEnd};
ghost use Rattle.bpf_profile.specs.Layouts.{context_size};

use crate::ending::End;
use crate::machine::PlainMachine;
use crate::progress::Progress;
use bpf_decode::Program;
use bpf_profile::Layout;
use helpers::Record;
use std::alloc::{AllocError, Global};

/// Runs a program on as much of an outcome's record as this layout has, for at most `limit`
/// instructions. Returns how the run ended: with an answer, with a trap, or out of steps. The error
/// is want of memory.
///
/// Any program may be run, also one that no verifier accepts. Every access is tested, and memory for
/// the stack's 512 cells is taken once, before the first instruction.
pub fn trace(
    alloc: Global,
    program: &Program,
    outcome: &Record,
    layout: Layout,
    limit: u32,
) -> Result<End, AllocError>
    ensures { IfOk result (λ end. IsEnd (context_size layout) program.now outcome.now limit end) }
{
    let mut machine = PlainMachine::new(alloc)?;
    let slots = program.slots();
    for done in 0..limit {
        let slot = machine.slot();
        match machine.step(slots, outcome, layout) {
            Ok(Progress::Goes) => {}
            Ok(Progress::Answers(answer)) => return Ok(End::Done(answer, done + 1)),
            Err(reason) => return Ok(End::Trap(slot as u64, reason)),
        }
    }
    Ok(End::OutOfSteps)
}
