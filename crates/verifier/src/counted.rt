//! Verifying, with the number of abstract states that it has to hold.
ghost use Rattle.std.specs.Prelude.{◌≡◌, ◌⊎◌, ◌<◌, None, IfOk, IfErr};
ghost use Rattle.bpf_profile.specs.FlowFaults.{flow_fault};
ghost use Rattle.bpf_profile.specs.Layouts.{context_size};
ghost use Rattle.bpf_profile.specs.Limits.{most_slots};
ghost use Rattle.bpf_profile.specs.Safety.{IsSafe};
ghost use Rattle.bpf_profile.specs.Spelling.{Spells};
ghost use Rattle.verifier.specs.Verifying.{out_of_memory, fault_of, IsAccepted, IsRefused, IsVerification};
ghost use Rattle.verifier.specs.Width.{IsWidth};

use crate::refusal::Refusal;
use crate::verified::{Verified, verify};
use crate::width::width_of;
use bpf_decode::{Decoded, Program};
use bpf_profile::Layout;
use flow_check::check_decoded;
use std::alloc::Global;

/// The width of a program that was accepted. The only error is want of memory.
fn accepted_width(alloc: Global, program: &Program) -> Result<u32, Refusal>
    requires { flow_fault program.now ≡ None }
    ensures width { IfOk result (λ width. IsWidth program.now width) }
    ensures refused { IfErr result (λ e. e ≡ out_of_memory) }
{
    let slots = Decoded::of(alloc, program)?;
    match check_decoded(alloc, &slots) {
        Ok(flow) => Ok(width_of(&slots, &flow)),
        Err(_) => Err(Refusal::out_of_memory()),
    }
}

/// The same as `verify`, and the width of the program: how many abstract states verifying it has to hold
/// at most. That is the largest, over its instructions, of the number of different slots above one to
/// which edges lead from it or from a slot below it.
pub fn verify_counted(
    alloc: Global,
    bytes: &[u8],
    layout: Layout,
) -> Result<(Verified, u32), Refusal>
    // The bytes spell the program that is verified, its flow and the analysis accept it, and it is safe.
    ensures spelled { IfOk result (λ v. Spells bytes.now v.0.slots) }
    ensures accepted { IfOk result (λ v. IsAccepted layout v.0.slots) }
    ensures safe { IfOk result (λ v. IsSafe (context_size layout) v.0.slots v.0.budget) }
    // It has the budget of its flow, and this layout.
    ensures verified { IfOk result (λ v. IsVerification bytes.now v.0) }
    ensures layout { IfOk result (λ v. v.0.layout ≡ layout) }
    // The number is its width.
    ensures width { IfOk result (λ v. IsWidth v.0.slots v.1) }
    // A refusal is the first fault, unless memory ran out.
    ensures refused { IfErr result (λ e. (e ≡ out_of_memory) ⊎ IsRefused layout bytes.now (fault_of e)) }
    // Its slot is one that a program may have.
    ensures slot { IfErr result (λ e. e.slot < most_slots) }
{
    let verified = verify(alloc, bytes, layout)?;
    let width = accepted_width(alloc, verified.program())?;
    Ok((verified, width))
}
