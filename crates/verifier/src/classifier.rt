//! The classifier that a service has before another one is installed.
ghost use Rattle.std.specs.Prelude.{◌≡◌, IfOk, IfErr};
ghost use Rattle.bpf_profile.specs.declared.layout.Layout.TheVariants as layout;
ghost use Rattle.bpf_profile.specs.Layouts.{context_size};
ghost use Rattle.bpf_profile.specs.Safety.{IsSafe};
ghost use Rattle.bpf_profile.specs.Spelling.{Spells};
ghost use Rattle.verifier.specs.DefaultClassifier.{default_classifier_bytes};
ghost use Rattle.verifier.specs.Verifying.{IsVerification, out_of_memory};

use crate::refusal::Refusal;
use crate::verified::{Verified, verify};
use bpf_profile::Layout;
use std::alloc::Global;

/// Its bytes, eight for each slot: a failure is an outcome that is no response, or a status from 500 on.
const DEFAULT_CLASSIFIER: [u8; 64] = [
    0x61, 0x12, 0x00, 0x00, 0x00, 0x00, 0x00, 0x00, // r2 = kind
    0x55, 0x02, 0x04, 0x00, 0x00, 0x00, 0x00, 0x00, // if r2 is no response, fail
    0x61, 0x12, 0x04, 0x00, 0x00, 0x00, 0x00, 0x00, // r2 = status
    0x35, 0x02, 0x02, 0x00, 0xf4, 0x01, 0x00, 0x00, // if r2 is at least 500, fail
    0xb7, 0x00, 0x00, 0x00, 0x00, 0x00, 0x00, 0x00, // r0 = success
    0x95, 0x00, 0x00, 0x00, 0x00, 0x00, 0x00, 0x00, // exit
    0xb7, 0x00, 0x00, 0x00, 0x01, 0x00, 0x00, 0x00, // fail: r0 = failure
    0x95, 0x00, 0x00, 0x00, 0x00, 0x00, 0x00, 0x00, // exit
];

/// The classifier that services begin with: a failure is an outcome that is no response, or one with
/// a status from 500 on. It sees a context of layout 1. The only error is want of memory.
pub fn default_classifier(alloc: Global) -> Result<Verified, Refusal>
    ensures spelled { IfOk result (λ v. Spells default_classifier_bytes v.slots) }
    ensures safe { IfOk result (λ v. IsSafe (context_size layout.One) v.slots v.budget) }
    ensures verified { IfOk result (λ v. IsVerification default_classifier_bytes v) }
    ensures layout { IfOk result (λ v. v.layout ≡ layout.One) }
    ensures refused { IfErr result (λ e. e ≡ out_of_memory) }
{
    verify(alloc, &DEFAULT_CLASSIFIER, Layout::One)
}
