//! Which programs a service takes.
ghost use Rattle.bpf_profile.specs.Programs.{VerifiedProgram};
ghost use Rattle.book.specs.Accepted.{IsSafeProgram};

use verifier::Verified;
use verifier::laws::accepted_programs_are_safe;

/// A choice of programs that a service takes, each of them safe: it ends on every outcome's record within its budget,
/// and never does what it must not. The laws hold for any such choice, so that nobody has to know which programs
/// are accepted to believe them.
pub trait Acceptance {
    /// Whether a program is accepted.
    ghost accepts: { VerifiedProgram → Type 0 };

    /// Each program that is accepted is safe.
    fn accepted_are_safe()
        ensures { (program : VerifiedProgram) → accepts program → IsSafeProgram program };
}

/// What `verify` accepts: decoding, flow and the analysis find no fault in its bytes.
impl Acceptance for Verified {
    ghost use Rattle.book.specs.Verified.{IsVerifiedProgram};

    ghost accepts = { IsVerifiedProgram };

    fn accepted_are_safe() {
        accepted_programs_are_safe();
    }
}
