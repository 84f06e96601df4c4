//! That the premises of the laws can be met.
ghost use Rattle.service_profile.specs.Events.{Opening};
ghost use Rattle.book.specs.Verified.{IsVerifiedProgram};
ghost use Rattle.service_profile.specs.Openings.{IsOpening};

/// A good opening exists, with a program that decoding, flow and the analysis accept.
pub fn a_good_opening_exists()
    ensures { (opening : Opening) × IsOpening opening × IsVerifiedProgram opening.program }
{}
