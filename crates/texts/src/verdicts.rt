//! The words for verdicts.
ghost use Rattle.std.specs.Prelude.{◌≡◌};
ghost use Rattle.texts.specs.Verdicts.{verdict_name};

use bpf_profile::Verdict;

/// The word for a verdict: `success`, `failure` or `ignored`.
pub fn verdict_name(verdict: Verdict) -> &'static str
    ensures { result.now ≡ verdict_name verdict }
{
    match verdict {
        Verdict::Success => "success",
        Verdict::Failure => "failure",
        Verdict::Ignored => "ignored",
    }
}
