//! Work that was judged, tied to its program and its outcome.
ghost use Rattle.std.specs.Prelude.{◌≡◌, IfOk};
ghost use Rattle.std.specs.Arc.{arc_value};
ghost use Rattle.bpf_profile.specs.JudgedWork.{IsTied};

use crate::execution::run;
use bpf_profile::Verdict;
use packed_outcomes::PackedOutcome;
use std::alloc::AllocError;
use std::marker::Model;
use std::sync::Arc;
use verifier::Verified;

/// An outcome that a program judged, with its verdict. Only `judge` makes one, and `try_clone`
/// copies it.
#[derive(Drop)]
pub struct Judged {
    program: Arc<Verified>,
    outcome: PackedOutcome,
    verdict: Verdict,
    steps: u32,
}

impl Model for Judged {
    ghost use Rattle.bpf_profile.specs.JudgedWork.{JudgedData, IsTied};

    ghost Value = { JudgedData };

    ghost use Rattle.std.specs.Arc.{arc_value};

    ghost view = { λ j. record { program = arc_value j.program; outcome = j.outcome; verdict = j.verdict; steps = j.steps } };

    ghost invariant = { λ j. IsTied (record { program = arc_value j.program; outcome = j.outcome; verdict = j.verdict; steps = j.steps }) };
}

/// Judges an outcome by a program. The outcome is unpacked for the run alone, onto the stack: it takes no memory.
pub fn judge(program: Arc<Verified>, outcome: PackedOutcome) -> Judged
    ensures program { result.program ≡ arc_value program }
    ensures outcome { result.outcome ≡ outcome }
    // The verdict and the steps are the meaning's, of this program on this outcome.
    ensures tied { IsTied result }
{
    let (verdict, steps) = run(&program, &outcome.unpack());
    Judged {
        program,
        outcome,
        verdict,
        steps,
    }
}

impl Judged {
    /// A copy that shares the program. The error comes where there is no memory for the outcome, or where the program can
    /// have no more owners.
    pub fn try_clone(&self) -> Result<Judged, AllocError>
        ensures { IfOk result (λ copy. copy ≡ self.now) }
    {
        let Judged {
            program,
            outcome,
            verdict,
            steps,
        } = self;
        Ok(Judged {
            program: Arc::try_clone(program)?,
            outcome: outcome.try_clone()?,
            verdict: *verdict,
            steps: *steps,
        })
    }

    /// The program that judged.
    pub fn program(&self) -> &Arc<Verified>
        ensures program { arc_value result.now ≡ self.now.program }
        ensures tied { IsTied self.now }
    {
        &self.program
    }

    /// The outcome that was judged.
    pub fn outcome(&self) -> &PackedOutcome
        ensures outcome { result.now ≡ self.now.outcome }
        ensures tied { IsTied self.now }
    {
        &self.outcome
    }

    /// The program's verdict on the outcome.
    pub fn verdict(&self) -> Verdict
        ensures verdict { result ≡ self.now.verdict }
        ensures tied { IsTied self.now }
    {
        self.verdict
    }

    /// How many instructions were executed.
    pub fn steps(&self) -> u32
        ensures steps { result ≡ self.now.steps }
        ensures tied { IsTied self.now }
    {
        self.steps
    }
}
