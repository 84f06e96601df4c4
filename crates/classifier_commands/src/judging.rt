//! Verifying programs and judging outcomes for `verify` and `judge`.
ghost use Rattle.std.specs.Prelude.{◌≡◌, Some, None, IfOk, IfErr};
ghost use Rattle.counted_io.specs.Counting.{AtMostOneMore};
ghost use Rattle.texts.specs.Outcomes.{outcome_of};
ghost use Rattle.serde_json.specs.View.{view};
ghost use Rattle.classifier_commands.specs.Answers.{IsAdmitted, IsAccepted, IsTextRefused, IsOutcomeRead, IsOutcomeRefused, IsVerifyAnswer, IsJudgement, IsReadJudgement, IsJudgeAnswer};
ghost use Rattle.classifier_commands.specs.Causes.{IsReadCause};

use crate::answer::{Answer, CommandRefusal};
use crate::error::CommandError;
use crate::hexadecimal::hex_bytes;
use crate::input::read_all;
use bpf_profile::Layout;
use bpf_run::run;
use counted_io::Counted;
use helpers::Record;
use refusals::RefusalNumber;
use serde_json::Value;
use std::alloc::{AllocError, Global};
use std::io::Read;
use texts::{json, read_outcome};
use verifier::Verified;

/// The program of hexadecimal text, verified on records of a layout.
fn admitted(alloc: Global, text: &str, layout: Layout) -> Result<Verified, CommandRefusal>
    ensures ok { IfOk result (λ program. IsAdmitted layout text.now program) }
    ensures err { IfErr result (λ fault. IsTextRefused layout text.now fault) }
{
    let bytes = hex_bytes(alloc, text)?;
    Ok(verifier::verify(alloc, &bytes, layout)?)
}

/// The budget and the number of slots of a program in hexadecimal for records of a layout, or why it is refused.
pub(crate) fn verify(alloc: Global, text: &str, layout: Layout) -> Answer
    ensures { IsVerifyAnswer layout text.now result }
{
    match admitted(alloc, text, layout) {
        Ok(program) => Answer::Accepted {
            budget: program.budget(),
            slots: program.program().len(),
        },
        Err(fault) => Answer::Refused(fault),
    }
}

/// The record of the outcome that a JSON value describes.
fn outcome_in(value: &Value) -> Result<Record, CommandRefusal>
    ensures ok { IfOk result (λ outcome. outcome_of (view value.now) ≡ Some outcome) }
    ensures err { IfErr result (λ fault. (fault.number ≡ RefusalNumber.BadValue) × (outcome_of (view value.now) ≡ None)) }
{
    match read_outcome(value) {
        Ok(outcome) => Ok(outcome),
        Err(error) => Err(CommandRefusal::from(error.number)),
    }
}

/// The record of an outcome's JSON, or why it is refused. The outer error is want of memory.
fn outcome(alloc: Global, text: &[u8]) -> Result<Result<Record, CommandRefusal>, AllocError>
    ensures ok { IfOk result (λ answer. IfOk answer (λ outcome. IsOutcomeRead text.now outcome)) }
    ensures err { IfOk result (λ answer. IfErr answer (λ fault. IsOutcomeRefused text.now fault)) }
{
    match json(alloc, text)? {
        Some(value) => Ok(outcome_in(&value)),
        None => Ok(Err(CommandRefusal::from(RefusalNumber::BadJson))),
    }
}

/// The program's verdict on an outcome's JSON, or why that is refused.
fn judge_outcome(alloc: Global, program: &Verified, text: &[u8]) -> Result<Answer, AllocError>
    ensures { IfOk result (λ answer. IsJudgement program.now text.now answer) }
{
    match outcome(alloc, text)? {
        Ok(outcome) => {
            let (verdict, steps) = run(program, &outcome);
            let budget = program.budget();
            Ok(Answer::Judged {
                verdict,
                steps,
                budget,
            })
        }
        Err(fault) => Ok(Answer::Refused(fault)),
    }
}

/// The program's verdict on the outcome whose JSON is read, or why that is refused.
fn judge_read<R: Read>(
    alloc: Global,
    program: &Verified,
    reader: &mut Counted<R>,
) -> Result<Answer, CommandError>
    ensures judged { IfOk result (λ answer. IsReadJudgement program.now (R.remaining reader.old.inner) answer) }
    ensures cause { IsReadCause result reader.old.failures reader.new.failures }
    ensures ends { AtMostOneMore reader.old.ends reader.new.ends }
{
    let text = read_all(alloc, reader)?;
    Ok(judge_outcome(alloc, program, &text)?)
}

/// The verdict of a program in hexadecimal, which is for records of a layout, on the outcome whose JSON is read, or why
/// one of them is refused. The program comes first: nothing is read where it is refused. An error comes where
/// reading fails, or memory runs out behind the program.
pub(crate) fn judge<R: Read>(
    alloc: Global,
    text: &str,
    layout: Layout,
    reader: &mut Counted<R>,
) -> Result<Answer, CommandError>
    ensures judged { IfOk result (λ answer. IsJudgeAnswer layout text.now (R.remaining reader.old.inner) answer) }
    ensures unread { (IsAccepted layout text.now → ⊥) → reader.new ≡ reader.old }
    ensures cause { IsReadCause result reader.old.failures reader.new.failures }
    ensures ends { AtMostOneMore reader.old.ends reader.new.ends }
{
    match admitted(alloc, text, layout) {
        Ok(program) => judge_read(alloc, &program, reader),
        Err(fault) => Ok(Answer::Refused(fault)),
    }
}
