//! What becomes of programs, as lines of text: tables of tests are short so.
use crate::checks::same_at;
use bpf_asm::{AsmError, assemble};
use bpf_profile::Layout;
use bpf_run::{Verdict, run};
use helpers::Record;
use serde_json::Value;
use std::alloc::{AllocError, Global};
use std::process::Abort;
use texts::read_outcome;
use verifier::{Refusal, Verified, verify};

/// The bytes that hexadecimal spells.
pub(crate) fn bytes_of(rt: &impl Abort, alloc: Global, text: &str) -> Vec<u8> {
    hex::decode(alloc, text.as_bytes()).expect(rt, "hexadecimal")
}

/// The bytes of the program that assembler text stands for.
pub(crate) fn assembled(rt: &impl Abort, alloc: Global, text: &str) -> Vec<u8> {
    let program = assemble(alloc, text).expect(rt, "the text of a program");
    program.encode().expect(rt, "ample memory")
}

/// The line of a refused program.
fn refused(alloc: Global, refusal: Refusal) -> Result<String, AllocError> {
    let number = refusal.number.number();
    let name = refusal.number.name();
    let slot = refusal.slot;
    format!(in alloc; "refused {number} {name} slot {slot}\n")
}

/// The line of a refused text.
fn refused_line(alloc: Global, error: AsmError) -> Result<String, AllocError> {
    let number = error.kind.number();
    let name = error.kind.name();
    let line = error.line;
    format!(in alloc; "refused {number} {name} line {line}\n")
}

/// The line of a text that is refused.
pub(crate) fn refused_text(rt: &impl Abort, alloc: Global, text: &str) -> String {
    let error = assemble(alloc, text).err().expect(rt, "a refused text");
    refused_line(alloc, error).expect(rt, "ample memory")
}

fn accepted(alloc: Global, program: &Verified) -> Result<String, AllocError> {
    let budget = program.budget();
    let slots = program.program().len();
    format!(in alloc; "accepted budget={budget} slots={slots}\n")
}

/// The line of a program that is to be verified: its budget and its slots, or why it is refused.
fn verified(rt: &impl Abort, alloc: Global, bytes: &[u8]) -> String {
    let line = match verify(alloc, bytes, Layout::One) {
        Ok(program) => accepted(alloc, &program),
        Err(refusal) => refused(alloc, refusal),
    };
    line.expect(rt, "ample memory")
}

/// Checks with which line a program is verified.
pub(crate) fn is_verified(rt: &impl Abort, alloc: Global, program: &[u8], printed: &str) {
    let line = verified(rt, alloc, program);
    same_at(rt, line.as_str(), printed, &program);
}

fn word(verdict: Verdict) -> &'static str {
    match verdict {
        Verdict::Success => "success",
        Verdict::Failure => "failure",
        Verdict::Ignored => "ignored",
    }
}

/// The record of an outcome's JSON.
pub(crate) fn outcome_of(rt: &impl Abort, alloc: Global, text: &str) -> Record {
    let value = Value::from_slice(alloc, text.as_bytes()).expect(rt, "JSON");
    read_outcome(&value).expect(rt, "an outcome")
}

/// The line of a verdict after so many steps, of a program with a budget.
fn verdict_line(alloc: Global, verdict: (Verdict, u32), budget: u32) -> Result<String, AllocError> {
    let (verdict, steps) = verdict;
    let verdict = word(verdict);
    format!(in alloc; "{verdict} steps={steps} budget={budget}\n")
}

/// The line of a record that an accepted program judges: the verdict, the steps and the budget.
fn judged_record(rt: &impl Abort, alloc: Global, bytes: &[u8], record: &Record) -> String {
    let program = verify(alloc, bytes, Layout::One).expect(rt, "a program that is accepted");
    let line = verdict_line(alloc, run(&program, record), program.budget());
    line.expect(rt, "ample memory")
}

/// The line of an outcome that an accepted program judges.
pub(crate) fn judged(rt: &impl Abort, alloc: Global, bytes: &[u8], outcome: &str) -> String {
    judged_record(rt, alloc, bytes, &outcome_of(rt, alloc, outcome))
}
