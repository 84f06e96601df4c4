//! Reports of outcomes, as JSON objects.
ghost use Rattle.std.specs.Prelude.{◌≡◌, IfOk};
ghost use Rattle.serde_json.specs.View.{view};
ghost use Rattle.requests.specs.Reports.{outcome_at, report_of};

use crate::values::number_at;
use helpers::Record;
use packed_outcomes::PackedOutcome;
use serde_json::Value;
use service::Report;
use std::alloc::{AllocError, Global};
use texts::read_outcome;

/// The record of the outcome under a key; None where it is missing or can't be used.
fn outcome_at(value: &Value, key: &str) -> Option<Record>
    ensures { result ≡ outcome_at key.now (view value.now) }
{
    match read_outcome(value.get(key)?) {
        Ok(outcome) => Some(outcome),
        Err(_) => None,
    }
}

/// The report that a JSON object describes: `ticket`, a number below 2^64, and `outcome`, as
/// `texts::read_outcome` reads it. Other keys are ignored. None where one of them is missing, of the
/// wrong kind or out of range, or the value is no object: the refusal `BadValue`. The error is want of memory for the
/// outcome, which is packed here.
#[tactic(auto, unfolding(crate::specs::Reports::report_of))]
pub fn report(alloc: Global, value: &Value) -> Result<Option<Report>, AllocError>
    ensures { IfOk result (λ found. found ≡ report_of (view value.now)) }
{
    let Some(ticket) = number_at(value, "ticket") else {
        return Ok(None);
    };
    let Some(outcome) = outcome_at(value, "outcome") else {
        return Ok(None);
    };
    let outcome = PackedOutcome::pack(alloc, &outcome)?;
    Ok(Some(Report { ticket, outcome }))
}
