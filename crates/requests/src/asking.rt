//! What a JSON value asks for.
ghost use Rattle.std.specs.Prelude.{◌≡◌, IfOk, option_map};
ghost use Rattle.serde_json.specs.View.{view};
ghost use Rattle.service.specs.Asked.{request_data};
ghost use Rattle.requests.specs.Asking.{install_of, request_of};
ghost use Rattle.requests.specs.declared.asking.RequestKind.TheVariants.{Report, Release, Move, Roll};

use crate::layouts::layout;
use crate::programs::program;
use crate::reports::report;
use crate::transitions::state;
use crate::values::number_at;
use serde_json::Value;
use service::Request;
use std::alloc::{AllocError, Global};

/// What a JSON value may ask a service for.
#[derive(Clone, Copy)]
pub enum RequestKind {
    Acquire,
    Report,
    Release,
    Install,
    Move,
    Reset,
    Read,
    Cut,
    Roll,
}

/// The install that a value describes: a program, and the layout that it is written for. The error is want of memory.
#[tactic(auto, unfolding(crate::specs::Asking::install_of))]
fn install_of(alloc: Global, value: &Value) -> Result<Option<Request>, AllocError>
    ensures { IfOk result (λ asked. option_map request_data asked ≡ install_of (view value.now)) }
{
    let Some(program) = program(alloc, value)? else {
        return Ok(None);
    };
    let Some(layout) = layout(value) else {
        return Ok(None);
    };
    Ok(Some(Request::Install { program, layout }))
}

/// The report that a value describes. The error is want of memory.
fn report_of(alloc: Global, value: &Value) -> Result<Option<Request>, AllocError>
    ensures { IfOk result (λ asked. option_map request_data asked ≡ request_of Report (view value.now)) }
{
    match report(alloc, value)? {
        Some(reported) => Ok(Some(Request::Report(reported))),
        None => Ok(None),
    }
}

/// The release that a value describes.
fn release_of(value: &Value) -> Option<Request>
    ensures { option_map request_data result ≡ request_of Release (view value.now) }
{
    Some(Request::Release(number_at(value, "ticket")?))
}

/// The move to a state that a value describes.
fn move_of(value: &Value) -> Option<Request>
    ensures { option_map request_data result ≡ request_of Move (view value.now) }
{
    Some(Request::Move(state(value)?))
}

/// The roll that a value describes.
fn roll_of(value: &Value) -> Option<Request>
    ensures { option_map request_data result ≡ request_of Roll (view value.now) }
{
    Some(Request::Roll(number_at(value, "to")?))
}

/// What a JSON object asks for. A report has `ticket` and `outcome`, a release `ticket`, an install a program and its layout, a
/// move `state`, and a roll `to`; the others have nothing. Other keys are ignored. None where a value is missing, of the wrong
/// kind or out of range: the refusal `BadValue`. The error is want of memory.
pub fn request(
    alloc: Global,
    kind: RequestKind,
    value: &Value,
) -> Result<Option<Request>, AllocError>
    ensures { IfOk result (λ asked. option_map request_data asked ≡ request_of kind (view value.now)) }
{
    match kind {
        RequestKind::Acquire => Ok(Some(Request::Acquire)),
        RequestKind::Report => report_of(alloc, value),
        RequestKind::Release => Ok(release_of(value)),
        RequestKind::Install => install_of(alloc, value),
        RequestKind::Move => Ok(move_of(value)),
        RequestKind::Reset => Ok(Some(Request::Reset)),
        RequestKind::Read => Ok(Some(Request::Read)),
        RequestKind::Cut => Ok(Some(Request::Cut)),
        RequestKind::Roll => Ok(roll_of(value)),
    }
}
