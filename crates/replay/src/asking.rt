//! What a line asks for.
ghost use Rattle.std.specs.Prelude.{◌≡◌, IfOk, option_map};
ghost use Rattle.serde_json.specs.View.{view};
ghost use Rattle.service_profile.specs.Answers.{map_ok};
ghost use Rattle.service.specs.Asked.{request_data};
ghost use Rattle.replay.specs.Asking.{wished, kind_named, asked_in, asked};

use refusals::RefusalNumber;
use requests::{RequestKind, number_at, request, text_at};
use serde_json::Value;
use service::Request;
use std::alloc::{AllocError, Global};
use texts::json;

/// What is asked for, and at which moment, in milliseconds.
#[derive(Drop)]
pub(crate) struct Asked {
    pub moment: u64,
    pub request: Request,
}

/// The kind of request that a name stands for.
fn kind_named(name: &str) -> Option<RequestKind>
    ensures { result ≡ kind_named name.now }
{
    match name {
        "acquire" => Some(RequestKind::Acquire),
        "report" => Some(RequestKind::Report),
        "release" => Some(RequestKind::Release),
        "install" => Some(RequestKind::Install),
        "transition" => Some(RequestKind::Move),
        "reset" => Some(RequestKind::Reset),
        "read" => Some(RequestKind::Read),
        "cut" => Some(RequestKind::Cut),
        "roll" => Some(RequestKind::Roll),
        _ => None,
    }
}

/// What a value asks for. The error is want of memory.
#[tactic(auto, unfolding(crate::specs::Asking::asked_in))]
fn asked_in(alloc: Global, value: &Value) -> Result<Option<Asked>, AllocError>
    ensures { IfOk result (λ found. option_map wished found ≡ asked_in (view value.now)) }
{
    let Some(moment) = number_at(value, "at") else {
        return Ok(None);
    };
    let Some(name) = text_at(value, "do") else {
        return Ok(None);
    };
    let Some(kind) = kind_named(name) else {
        return Ok(None);
    };
    match request(alloc, kind, value)? {
        Some(request) => Ok(Some(Asked { moment, request })),
        None => Ok(None),
    }
}

/// What a line asks for, or why it is refused. The outer error is want of memory.
pub(crate) fn asked_on(
    alloc: Global,
    line: &[u8],
) -> Result<Result<Asked, RefusalNumber>, AllocError>
    ensures { IfOk result (λ found. map_ok wished found ≡ asked line.now) }
{
    let Some(value) = json(alloc, line)? else {
        return Ok(Err(RefusalNumber::BadJson));
    };
    match asked_in(alloc, &value)? {
        Some(asked) => Ok(Ok(asked)),
        None => Ok(Err(RefusalNumber::BadValue)),
    }
}
