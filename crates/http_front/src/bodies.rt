//! What a request asks for of a service, by its route, its query and its body.
ghost use Rattle.std.specs.Prelude.{◌≡◌, IfOk, option_map};
ghost use Rattle.service_profile.specs.Answers.{map_ok};
ghost use Rattle.service.specs.Asked.{request_data};
ghost use Rattle.texts.specs.JsonText.{json_of};
ghost use Rattle.http_front.specs.Bodies.{json_asks, program_asks, page_asks, body_asks};

use crate::layouts::layout_in;
use http_routes::{Route, entry_number};
use refusals::RefusalNumber;
use requests::{RequestKind, request};
use service::Request;
use std::alloc::{AllocError, Global};
use texts::JsonReader;

/// What a body of JSON asks for. The outer error is want of memory.
fn json_asks(
    alloc: Global,
    json: &mut JsonReader,
    kind: RequestKind,
    body: &[u8],
) -> Result<Result<Request, RefusalNumber>, AllocError>
    ensures { IfOk result (λ asked. map_ok request_data asked ≡ json_asks kind (json_of body.now)) }
{
    let Some(value) = json.read(alloc, body)? else {
        return Ok(Err(RefusalNumber::BadJson));
    };
    match request(alloc, kind, &value)? {
        Some(request) => Ok(Ok(request)),
        None => Ok(Err(RefusalNumber::BadValue)),
    }
}

/// The install that a query and a body ask for. The outer error is want of memory.
fn program_asks(
    alloc: Global,
    query: &[u8],
    body: &[u8],
) -> Result<Result<Request, RefusalNumber>, AllocError>
    ensures { IfOk result (λ asked. map_ok request_data asked ≡ program_asks query.now body.now) }
{
    match layout_in(query) {
        Ok(layout) => {
            let program = Vec::from_slice(alloc, body)?;
            Ok(Ok(Request::Install { program, layout }))
        }
        Err(number) => Ok(Err(number)),
    }
}

/// The page that a number in a path asks for.
fn page_asks(number: Option<&str>) -> Result<Request, RefusalNumber>
    ensures { map_ok request_data result ≡ page_asks (option_map (λ text. text.now) number.entry) }
{
    match number {
        Some(text) => Ok(Request::Page(entry_number(text)?)),
        None => Err(RefusalNumber::BadValue),
    }
}

/// What a request asks for, by its route, the number in its path, its query, and its body. That of a report, a release, a
/// transition and a roll is a JSON object, as `requests::request` reads it. A program is bytecode as it is, and the query names the layout of its records:
/// `layout=1` or `layout=2`, the first where it names none. The other routes ignore the query, and those whose body is
/// neither JSON nor a program ignore the body. The refusals are `BadJson`, where the body is to be JSON and is none, and
/// then `BadValue`, where a value or the number of an entry is missing, of the wrong kind or out of range, or where the
/// query names another layout or two that differ. The list of services is asked of none of them, and is refused here with
/// `NoRoute`. The outer error is want of memory.
pub fn body_asks(
    alloc: Global,
    json: &mut JsonReader,
    route: Route,
    number: Option<&str>,
    query: &[u8],
    body: &[u8],
) -> Result<Result<Request, RefusalNumber>, AllocError>
    ensures { IfOk result (λ asked. map_ok request_data asked
        ≡ body_asks route (option_map (λ text. text.now) number.entry) query.now body.now) }
{
    match route {
        Route::Acquire => Ok(Ok(Request::Acquire)),
        Route::Report => json_asks(alloc, json, RequestKind::Report, body),
        Route::Release => json_asks(alloc, json, RequestKind::Release, body),
        Route::Transition => json_asks(alloc, json, RequestKind::Move, body),
        Route::Roll => json_asks(alloc, json, RequestKind::Roll, body),
        Route::Reset => Ok(Ok(Request::Reset)),
        Route::Cut => Ok(Ok(Request::Cut)),
        Route::Program => program_asks(alloc, query, body),
        Route::State => Ok(Ok(Request::Read)),
        Route::Journal => Ok(page_asks(number)),
        Route::Services => Ok(Err(RefusalNumber::NoRoute)),
    }
}
