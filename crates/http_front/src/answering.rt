//! What is answered.
ghost use Rattle.std.specs.Prelude.{◌≡◌, length, map, OnOk};
ghost use Rattle.service.specs.Asked.{response_data};
ghost use Rattle.http_connection.specs.Requests.{http_request_data};
ghost use Rattle.http_front.specs.Answered.{fault_text, text_for, list_text};

use crate::answerer::Answerer;
use crate::listing::names;
use crate::message::{AnswerMessage, write_answer};
use answers::{body, services_body, status};
use book::Reply;
use http_connection::HttpRequest;
use http_messages::{Fault, is_head_method};
use http_routes::Route;
use service::Response;
use std::alloc::{AllocError, Global};

/// Writes the answer to a message that is refused.
#[tactic(auto, unfolding(crate::specs::Answered::fault_text))]
pub(crate) fn write_fault(alloc: Global, text: &mut Vec<u8>, fault: Fault) -> Result<(), AllocError>
    ensures { OnOk result (text.new.items ≡ fault_text fault) }
{
    let refusal = Response::Reply(Reply::Refused(fault.number));
    let body = body(alloc, &refusal)?;
    text.clear();
    write_answer(
        alloc,
        text,
        &AnswerMessage {
            status: status(&refusal),
            body: &body,
            allow: None,
            closes: true,
            head_only: fault.to_head,
        },
    )
}

/// Writes the answer to a request: a response, and where a route was asked with another method, the route.
#[tactic(auto, unfolding(crate::specs::Answered::text_for))]
pub(crate) fn write_response(
    alloc: Global,
    text: &mut Vec<u8>,
    request: &HttpRequest<'_>,
    response: &Response,
    allow: Option<Route>,
) -> Result<(), AllocError>
    ensures { OnOk result (text.new.items ≡ text_for (http_request_data request.now) (response_data response.now) allow) }
{
    let body = body(alloc, response)?;
    text.clear();
    write_answer(
        alloc,
        text,
        &AnswerMessage {
            status: status(response),
            body: &body,
            allow,
            closes: request.closes,
            head_only: is_head_method(request.method),
        },
    )
}

/// Writes the answer to a request for the list of services, by what each of them answered to a reading.
#[tactic(auto, unfolding(crate::specs::Answered::list_text))]
pub(crate) fn write_list<A: Answerer>(
    alloc: Global,
    text: &mut Vec<u8>,
    request: &HttpRequest<'_>,
    answerer: &A,
    responses: &[Response],
) -> Result<(), AllocError>
    requires { length responses.now ≡ length (A.names_of answerer.now) }
    ensures { OnOk result (text.new.items ≡ list_text (http_request_data request.now) (A.names_of answerer.now) (map response_data responses.now)) }
{
    let names = names(alloc, answerer)?;
    let body = services_body(alloc, &names, responses)?;
    text.clear();
    write_answer(
        alloc,
        text,
        &AnswerMessage {
            status: 200,
            body: &body,
            allow: None,
            closes: request.closes,
            head_only: is_head_method(request.method),
        },
    )
}
