//! What a request asks for.
ghost use Rattle.std.specs.Prelude.{◌≡◌, IfOk};
ghost use Rattle.http_connection.specs.Requests.{http_request_data};
ghost use Rattle.http_front.specs.Asked.{asked};
ghost use Rattle.http_front.specs.Wanted.{asking, IsHeld};

use crate::answerer::Answerer;
use crate::bodies::body_asks;
use http_connection::HttpRequest;
use http_routes::{Route, Routes, query_of};
use refusals::RefusalNumber;
use service::Request;
use std::alloc::{AllocError, Global};
use texts::JsonReader;

/// What a request asks for.
#[derive(Drop)]
pub(crate) enum Asking {
    /// This of the service at a place.
    Asks(usize, Request),
    /// The list of all services.
    Lists,
    /// Nothing: it is refused. Where a route was asked with another method, the route.
    Refuses(RefusalNumber, Option<Route>),
}

/// What a request asks for at a moment in milliseconds. The answerer is told of a report that can't be used. The error is want of
/// memory.
pub(crate) fn asked<A: Answerer>(
    alloc: Global,
    json: &mut JsonReader,
    routes: &Routes,
    answerer: &A,
    moment: u64,
    request: &HttpRequest<'_>,
) -> Result<Asking, AllocError>
    ensures asked { IfOk result (λ found. asking found ≡ asked (A.names_of answerer.now) (http_request_data request.now)) }
    ensures held { IfOk result (IsHeld (A.has answerer.now)) }
{
    let Some(found) = routes.find(request.target) else {
        return Ok(Asking::Refuses(RefusalNumber::NoRoute, None));
    };
    if !found.route.takes(request.method) {
        return Ok(Asking::Refuses(RefusalNumber::WrongMethod, Some(found.route)));
    }
    let Some(name) = found.service else {
        return Ok(Asking::Lists);
    };
    let Some(place) = answerer.find(name) else {
        return Ok(Asking::Refuses(RefusalNumber::NoService, None));
    };
    let query = query_of(request.target);
    match body_asks(alloc, json, found.route, found.number, query, request.body)? {
        Ok(wanted) => Ok(Asking::Asks(place, wanted)),
        Err(number) => {
            if let Route::Report = found.route {
                answerer.refused(place, moment, request.body);
            }
            Ok(Asking::Refuses(number, None))
        }
    }
}
