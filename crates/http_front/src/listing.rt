//! The services of an answerer, one after another.
ghost use Rattle.std.specs.Prelude.{◌≡◌, ◌≤◌, [], length, map, IfOk, vec_capacity};
ghost use Rattle.service.specs.Asked.{response_data};
ghost use Rattle.http_front.specs.Answered.{AreRead};

use crate::answerer::Answerer;
use service::{Request, Response};
use std::alloc::{AllocError, Global};

/// The names of all services, in their order. The error is want of memory.
pub(crate) fn names<A: Answerer>(alloc: Global, answerer: &A) -> Result<Vec<&str>, AllocError>
    ensures { IfOk result (λ names. map (λ name. name.now) names.items ≡ A.names_of answerer.now) }
{
    let count = answerer.count();
    let mut names = Vec::with_capacity(alloc, count)?;
    for place in 0..count {
        names.push(answerer.name(place))?;
    }
    Ok(names)
}

/// Reads each service at a moment, one after another, into a list that has room for their answers.
pub(crate) fn read_services<A: Answerer>(
    answerer: &mut A,
    moment: u64,
    responses: &mut Vec<Response>,
)
    requires none { responses.old.items ≡ [] }
    requires room { length (A.names_of answerer.old) ≤ vec_capacity responses.old }
    ensures read { AreRead A.answers answerer.old 0 moment (map response_data responses.new.items) answerer.new }
    ensures all { length responses.new.items ≡ length (A.names_of answerer.old) }
    ensures names { A.names_of answerer.new ≡ A.names_of answerer.old }
{
    while responses.len() < answerer.count() {
        let place = responses.len();
        let response = answerer.ask(place, moment, Request::Read);
        responses.push_reserved(response);
    }
}
