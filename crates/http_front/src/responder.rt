//! The HTTP interface as a responder.
ghost use Rattle.std.specs.Prelude.{◌≡◌, ◌⊎◌, ℕ, List};
ghost use Rattle.http_front.specs.Answered.{fault_text, IsAnswered};

use crate::answerer::Answerer;
use crate::answering::{write_fault, write_list, write_response};
use crate::asking::{Asking, asked};
use crate::listing::read_services;
use book::Reply;
use http_connection::{HttpRequest, Responder};
use http_messages::Fault;
use http_routes::Routes;
use service::Response;
use std::alloc::{AllocError, Global};
use std::cell::Cell;
use texts::JsonReader;

/// Answers messages over HTTP: finds what a message asks for of which service, asks the answerer for it, and writes
/// its response as text. It holds what answering needs beside the answerer, among it memory for reading bodies, and is made
/// once for many connections.
#[derive(Drop)]
pub struct HttpResponder {
    alloc: Global,
    routes: Routes,
    /// What reads bodies, but while it is lent.
    json: Cell<Option<Box<JsonReader>>>,
}

impl HttpResponder {
    /// A responder with the table of routes. The error is want of memory.
    pub fn new(alloc: Global) -> Result<HttpResponder, AllocError> {
        let routes = Routes::new(alloc)?;
        let json = Box::new(alloc, JsonReader::new(alloc))?;
        Ok(HttpResponder {
            alloc,
            routes,
            json: Cell::new(Some(json)),
        })
    }

    /// Lends what reads bodies.
    fn lend_json(&self) -> Result<Box<JsonReader>, AllocError> {
        match self.json.take() {
            Some(json) => Ok(json),
            None => Ok(Box::new(self.alloc, JsonReader::new(self.alloc))?),
        }
    }
}

impl<A: Answerer> Responder<A> for HttpResponder {
    ghost refusal = { fault_text };

    ghost responds = { IsAnswered A.names_of A.answers };

    fn refuse(&self, fault: Fault, text: &mut Vec<u8>) -> Result<(), AllocError> {
        write_fault(self.alloc, text, fault)
    }

    fn respond(
        &self,
        state: &mut A,
        moment: u64,
        request: &HttpRequest<'_>,
        text: &mut Vec<u8>,
    ) -> Result<(), AllocError> {
        let mut json = self.lend_json()?;
        let asking = asked(self.alloc, &mut json, &self.routes, state, moment, request);
        self.json.set(Some(json));
        match asking? {
            Asking::Refuses(number, allow) => {
                let refusal = Response::Reply(Reply::Refused(number));
                write_response(self.alloc, text, request, &refusal, allow)
            }
            Asking::Lists => {
                let mut responses = Vec::with_capacity(self.alloc, state.count())?;
                read_services(state, moment, &mut responses);
                write_list(self.alloc, text, request, state, &responses)
            }
            Asking::Asks(place, wanted) => {
                let response = state.ask(place, moment, wanted);
                write_response(self.alloc, text, request, &response, None)
            }
        }
    }
}
