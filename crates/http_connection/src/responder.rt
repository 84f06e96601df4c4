//! Who answers messages.
ghost use Rattle.std.specs.Prelude.{◌≡◌, ◌⊎◌, ℕ, List, OnOk, OnErr};
ghost use Rattle.http_messages.specs.declared.front.Fault.{Fault};
ghost use Rattle.http_connection.specs.Requests.{HttpRequestData, http_request_data};

use http_messages::Fault;
use std::alloc::AllocError;

/// A request, as slices of the bytes that were read.
#[derive(Clone, Copy, Debug)]
pub struct HttpRequest<'a> {
    /// The method, as GET.
    pub method: &'a [u8],
    /// The request target (RFC 9112, section 3.2), which is UTF-8.
    pub target: &'a [u8],
    /// The body, of at most 65,536 bytes.
    pub body: &'a [u8],
    /// Whether the connection ends behind the answer.
    pub closes: bool,
}

/// Answers messages with text, by a state `S` that they may change.
pub trait Responder<S> {
    // the text of the answer to a message that is refused
    ghost refusal: { Fault → List ℕ };

    // how a state, a moment and a request are related to the text of the answer and the state after it
    ghost responds: { S → ℕ → HttpRequestData → List ℕ → S → Type 0 };

    /// Answers a message that is refused; the connection ends behind the answer. The error is want of
    /// memory.
    fn refuse(&self, fault: Fault, text: &mut Vec<u8>) -> Result<(), AllocError>
        ensures { OnOk result (text.new.items ≡ refusal fault) };

    /// Answers a request at a moment, in milliseconds. The error is want of memory: then what is asked was
    /// not done, or it was done and the answer is lost.
    fn respond(
        &self,
        state: &mut S,
        moment: u64,
        request: &HttpRequest<'_>,
        text: &mut Vec<u8>,
    ) -> Result<(), AllocError>
        ensures answered { OnOk result (responds state.old moment (http_request_data request.now) text.new.items state.new) }
        ensures lost { OnErr result ((state.new ≡ state.old) ⊎ ((answer : List ℕ) × responds state.old moment (http_request_data request.now) answer state.new)) };
}
