//! Asking a service.
ghost use Rattle.std.specs.Prelude.{◌≡◌};
ghost use Rattle.service_profile.specs.Answers.{map_ok};
ghost use Rattle.service.specs.Asked.{request_data, response_data, handed_out, page_of};
ghost use Rattle.service.specs.Asking.{IsReportServed, IsInstalled, IsServedBy};
ghost use Rattle.service.specs.Upkept.{IsUpkept};

use crate::calls::BookCalls;
use crate::gate::Gate;
use crate::request::{Report, Request};
use crate::response::Response;
use crate::upkeep::{Upkeep, acquire, call};
use book::{Apply, Cut, Entry, Event, Look, Page, Read, Reply, Roll};
use bpf_profile::Layout;
use bpf_run::judge;
use refusals::RefusalNumber;
use std::alloc::{AllocError, Global};
use std::sync::Arc;
use verifier::{Refusal, verify};

/// Judges the outcome of a call by its ticket's classifier, and ends the ticket: a look at the ticket, a run of the
/// classifier, the gate, and the finish. While the outcome is judged, no call of the book is made. A look that is refused makes
/// no entry. The service does this for its upkeep.
fn report_with<P, B: BookCalls<P>, G: Gate>(
    book: &mut B,
    place: &P,
    upkeep: Upkeep,
    moment: u64,
    report: Report,
    gate: &G,
) -> Reply
    requires fits { B.fits place.now book.old }
    ensures reported { IsReportServed (IsUpkept upkeep (B.calls place.now)) book.old moment report result book.new }
    ensures fits { B.fits place.now book.new }
{
    let Report { ticket, outcome } = report;
    match call(book, place, upkeep, moment, Look(ticket), gate) {
        Ok(program) => {
            let judged = judge(program, outcome);
            gate.between(ticket);
            let finish = Apply(moment, Event::Finish(judged, ticket));
            call(book, place, upkeep, moment, finish, gate)
        }
        Err(number) => Reply::Refused(number),
    }
}

/// Judges the outcome of a call by its ticket's classifier, and ends the ticket: a look at the ticket, a run of the
/// classifier, the gate, and the finish. While the outcome is judged, no call of the book is made. A look that is refused makes
/// no entry.
pub fn report<P, B: BookCalls<P>, G: Gate>(
    book: &mut B,
    place: &P,
    moment: u64,
    report: Report,
    gate: &G,
) -> Reply
    requires fits { B.fits place.now book.old }
    // The reply is that to the finish, with the verdict of the program that the look found, or why it found none.
    ensures reported { IsReportServed (B.calls place.now) book.old moment report result book.new }
    ensures fits { B.fits place.now book.new }
{
    report_with(book, place, Upkeep::NONE, moment, report, gate)
}

/// Verifies a program on records of a layout, and installs it. Memory is taken before the book is called: where there is none, the
/// program is refused with `ProgramOutOfMemory`.
fn install<P, B: BookCalls<P>, G: Gate>(
    alloc: Global,
    book: &mut B,
    place: &P,
    upkeep: Upkeep,
    moment: u64,
    bytes: &[u8],
    layout: Layout,
    gate: &G,
) -> Response
    requires fits { B.fits place.now book.old }
    ensures installed { IsInstalled (IsUpkept upkeep (B.calls place.now)) book.old moment bytes.now layout (response_data result) book.new }
    ensures fits { B.fits place.now book.new }
{
    let program = match verify(alloc, bytes, layout) {
        Ok(program) => program,
        Err(refusal) => return Response::ProgramRefused(refusal),
    };
    match Arc::new(alloc, program) {
        Ok(program) => {
            let install = Apply(moment, Event::Install(program));
            Response::Reply(call(book, place, upkeep, moment, install, gate))
        }
        Err(error) => Response::ProgramRefused(Refusal::from(AllocError::from(error))),
    }
}

/// Entries that are handed out, or why there are none.
fn handed_out(found: Result<Vec<Entry>, RefusalNumber>) -> Response
    ensures { response_data result ≡ handed_out (map_ok (λ entries. entries.items) found) }
{
    match found {
        Ok(entries) => Response::HandedOut(entries),
        Err(number) => Response::Reply(Reply::Refused(number)),
    }
}

/// A page from a number on, or why there is none.
fn page(from: u64, found: Result<Vec<Entry>, RefusalNumber>) -> Response
    ensures { response_data result ≡ page_of from (map_ok (λ entries. entries.items) found) }
{
    match found {
        Ok(entries) => Response::Page { from, entries },
        Err(number) => Response::Reply(Reply::Refused(number)),
    }
}

/// Asks a service at a moment, in milliseconds, by whoever calls its book. A report is a look at its ticket, a run of the
/// ticket's classifier and a finish; a program is verified before it is installed. Whatever is refused for
/// want of memory changes nothing. A service that does its own upkeep makes room in a full journal before an event is refused
/// for it, and then makes the event; and releases tickets that are too old before it asks for another.
pub fn ask<P, B: BookCalls<P>, G: Gate>(
    alloc: Global,
    book: &mut B,
    place: &P,
    upkeep: Upkeep,
    moment: u64,
    request: Request,
    gate: &G,
) -> Response
    requires fits { B.fits place.now book.old }
    // What is answered, and what the caller of the book is after it, are made of the calls that the request stands for, and of
    // those of the service's own upkeep. Where the book itself is called, these are the documented machine's; with no upkeep
    // that is `IsServed`.
    ensures asked { IsServedBy (IsUpkept upkeep (B.calls place.now)) book.old moment (request_data request) (response_data result) book.new }
    ensures fits { B.fits place.now book.new }
{
    match request {
        Request::Acquire => Response::Reply(acquire(book, place, upkeep, moment, gate)),
        Request::Report(reported) => {
            Response::Reply(report_with(book, place, upkeep, moment, reported, gate))
        }
        Request::Release(ticket) => {
            let release = Apply(moment, Event::Release(ticket));
            Response::Reply(call(book, place, upkeep, moment, release, gate))
        }
        Request::Install { program, layout } => {
            install(
                alloc,
                book,
                place,
                upkeep,
                moment,
                program.as_slice(),
                layout,
                gate,
            )
        }
        Request::Move(state) => {
            let to = Apply(moment, Event::Move(state));
            Response::Reply(call(book, place, upkeep, moment, to, gate))
        }
        Request::Reset => {
            let reset = Apply(moment, Event::Reset);
            Response::Reply(call(book, place, upkeep, moment, reset, gate))
        }
        Request::Read => {
            Response::Reading(call(book, place, upkeep, moment, Read(moment), gate))
        }
        Request::Page(from) => page(from, call(book, place, upkeep, moment, Page(from), gate)),
        Request::Cut => handed_out(call(book, place, upkeep, moment, Cut, gate)),
        Request::Roll(last) => handed_out(call(book, place, upkeep, moment, Roll(last), gate)),
    }
}
