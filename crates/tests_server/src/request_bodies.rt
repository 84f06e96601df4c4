//! What bodies ask for. Which are refused, and with which answer, is told by the rows in `checks/messages`.
use crate::checks::{is_true, is_true_at, same};
use book::State;
use http_front::body_asks;
use http_routes::Route;
use refusals::RefusalNumber;
use service::Request;
use std::alloc::Global;
use std::process::Abort;
use texts::JsonReader;

/// What is asked for where there is no query, with ample memory.
fn asked(
    rt: &impl Abort,
    alloc: Global,
    route: Route,
    number: Option<&str>,
    body: &[u8],
) -> Result<Request, RefusalNumber> {
    let mut json = JsonReader::new(alloc);
    body_asks(alloc, &mut json, route, number, b"", body).expect(rt, "ample memory")
}

/// Each body is the program that is to be installed.
fn are_programs(rt: &impl Abort, alloc: Global, bodies: &[&[u8]]) {
    for body in bodies {
        match &asked(rt, alloc, Route::Program, None, body) {
            Ok(Request::Install { program, .. }) => same(rt, program.as_slice(), *body),
            _ => is_true_at(rt, false, body),
        }
    }
}

#[test]
fn programs_are_their_body(rt: HostRuntime) {
    are_programs(
        &rt,
        rt.alloc(),
        &[b"", b"\x95\x00\x00\x00\x00\x00\x00\x00", b"b7", b"{}"],
    );
}

/// A report of this ticket, with the duration of its outcome.
fn reports(rt: &impl Abort, alloc: Global, body: &[u8], ticket: u64, duration: u64) {
    match &asked(rt, alloc, Route::Report, None, body) {
        Ok(Request::Report(report)) => {
            same(rt, report.ticket, ticket);
            same(rt, report.outcome.duration(), duration);
        }
        _ => is_true(rt, false),
    }
}

#[test]
fn reports_name_ticket_and_outcome(rt: HostRuntime) {
    let body = b"{\"ticket\":3,\"outcome\":{\"duration_ms\":7},\"other\":[]}";
    reports(&rt, rt.alloc(), body, 3, 7);
}

#[test]
fn releases_transitions_and_rolls_are_read(rt: HostRuntime) {
    let rt = &rt;
    let body = b"{\"ticket\":18446744073709551615,\"outcome\":null}";
    let release = asked(rt, rt.alloc(), Route::Release, None, body);
    is_true(rt, matches!(release, Ok(Request::Release(u64::MAX))));
    let body = b" {\"state\":\"HALF_OPEN\",\"ticket\":1}\r\n";
    let transition = asked(rt, rt.alloc(), Route::Transition, None, body);
    is_true(rt, matches!(transition, Ok(Request::Move(State::HalfOpen))));
    let body = b"{\"to\":18446744073709551615,\"from\":1}";
    let roll = asked(rt, rt.alloc(), Route::Roll, None, body);
    is_true(rt, matches!(roll, Ok(Request::Roll(u64::MAX))));
}

/// The numbers of pages, by their texts.
fn are_pages(rt: &impl Abort, alloc: Global, rows: &[(&str, u64)]) {
    for row in rows {
        let (number, from) = *row;
        match asked(rt, alloc, Route::Journal, Some(number), b"") {
            Ok(Request::Page(found)) => same(rt, found, from),
            _ => is_true_at(rt, false, number),
        }
    }
}

#[test]
fn pages_begin_at_a_number(rt: HostRuntime) {
    let rt = &rt;
    are_pages(
        rt,
        rt.alloc(),
        &[("0", 0), ("1", 1), ("18446744073709551615", u64::MAX)],
    );
    let missing = asked(rt, rt.alloc(), Route::Journal, None, b"").err();
    same(rt, missing, Some(RefusalNumber::BadValue));
}
