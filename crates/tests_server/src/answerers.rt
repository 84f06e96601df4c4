//! That the functions of an answerer for single routes ask what they say.
ghost use Rattle.std.specs.Prelude.{◌<◌, length};

use crate::checks::{is_true, same_at};
use crate::fixtures::pay;
use answers::body;
use book::State;
use bpf_profile::Layout;
use helpers::Record;
use http_front::{Answerer, Books};
use packed_outcomes::PackedOutcome;
use service::{Report, Response};
use std::alloc::Global;
use std::process::Abort;

/// `mov r0, 2` and `exit`: every outcome is ignored.
const IGNORING: [u8; 16] = [0xb7, 0, 0, 0, 2, 0, 0, 0, 0x95, 0, 0, 0, 0, 0, 0, 0];

/// Checks the body of a response.
fn is_body(rt: &impl Abort, alloc: Global, response: Response, text: &str) {
    let found = body(alloc, &response).expect(rt, "ample memory");
    same_at(rt, found.as_slice(), text.as_bytes(), text);
}

/// Where the service `pay` stands.
fn place_of_pay(rt: &impl Abort, books: &Books) -> usize
    ensures { result < length books.now.services.items }
{
    books.find("pay").expect(rt, "a service of the name")
}

/// A report of the outcome of a call that was answered.
fn report(rt: &impl Abort, alloc: Global, ticket: u64) -> Report {
    let record = Record::from_parts([0; 192], [0; 16], &[]).expect(rt, "an empty tag");
    let outcome = PackedOutcome::pack(alloc, &record).expect(rt, "ample memory");
    Report { ticket, outcome }
}

/// Asks for a ticket, for a program, and twice for the ticket's end.
fn calls_ask_what_they_say(rt: &impl Abort, alloc: Global, books: &mut Books) {
    let ticket = books.acquire(place_of_pay(rt, books), 7);
    is_body(
        rt,
        alloc,
        ticket,
        "{\"state\":\"CLOSED\",\"ticket\":1,\"version\":1}",
    );
    let bytes = Vec::from_slice(alloc, &IGNORING).expect(rt, "ample memory");
    let installed = books.install(place_of_pay(rt, books), 7, bytes, Layout::One);
    is_body(rt, alloc, installed, "{\"budget\":2,\"version\":2}");
    let reported = books.report(place_of_pay(rt, books), 7, report(rt, alloc, 1));
    let recorded =
        "{\"fate\":\"recorded\",\"state\":\"CLOSED\",\"steps\":6,\"verdict\":\"success\",\"version\":1}";
    is_body(rt, alloc, reported, recorded);
    let spent = books.release(place_of_pay(rt, books), 7, 1);
    is_body(rt, alloc, spent, "{\"error\":34,\"name\":\"TicketSpent\"}");
}

/// Moves the breaker, and rolls its journal.
fn moves_ask_what_they_say(rt: &impl Abort, alloc: Global, books: &mut Books) {
    let moved = books.transition(place_of_pay(rt, books), 7, State::Open);
    is_body(rt, alloc, moved, "{\"period\":2,\"state\":\"OPEN\"}");
    let reset = books.reset(place_of_pay(rt, books), 7);
    is_body(rt, alloc, reset, "{\"period\":3,\"state\":\"CLOSED\"}");
    let rolled = books.roll(place_of_pay(rt, books), 7, 5);
    is_body(rt, alloc, rolled, "{\"entries\":5}");
}

/// Reads what is left of the journal and how the service stands, and cuts the journal.
fn readings_ask_what_they_say(rt: &impl Abort, alloc: Global, books: &mut Books) {
    let page = books.page(place_of_pay(rt, books), 7, 1);
    let last =
        "{\"entries\":[{\"event\":\"reset\",\"moment\":7,\"number\":6,\"reply\":{\"period\":3,\"state\":\"CLOSED\"},\"seat\":1}],\"next\":7}";
    is_body(rt, alloc, page, last);
    let reading = books.read(place_of_pay(rt, books), 7);
    let stands =
        "{\"budget\":2,\"entries\":6,\"failed\":0,\"failureRate\":-1,\"free\":25,\"notPermitted\":0,\"open\":0,\"period\":3,\"slow\":0,\"slowRate\":-1,\"state\":\"CLOSED\",\"total\":0,\"version\":2}";
    is_body(rt, alloc, reading, stands);
    let cut = books.cut(place_of_pay(rt, books), 7);
    is_body(rt, alloc, cut, "{\"entries\":1}");
}

#[test]
fn routes_ask_what_they_say(rt: HostRuntime) {
    let mut books = pay(&rt, rt.alloc());
    is_true(&rt, books.find("none").is_none());
    calls_ask_what_they_say(&rt, rt.alloc(), &mut books);
    moves_ask_what_they_say(&rt, rt.alloc(), &mut books);
    readings_ask_what_they_say(&rt, rt.alloc(), &mut books);
}
