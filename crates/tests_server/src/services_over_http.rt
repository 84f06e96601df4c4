//! Messages with their answers, where these depend on the moment. The others are rows in `checks/messages`.
use crate::checks::{is_true_at, same};
use crate::fixtures::{
    ACQUIRE, ACQUIRED, JOURNAL, ONE_ENTRY, StandsAt, is_answered, joined, named_book, pay, pay_with,
};
use book::ConfigParts;
use counted_io::Counted;
use http_front::{Books, Ended, serve};
use std::alloc::Global;
use std::process::Abort;
use std::sync::Wait;

#[test]
fn journals_are_paged(rt: HostRuntime) {
    let alloc = rt.alloc();
    let input = joined(&rt, alloc, &[ACQUIRE, JOURNAL]);
    let text = joined(&rt, alloc, &[ACQUIRED, ONE_ENTRY]);
    let mut books = pay(&rt, alloc);
    is_answered(
        &rt,
        alloc,
        &mut books,
        input.as_bytes(),
        &text,
        Ended::Closed,
    );
}

const HALF_OPEN: &str =
    "POST /v1/services/pay/transition HTTP/1.1\r\nContent-Length: 21\r\n\r\n{\"state\":\"HALF_OPEN\"}";

const FIRST_REPORT: &str =
    "POST /v1/services/pay/report HTTP/1.1\r\nContent-Length: 37\r\n\r\n{\"ticket\":1,\"outcome\":{\"status\":200}}";

const SECOND_REPORT: &str =
    "POST /v1/services/pay/report HTTP/1.1\r\nContent-Length: 37\r\n\r\n{\"ticket\":2,\"outcome\":{\"status\":200}}";

const STATE: &str = "GET /v1/services/pay/state HTTP/1.1\r\n\r\n";

/// A moment, a message, its status and the body of its answer.
type At<'a> = (u64, &'a str, &'a str, &'a str);

/// Messages are answered so, each at its moment, by a service of two calls in HALF_OPEN, which lasts half a second at most, and
/// of a wait in OPEN of a second.
fn are_answered_at(rt: &(impl Wait + Abort), alloc: Global, rows: &[At<'_>]) {
    let mut parts = ConfigParts::DEFAULT;
    parts.permitted_number_of_calls_in_half_open_state = 2;
    parts.max_wait_duration_in_half_open_state = 500;
    parts.wait_duration_in_open_state = 1_000;
    let mut books = pay_with(rt, alloc, parts);
    for row in rows {
        is_answered_at(rt, alloc, &mut books, *row);
    }
}

/// A message is answered so at its moment.
fn is_answered_at(rt: &(impl Wait + Abort), alloc: Global, books: &mut Books, row: At<'_>) {
    let (moment, input, status, body) = row;
    let mut reader = Counted::new(input.as_bytes());
    let mut writer = Counted::new(Vec::new(alloc));
    let mut clock = StandsAt { moment };
    let ended = serve(rt, alloc, &mut reader, &mut writer, books, &mut clock);
    same(rt, ended, Ended::Closed);
    let text = writer.inner().as_slice();
    is_true_at(rt, text.starts_with(status.as_bytes()), text);
    is_true_at(rt, text.ends_with(body.as_bytes()), text);
}

const LIST: &str = "GET /v1/services HTTP/1.1\r\n\r\n";

const ACQUIRE_SHIP: &str = "POST /v1/services/ship/acquire HTTP/1.1\r\n\r\n";

const BOTH: &str =
    "\r\n\r\n{\"services\":[{\"name\":\"pay\",\"state\":{\"budget\":6,\"entries\":0,\"failed\":0,\"failureRate\":-1,\"free\":25,\"notPermitted\":0,\"open\":0,\"period\":1,\"slow\":0,\"slowRate\":-1,\"state\":\"CLOSED\",\"total\":0,\"version\":1}},{\"name\":\"ship\",\"state\":{\"budget\":6,\"entries\":1,\"failed\":0,\"failureRate\":-1,\"free\":24,\"notPermitted\":0,\"open\":1,\"period\":1,\"slow\":0,\"slowRate\":-1,\"state\":\"CLOSED\",\"total\":0,\"version\":1}}]}";

#[test]
fn services_are_listed_in_their_order(rt: HostRuntime) {
    let rt = &rt;
    let alloc = rt.alloc();
    let mut books = pay(rt, alloc);
    let ship = named_book(rt, alloc, "ship", ConfigParts::DEFAULT);
    books.services.push(ship).expect(rt, "ample memory");
    let acquired = "{\"state\":\"CLOSED\",\"ticket\":1,\"version\":1}";
    is_answered_at(
        rt,
        alloc,
        &mut books,
        (7, ACQUIRE_SHIP, "HTTP/1.1 200 OK", acquired),
    );
    is_answered_at(rt, alloc, &mut books, (7, LIST, "HTTP/1.1 200 OK", BOTH));
    let mut none = Books::new(alloc, Vec::new(alloc));
    let empty = "\r\n\r\n{\"services\":[]}";
    is_answered_at(rt, alloc, &mut none, (7, LIST, "HTTP/1.1 200 OK", empty));
}

#[test]
fn a_longest_stay_ends_with_the_next_message(rt: HostRuntime) {
    are_answered_at(
        &rt,
        rt.alloc(),
        &[
            (
                0,
                HALF_OPEN,
                "HTTP/1.1 200 OK",
                "\r\n\r\n{\"period\":2,\"state\":\"HALF_OPEN\"}",
            ),
            (
                0,
                ACQUIRE,
                "HTTP/1.1 200 OK",
                "{\"state\":\"HALF_OPEN\",\"ticket\":1,\"version\":1}",
            ),
            (
                499,
                ACQUIRE,
                "HTTP/1.1 200 OK",
                "{\"state\":\"HALF_OPEN\",\"ticket\":2,\"version\":1}",
            ),
            (
                499,
                FIRST_REPORT,
                "HTTP/1.1 200 OK",
                "{\"fate\":\"recorded\",\"state\":\"HALF_OPEN\",\"steps\":6,\"verdict\":\"success\",\"version\":1}",
            ),
            (
                600,
                STATE,
                "HTTP/1.1 200 OK",
                "\"state\":\"HALF_OPEN\",\"total\":1,\"version\":1}",
            ),
            (
                500,
                SECOND_REPORT,
                "HTTP/1.1 200 OK",
                "{\"fate\":\"stale\",\"state\":\"OPEN\",\"steps\":6,\"verdict\":\"success\",\"version\":1}",
            ),
            (
                1_499,
                ACQUIRE,
                "HTTP/1.1 503 ",
                "{\"error\":31,\"name\":\"CallNotPermitted\"}",
            ),
            (
                1_500,
                ACQUIRE,
                "HTTP/1.1 200 OK",
                "{\"state\":\"HALF_OPEN\",\"ticket\":3,\"version\":1}",
            ),
            (
                1_500,
                STATE,
                "HTTP/1.1 200 OK",
                "{\"budget\":6,\"entries\":7,\"failed\":0,\"failureRate\":-1,\"free\":24,\"notPermitted\":0,\"open\":1,\"period\":4,\"slow\":0,\"slowRate\":-1,\"state\":\"HALF_OPEN\",\"total\":0,\"version\":1}",
            ),
        ],
    );
    are_answered_at(
        &rt,
        rt.alloc(),
        &[
            (
                0,
                HALF_OPEN,
                "HTTP/1.1 200 OK",
                "\r\n\r\n{\"period\":2,\"state\":\"HALF_OPEN\"}",
            ),
            (
                500,
                HALF_OPEN,
                "HTTP/1.1 200 OK",
                "\r\n\r\n{\"period\":4,\"state\":\"HALF_OPEN\"}",
            ),
        ],
    );
}
