//! Layouts of the record that the query of an install names. What is answered to such an install is told by the rows in
//! `checks/messages`.
use crate::checks::{is_true_at, same_at};
use http_front::body_asks;
use http_routes::{Route, query_of};
use refusals::RefusalNumber;
use service::Request;
use std::alloc::Global;
use std::process::Abort;
use texts::JsonReader;

/// Asks for byte 64 of the body's front, and answers a failure where it is 128 or more.
const BY_BYTE_64: &[u8] =
    b"\xb7\x01\x00\x00\x40\x00\x00\x00\x85\x00\x00\x00\x02\x00\x00\x00\x77\x00\x00\x00\x07\x00\x00\x00\x95\x00\x00\x00\x00\x00\x00\x00";

/// What stands behind the first question mark of each target.
fn are_queries(rt: &impl Abort, rows: &[(&[u8], &[u8])]) {
    for row in rows {
        let (target, query) = *row;
        same_at(rt, query_of(target), query, target);
    }
}

#[test]
fn queries_stand_behind_a_question_mark(rt: HostRuntime) {
    are_queries(
        &rt,
        &[
            (b"", b""),
            (b"?", b""),
            (b"/", b""),
            (b"/program", b""),
            (b"/program?", b""),
            (b"/program?a", b"a"),
            (b"/program?a=/b/c", b"a=/b/c"),
            (b"/program??a", b"?a"),
            (b"/program?a?b", b"a?b"),
            (b"?\xff", b"\xff"),
            (b"/program#layout=2", b""),
        ],
    );
}

/// The number of the layout for which a program is to be installed.
fn layout(rt: &impl Abort, alloc: Global, query: &[u8]) -> Result<u64, RefusalNumber> {
    let mut json = JsonReader::new(alloc);
    let asked = body_asks(alloc, &mut json, Route::Program, None, query, BY_BYTE_64);
    match asked.expect(rt, "ample memory")? {
        Request::Install { program, layout } => {
            same_at(rt, program.as_slice(), BY_BYTE_64, query);
            Ok(layout.number())
        }
        _ => Ok(0),
    }
}

/// Each query names the layout of this number.
fn are_layouts(rt: &impl Abort, alloc: Global, rows: &[(&[u8], u64)]) {
    for row in rows {
        let (query, number) = *row;
        same_at(rt, layout(rt, alloc, query), Ok(number), query);
    }
}

#[test]
fn queries_name_layouts(rt: HostRuntime) {
    are_layouts(
        &rt,
        rt.alloc(),
        &[
            (b"", 1),
            (b"layout=1", 1),
            (b"layout=2", 2),
            (b"x=1&layout=2&y", 2),
            (b"layout=2&layout=2", 2),
            (b"layout=1&&layout=1", 1),
            (b"&", 1),
            (b"&layout=2", 2),
            (b"layout=2&", 2),
            (b"layout", 1),
            (b"layout&layout=2", 2),
            (b"layouts=2", 1),
            (b"Layout=2", 1),
            (b" layout=2", 1),
            (b"x=layout=2", 1),
            (b"x?layout=2", 1),
            (b"%6cayout=2", 1),
            (b"layout=1&\xff=3", 1),
        ],
    );
}

/// Each query is refused.
fn are_no_layouts(rt: &impl Abort, alloc: Global, queries: &[&[u8]]) {
    for query in queries {
        let found = layout(rt, alloc, query);
        same_at(rt, found, Err(RefusalNumber::BadValue), query);
    }
}

#[test]
fn other_layouts_are_bad_values(rt: HostRuntime) {
    are_no_layouts(
        &rt,
        rt.alloc(),
        &[
            b"layout=3",
            b"layout=",
            b"layout=0",
            b"layout=12",
            b"layout=02",
            b"layout=+2",
            b"layout=2 ",
            b"layout=2;x",
            b"layout=%32",
            b"layout=\xff",
            b"layout==2",
            b"layout=2?",
            b"layout=1&layout=2",
            b"layout=2&layout=1",
            b"layout=2&layout=02",
            b"layout=2&layout=",
            b"layout=&layout=2",
            b"layout=3&layout=3",
            b"x&layout=2&y&layout=1",
        ],
    );
}

/// A route is asked with each of these queries, and refuses none.
fn ignores(rt: &impl Abort, alloc: Global, route: Route, number: Option<&str>, body: &[u8]) {
    let mut json = JsonReader::new(alloc);
    for query in [b"layout=2".as_slice(), b"layout=3", b"layout=1&layout=2"] {
        let asked = body_asks(alloc, &mut json, route, number, query, body);
        let asked = asked.expect(rt, "ample memory");
        is_true_at(rt, asked.is_ok(), (route, query));
    }
}

#[test]
fn other_routes_ignore_the_query(rt: HostRuntime) {
    let rt = &rt;
    let alloc = rt.alloc();
    ignores(rt, alloc, Route::Acquire, None, b"");
    ignores(
        rt,
        alloc,
        Route::Report,
        None,
        b"{\"ticket\":1,\"outcome\":{}}",
    );
    ignores(rt, alloc, Route::Release, None, b"{\"ticket\":1}");
    ignores(rt, alloc, Route::Transition, None, b"{\"state\":\"OPEN\"}");
    ignores(rt, alloc, Route::Reset, None, b"");
    ignores(rt, alloc, Route::Cut, None, b"");
    ignores(rt, alloc, Route::Roll, None, b"{\"to\":1}");
    ignores(rt, alloc, Route::State, None, b"");
    ignores(rt, alloc, Route::Journal, Some("1"), b"");
}
