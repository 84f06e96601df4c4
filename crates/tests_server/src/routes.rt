//! Paths with the routes that they find, row by row, and texts that are numbers of entries or none.
use crate::checks::{is_true_at, same_at};
use http_routes::{Route, Routes, entry_number};
use refusals::RefusalNumber;
use std::alloc::Global;
use std::process::Abort;

fn routes(rt: &impl Abort, alloc: Global) -> Routes {
    Routes::new(alloc).expect(rt, "ample memory")
}

/// A path finds this route of this service, with this number.
fn is_found(
    rt: &impl Abort,
    routes: &Routes,
    target: &[u8],
    route: Route,
    service: &[u8],
    number: Option<&str>,
) {
    let found = routes.find(target).expect(rt, "a route");
    same_at(rt, found.route, route, target);
    let name = found.service.expect(rt, "a service");
    same_at(rt, name.as_bytes(), service, target);
    same_at(rt, found.number, number, target);
}

/// A path, its route, and the word and the method of that.
type Named<'a> = (&'a str, Route, &'a str, &'a str);

/// Each path finds its route of the service `pay`.
fn are_named(rt: &impl Abort, routes: &Routes, rows: &[Named<'_>]) {
    for row in rows {
        let (target, route, word, method) = *row;
        is_found(rt, routes, target.as_bytes(), route, b"pay", None);
        same_at(rt, route.word(), word, target);
        same_at(rt, route.method(), method, target);
    }
}

#[test]
fn each_word_names_its_route(rt: HostRuntime) {
    are_named(
        &rt,
        &routes(&rt, rt.alloc()),
        &[
            (
                "/v1/services/pay/acquire",
                Route::Acquire,
                "acquire",
                "POST",
            ),
            ("/v1/services/pay/report", Route::Report, "report", "POST"),
            (
                "/v1/services/pay/release",
                Route::Release,
                "release",
                "POST",
            ),
            (
                "/v1/services/pay/transition",
                Route::Transition,
                "transition",
                "POST",
            ),
            ("/v1/services/pay/reset", Route::Reset, "reset", "POST"),
            ("/v1/services/pay/cut", Route::Cut, "cut", "POST"),
            ("/v1/services/pay/roll", Route::Roll, "roll", "POST"),
            ("/v1/services/pay/program", Route::Program, "program", "PUT"),
            ("/v1/services/pay/state", Route::State, "state", "GET"),
        ],
    );
}

/// Each path finds the journal of the service `pay`, with its number.
fn are_journals(rt: &impl Abort, routes: &Routes, rows: &[(&str, &str)]) {
    for row in rows {
        let (target, number) = *row;
        is_found(
            rt,
            routes,
            target.as_bytes(),
            Route::Journal,
            b"pay",
            Some(number),
        );
    }
}

#[test]
fn journal_has_a_number(rt: HostRuntime) {
    let rt = &rt;
    are_journals(
        rt,
        &routes(rt, rt.alloc()),
        &[
            ("/v1/services/pay/journal/1", "1"),
            (
                "/v1/services/pay/journal/18446744073709551616",
                "18446744073709551616",
            ),
            ("/v1/services/pay/journal/+5", "+5"),
            ("/v1/services/pay/journal/x", "x"),
            ("/v1/services/pay/journal/7?from=8", "7"),
            ("/v1/services/pay/journal/%37", "%37"),
        ],
    );
    same_at(rt, Route::Journal.word(), "journal", "word");
    same_at(rt, Route::Journal.method(), "GET", "method");
}

/// Each path finds the list of all services.
fn are_lists(rt: &impl Abort, routes: &Routes, targets: &[&[u8]]) {
    for target in targets {
        let found = routes.find(target).expect(rt, "a route");
        same_at(rt, found.route, Route::Services, target);
        is_true_at(rt, found.service.is_none(), target);
        is_true_at(rt, found.number.is_none(), target);
    }
}

#[test]
fn all_services_have_one_path(rt: HostRuntime) {
    let rt = &rt;
    are_lists(
        rt,
        &routes(rt, rt.alloc()),
        &[
            b"/v1/services",
            b"/v1/services?",
            b"/v1/services?a=/b/state",
            b"/v1/services?/pay/state",
            b"/v1/services?\xff",
        ],
    );
    same_at(rt, Route::Services.word(), "services", "word");
    same_at(rt, Route::Services.method(), "GET", "method");
}

/// Each path finds its route of its service.
fn are_of_services(rt: &impl Abort, routes: &Routes, rows: &[(&[u8], Route, &[u8])]) {
    for row in rows {
        let (target, route, service) = *row;
        is_found(rt, routes, target, route, service, None);
    }
}

#[test]
fn services_are_one_segment(rt: HostRuntime) {
    are_of_services(
        &rt,
        &routes(&rt, rt.alloc()),
        &[
            (b"/v1/services/a/state", Route::State, b"a"),
            (b"/v1/services/state/state", Route::State, b"state"),
            (b"/v1/services/journal/cut", Route::Cut, b"journal"),
            (b"/v1/services/services/cut", Route::Cut, b"services"),
            (b"/v1/services/acquire/report", Route::Report, b"acquire"),
            (b"/v1/services/%2F/cut", Route::Cut, b"%2F"),
            (b"/v1/services/pay%20/cut", Route::Cut, b"pay%20"),
            (b"/v1/services/{service}/cut", Route::Cut, b"{service}"),
            (b"/v1/services/a:b@c/cut", Route::Cut, b"a:b@c"),
            (b"/v1/services/./cut", Route::Cut, b"."),
            (b"/v1/services/../cut", Route::Cut, b".."),
            (b"/v1/services/pay/cut?", Route::Cut, b"pay"),
            (b"/v1/services/pay/cut?a=/b/c", Route::Cut, b"pay"),
            (b"/v1/services/pay/cut??", Route::Cut, b"pay"),
            (b"/v1/services/pay/cut?\xff", Route::Cut, b"pay"),
            (b"/v1/services/\xc3\xa9/cut", Route::Cut, b"\xc3\xa9"),
            (b"/v1/services/roll/roll?to=5", Route::Roll, b"roll"),
        ],
    );
}

/// No path finds a route.
fn find_nothing(rt: &impl Abort, routes: &Routes, targets: &[&[u8]]) {
    for target in targets {
        is_true_at(rt, routes.find(target).is_none(), target);
    }
}

#[test]
fn other_paths_find_nothing(rt: HostRuntime) {
    find_nothing(
        &rt,
        &routes(&rt, rt.alloc()),
        &[
            b"",
            b"/",
            b"*",
            b"/v1",
            b"/v1/service",
            b"/v1/services/",
            b"/v1/services/?a",
            b"/v1/services//",
            b"/v1/servicess",
            b"/v1/Services",
            b"/v1//services",
            b"v1/services",
            b"/v1/services#a",
            b"/v1/services/pay",
            b"/v1/services/pay/",
            b"/v1/services/acquire",
            b"/v1/services//acquire",
            b"/v1/services///acquire",
            b"/v1/services/a/b/acquire",
            b"/v1/services/pay/acquire/",
            b"/v1/services/pay/acquire//",
            b"/v1/services/pay//acquire",
            b"/v1/services/pay/acquire/1",
            b"/v1/services/pay/acquir",
            b"/v1/services/pay/acquired",
            b"/v1/services/pay/Acquire",
            b"/v1/services/pay/%61cquire",
            b"/v1/services/pay/re",
            b"/v1/services/pay/rep",
            b"/v1/services/pay/resett",
            b"/v1/services/pay/relport",
            b"/v1/services/pay/install",
            b"/v1/services/pay/journal",
            b"/v1/services/pay/journal/",
            b"/v1/services/pay/journal//",
            b"/v1/services/pay/journal/1/",
            b"/v1/services/pay/journal/1/2",
            b"/v1/services//journal/1",
            b"/v1/services/a/b/journal/1",
            b"v1/services/pay/acquire",
            b"//v1/services/pay/acquire",
            b"/v1//services/pay/acquire",
            b"/v1/service/pay/acquire",
            b"/v2/services/pay/acquire",
            b"/V1/services/pay/acquire",
            b"/x/v1/services/pay/acquire",
            b" /v1/services/pay/acquire",
            b"/v1/services/pay/acquire ",
            b"/v1/services/pay/acquire#here",
            b"/v1/services/pay?/acquire",
            b"?/v1/services/pay/acquire",
            b"http://a/v1/services/pay/acquire",
            b"/v1/services/\xff/acquire",
            b"/v1/services/pay\xc3/acquire",
        ],
    );
}

/// A method, and whether that acquires, installs and shows.
type Taken<'a> = (&'a str, bool, bool, bool);

/// Whether routes take these methods.
fn are_taken(rt: &impl Abort, rows: &[Taken<'_>]) {
    for row in rows {
        let (method, acquires, installs, shows) = *row;
        let bytes = method.as_bytes();
        same_at(rt, Route::Acquire.takes(bytes), acquires, method);
        same_at(rt, Route::Program.takes(bytes), installs, method);
        same_at(rt, Route::State.takes(bytes), shows, method);
        same_at(rt, Route::Journal.takes(bytes), shows, method);
        same_at(rt, Route::Services.takes(bytes), shows, method);
    }
}

#[test]
fn routes_take_one_method(rt: HostRuntime) {
    are_taken(
        &rt,
        &[
            ("POST", true, false, false),
            ("PUT", false, true, false),
            ("GET", false, false, true),
            ("HEAD", false, false, false),
            ("DELETE", false, false, false),
            ("get", false, false, false),
            ("POSTS", false, false, false),
            ("", false, false, false),
        ],
    );
}

/// The numbers that texts are; none is a bad value.
fn are_numbers(rt: &impl Abort, rows: &[(&str, Option<u64>)]) {
    for row in rows {
        let (text, number) = *row;
        let wanted = number.ok_or(RefusalNumber::BadValue);
        same_at(rt, entry_number(text), wanted, text);
    }
}

#[test]
fn numbers_are_digits(rt: HostRuntime) {
    are_numbers(
        &rt,
        &[
            ("0", Some(0)),
            ("1", Some(1)),
            ("007", Some(7)),
            ("18446744073709551615", Some(u64::MAX)),
            (
                "00000000000000000000000000000018446744073709551615",
                Some(u64::MAX),
            ),
            ("18446744073709551616", None),
            ("99999999999999999999999999", None),
            ("", None),
            ("+5", None),
            ("-5", None),
            ("+", None),
            ("5 ", None),
            (" 5", None),
            ("1.0", None),
            ("1e2", None),
            ("0x1", None),
            ("%31", None),
            ("é", None),
        ],
    );
}
