//! A longest stay in HALF_OPEN: each state with each event, a millisecond before the stay is over, when it is over, and a
//! millisecond later, on one service, as the lines of a replay, over HTTP, and through a seat of a desk over HTTP. What is to
//! be answered is worked out by a few rules of the test's own.
ghost use Rattle.std.specs.Prelude.{◌≡◌, map};
ghost use Rattle.desk.specs.Services.{service_of};

use crate::checks::{is_true_at, same};
use crate::commands::ends;
use crate::fixtures::{StandsAt, joined, open_desk, pay_to_open_with, pay_with};
use book::{Config, ConfigParts};
use counted_io::Counted;
use desk::Offered;
use http_front::{Answerer, Ended, serve};
use http_seats::SeatedAnswerer;
use service::OpenGate;
use std::alloc::Global;
use std::marker::Brand;
use std::process::Abort;
use std::sync::Wait;
use std::sync::ledger::{Blank, Ledger};
use verifier::Verified;

/// Two calls in HALF_OPEN, which lasts half a second at most, and a wait in OPEN of a second.
const HALF_A_SECOND: &str =
    "{\"permittedNumberOfCallsInHalfOpenState\":2,\"maxWaitDurationInHalfOpenState\":500,\"waitDurationInOpenState\":1000}\n";

const STATES: &[&str] = &[
    "CLOSED",
    "OPEN",
    "HALF_OPEN",
    "DISABLED",
    "METRICS_ONLY",
    "FORCED_OPEN",
];

const EVENTS: &[&str] = &[
    "a call",
    "a report",
    "a release",
    "a release of a spent ticket",
    "a release of no ticket",
    "a program",
    "to HALF_OPEN",
    "to OPEN",
    "a reset",
];

/// Something that is asked for at a moment, and how it is answered.
#[derive(Drop)]
struct Step {
    moment: u64,
    /// Its name in a replay, and in a path.
    name: &'static str,
    /// The members of its JSON besides, each behind a comma.
    members: String,
    status: &'static str,
    body: String,
}

/// The steps so far, and the numbers of what comes next.
#[derive(Drop)]
struct Steps {
    all: Vec<Step>,
    moment: u64,
    period: u64,
    ticket: u64,
    version: u64,
}

/// Where an event finds the breaker, and whether a ticket of this period is open.
#[derive(Clone, Copy)]
struct Found {
    state: &'static str,
    own: bool,
}

/// Whether a state permits calls, or some of them.
fn permits(state: &str) -> bool {
    !matches!(state, "OPEN" | "FORCED_OPEN")
}

/// One step more.
fn add(
    rt: &impl Abort,
    alloc: Global,
    steps: &mut Steps,
    name: &'static str,
    members: &str,
    status: &'static str,
    body: &str,
) {
    let step = Step {
        moment: steps.moment,
        name,
        members: joined(rt, alloc, &[members]),
        status,
        body: joined(rt, alloc, &[body]),
    };
    steps.all.push(step).expect(rt, "ample memory");
}

/// A call is permitted, under the next ticket.
fn permitted(rt: &impl Abort, alloc: Global, steps: &mut Steps, state: &str) {
    let Steps {
        ticket,
        version,
        ..
    } = *steps;
    let body = format!(in alloc;
        "{{\"state\":\"{state}\",\"ticket\":{ticket},\"version\":{version}}}"
    );
    let body = body.expect(rt, "ample memory");
    add(rt, alloc, steps, "acquire", "", "200", &body);
    steps.ticket = ticket.saturating_add(1);
}

/// A ticket is released, and the breaker stands in this state then.
fn released(rt: &impl Abort, alloc: Global, steps: &mut Steps, ticket: u64, state: &str) {
    let members = format!(in alloc; ",\"ticket\":{ticket}").expect(rt, "ample memory");
    let body = joined(
        rt,
        alloc,
        &["{\"fate\":\"released\",\"state\":\"", state, "\"}"],
    );
    add(rt, alloc, steps, "release", &members, "200", &body);
}

/// A release of a ticket that isn't open is refused so.
fn refused(rt: &impl Abort, alloc: Global, steps: &mut Steps, ticket: u64, body: &str) {
    let members = format!(in alloc; ",\"ticket\":{ticket}").expect(rt, "ample memory");
    add(rt, alloc, steps, "release", &members, "409", body);
}

/// The breaker is moved to a state, and a period begins.
fn moved(rt: &impl Abort, alloc: Global, steps: &mut Steps, name: &'static str, state: &str) {
    let period = steps.period.saturating_add(1);
    steps.period = period;
    let members = joined(rt, alloc, &[",\"state\":\"", state, "\""]);
    let body = format!(in alloc; "{{\"period\":{period},\"state\":\"{state}\"}}");
    let body = body.expect(rt, "ample memory");
    add(rt, alloc, steps, name, &members, "200", &body);
}

/// The outcome of a ticket is reported: the default classifier takes six steps to say that it is a success, a later
/// program two.
fn reported(rt: &impl Abort, alloc: Global, steps: &mut Steps, ticket: u64, found: Found) {
    let Found { state, own } = found;
    let version = steps.version;
    let count = if version == 1 { 6 } else { 2 };
    let fate = match state {
        _ if !own => "stale",
        "DISABLED" => "off",
        _ => "recorded",
    };
    let members = format!(in alloc; ",\"ticket\":{ticket},\"outcome\":{{\"status\":200}}");
    let members = members.expect(rt, "ample memory");
    let body = format!(in alloc;
        "{{\"fate\":\"{fate}\",\"state\":\"{state}\",\"steps\":{count},\"verdict\":\"success\",\"version\":{version}}}"
    );
    let body = body.expect(rt, "ample memory");
    add(rt, alloc, steps, "report", &members, "200", &body);
}

/// A program that says success to all is installed.
fn installed(rt: &impl Abort, alloc: Global, steps: &mut Steps) {
    let version = steps.version.saturating_add(1);
    steps.version = version;
    let members = ",\"program\":\"b700000000000000 9500000000000000\"";
    let body = format!(in alloc; "{{\"budget\":2,\"version\":{version}}}");
    let body = body.expect(rt, "ample memory");
    add(rt, alloc, steps, "install", members, "200", &body);
}

/// The event comes, where the first of two tickets is open, and the second was released.
fn happens(
    rt: &impl Abort,
    alloc: Global,
    steps: &mut Steps,
    event: &str,
    first: u64,
    found: Found,
) {
    let Found { state, .. } = found;
    match event {
        "a call" if permits(state) => permitted(rt, alloc, steps, state),
        "a call" => {
            let body = "{\"error\":31,\"name\":\"CallNotPermitted\"}";
            add(rt, alloc, steps, "acquire", "", "503", body);
        }
        "a report" => reported(rt, alloc, steps, first, found),
        "a release" => released(rt, alloc, steps, first, state),
        "a release of a spent ticket" => {
            let body = "{\"error\":34,\"name\":\"TicketSpent\"}";
            refused(rt, alloc, steps, first.saturating_add(1), body);
        }
        "a release of no ticket" => {
            let body = "{\"error\":33,\"name\":\"NoTicket\"}";
            refused(rt, alloc, steps, 1_000_000, body);
        }
        "a program" => installed(rt, alloc, steps),
        "to HALF_OPEN" => moved(rt, alloc, steps, "transition", "HALF_OPEN"),
        "to OPEN" => moved(rt, alloc, steps, "transition", "OPEN"),
        _ => moved(rt, alloc, steps, "reset", "CLOSED"),
    }
}

/// The breaker is moved to a state, where one of two tickets is open: of the state's own period, where the state
/// permits calls, else of CLOSED before it.
fn begins(rt: &impl Abort, alloc: Global, steps: &mut Steps, state: &'static str) {
    moved(rt, alloc, steps, "reset", "CLOSED");
    let second = steps.ticket.saturating_add(1);
    if permits(state) {
        moved(rt, alloc, steps, "transition", state);
        permitted(rt, alloc, steps, state);
        permitted(rt, alloc, steps, state);
    } else {
        permitted(rt, alloc, steps, "CLOSED");
        permitted(rt, alloc, steps, "CLOSED");
        moved(rt, alloc, steps, "transition", state);
    }
    released(rt, alloc, steps, second, state);
}

/// An event comes so many milliseconds after the breaker was moved to a state. A stay in HALF_OPEN that is over by then
/// ends before the event is taken, and no other one does. The period of the reset behind it tells how many there were.
fn comes(
    rt: &impl Abort,
    alloc: Global,
    steps: &mut Steps,
    state: &'static str,
    event: &str,
    later: u64,
) {
    let first = steps.ticket;
    begins(rt, alloc, steps, state);
    steps.moment = steps.moment.saturating_add(later);
    let mut found = Found {
        state,
        own: permits(state),
    };
    if state == "HALF_OPEN" && later >= 500 {
        steps.period = steps.period.saturating_add(1);
        found = Found {
            state: "OPEN",
            own: false,
        };
    }
    let third = steps.ticket;
    happens(rt, alloc, steps, event, first, found);
    moved(rt, alloc, steps, "reset", "CLOSED");
    if event != "a report" && event != "a release" {
        released(rt, alloc, steps, first, "CLOSED");
    }
    if steps.ticket > third {
        released(rt, alloc, steps, third, "CLOSED");
    }
    steps.moment = steps.moment.saturating_add(10_000);
}

/// Each event in a state, at each of the three moments.
fn come_in(rt: &impl Abort, alloc: Global, steps: &mut Steps, state: &'static str) {
    for event in EVENTS {
        for later in [499_u64, 500, 501] {
            comes(rt, alloc, steps, state, event, later);
        }
    }
}

/// Each event in each state, at each of the three moments.
fn all_steps(rt: &impl Abort, alloc: Global) -> Vec<Step> {
    let mut steps = Steps {
        all: Vec::new(alloc),
        moment: 0,
        period: 1,
        ticket: 1,
        version: 1,
    };
    for state in STATES {
        come_in(rt, alloc, &mut steps, state);
    }
    steps.all
}

/// The parts of the configuration.
fn half_a_second() -> ConfigParts {
    let mut parts = ConfigParts::DEFAULT;
    parts.permitted_number_of_calls_in_half_open_state = 2;
    parts.max_wait_duration_in_half_open_state = 500;
    parts.wait_duration_in_open_state = 1_000;
    parts
}

/// The message that asks for a step over HTTP. The keys of a replay's line that are none of its own are ignored.
fn message(rt: &impl Abort, alloc: Global, step: &Step) -> Vec<u8> {
    let name = step.name;
    let mut bytes = Vec::new(alloc);
    if name == "install" {
        let put =
            b"PUT /v1/services/pay/program HTTP/1.1\r\nContent-Length: 16\r\n\r\n\xb7\x00\x00\x00\x00\x00\x00\x00\x95\x00\x00\x00\x00\x00\x00\x00";
        bytes.extend_from_slice(put).expect(rt, "ample memory");
        return bytes;
    }
    let body = joined(rt, alloc, &["{\"at\":0", &step.members, "}"]);
    let length = body.len();
    let post = format!(in alloc;
        "POST /v1/services/pay/{name} HTTP/1.1\r\nContent-Length: {length}\r\n\r\n{body}"
    );
    let post = post.expect(rt, "ample memory");
    bytes
        .extend_from_slice(post.as_bytes())
        .expect(rt, "ample memory");
    bytes
}

/// A step is answered so over HTTP.
fn is_answered_over_http<A: Answerer, R: Wait + Abort>(
    rt: &R,
    alloc: Global,
    answerer: &mut A,
    step: &Step,
) {
    let input = message(rt, alloc, step);
    let mut reader = Counted::new(input.as_slice());
    let mut writer = Counted::new(Vec::new(alloc));
    let mut clock = StandsAt {
        moment: step.moment,
    };
    let ended = serve(rt, alloc, &mut reader, &mut writer, answerer, &mut clock);
    same(rt, ended, Ended::Closed);
    let text = writer.inner().as_slice();
    let begin = joined(rt, alloc, &["HTTP/1.1 ", step.status, " "]);
    let end = joined(rt, alloc, &["\r\n\r\n", &step.body]);
    is_true_at(rt, text.starts_with(begin.as_bytes()), text);
    is_true_at(rt, text.ends_with(end.as_bytes()), text);
}

/// All steps are answered so over HTTP, one after another.
fn are_answered_over_http<A: Answerer, R: Wait + Abort>(rt: &R, alloc: Global, answerer: &mut A) {
    for step in &all_steps(rt, alloc) {
        is_answered_over_http(rt, alloc, answerer, step);
    }
}

#[test]
fn each_event_finds_the_longest_stay_over_in_a_replay(rt: HostRuntime) {
    let rt = &rt;
    let alloc = rt.alloc();
    let mut input = joined(rt, alloc, &[HALF_A_SECOND]);
    let mut printed = String::new(alloc);
    for step in &all_steps(rt, alloc) {
        let Step {
            moment,
            name,
            members,
            status,
            body,
        } = step;
        let line = format!(in alloc; "{{\"at\":{moment},\"do\":\"{name}\"{members}}}\n");
        let line = line.expect(rt, "ample memory");
        input.push_str(&line).expect(rt, "ample memory");
        let answer = format!(in alloc; "{status} {body}\n").expect(rt, "ample memory");
        printed.push_str(&answer).expect(rt, "ample memory");
    }
    ends(rt, alloc, &["replay"], input.as_bytes(), 0, &printed);
}

#[test]
fn each_event_finds_the_longest_stay_over_by_http(rt: HostRuntime) {
    let mut books = pay_with(&rt, rt.alloc(), half_a_second());
    are_answered_over_http(&rt, rt.alloc(), &mut books);
}

/// The same by a seat of a desk with this service.
fn are_answered_at_a_desk<L: Ledger, M: Ledger + Offered, R: Wait + Abort>(
    rt: &R,
    alloc: Global,
    entries: Blank,
    cuts: Blank,
    services: Vec<(String, Config, Verified)>,
)
    requires entries_name { entries.name ≡ L.name }
    requires entries_parts { (entries.parts ≡ L.parts) × (L.parts ≡ 193) }
    requires cuts_name { cuts.name ≡ M.name }
    requires cuts_parts { (cuts.parts ≡ M.parts) × (M.parts ≡ 193) }
    requires offered { M.services ≡ map service_of services.items }
{
    let mut desk = open_desk::<L, M, R>(rt, alloc, entries, cuts, services);
    let seat = desk.sit().expect(rt, "a seat");
    let mut answerer = SeatedAnswerer::new(rt, alloc, &desk, &[], seat, &OpenGate);
    are_answered_over_http(rt, alloc, &mut answerer);
}

#[test]
fn each_event_finds_the_longest_stay_over_by_a_seat(rt: HostRuntime) {
    let services = pay_to_open_with(&rt, rt.alloc(), half_a_second());
    are_answered_at_a_desk::<Brand, Brand, HostRuntime>(
        &rt,
        rt.alloc(),
        Blank::new(193),
        Blank::new(193),
        services,
    );
}
