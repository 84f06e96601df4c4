//! Two seats of a desk, which ask over HTTP in memory.
ghost use Rattle.std.specs.Prelude.{◌≡◌, map};
ghost use Rattle.desk.specs.Services.{service_of};

use crate::checks::{is_true, is_true_at, same};
use crate::fixtures::{Still, open_desk, pay_to_open};
use book::Config;
use counted_io::Counted;
use desk::Offered;
use http_front::{Answerer, serve};
use http_seats::SeatedAnswerer;
use service::OpenGate;
use std::alloc::Global;
use std::marker::Brand;
use std::process::Abort;
use std::sync::Wait;
use std::sync::ledger::{Blank, Ledger};
use verifier::Verified;

const ACQUIRE: &str = "POST /v1/services/pay/acquire HTTP/1.1\r\n\r\n";

const REPORT: &str =
    "POST /v1/services/pay/report HTTP/1.1\r\nContent-Length: 37\r\n\r\n{\"ticket\":1,\"outcome\":{\"status\":500}}";

const INSTALL: &[u8] =
    b"PUT /v1/services/pay/program HTTP/1.1\r\nContent-Length: 16\r\n\r\n\xb7\x00\x00\x00\x02\x00\x00\x00\x95\x00\x00\x00\x00\x00\x00\x00";

const JOURNAL: &str = "GET /v1/services/pay/journal/3 HTTP/1.1\r\n\r\n";

const ROLL: &str = "POST /v1/services/pay/roll HTTP/1.1\r\nContent-Length: 8\r\n\r\n{\"to\":2}";

const LIST: &str = "GET /v1/services HTTP/1.1\r\n\r\n";

const TICKET: &str = "{\"state\":\"CLOSED\",\"ticket\":1,\"version\":1}";

const INSTALLED: &str = "{\"budget\":2,\"version\":2}";

const RECORDED: &str =
    "{\"fate\":\"recorded\",\"state\":\"CLOSED\",\"steps\":6,\"verdict\":\"failure\",\"version\":1}";

const SPENT: &str = "{\"error\":34,\"name\":\"TicketSpent\"}";

/// How the page of the journal ends.
const LAST_ENTRY: &str = "\"seat\":2,\"ticket\":1}],\"next\":4}";

/// How the list of services ends.
const LISTED: &str = "\"state\":\"CLOSED\",\"total\":1,\"version\":2}}]}";

/// The answer to an input ends so.
fn answers<A: Answerer, R: Wait + Abort>(
    rt: &R,
    alloc: Global,
    answerer: &mut A,
    input: &[u8],
    ending: &str,
) {
    let mut reader = Counted::new(input);
    let mut writer = Counted::new(Vec::new(alloc));
    let _ended = serve(rt, alloc, &mut reader, &mut writer, answerer, &mut Still);
    let text = writer.inner().as_slice();
    is_true_at(rt, text.ends_with(ending.as_bytes()), text);
}

/// Two seats ask a service by turns, and are answered so.
fn ask_by_turns<A: Answerer, R: Wait + Abort>(
    rt: &R,
    alloc: Global,
    first: &mut A,
    second: &mut A,
) {
    answers(rt, alloc, first, ACQUIRE.as_bytes(), TICKET);
    answers(rt, alloc, second, INSTALL, INSTALLED);
    // The ticket's version judges, whatever is current.
    answers(rt, alloc, second, REPORT.as_bytes(), RECORDED);
    answers(rt, alloc, first, REPORT.as_bytes(), SPENT);
    answers(rt, alloc, first, JOURNAL.as_bytes(), LAST_ENTRY);
    answers(rt, alloc, second, ROLL.as_bytes(), "{\"entries\":2}");
    answers(rt, alloc, first, JOURNAL.as_bytes(), LAST_ENTRY);
    answers(rt, alloc, second, LIST.as_bytes(), LISTED);
    is_true(rt, first.find("none").is_none());
}

/// What two seats of a desk ask a service, and how many entries each of them has made.
fn asked_by_two<L: Ledger, M: Ledger + Offered, R: Wait + Abort>(
    rt: &R,
    alloc: Global,
    entries: Blank,
    cuts: Blank,
    services: Vec<(String, Config, Verified)>,
)
    requires entries_name { entries.name ≡ L.name }
    requires entries_parts { (entries.parts ≡ L.parts) × (L.parts ≡ 193) }
    requires cuts_name { cuts.name ≡ M.name }
    requires cuts_parts { (cuts.parts ≡ M.parts) × (M.parts ≡ 193) }
    requires offered { M.services ≡ map service_of services.items }
{
    let mut desk = open_desk::<L, M, R>(rt, alloc, entries, cuts, services);
    let first = desk.sit().expect(rt, "a first seat");
    let second = desk.sit().expect(rt, "a second seat");
    let gate = OpenGate;
    let mut first = SeatedAnswerer::new(rt, alloc, &desk, &[], first, &gate);
    let mut second = SeatedAnswerer::new(rt, alloc, &desk, &[], second, &gate);
    ask_by_turns(rt, alloc, &mut first, &mut second);
    same(rt, first.into_seat().count(), 1);
    same(rt, second.into_seat().count(), 2);
}

#[test]
fn seats_ask_over_http(rt: HostRuntime) {
    let services = pay_to_open(&rt, rt.alloc());
    asked_by_two::<Brand, Brand, HostRuntime>(
        &rt,
        rt.alloc(),
        Blank::new(193),
        Blank::new(193),
        services,
    );
}
