//! That answers are written with ample memory, and their text and statuses, row by row.
use crate::checks::{same, same_at};
use answers::{body, status};
use book::{Book, Config, ConfigParts, Event, Fate, Reading, Reply, State};
use bpf_profile::{Layout, Verdict};
use bpf_run::judge;
use helpers::Record;
use packed_outcomes::PackedOutcome;
use refusals::RefusalNumber;
use service::Response;
use std::alloc::{AllocError, Global};
use std::process::Abort;
use std::sync::Arc;
use verifier::{Refusal, Verified, default_classifier};

/// Checks the status and the body of a response.
fn is_written(rt: &impl Abort, alloc: Global, response: Response, code: u16, text: &str) {
    let found = body(alloc, &response).expect(rt, "ample memory");
    same_at(rt, found.as_slice(), text.as_bytes(), text);
    same_at(rt, status(&response), code, text);
}

/// A reply, its status and its body.
type Replied = (Reply, u16, &'static str);

/// Checks how replies are written.
fn replies_are(rt: &impl Abort, alloc: Global, rows: &[Replied]) {
    for row in rows {
        let (reply, code, text) = *row;
        is_written(rt, alloc, Response::Reply(reply), code, text);
    }
}

#[test]
fn replies_are_written(rt: HostRuntime) {
    replies_are(
        &rt,
        rt.alloc(),
        &[
            (
                Reply::Refused(RefusalNumber::CallNotPermitted),
                503,
                "{\"error\":31,\"name\":\"CallNotPermitted\"}",
            ),
            (
                Reply::Refused(RefusalNumber::BulkheadFull),
                429,
                "{\"error\":32,\"name\":\"BulkheadFull\"}",
            ),
            (
                Reply::Refused(RefusalNumber::TicketSpent),
                409,
                "{\"error\":34,\"name\":\"TicketSpent\"}",
            ),
            (
                Reply::Refused(RefusalNumber::BadJson),
                400,
                "{\"error\":58,\"name\":\"BadJson\"}",
            ),
            (
                Reply::Refused(RefusalNumber::BadValue),
                422,
                "{\"error\":59,\"name\":\"BadField\"}",
            ),
            (
                Reply::Permitted {
                    ticket: 7,
                    version: 2,
                    state: State::HalfOpen,
                },
                200,
                "{\"state\":\"HALF_OPEN\",\"ticket\":7,\"version\":2}",
            ),
            (
                Reply::Finished {
                    fate: Fate::Stale,
                    verdict: Verdict::Failure,
                    steps: 6,
                    version: 1,
                    state: State::ForcedOpen,
                },
                200,
                "{\"fate\":\"stale\",\"state\":\"FORCED_OPEN\",\"steps\":6,\"verdict\":\"failure\",\"version\":1}",
            ),
            (
                Reply::Finished {
                    fate: Fate::Off,
                    verdict: Verdict::Ignored,
                    steps: 4096,
                    version: 256,
                    state: State::Disabled,
                },
                200,
                "{\"fate\":\"off\",\"state\":\"DISABLED\",\"steps\":4096,\"verdict\":\"ignored\",\"version\":256}",
            ),
            (
                Reply::Finished {
                    fate: Fate::Ignored,
                    verdict: Verdict::Success,
                    steps: 2,
                    version: 3,
                    state: State::MetricsOnly,
                },
                200,
                "{\"fate\":\"ignored\",\"state\":\"METRICS_ONLY\",\"steps\":2,\"verdict\":\"success\",\"version\":3}",
            ),
            (
                Reply::Released { state: State::Open },
                200,
                "{\"fate\":\"released\",\"state\":\"OPEN\"}",
            ),
            (
                Reply::Installed {
                    version: 2,
                    budget: 2,
                    layout: Layout::One,
                },
                200,
                "{\"budget\":2,\"version\":2}",
            ),
            (
                Reply::Installed {
                    version: 3,
                    budget: 4,
                    layout: Layout::Two,
                },
                200,
                "{\"budget\":4,\"layout\":2,\"version\":3}",
            ),
            (
                Reply::Moved {
                    state: State::HalfOpen,
                    period: 2,
                },
                200,
                "{\"period\":2,\"state\":\"HALF_OPEN\"}",
            ),
        ],
    );
}

/// A refusal of a program, its status and its body.
type Refused = (Refusal, u16, &'static str);

/// Checks how refusals of programs are written.
fn refusals_are(rt: &impl Abort, alloc: Global, rows: &[Refused]) {
    for row in rows {
        let (refusal, code, text) = *row;
        is_written(rt, alloc, Response::ProgramRefused(refusal), code, text);
    }
}

#[test]
fn refused_programs_are_written(rt: HostRuntime) {
    refusals_are(
        &rt,
        rt.alloc(),
        &[
            (
                Refusal {
                    slot: 1,
                    number: RefusalNumber::AnswerRange,
                },
                422,
                "{\"error\":22,\"name\":\"AnswerRange\",\"slot\":1}",
            ),
            (
                Refusal {
                    slot: 0,
                    number: RefusalNumber::ProgramOutOfMemory,
                },
                503,
                "{\"error\":23,\"name\":\"OutOfMemory\",\"slot\":0}",
            ),
        ],
    );
}

/// Checks what a cut of so many entries is written as.
fn is_cut(rt: &impl Abort, alloc: Global, entries: u32, text: &str) {
    let mut book = book(rt, alloc);
    for _ in 0..entries {
        apply(&mut book, 1, 0, Event::Reset);
    }
    let cut = book.cut().expect(rt, "ample memory");
    is_written(rt, alloc, Response::HandedOut(cut), 200, text);
}

#[test]
fn cuts_are_written(rt: HostRuntime) {
    let alloc = rt.alloc();
    is_cut(&rt, alloc, 0, "{\"entries\":0}");
    is_cut(&rt, alloc, 65_536, "{\"entries\":65536}");
}

#[test]
fn readings_are_written(rt: HostRuntime) {
    let reading = Reading {
        state: State::Closed,
        period: 1,
        version: 1,
        budget: 6,
        total: 3,
        failed: 1,
        slow: 0,
        failure_rate: Some(33),
        slow_rate: None,
        open_tickets: 2,
        free: 23,
        not_permitted: 4,
        entries: u64::MAX,
        oldest_ticket: None,
    };
    let text =
        "{\"budget\":6,\"entries\":18446744073709551615,\"failed\":1,\"failureRate\":33,\"free\":23,\"notPermitted\":4,\"open\":2,\"period\":1,\"slow\":0,\"slowRate\":-1,\"state\":\"CLOSED\",\"total\":3,\"version\":1}";
    is_written(&rt, rt.alloc(), Response::Reading(reading), 200, text);
}

/// The default classifier.
fn classifier(rt: &impl Abort, alloc: Global) -> Verified {
    default_classifier(alloc).expect(rt, "the default classifier")
}

/// A book of the defaults with the default classifier.
fn book(rt: &impl Abort, alloc: Global) -> Book {
    let config = Config::new(ConfigParts::DEFAULT).expect(rt, "the defaults");
    Book::open(alloc, config, classifier(rt, alloc)).expect(rt, "ample memory")
}

/// An event of a seat at a moment, whatever is replied.
fn apply(book: &mut Book, seat: u32, moment: u64, event: Event) {
    book.apply(seat, moment, event);
}

/// The end of a ticket with the outcome of a call that was answered.
fn finish(rt: &impl Abort, alloc: Global, book: &Book, ticket: u64) -> Event {
    let program = book.look(ticket).expect(rt, "an open ticket");
    let record = Record::from_parts([0; 192], [0; 16], &[]).expect(rt, "an empty tag");
    let outcome = PackedOutcome::pack(alloc, &record).expect(rt, "ample memory");
    Event::Finish(judge(program, outcome), ticket)
}

/// An install of the default classifier.
fn install(rt: &impl Abort, alloc: Global) -> Event {
    let program = Arc::new(alloc, classifier(rt, alloc));
    Event::Install(program.expect(rt, "ample memory"))
}

/// The text of a page of these entries.
fn page_of(alloc: Global, entries: &[&str], next: &str) -> Result<String, AllocError> {
    let mut text = String::new(alloc);
    text.push_str("{\"entries\":[")?;
    for (place, entry) in entries.iter().enumerate() {
        if place > 0 {
            text.push_str(",")?;
        }
        text.push_str(*entry)?;
    }
    text.push_str("],\"next\":")?;
    text.push_str(next)?;
    text.push_str("}")?;
    Ok(text)
}

/// Checks the texts of all entries of a book.
fn are_entries(rt: &impl Abort, alloc: Global, book: &Book, rows: &[&str], next: &str) {
    let entries = book.page(1).expect(rt, "ample memory");
    let text = page_of(alloc, rows, next).expect(rt, "ample memory");
    let page = Response::Page { from: 1, entries };
    is_written(rt, alloc, page, 200, text.as_str());
}

#[test]
fn entries_are_written(rt: HostRuntime) {
    let rt = &rt;
    let alloc = rt.alloc();
    let mut book = book(rt, alloc);
    apply(&mut book, 1, 1000, Event::Acquire);
    let finished = finish(rt, alloc, &book, 1);
    apply(&mut book, 2, 900, finished);
    apply(&mut book, 2, 0, install(rt, alloc));
    apply(&mut book, 2, 0, Event::Acquire);
    apply(&mut book, 2, 0, Event::Release(2));
    apply(&mut book, 2, 0, Event::Move(State::ForcedOpen));
    apply(&mut book, 2, 1001, Event::Reset);
    are_entries(
        rt,
        alloc,
        &book,
        &[
            "{\"event\":\"acquire\",\"moment\":1000,\"number\":1,\"reply\":{\"state\":\"CLOSED\",\"ticket\":1,\"version\":1},\"seat\":1}",
            "{\"event\":\"report\",\"moment\":1000,\"number\":2,\"reply\":{\"fate\":\"recorded\",\"state\":\"CLOSED\",\"steps\":6,\"verdict\":\"success\",\"version\":1},\"seat\":2,\"ticket\":1}",
            "{\"event\":\"install\",\"moment\":1000,\"number\":3,\"reply\":{\"budget\":6,\"version\":2},\"seat\":2}",
            "{\"event\":\"acquire\",\"moment\":1000,\"number\":4,\"reply\":{\"state\":\"CLOSED\",\"ticket\":2,\"version\":2},\"seat\":2}",
            "{\"event\":\"release\",\"moment\":1000,\"number\":5,\"reply\":{\"fate\":\"released\",\"state\":\"CLOSED\"},\"seat\":2,\"ticket\":2}",
            "{\"event\":\"transition\",\"moment\":1000,\"number\":6,\"reply\":{\"period\":2,\"state\":\"FORCED_OPEN\"},\"seat\":2,\"to\":\"FORCED_OPEN\"}",
            "{\"event\":\"reset\",\"moment\":1001,\"number\":7,\"reply\":{\"period\":3,\"state\":\"CLOSED\"},\"seat\":2}",
        ],
        "8",
    );
}

/// Checks the page of a book from an entry on.
fn is_page(rt: &impl Abort, alloc: Global, book: &Book, from: u64, text: &str) {
    let entries = book.page(from).expect(rt, "ample memory");
    is_written(rt, alloc, Response::Page { from, entries }, 200, text);
}

#[test]
fn pages_are_written(rt: HostRuntime) {
    let rt = &rt;
    let alloc = rt.alloc();
    let mut book = book(rt, alloc);
    apply(&mut book, 1, 7, Event::Acquire);
    let first =
        "{\"entries\":[{\"event\":\"acquire\",\"moment\":7,\"number\":1,\"reply\":{\"state\":\"CLOSED\",\"ticket\":1,\"version\":1},\"seat\":1}],\"next\":2}";
    is_page(rt, alloc, &book, 1, first);
    same(rt, first.len(), 123);
    apply(&mut book, 2, 8, Event::Release(1));
    let both =
        "{\"entries\":[{\"event\":\"acquire\",\"moment\":7,\"number\":1,\"reply\":{\"state\":\"CLOSED\",\"ticket\":1,\"version\":1},\"seat\":1},{\"event\":\"release\",\"moment\":8,\"number\":2,\"reply\":{\"fate\":\"released\",\"state\":\"CLOSED\"},\"seat\":2,\"ticket\":1}],\"next\":3}";
    is_page(rt, alloc, &book, 1, both);
    is_page(rt, alloc, &book, 3, "{\"entries\":[],\"next\":3}");
    let last = "{\"entries\":[],\"next\":18446744073709551615}";
    is_page(rt, alloc, &book, u64::MAX, last);
}
