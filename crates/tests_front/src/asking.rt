//! That each request is answered with ample memory, and that a report passes its gate once.
use crate::checks::{is_true, same};
use book::{Book, Config, ConfigParts, Fate, Reply, State};
use bpf_profile::{Layout, Verdict};
use helpers::Record;
use packed_outcomes::PackedOutcome;
use refusals::RefusalNumber;
use service::{Gate, ONLY_SEAT, OpenGate, Report, Request, Response, Upkeep, ask};
use std::alloc::Global;
use std::process::Abort;
use std::sync::atomic::{AtomicU64, Ordering};
use verifier::{Refusal, default_classifier};

/// `mov r0, 2` and `exit`: every outcome is ignored.
const IGNORING: [u8; 16] = [0xb7, 0, 0, 0, 2, 0, 0, 0, 0x95, 0, 0, 0, 0, 0, 0, 0];

/// A book of the defaults with the default classifier.
fn book(rt: &impl Abort, alloc: Global) -> Book {
    let config = Config::new(ConfigParts::DEFAULT).expect(rt, "the defaults");
    let classifier = default_classifier(alloc).expect(rt, "the default classifier");
    Book::open(alloc, config, classifier).expect(rt, "ample memory")
}

/// What seat 1 is answered at a moment.
fn asked<G: Gate>(alloc: Global, book: &mut Book, request: Request, gate: &G) -> Response {
    ask(alloc, book, &ONLY_SEAT, Upkeep::NONE, 5, request, gate)
}

/// The reply to what seat 1 asks for; None where it is answered otherwise.
fn reply_to(alloc: Global, book: &mut Book, request: Request) -> Option<Reply> {
    match asked(alloc, book, request, &OpenGate) {
        Response::Reply(reply) => Some(reply),
        _ => None,
    }
}

/// Checks what is replied to what seat 1 asks for.
fn is_replied(rt: &impl Abort, alloc: Global, book: &mut Book, request: Request, reply: Reply) {
    same(rt, reply_to(alloc, book, request), Some(reply));
}

/// An install of the program of these bytes.
fn install(rt: &impl Abort, alloc: Global, bytes: &[u8]) -> Request {
    let program = Vec::from_slice(alloc, bytes).expect(rt, "ample memory");
    Request::Install {
        program,
        layout: Layout::One,
    }
}

/// A report of the outcome of a call that was answered.
fn report(rt: &impl Abort, alloc: Global, ticket: u64) -> Request {
    let record = Record::from_parts([0; 192], [0; 16], &[]).expect(rt, "an empty tag");
    let outcome = PackedOutcome::pack(alloc, &record).expect(rt, "ample memory");
    Request::Report(Report { ticket, outcome })
}

#[test]
fn events_are_replied_to(rt: HostRuntime) {
    let rt = &rt;
    let alloc = rt.alloc();
    let mut book = book(rt, alloc);
    let closed = State::Closed;
    let permitted = Reply::Permitted {
        ticket: 1,
        version: 1,
        state: closed,
    };
    is_replied(rt, alloc, &mut book, Request::Acquire, permitted);
    let installed = Reply::Installed {
        version: 2,
        budget: 2,
        layout: Layout::One,
    };
    let request = install(rt, alloc, &IGNORING);
    is_replied(rt, alloc, &mut book, request, installed);
    let finished = Reply::Finished {
        fate: Fate::Recorded,
        verdict: Verdict::Success,
        steps: 6,
        version: 1,
        state: closed,
    };
    is_replied(rt, alloc, &mut book, report(rt, alloc, 1), finished);
    let unknown = Reply::Refused(RefusalNumber::NoTicket);
    is_replied(rt, alloc, &mut book, report(rt, alloc, 2), unknown);
    let spent = Reply::Refused(RefusalNumber::TicketSpent);
    is_replied(rt, alloc, &mut book, Request::Release(1), spent);
    let opened = Reply::Moved {
        state: State::Open,
        period: 2,
    };
    is_replied(rt, alloc, &mut book, Request::Move(State::Open), opened);
    let reset = Reply::Moved {
        state: closed,
        period: 3,
    };
    is_replied(rt, alloc, &mut book, Request::Reset, reset);
}

/// Why a program is refused that seat 1 asks to install; None where it is answered otherwise.
fn refusal_of(alloc: Global, book: &mut Book, request: Request) -> Option<Refusal> {
    match asked(alloc, book, request, &OpenGate) {
        Response::ProgramRefused(refusal) => Some(refusal),
        _ => None,
    }
}

#[test]
fn refused_programs_change_nothing(rt: HostRuntime) {
    let rt = &rt;
    let alloc = rt.alloc();
    let mut book = book(rt, alloc);
    let request = install(rt, alloc, &IGNORING[8..]);
    let unset = Refusal {
        slot: 0,
        number: RefusalNumber::UnsetRegister,
    };
    same(rt, refusal_of(alloc, &mut book, request), Some(unset));
    same(rt, book.last_number(), 0);
}

/// How many entries are answered; None where it is answered otherwise.
fn entries_of(alloc: Global, book: &mut Book, request: Request) -> Option<usize> {
    match asked(alloc, book, request, &OpenGate) {
        Response::Page { entries, .. } | Response::HandedOut(entries) => Some(entries.len()),
        _ => None,
    }
}

/// How many entries the journal has as it is read; None where it is answered otherwise.
fn entries_read(alloc: Global, book: &mut Book) -> Option<u64> {
    match asked(alloc, book, Request::Read, &OpenGate) {
        Response::Reading(reading) => Some(reading.entries),
        _ => None,
    }
}

/// Checks that the breaker is moved to a state.
fn is_moved(rt: &impl Abort, alloc: Global, book: &mut Book, state: State) {
    let reply = reply_to(alloc, book, Request::Move(state));
    is_true(rt, reply.is_some());
}

#[test]
fn journals_are_read_rolled_and_cut(rt: HostRuntime) {
    let rt = &rt;
    let alloc = rt.alloc();
    let mut book = book(rt, alloc);
    is_moved(rt, alloc, &mut book, State::Open);
    is_moved(rt, alloc, &mut book, State::Closed);
    same(rt, entries_read(alloc, &mut book), Some(2));
    same(rt, entries_of(alloc, &mut book, Request::Page(2)), Some(1));
    same(rt, entries_of(alloc, &mut book, Request::Roll(1)), Some(1));
    same(rt, entries_read(alloc, &mut book), Some(2));
    same(rt, entries_of(alloc, &mut book, Request::Page(1)), Some(1));
    same(rt, entries_of(alloc, &mut book, Request::Cut), Some(1));
    same(rt, entries_of(alloc, &mut book, Request::Page(1)), Some(0));
}

/// A gate that counts how often it is called, and keeps the last ticket.
#[derive(Drop)]
struct CountingGate {
    calls: AtomicU64,
    ticket: AtomicU64,
}

impl CountingGate {
    fn new() -> CountingGate {
        CountingGate {
            calls: AtomicU64::new(0),
            ticket: AtomicU64::new(0),
        }
    }

    /// How often it was called, and the last ticket.
    fn seen(&self) -> (u64, u64) {
        let calls = self.calls.load(Ordering::SeqCst);
        (calls, self.ticket.load(Ordering::SeqCst))
    }
}

impl Gate for CountingGate {
    fn between(&self, ticket: u64) {
        self.calls.fetch_add(1, Ordering::SeqCst);
        self.ticket.store(ticket, Ordering::SeqCst);
    }
}

/// What a gate has seen once this was asked.
fn seen_behind(
    alloc: Global,
    book: &mut Book,
    request: Request,
    gate: &CountingGate,
) -> (u64, u64) {
    let _response = asked(alloc, book, request, gate);
    gate.seen()
}

#[test]
fn reports_pass_the_gate_once(rt: HostRuntime) {
    let rt = &rt;
    let alloc = rt.alloc();
    let mut book = book(rt, alloc);
    let gate = CountingGate::new();
    let book = &mut book;
    same(
        rt,
        seen_behind(alloc, book, Request::Acquire, &gate),
        (0, 0),
    );
    same(
        rt,
        seen_behind(alloc, book, Request::Acquire, &gate),
        (0, 0),
    );
    same(
        rt,
        seen_behind(alloc, book, report(rt, alloc, 2), &gate),
        (1, 2),
    );
    // A look that is refused doesn't come to the gate: of a ticket that has ended, and of one that was never issued.
    same(
        rt,
        seen_behind(alloc, book, report(rt, alloc, 2), &gate),
        (1, 2),
    );
    same(
        rt,
        seen_behind(alloc, book, report(rt, alloc, 9), &gate),
        (1, 2),
    );
    same(
        rt,
        seen_behind(alloc, book, report(rt, alloc, 1), &gate),
        (2, 1),
    );
}
