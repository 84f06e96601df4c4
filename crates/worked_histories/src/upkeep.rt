//! Many calls of a service whose journal is full in the end.
use book::Reply;
use service::{BookCalls, Journal, Log, OpenGate, Request, Response, Upkeep, ask};
use std::alloc::Global;

/// What a service does for its upkeep whose last entries are kept.
pub const LAST: Upkeep = Upkeep {
    journal: Journal::Last,
    max_ticket_age: 0,
    log: Log::Silent,
};

/// The reply to a request.
fn reply_to<P, B: BookCalls<P>>(
    alloc: Global,
    book: &mut B,
    place: &P,
    upkeep: Upkeep,
    request: Request,
) -> Option<Reply>
    requires fits { B.fits place.now book.old }
    ensures fits { B.fits place.now book.new }
{
    match ask(alloc, book, place, upkeep, 0, request, &OpenGate) {
        Response::Reply(reply) => Some(reply),
        _ => None,
    }
}

/// Asks for a ticket and releases it. Answers whether both were done.
fn call_once<P, B: BookCalls<P>>(alloc: Global, book: &mut B, place: &P, upkeep: Upkeep) -> bool
    requires fits { B.fits place.now book.old }
    ensures fits { B.fits place.now book.new }
{
    let Some(Reply::Permitted { ticket, .. }) = reply_to(
        alloc,
        book,
        place,
        upkeep,
        Request::Acquire,
    ) else {
        return false;
    };
    let released = reply_to(alloc, book, place, upkeep, Request::Release(ticket));
    matches!(released, Some(Reply::Released { .. }))
}

/// Makes so many calls, each of them an acquire and the release of its ticket, and answers how many of them failed.
pub fn failed_calls<P, B: BookCalls<P>>(
    alloc: Global,
    book: &mut B,
    place: &P,
    upkeep: Upkeep,
    calls: u64,
) -> u64
    requires fits { B.fits place.now book.old }
    ensures fits { B.fits place.now book.new }
{
    let mut failed: u64 = 0;
    for _ in 0..calls {
        if !call_once(alloc, book, place, upkeep) {
            failed = failed.saturating_add(1);
        }
    }
    failed
}

/// What a service does for its upkeep whose tickets get at most a second old.
pub const A_SECOND: Upkeep = Upkeep {
    journal: Journal::Keep,
    max_ticket_age: 1_000,
    log: Log::Silent,
};

/// An acquire, and how the service stands behind it.
#[derive(Clone, Copy, Debug, PartialEq, Eq)]
pub struct AgedAcquire {
    /// When it is made, in milliseconds.
    pub moment: u64,
    /// How many tickets are open then.
    pub open_tickets: u64,
    /// The number of the last entry.
    pub entries: u64,
}

/// Acquires of a service whose tickets get at most a second old, as moment, tickets that are open then, and the number of the
/// last entry: a ticket is released as soon as it is that old, and no earlier.
pub const AGED: &[(u64, u64, u64)] = &[
    (0, 1, 1),
    (1, 2, 2),
    (999, 3, 3),
    (1_000, 3, 5),
    (3_000, 1, 9),
];

/// Asks for a ticket at a moment, and answers how the service stands behind it; None where no ticket was given.
pub fn acquire_at<P, B: BookCalls<P>>(
    alloc: Global,
    book: &mut B,
    place: &P,
    upkeep: Upkeep,
    moment: u64,
) -> Option<AgedAcquire>
    requires fits { B.fits place.now book.old }
    ensures fits { B.fits place.now book.new }
{
    let asked = ask(
        alloc,
        book,
        place,
        upkeep,
        moment,
        Request::Acquire,
        &OpenGate,
    );
    let Response::Reply(Reply::Permitted { .. }) = asked else {
        return None;
    };
    match ask(alloc, book, place, upkeep, moment, Request::Read, &OpenGate) {
        Response::Reading(shown) => Some(AgedAcquire {
            moment,
            open_tickets: shown.open_tickets,
            entries: shown.entries,
        }),
        _ => None,
    }
}

/// Makes the acquires of `AGED`, and answers behind how many of them the service stands in another way.
pub fn unlike_aged<P, B: BookCalls<P>>(alloc: Global, book: &mut B, place: &P) -> u64
    requires fits { B.fits place.now book.old }
    ensures fits { B.fits place.now book.new }
{
    let mut unlike: u64 = 0;
    for (moment, open_tickets, entries) in AGED {
        let wanted = AgedAcquire {
            moment: *moment,
            open_tickets: *open_tickets,
            entries: *entries,
        };
        if acquire_at(alloc, book, place, A_SECOND, *moment) != Some(wanted) {
            unlike = unlike.saturating_add(1);
        }
    }
    unlike
}
