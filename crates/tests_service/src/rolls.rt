//! A book that is rolled beside one that isn't: what is handed out, and that nothing else tells of it.
use crate::checks::{is_true, same_at};
use crate::histories::book;
use book::{Book, Entry, Reading, Reply};
use refusals::RefusalNumber;
use service::{ONLY_SEAT, OpenGate, Response, Upkeep};
use std::alloc::Global;
use std::process::Abort;
use worked_histories::{Part, Wish, request_of};

/// The call at this place of a long list, some of them in vain.
fn wish(place: u64) -> Wish {
    if place % 1_000 == 999 {
        return Wish::Reset;
    }
    if place % 5_000 == 17 {
        return Wish::InstallIgnoring;
    }
    let ticket = place / 3;
    match place % 6 {
        0 | 1 | 3 => Wish::Acquire,
        2 => Wish::Report(ticket, 200),
        4 => Wish::Report(ticket, 500),
        _ => Wish::Release(ticket / 2),
    }
}

/// Entries of one book are those of another.
fn are_alike(rt: &impl Abort, some: &[Entry], others: &[Entry], at: u64) {
    same_at(rt, some.len(), others.len(), at);
    for (entry, other) in some.iter().zip(others) {
        same_at(rt, entry.number(), other.number(), at);
        same_at(rt, entry.moment(), other.moment(), at);
        same_at(rt, entry.reply(), other.reply(), at);
    }
}

/// Rolls a book up to a number: what it hands out comes next, so many entries having come before.
fn rolls(rt: &impl Abort, book: &mut Book, last: u64, before: u64) -> u64 {
    let entries = book.roll(last).expect(rt, "ample memory");
    let mut number = before;
    for entry in entries {
        number = number.saturating_add(1);
        same_at(rt, entry.number(), number, last);
    }
    number
}

/// Whether the page from a number on is the same of two books.
fn have_one_page(rt: &impl Abort, some: &Book, other: &Book, from: u64) {
    let page = some.page(from).expect(rt, "ample memory");
    let second = other.page(from).expect(rt, "ample memory");
    are_alike(rt, &page, &second, from);
}

fn ask(rt: &impl Abort, alloc: Global, book: &mut Book, moment: u64, wish: Wish) -> Reply {
    let request = request_of(alloc, wish).expect(rt, "ample memory");
    match service::ask(
        alloc,
        book,
        &ONLY_SEAT,
        Upkeep::NONE,
        moment,
        request,
        &OpenGate,
    ) {
        Response::Reply(reply) => reply,
        _ => Reply::Refused(RefusalNumber::Stranger),
    }
}

fn read(book: &Book, moment: u64) -> Reading {
    book.read(moment)
}

/// Makes so many calls of two books, of which the second is rolled at times.
fn go_alike(rt: &impl Abort, alloc: Global, calls: u64) {
    let mut whole = book(rt, alloc, &[Part::Calls(20), Part::Minimum(10)]);
    let mut rolled = book(rt, alloc, &[Part::Calls(20), Part::Minimum(10)]);
    let mut handed = 0;
    for place in 0..calls {
        let moment = place.saturating_mul(40);
        let reply = ask(rt, alloc, &mut whole, moment, wish(place));
        let found = ask(rt, alloc, &mut rolled, moment, wish(place));
        same_at(rt, found, reply, place);
        same_at(rt, read(&rolled, moment), read(&whole, moment), place);
        if place % 61 == 60 {
            let last = whole.last_number();
            handed = rolls(rt, &mut rolled, last.saturating_sub(place % 50), handed);
            have_one_page(rt, &whole, &rolled, handed.saturating_add(1));
        }
    }
    is_true(rt, handed > 20_000);
}

#[test]
fn calls_are_answered_as_without_rolls(rt: HostRuntime) {
    go_alike(&rt, rt.alloc(), 30_000);
}
