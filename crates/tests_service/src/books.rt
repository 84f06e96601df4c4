//! What a book alone is asked: seats that have no desk, and entries that aren't copied.
use crate::checks::{is_true, same, same_at};
use crate::histories::{book, is_met};
use book::{Book, Entry, Event, Reply};
use service::ONLY_SEAT;
use std::alloc::Global;
use std::process::Abort;
use worked_histories::Answer::Permitted;
use worked_histories::Handed::Many;
use worked_histories::Step::{Call, Calls, Cut, Roll};
use worked_histories::Wish::{Acquire, Report};
use worked_histories::{Entered, FAILURE, SUCCESS, Step, are_entries, play, reply};

/// Makes the steps of the only caller of this book.
fn go_on(rt: &impl Abort, alloc: Global, book: &mut Book, steps: &[Step<'_>]) {
    let played = play(alloc, book, &ONLY_SEAT, steps);
    is_met(rt, played, "a book alone");
}

/// Asks for a ticket by the seat of a number.
fn acquire(book: &mut Book, seat: u32, moment: u64) -> Reply {
    book.apply(seat, moment, Event::Acquire)
}

/// The entries of a book are these.
fn has_entries(rt: &impl Abort, book: &Book, wanted: &[Entered]) {
    is_true(rt, are_entries(book.entries(0), wanted));
}

#[test]
fn moments_are_raised_over_seats(rt: HostRuntime) {
    let rt = &rt;
    let mut book = book(rt, rt.alloc(), &[]);
    same(rt, acquire(&mut book, 7, 1000), reply(Permitted(1)));
    same(rt, acquire(&mut book, 8, 10), reply(Permitted(2)));
    let first = (1, 7, Acquire, 1000, Permitted(1));
    let second = (2, 8, Acquire, 1000, Permitted(2));
    has_entries(rt, &book, &[first, second]);
}

#[test]
fn moments_are_raised_over_cuts(rt: HostRuntime) {
    let rt = &rt;
    let mut book = book(rt, rt.alloc(), &[]);
    go_on(
        rt,
        rt.alloc(),
        &mut book,
        &[
            Call(0, Acquire, Permitted(1)),
            Call(1, Report(1, 200), SUCCESS),
            Cut(Many(2, 2, 1)),
        ],
    );
    same(rt, acquire(&mut book, 3, 0), reply(Permitted(2)));
    has_entries(rt, &book, &[(3, 3, Acquire, 1, Permitted(2))]);
}

/// How many entries a book has from each of these numbers on.
fn have_counts(rt: &impl Abort, book: &Book, counts: &[(u64, usize)]) {
    for (from, count) in counts {
        same_at(rt, book.entries(*from).len(), *count, *from);
    }
}

#[test]
fn entries_stay_behind_a_roll(rt: HostRuntime) {
    let rt = &rt;
    let mut book = book(rt, rt.alloc(), &[]);
    go_on(
        rt,
        rt.alloc(),
        &mut book,
        &[
            Call(0, Acquire, Permitted(1)),
            Call(1, Acquire, Permitted(2)),
            Call(2, Report(2, 500), FAILURE),
            Roll(2, Many(2, 2, 1)),
        ],
    );
    have_counts(rt, &book, &[(0, 1), (3, 1), (4, 0)]);
}

/// An entry of a page is a copy of one that the book holds.
fn is_copied(rt: &impl Abort, copy: &Entry, entry: &Entry) {
    same(rt, copy.number(), entry.number());
    same(rt, copy.seat(), entry.seat());
    same(rt, copy.moment(), entry.moment());
    same(rt, copy.reply(), entry.reply());
}

/// The page from a number on has so many entries, which are the book's.
fn has_page(rt: &impl Abort, book: &Book, from: u64, count: usize) {
    let page = book.page(from).expect(rt, "ample memory");
    same_at(rt, page.len(), count, from);
    for (copy, entry) in page.iter().zip(book.entries(from)) {
        is_copied(rt, copy, entry);
    }
}

/// Pages, each by the number that it begins from and how many entries it has.
fn has_pages(rt: &impl Abort, book: &Book, pages: &[(u64, usize)]) {
    for page in pages {
        let (from, count) = *page;
        has_page(rt, book, from, count);
    }
}

#[test]
fn a_page_has_a_hundred_entries(rt: HostRuntime) {
    let rt = &rt;
    let mut book = book(rt, rt.alloc(), &[]);
    go_on(rt, rt.alloc(), &mut book, &[Calls(1, 60)]);
    has_pages(
        rt,
        &book,
        &[(0, 100), (1, 100), (21, 100), (22, 99), (120, 1), (121, 0)],
    );
    have_counts(rt, &book, &[(0, 120), (22, 99), (120, 1), (121, 0)]);
}
