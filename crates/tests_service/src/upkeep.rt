//! Services that do their own upkeep, by a book alone and by a seat of a desk: one whose last entries are kept, beside one whose
//! journal is kept, and one whose tickets get at most a second old.
use crate::checks::same;
use crate::desk_fixtures::{Scene, close, play_at_a_desk};
use crate::histories::book;
use book::{Book, ConfigParts, Reply};
use desk::{Desk, Offered, ServicePlace};
use refusals::RefusalNumber;
use service::{ONLY_SEAT, OpenGate, Request, Response, Upkeep, ask};
use std::alloc::Global;
use std::process::Abort;
use std::sync::Wait;
use std::sync::ledger::Ledger;
use worked_histories::{A_SECOND, AgedAcquire, LAST, Part, acquire_at, failed_calls, unlike_aged};

/// How many calls are made, each with two entries: 14,464 entries more than a journal holds.
const CALLS: u64 = 40_000;

/// A book has made as many entries as the calls, and holds the last ones: the older half was rolled out once, when the
/// journal was full.
fn has_last_entries(rt: &impl Abort, book: &Book) {
    same(rt, book.last_number(), 80_000);
    let held = book.entries(0);
    same(rt, held.len(), 47_232);
    same(rt, held.first().map(|entry| entry.number()), Some(32_769));
}

#[test]
fn last_entries_are_kept(rt: HostRuntime) {
    let alloc = rt.alloc();
    let mut book = book(&rt, alloc, &[]);
    same(
        &rt,
        failed_calls(alloc, &mut book, &ONLY_SEAT, LAST, CALLS),
        0,
    );
    has_last_entries(&rt, &book);
}

#[test]
fn journals_that_are_kept_fill_up(rt: HostRuntime) {
    let alloc = rt.alloc();
    let mut book = book(&rt, alloc, &[]);
    let failed = failed_calls(alloc, &mut book, &ONLY_SEAT, Upkeep::NONE, CALLS);
    same(&rt, failed, 7_232);
    same(&rt, book.last_number(), 65_536);
}

/// The only seat of a desk makes all calls of its one service, of which old tickets are released.
pub(crate) fn release_old_tickets<L: Ledger, M: Ledger + Offered, R: Wait + Abort>(
    rt: &R,
    alloc: Global,
    desk: Desk<L, M>,
) {
    let mut desk = desk;
    let mut seat = desk.sit().expect(rt, "a seat that is left");
    let service = desk.find("pay").expect(rt, "a service of the desk");
    let place = ServicePlace::new(rt, &desk, service);
    same(rt, unlike_aged(alloc, &mut seat, &place), 0);
}

/// The only seat of a desk makes all calls of its one service, whose last entries are kept.
pub(crate) fn keep_last_entries<L: Ledger, M: Ledger + Offered, R: Wait + Abort>(
    rt: &R,
    alloc: Global,
    desk: Desk<L, M>,
) {
    let mut desk = desk;
    let mut seat = desk.sit().expect(rt, "a seat that is left");
    let service = desk.find("pay").expect(rt, "a service of the desk");
    let place = ServicePlace::new(rt, &desk, service);
    same(rt, failed_calls(alloc, &mut seat, &place, LAST, CALLS), 0);
    let seats = Vec::from_array(alloc, [seat]).expect(rt, "ample memory");
    for book in close(rt, alloc, desk, seats) {
        has_last_entries(rt, &book);
    }
}

#[test]
fn last_entries_are_kept_behind_a_lock(rt: HostRuntime) {
    play_at_a_desk(
        &rt,
        rt.alloc(),
        &["pay"],
        ConfigParts::DEFAULT,
        Scene::LastEntries,
    );
}

/// 150 tickets were taken at 0, and none later.
#[test]
fn a_hundred_old_tickets_are_released_at_once(rt: HostRuntime) {
    let alloc = rt.alloc();
    let mut book = book(&rt, alloc, &[Part::Places(200)]);
    for _ in 0..150 {
        let _acquired = acquire_at(alloc, &mut book, &ONLY_SEAT, A_SECOND, 0);
    }
    for (open_tickets, entries) in [(51, 251), (2, 302), (3, 303)] {
        let wanted = AgedAcquire {
            moment: 1_000,
            open_tickets,
            entries,
        };
        same(
            &rt,
            acquire_at(alloc, &mut book, &ONLY_SEAT, A_SECOND, 1_000),
            Some(wanted),
        );
    }
}

#[test]
fn tickets_that_are_a_second_old_are_released(rt: HostRuntime) {
    let alloc = rt.alloc();
    let mut book = book(&rt, alloc, &[]);
    same(&rt, unlike_aged(alloc, &mut book, &ONLY_SEAT), 0);
    // A late release of the first ticket changes nothing.
    let late = ask(
        alloc,
        &mut book,
        &ONLY_SEAT,
        A_SECOND,
        3_000,
        Request::Release(1),
        &OpenGate,
    );
    let spent = Reply::Refused(RefusalNumber::TicketSpent);
    same(
        &rt,
        matches!(late, Response::Reply(reply) if reply == spent),
        true,
    );
}

#[test]
fn tickets_get_any_age_without_a_limit(rt: HostRuntime) {
    let alloc = rt.alloc();
    let mut book = book(&rt, alloc, &[]);
    let first = acquire_at(alloc, &mut book, &ONLY_SEAT, Upkeep::NONE, 0);
    same(&rt, first.is_some(), true);
    let later = acquire_at(alloc, &mut book, &ONLY_SEAT, Upkeep::NONE, u64::MAX);
    same(&rt, later.map(|shown| shown.open_tickets), Some(2));
}

#[test]
fn tickets_that_are_a_second_old_are_released_behind_a_lock(rt: HostRuntime) {
    play_at_a_desk(
        &rt,
        rt.alloc(),
        &["pay"],
        ConfigParts::DEFAULT,
        Scene::OldTickets,
    );
}
