//! The worked histories through one seat of a fresh desk.
use crate::checks::{is_true, same_at};
use crate::desk_fixtures::{Scene, close, play_at_a_desk, play_from};
use crate::histories::is_met;
use book::Book;
use desk::{Desk, Offered, ServicePlace};
use std::alloc::Global;
use std::process::Abort;
use std::sync::Wait;
use std::sync::ledger::Ledger;
use std::thread::Threads;
use worked_histories::{
    HISTORIES, History, JOURNALS, LATER_TICKET, LATER_TICKETS, LONG_JOURNALS, STATE_CHANGES, Step,
    config_parts, history_at, play, state_change,
};

/// Goes through a history by the only seat of a desk with one service, which is then closed.
pub(crate) fn go_through<L: Ledger, M: Ledger + Offered, R: Wait + Abort>(
    rt: &R,
    alloc: Global,
    desk: Desk<L, M>,
    history: &History<'_>,
) {
    let mut desk = desk;
    let mut seat = desk.sit().expect(rt, "a first seat");
    let service = desk.find("pay").expect(rt, "a service of the desk");
    let place = ServicePlace::new(rt, &desk, service);
    let played = play(alloc, &mut seat, &place, history.steps);
    is_met(rt, played, history.name);
    let count = seat.count();
    let seats = Vec::from_array(alloc, [seat]).expect(rt, "ample memory");
    has_entries(rt, &close(rt, alloc, desk, seats), count, history.name);
}

/// The book that is left has as many entries as the calls of the seat have made.
fn has_entries(rt: &impl Abort, books: &[Book], count: u64, name: &str) {
    is_true(rt, books.len() == 1);
    for book in books {
        same_at(rt, book.last_number(), count, name);
    }
}

fn play_alone<R: Threads + Wait + Abort + Sync>(rt: &R, alloc: Global, history: &History<'_>) {
    let parts = config_parts(history.parts);
    play_at_a_desk(rt, alloc, &["pay"], parts, Scene::Alone(history));
}

/// Plays each history of a table.
fn play_each<'a, R: Threads + Wait + Abort + Sync>(rt: &R, alloc: Global, rows: &'a [Step<'a>]) {
    for place in 0..rows.len() {
        if let Some(history) = history_at(rows, place) {
            play_alone(rt, alloc, &history);
        }
    }
}

#[test]
fn a_desk_answers_as_worked_out(rt: HostRuntime) {
    play_each(&rt, rt.alloc(), HISTORIES);
}

#[test]
fn a_journal_of_a_desk_is_kept_as_worked_out(rt: HostRuntime) {
    play_each(&rt, rt.alloc(), JOURNALS);
}

#[test]
fn a_journal_of_a_desk_goes_on_as_worked_out(rt: HostRuntime) {
    play_each(&rt, rt.alloc(), LONG_JOURNALS);
}

/// Each state is reached from each.
#[test]
fn every_state_is_reached_at_a_desk(rt: HostRuntime) {
    for number in 0..STATE_CHANGES {
        play_each(&rt, rt.alloc(), &state_change(number));
    }
}

#[test]
fn tickets_below_the_first_of_a_desk_are_spent(rt: HostRuntime) {
    let history = History {
        name: "later tickets",
        parts: &[],
        steps: LATER_TICKETS,
    };
    let scene = Scene::Alone(&history);
    play_from(
        &rt,
        rt.alloc(),
        &["pay"],
        config_parts(&[]),
        LATER_TICKET,
        scene,
    );
}
