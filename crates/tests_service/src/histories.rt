//! The worked histories on a book that one caller has to itself.
ghost use Rattle.std.specs.Prelude.{◌≤◌};
ghost use Rattle.service_profile.specs.Limits.{greatest_number};

use crate::checks::{is_true_at, same_at};
use book::{Book, Config};
use refusals::RefusalNumber::TicketsOpen;
use service::ONLY_SEAT;
use std::alloc::Global;
use std::process::Abort;
use worked_histories::Answer::Permitted;
use worked_histories::Handed::{Many, Nothing, These};
use worked_histories::Step::{
    Call, Calls, Count, Cut, Fresh, LastNumber, Page, Roll, Stands, Strange, Versions,
};
use worked_histories::Wish::{Acquire, Report};
use worked_histories::{
    FAILURE, HISTORIES, History, JOURNALS, LAST_TICKET, LAST_TICKETS, LATER_TICKET, LATER_TICKETS,
    LONG_JOURNALS, Missed, Part, SPENT, STATE_CHANGES, Step, config_parts, history_at, play,
    program, state_change,
};

/// A book with the default classifier, whose configuration differs in these parts from the default one.
pub(crate) fn book(rt: &impl Abort, alloc: Global, parts: &[Part]) -> Book {
    let config = Config::new(config_parts(parts)).expect(rt, "parts in their ranges");
    let classifier = program(alloc, false).expect(rt, "the default classifier");
    Book::open(alloc, config, classifier).expect(rt, "ample memory")
}

/// A book with the default classifier and configuration, whose tickets begin at a number.
fn book_from(rt: &impl Abort, alloc: Global, first_ticket: u64) -> Book
    requires least { 1 ≤ first_ticket }
    requires most { first_ticket ≤ greatest_number }
{
    let config = Config::new(config_parts(&[])).expect(rt, "parts in their ranges");
    let classifier = program(alloc, false).expect(rt, "the default classifier");
    Book::open_from(alloc, config, classifier, first_ticket).expect(rt, "ample memory")
}

/// Each step of a history was met.
pub(crate) fn is_met(rt: &impl Abort, played: Result<(), Missed>, name: &str) {
    is_true_at(rt, played.is_ok(), (name, played));
}

/// Plays a history on a new book, whose last number is then that of its readings.
fn play_alone(rt: &impl Abort, alloc: Global, history: &History<'_>) {
    let mut book = book(rt, alloc, history.parts);
    let played = play(alloc, &mut book, &ONLY_SEAT, history.steps);
    is_met(rt, played, history.name);
    same_at(rt, book.last_number(), book.read(0).entries, history.name);
}

/// Steps of a new book, of which just the last one isn't met.
const MISSED: &[&[Step<'static>]] = &[
    &[Fresh("no history", &[])],
    &[Call(0, Acquire, Permitted(2))],
    &[
        Call(0, Acquire, Permitted(1)),
        Call(0, Report(1, 200), FAILURE),
    ],
    &[Calls(1, 2), Calls(4, 4)],
    &[Strange(0, 1, SPENT)],
    &[Versions(2, 3), Versions(5, 5)],
    &[Calls(1, 1), Stands(0, &[])],
    &[Calls(1, 1), LastNumber(1)],
    &[Calls(1, 60), Count(0, 120), Count(0, 100)],
    &[Calls(1, 1), Page(1, &[(1, 1, Acquire, 1, Permitted(1))])],
    &[
        Call(0, Acquire, Permitted(1)),
        Page(1, &[(1, 1, Acquire, 1, Permitted(1))]),
    ],
    &[Call(0, Acquire, Permitted(1)), Cut(Many(1, 1, 0))],
    &[Calls(1, 1), Cut(Nothing(TicketsOpen))],
    &[Calls(1, 1), Roll(2, Many(2, 2, 2))],
    &[
        Calls(1, 1),
        Roll(1, These(&[(1, 1, Acquire, 1, Permitted(2))])),
    ],
];

/// The last of these steps alone isn't met.
fn is_missed(rt: &impl Abort, alloc: Global, steps: &[Step<'_>]) {
    let mut book = book(rt, alloc, &[]);
    let missed = play(alloc, &mut book, &ONLY_SEAT, steps).err();
    let step = missed.expect(rt, "a step that isn't met").step;
    same_at(rt, step.saturating_add(1), steps.len(), step);
}

fn are_missed(rt: &impl Abort, alloc: Global, rows: &[&[Step<'_>]]) {
    for steps in rows {
        is_missed(rt, alloc, steps);
    }
}

#[test]
fn a_step_that_is_not_met_is_told(rt: HostRuntime) {
    are_missed(&rt, rt.alloc(), MISSED);
}

/// Plays each history of a table.
fn play_each<'a>(rt: &impl Abort, alloc: Global, rows: &'a [Step<'a>]) {
    for place in 0..rows.len() {
        if let Some(history) = history_at(rows, place) {
            play_alone(rt, alloc, &history);
        }
    }
}

#[test]
fn a_book_answers_as_worked_out(rt: HostRuntime) {
    play_each(&rt, rt.alloc(), HISTORIES);
}

#[test]
fn a_journal_is_kept_as_worked_out(rt: HostRuntime) {
    play_each(&rt, rt.alloc(), JOURNALS);
}

#[test]
fn a_journal_goes_on_as_worked_out(rt: HostRuntime) {
    play_each(&rt, rt.alloc(), LONG_JOURNALS);
}

/// Each state is reached from each.
#[test]
fn every_state_is_reached(rt: HostRuntime) {
    for number in 0..STATE_CHANGES {
        play_each(&rt, rt.alloc(), &state_change(number));
    }
}

#[test]
fn tickets_below_the_first_are_spent(rt: HostRuntime) {
    let rt = &rt;
    let mut book = book_from(rt, rt.alloc(), LATER_TICKET);
    let played = play(rt.alloc(), &mut book, &ONLY_SEAT, LATER_TICKETS);
    is_met(rt, played, "later tickets");
}

#[test]
fn tickets_may_begin_at_the_last_number(rt: HostRuntime) {
    let rt = &rt;
    let mut book = book_from(rt, rt.alloc(), LAST_TICKET);
    let played = play(rt.alloc(), &mut book, &ONLY_SEAT, LAST_TICKETS);
    is_met(rt, played, "last tickets");
}
