//! The worked histories through one seat of a fresh desk.
use crate::alone::Alone;
use crate::checks::is_true_at;
use std::alloc::Global;
use std::process::Abort;
use std::sync::Wait;
use worked_histories::{
    HISTORIES, History, JOURNALS, LATER_TICKETS, LONG_JOURNALS, STATE_CHANGES, Step, config_parts,
    history_at, play, state_change,
};

/// Plays a history at a new desk, which is then closed.
fn play_alone<R: Wait + Abort>(rt: &R, alloc: Global, history: &History<'_>) {
    let mut alone = Alone::open(rt, alloc, config_parts(history.parts));
    let played = play(alloc, &mut alone, rt, history.steps);
    is_true_at(rt, played.is_ok(), (history.name, played));
    alone.close(rt, alloc);
}

/// Plays each history of a table.
fn play_each<'a, R: Wait + Abort>(rt: &R, alloc: Global, rows: &'a [Step<'a>]) {
    for place in 0..rows.len() {
        if let Some(history) = history_at(rows, place) {
            play_alone(rt, alloc, &history);
        }
    }
}

#[test]
fn a_desk_answers_as_worked_out(rt: HostRuntime) {
    play_each(&rt, rt.alloc(), HISTORIES);
}

#[test]
fn a_journal_of_a_desk_is_kept_as_worked_out(rt: HostRuntime) {
    play_each(&rt, rt.alloc(), JOURNALS);
}

#[test]
fn a_journal_of_a_desk_goes_on_as_worked_out(rt: HostRuntime) {
    play_each(&rt, rt.alloc(), LONG_JOURNALS);
}

/// Each state is reached from each.
#[test]
fn every_state_is_reached(rt: HostRuntime) {
    for number in 0..STATE_CHANGES {
        play_each(&rt, rt.alloc(), &state_change(number));
    }
}

#[test]
fn tickets_below_the_first_are_spent(rt: HostRuntime) {
    let rt = &rt;
    let alloc = rt.alloc();
    let mut alone = Alone::open_later(rt, alloc);
    let played = play(alloc, &mut alone, rt, LATER_TICKETS);
    is_true_at(rt, played.is_ok(), played);
    alone.close(rt, alloc);
}
