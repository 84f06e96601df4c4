//! A breaker by itself, with what it answers worked out by hand.
use crate::checks::{same, same_at};
use breaker::State::{Closed, Disabled, ForcedOpen, HalfOpen, MetricsOnly, Open};
use breaker::{Breaker, Config, Fate, Metrics, Note, Permission, Standing, State};
use service_profile::{ConfigParts, SlidingWindowType};
use std::alloc::Global;
use std::process::Abort;

/// A window of four calls of which two are enough, half of which may not fail, a wait of a second, and
/// three calls in HALF_OPEN.
const PARTS: ConfigParts = ConfigParts {
    failure_rate_threshold: 50,
    slow_call_rate_threshold: 100,
    slow_call_duration_threshold: 60_000,
    permitted_number_of_calls_in_half_open_state: 3,
    max_wait_duration_in_half_open_state: 0,
    sliding_window_type: SlidingWindowType::CountBased,
    sliding_window_size: 4,
    minimum_number_of_calls: 2,
    wait_duration_in_open_state: 1_000,
    max_concurrent_calls: 25,
    max_wait_duration: 0,
};

/// What is done with a breaker or read from it, and what comes of that.
#[derive(Clone, Copy)]
enum Step {
    /// A call asks at a moment: the period of its permission.
    Permit(u64, Option<u64>),
    /// At a moment, a call of this period failed or not: what becomes of that.
    Record(u64, u64, bool, Fate),
    /// So many calls are permitted in a period and fail, all at a moment: what becomes of each.
    Failures(u64, u64, u64, Fate),
    /// A permission of a period is given back.
    GiveBack(u64),
    /// At a moment the breaker is moved to a state.
    Move(u64, State),
    /// Where the breaker stands, and how many permissions are held.
    Stands(At, u64),
    /// What is measured at a moment: where the breaker stands, how many calls were noted and failed, none of them slow, and
    /// the rate of failures, where rates are shown.
    Measures(u64, At, u64, u64, Option<u64>),
    /// Whether a call at a moment would be permitted, and where the breaker would stand.
    Permission(u64, bool, At),
    TakePermission,
    ReturnPermission,
    AddNote(Note),
    /// How the breaker would stand after a note.
    AfterNote(Note, At),
    /// A decision is followed, with its note.
    Follow(At, Note),
    BeginPeriod(At),
    /// Where an event at a moment finds the breaker.
    StandsAt(u64, At),
    /// A stay in HALF_OPEN ends, where it is over at a moment.
    Expire(u64),
    /// What a call at a moment hears that finds a new period.
    PermissionInNewPeriod(At, u64, bool, At),
}

/// A state, its period, and since when.
type At = (State, u64, u64);

fn standing(at: At) -> Standing {
    let (state, period, since) = at;
    Standing {
        state,
        period,
        since,
    }
}

fn metrics(at: At, total: u64, failed: u64, failure_rate: Option<u64>) -> Metrics {
    let (state, period, since) = at;
    Metrics {
        state,
        period,
        since,
        total,
        failed,
        slow: 0,
        failure_rate,
        slow_rate: if failure_rate.is_some() {
            Some(0)
        } else {
            None
        },
    }
}

fn permitted(given: bool, at: At) -> Permission {
    Permission {
        given,
        standing: standing(at),
    }
}

fn breaker(rt: &impl Abort, alloc: Global, parts: ConfigParts) -> Breaker {
    let config = Config::new(parts).expect(rt, "each part in its range");
    Breaker::new(alloc, config, 1, 0).expect(rt, "ample memory")
}

/// Goes through the steps of a new breaker, whose configuration has these parts.
fn play(rt: &impl Abort, alloc: Global, parts: ConfigParts, steps: &[Step]) {
    let mut breaker = breaker(rt, alloc, parts);
    same(rt, breaker.config().parts(), parts);
    for (index, step) in steps.iter().enumerate() {
        take(rt, &mut breaker, *step, index);
    }
}

/// Takes the step at this place.
fn take(rt: &impl Abort, breaker: &mut Breaker, step: Step, index: usize) {
    match step {
        Step::Permit(moment, period) => same_at(rt, permit(rt, breaker, moment), period, index),
        Step::Record(moment, period, failed, fate) => {
            same_at(rt, record(rt, breaker, moment, period, failed), fate, index);
        }
        Step::Failures(times, moment, period, fate) => {
            fail(rt, breaker, times, moment, period, fate);
        }
        Step::GiveBack(period) => give_back(rt, breaker, period),
        Step::Move(moment, state) => move_to(rt, breaker, moment, state),
        Step::Stands(at, held) => same_at(rt, stands(breaker), (standing(at), held), index),
        Step::Measures(moment, at, total, failed, rate) => {
            let wanted = metrics(at, total, failed, rate);
            same_at(rt, measures(breaker, moment), wanted, index);
        }
        Step::Permission(moment, given, at) => {
            same_at(
                rt,
                permission(rt, breaker, moment),
                permitted(given, at),
                index,
            );
        }
        Step::TakePermission => take_permission(rt, breaker),
        Step::ReturnPermission => return_permission(rt, breaker),
        Step::AddNote(note) => add_note(rt, breaker, note),
        Step::AfterNote(note, at) => {
            same_at(rt, after_note(rt, breaker, note), standing(at), index);
        }
        Step::Follow(at, note) => follow(rt, breaker, standing(at), note),
        Step::BeginPeriod(at) => begin_period(breaker, standing(at)),
        Step::StandsAt(moment, at) => {
            same_at(rt, standing_at(rt, breaker, moment), standing(at), index);
        }
        Step::Expire(moment) => expire(rt, breaker, moment),
        Step::PermissionInNewPeriod(new, moment, given, at) => {
            let found = permission_in_new_period(rt, breaker, standing(new), moment);
            same_at(rt, found, permitted(given, at), index);
        }
    }
}

fn permit(rt: &impl Abort, breaker: &mut Breaker, moment: u64) -> Option<u64> {
    assert!(rt; breaker.standing().period < 1_000);
    assert!(rt; breaker.permissions_held() < 1_000);
    breaker.permit(moment)
}

fn record(rt: &impl Abort, breaker: &mut Breaker, moment: u64, period: u64, failed: bool) -> Fate {
    assert!(rt; breaker.has_room_for_note());
    assert!(rt; breaker.standing().period < 1_000);
    if period == breaker.standing().period {
        assert!(rt; breaker.permissions_held() > 0);
    }
    breaker.record(moment, period, failed, false)
}

/// So many calls are permitted in a period and fail.
fn fail(rt: &impl Abort, breaker: &mut Breaker, times: u64, moment: u64, period: u64, fate: Fate) {
    for time in 0..times {
        same_at(rt, permit(rt, breaker, moment), Some(period), time);
        same_at(rt, record(rt, breaker, moment, period, true), fate, time);
    }
}

fn give_back(rt: &impl Abort, breaker: &mut Breaker, period: u64) {
    if period == breaker.standing().period {
        assert!(rt; breaker.permissions_held() > 0);
    }
    breaker.give_back(period);
}

fn move_to(rt: &impl Abort, breaker: &mut Breaker, moment: u64, state: State) {
    assert!(rt; breaker.standing().period < 1_000);
    breaker.move_to(moment, state);
}

/// How a breaker stands, and how many permissions are held.
fn stands(breaker: &Breaker) -> (Standing, u64) {
    (breaker.standing(), breaker.permissions_held())
}

fn measures(breaker: &Breaker, moment: u64) -> Metrics {
    breaker.metrics(moment)
}

fn permission(rt: &impl Abort, breaker: &Breaker, moment: u64) -> Permission {
    assert!(rt; breaker.standing().period < 1_000);
    breaker.permission(moment)
}

fn take_permission(rt: &impl Abort, breaker: &mut Breaker) {
    assert!(rt; breaker.permissions_held() < 1_000);
    breaker.take_permission();
}

fn return_permission(rt: &impl Abort, breaker: &mut Breaker) {
    assert!(rt; breaker.permissions_held() > 0);
    breaker.return_permission();
}

fn add_note(rt: &impl Abort, breaker: &mut Breaker, note: Note) {
    assert!(rt; breaker.has_room_for_note());
    breaker.add_note(note);
}

fn after_note(rt: &impl Abort, breaker: &Breaker, note: Note) -> Standing {
    assert!(rt; breaker.has_room_for_note());
    assert!(rt; breaker.standing().period < 1_000);
    breaker.after_note(note)
}

/// Follows a decision to begin another period.
fn follow(rt: &impl Abort, breaker: &mut Breaker, next: Standing, note: Note) {
    assert!(rt; breaker.has_room_for_note());
    assert!(rt; next.period != breaker.standing().period);
    breaker.follow(next, Some(note));
}

fn begin_period(breaker: &mut Breaker, standing: Standing) {
    breaker.begin_period(standing);
}

fn standing_at(rt: &impl Abort, breaker: &Breaker, moment: u64) -> Standing {
    assert!(rt; breaker.standing().period < 1_000);
    breaker.after_stay(moment).unwrap_or(breaker.standing())
}

fn expire(rt: &impl Abort, breaker: &mut Breaker, moment: u64) {
    assert!(rt; breaker.standing().period < 1_000);
    breaker.expire(moment);
}

fn permission_in_new_period(
    rt: &impl Abort,
    breaker: &Breaker,
    standing: Standing,
    moment: u64,
) -> Permission {
    assert!(rt; standing.period < 1_000);
    breaker.permission_in_new_period(standing, moment)
}

#[test]
fn a_breaker_opens_and_closes_again(rt: HostRuntime) {
    play(
        &rt,
        rt.alloc(),
        PARTS,
        &[
            Step::Stands((Closed, 1, 0), 0),
            Step::Permit(5, Some(1)),
            Step::Permit(6, Some(1)),
            Step::Record(10, 1, true, Fate::Recorded),
            Step::Stands((Closed, 1, 0), 1),
            Step::Record(20, 1, false, Fate::Recorded),
            Step::Stands((Open, 2, 20), 0),
            Step::Permit(1_019, None),
            Step::Stands((Open, 2, 20), 0),
            Step::Permit(1_020, Some(3)),
            Step::Stands((HalfOpen, 3, 1_020), 1),
            Step::Permit(1_021, Some(3)),
            Step::Permit(1_022, Some(3)),
            Step::Permit(1_023, None),
            Step::GiveBack(3),
            Step::Stands((HalfOpen, 3, 1_020), 2),
            Step::Permit(1_024, Some(3)),
            Step::Record(1_030, 3, true, Fate::Recorded),
            Step::Stands((HalfOpen, 3, 1_020), 2),
            Step::Record(1_031, 3, false, Fate::Recorded),
            Step::Stands((HalfOpen, 3, 1_020), 1),
            Step::Record(1_032, 3, false, Fate::Recorded),
            Step::Stands((Closed, 4, 1_032), 0),
        ],
    );
}

#[test]
fn a_stale_verdict_changes_nothing(rt: HostRuntime) {
    play(
        &rt,
        rt.alloc(),
        PARTS,
        &[
            Step::Permit(0, Some(1)),
            Step::Move(7, HalfOpen),
            Step::Stands((HalfOpen, 2, 7), 0),
            Step::Permit(8, Some(2)),
            Step::Record(9, 1, true, Fate::Stale),
            Step::GiveBack(1),
            Step::Stands((HalfOpen, 2, 7), 1),
            Step::Record(9, 2, true, Fate::Recorded),
            Step::Move(10, HalfOpen),
            Step::Stands((HalfOpen, 3, 10), 0),
            Step::Measures(10, (HalfOpen, 3, 10), 0, 0, None),
        ],
    );
}

#[test]
fn the_other_states(rt: HostRuntime) {
    play(
        &rt,
        rt.alloc(),
        PARTS,
        &[
            Step::Move(2, Disabled),
            Step::Failures(3, 10, 2, Fate::Off),
            Step::Stands((Disabled, 2, 2), 0),
            Step::Measures(10, (Disabled, 2, 2), 0, 0, None),
            Step::Move(3, MetricsOnly),
            Step::Failures(3, 10, 3, Fate::Recorded),
            Step::Stands((MetricsOnly, 3, 3), 0),
            Step::Measures(10, (MetricsOnly, 3, 3), 3, 3, Some(100)),
            Step::Move(30, ForcedOpen),
            Step::Permit(u64::MAX, None),
        ],
    );
}

#[test]
fn metrics_show_rates_from_the_minimum_on(rt: HostRuntime) {
    let mut parts = PARTS;
    parts.sliding_window_type = SlidingWindowType::TimeBased;
    parts.minimum_number_of_calls = 3;
    play(
        &rt,
        rt.alloc(),
        parts,
        &[
            Step::Move(0, MetricsOnly),
            Step::Measures(0, (MetricsOnly, 2, 0), 0, 0, None),
            Step::Permit(1_000, Some(2)),
            Step::Record(1_000, 2, false, Fate::Recorded),
            Step::Permit(2_000, Some(2)),
            Step::Record(2_000, 2, true, Fate::Recorded),
            Step::Permit(4_999, Some(2)),
            Step::Record(4_999, 2, false, Fate::Recorded),
            Step::Measures(4_999, (MetricsOnly, 2, 0), 3, 1, Some(33)),
            Step::Measures(5_000, (MetricsOnly, 2, 0), 2, 1, None),
        ],
    );
}

#[test]
fn the_minimum_is_capped_by_the_window(rt: HostRuntime) {
    let mut parts = PARTS;
    parts.minimum_number_of_calls = 100;
    play(
        &rt,
        rt.alloc(),
        parts,
        &[
            Step::Failures(1, 1, 1, Fate::Recorded),
            Step::Stands((Closed, 1, 0), 0),
            Step::Failures(1, 2, 1, Fate::Recorded),
            Step::Stands((Closed, 1, 0), 0),
            Step::Failures(1, 3, 1, Fate::Recorded),
            Step::Stands((Closed, 1, 0), 0),
            Step::Failures(1, 4, 1, Fate::Recorded),
            Step::Stands((Open, 2, 4), 0),
        ],
    );
}

/// A call that failed.
const FAILED: Note = Note {
    moment: 3,
    failed: true,
    slow: false,
};

#[test]
fn a_decision_is_followed(rt: HostRuntime) {
    play(
        &rt,
        rt.alloc(),
        PARTS,
        &[
            Step::Stands((Closed, 1, 0), 0),
            Step::Permission(3, true, (Closed, 1, 0)),
            Step::TakePermission,
            Step::Stands((Closed, 1, 0), 1),
            Step::AddNote(FAILED),
            Step::AfterNote(FAILED, (Open, 2, 3)),
            Step::ReturnPermission,
            Step::Stands((Closed, 1, 0), 0),
            Step::Follow((Open, 2, 3), FAILED),
            Step::Stands((Open, 2, 3), 0),
            Step::BeginPeriod((Closed, 3, 4)),
            Step::Stands((Closed, 3, 4), 0),
            Step::Measures(4, (Closed, 3, 4), 0, 0, None),
        ],
    );
}

/// A stay in HALF_OPEN of half a second that began at 7 is over at 507.
#[test]
fn a_longest_stay_ends(rt: HostRuntime) {
    let mut parts = PARTS;
    parts.max_wait_duration_in_half_open_state = 500;
    play(
        &rt,
        rt.alloc(),
        parts,
        &[
            Step::Move(7, HalfOpen),
            Step::Permit(8, Some(2)),
            Step::StandsAt(0, (HalfOpen, 2, 7)),
            Step::StandsAt(506, (HalfOpen, 2, 7)),
            Step::StandsAt(507, (Open, 3, 507)),
            Step::StandsAt(508, (Open, 3, 508)),
            Step::Stands((HalfOpen, 2, 7), 1),
            Step::PermissionInNewPeriod((Open, 3, 507), 507, false, (Open, 3, 507)),
            Step::Expire(506),
            Step::Stands((HalfOpen, 2, 7), 1),
            Step::Expire(507),
            Step::Stands((Open, 3, 507), 0),
            Step::Expire(1_007),
            Step::Stands((Open, 3, 507), 0),
            Step::Permit(1_507, Some(4)),
            Step::Expire(2_006),
            Step::Stands((HalfOpen, 4, 1_507), 1),
            Step::Expire(3_000),
            Step::Stands((Open, 5, 3_000), 0),
        ],
    );
}

/// A breaker that was moved to a state at 7 stays there.
fn stays(rt: &impl Abort, alloc: Global, longest: u64, states: &[State]) {
    let mut parts = PARTS;
    parts.max_wait_duration_in_half_open_state = longest;
    for state in states {
        let state = *state;
        play(
            rt,
            alloc,
            parts,
            &[
                Step::Move(7, state),
                Step::StandsAt(507, (state, 2, 7)),
                Step::Expire(507),
                Step::StandsAt(u64::MAX, (state, 2, 7)),
                Step::Expire(u64::MAX),
                Step::Stands((state, 2, 7), 0),
            ],
        );
    }
}

#[test]
fn no_other_stay_ends(rt: HostRuntime) {
    stays(
        &rt,
        rt.alloc(),
        500,
        &[Closed, Open, Disabled, MetricsOnly, ForcedOpen],
    );
    stays(&rt, rt.alloc(), 0, &[HalfOpen, Closed]);
}
