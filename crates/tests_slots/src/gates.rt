//! Reports that other calls overtake between their look and their finish.
ghost use Rattle.std.specs.Prelude.{◌≡◌};

use crate::callers::Caller;
use crate::checks::{is_true, same};
use crate::fixtures::{close_one, has_entries, open_desk, seats_of};
use crate::workers::{Done, Log, Work, count_of, make, work_at_once};
use book::Reply;
use service::OpenGate;
use std::alloc::Global;
use std::process::Abort;
use std::sync::Wait;
use std::thread::Threads;
use worked_histories::{Answer, Entered, FAILURE, Flag, HoldingGate, Made, SPENT, Wish, reply};

/// The first seat gets ticket 1 and reports it. While its report is held at the gate, the second seat makes these calls.
#[derive(Drop)]
struct Overtaking {
    gate: HoldingGate,
    between: &'static [Wish],
}

impl Work for Overtaking {
    fn work<R: Wait + Abort>(&self, rt: &R, alloc: Global, caller: &mut Caller<'_>, log: &mut Log) {
        let made = &mut log.pay;
        if caller.number() == 1 {
            make(rt, alloc, caller, "pay", 0, Wish::Acquire, &OpenGate, made);
            let report = Wish::Report(1, 500);
            make(rt, alloc, caller, "pay", 1, report, &self.gate, made);
        } else {
            self.gate.reached.wait();
            make_all(rt, alloc, caller, self.between, made);
            self.gate.answered.raise();
        }
    }
}

/// Makes these calls, at the moment 2.
fn make_all<R: Wait + Abort>(
    rt: &R,
    alloc: Global,
    caller: &mut Caller<'_>,
    wishes: &[Wish],
    made: &mut Vec<Made>,
)
    ensures { caller.new ≡ caller.old }
{
    for wish in wishes {
        make(rt, alloc, caller, "pay", 2, *wish, &OpenGate, made);
    }
}

/// These calls in between at a new desk leave these entries, all of which the seats count.
fn check_overtaking<R: Threads + Wait + Abort + Sync>(
    rt: &R,
    alloc: Global,
    between: &'static [Wish],
    entries: &[Entered],
) {
    let mut desk = open_desk(rt, alloc, &["pay"]);
    let seats = seats_of(rt, alloc, &mut desk, 2);
    let work = Overtaking {
        gate: HoldingGate::new(),
        between,
    };
    let worked = work_at_once(rt, alloc, &desk, seats, &work);
    is_true(rt, work.gate.overtaken.is_raised());
    let count = count_of(&worked.done);
    same(rt, count, entries.len() as u64);
    let book = close_one(rt, alloc, desk, worked.seats);
    has_entries(rt, &book, entries, count);
}

#[test]
fn reports_overtake_one_another(rt: HostRuntime) {
    check_overtaking(
        &rt,
        rt.alloc(),
        &[Wish::Acquire, Wish::Report(2, 500)],
        &[
            (1, 1, Wish::Acquire, 0, Answer::Permitted(1)),
            (2, 2, Wish::Acquire, 2, Answer::Permitted(2)),
            (3, 2, Wish::Report(2, 500), 2, FAILURE),
            (4, 1, Wish::Report(1, 500), 2, FAILURE),
        ],
    );
}

#[test]
fn one_of_two_reports_is_recorded(rt: HostRuntime) {
    check_overtaking(
        &rt,
        rt.alloc(),
        &[Wish::Report(1, 500)],
        &[
            (1, 1, Wish::Acquire, 0, Answer::Permitted(1)),
            (2, 2, Wish::Report(1, 500), 2, FAILURE),
            (3, 1, Wish::Report(1, 500), 2, SPENT),
        ],
    );
}

#[test]
fn tickets_keep_their_version_while_another_is_installed(rt: HostRuntime) {
    check_overtaking(
        &rt,
        rt.alloc(),
        &[Wish::InstallIgnoring],
        &[
            (1, 1, Wish::Acquire, 0, Answer::Permitted(1)),
            (2, 2, Wish::InstallIgnoring, 2, Answer::Installed(2, 2)),
            (3, 1, Wish::Report(1, 500), 2, FAILURE),
        ],
    );
}

/// The first seat gets ticket 1, and then both seats report it at once.
#[derive(Drop)]
struct Race {
    first_is_ready: Flag,
    second_is_ready: Flag,
}

impl Work for Race {
    fn work<R: Wait + Abort>(&self, rt: &R, alloc: Global, caller: &mut Caller<'_>, log: &mut Log) {
        if caller.number() == 1 {
            let acquired = caller.call(rt, alloc, "pay", 0, Wish::Acquire, &OpenGate);
            same(rt, acquired, reply(Answer::Permitted(1)));
            self.first_is_ready.raise();
            self.second_is_ready.wait();
        } else {
            self.second_is_ready.raise();
            self.first_is_ready.wait();
        }
        let report = Wish::Report(1, 500);
        make(rt, alloc, caller, "pay", 1, report, &OpenGate, &mut log.pay);
    }
}

/// How many of the last replies are this one.
fn count_replies(done: &[Done], wanted: Reply) -> u64 {
    let mut count: u64 = 0;
    for one in done {
        if let Some(made) = one.log.pay.last()
            && made.reply == wanted
        {
            count = count.saturating_add(1);
        }
    }
    count
}

/// Two reports of ticket 1 at a new desk, with nothing between them.
fn report_at_once<R: Threads + Wait + Abort + Sync>(rt: &R, alloc: Global) {
    let mut desk = open_desk(rt, alloc, &["pay"]);
    let seats = seats_of(rt, alloc, &mut desk, 2);
    let work = Race {
        first_is_ready: Flag::new(),
        second_is_ready: Flag::new(),
    };
    let worked = work_at_once(rt, alloc, &desk, seats, &work);
    same(rt, count_replies(&worked.done, reply(FAILURE)), 1);
    same(rt, count_replies(&worked.done, reply(SPENT)), 1);
    let count = count_of(&worked.done);
    is_true(rt, matches!(count, 2 | 3));
    let book = close_one(rt, alloc, desk, worked.seats);
    same(rt, book.last_number(), count);
}

#[test]
fn races_have_one_winner(rt: HostRuntime) {
    for _ in 0..1000 {
        report_at_once(&rt, rt.alloc());
    }
}
