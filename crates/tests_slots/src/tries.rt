//! Calls that wait for nobody.
ghost use Rattle.std.specs.Prelude.{◌≡◌};

use crate::callers::Caller;
use crate::checks::{is_true, same};
use crate::fixtures::{are_entries, close_one, has_entries, open_desk, seat_of, two_seats};
use book::{Event, Reading, Reply};
use bpf_run::judge;
use refusals::RefusalNumber;
use service::OpenGate;
use slot_desk::{Busy, Held};
use std::alloc::Global;
use std::process::Abort;
use std::sync::Wait;
use worked_histories::{
    Answer, Entered, FAILURE, FRESH, SPENT, Wish, outcome_of, reply, shared_program,
};

/// How many entries a journal holds at most.
const MOST_ENTRIES: u64 = 65_536;

/// What is answered where the journal is full.
const FULL: Reply = Reply::Refused(RefusalNumber::JournalFull);

/// What a try comes to at a service of the desk.
fn is_answered<R: Abort>(rt: &R, tried: Option<Result<Reply, Busy>>) -> Reply {
    tried
        .expect(rt, "a service of the desk")
        .ok()
        .expect(rt, "the book is in its slot")
}

/// Tries a call, which finds the book in its slot.
fn succeed<R: Abort>(rt: &R, caller: &mut Caller<'_>, moment: u64, event: Event) -> Reply
    ensures { caller.new ≡ caller.old }
{
    is_answered(rt, caller.try_call("pay", moment, event))
}

/// A response with this status under a ticket, as the default classifier judges it.
fn finish<R: Abort>(rt: &R, alloc: Global, ticket: u64, status: u16) -> Event {
    let program = shared_program(alloc, false).expect(rt, "ample memory");
    let outcome = outcome_of(alloc, status).expect(rt, "ample memory");
    Event::Finish(judge(program, outcome), ticket)
}

/// The entries of a ticket that is finished twice.
const FINISHED_TWICE: &[Entered] = &[
    (1, 1, Wish::Acquire, 1000, Answer::Permitted(1)),
    (2, 1, Wish::Report(1, 500), 1020, FAILURE),
    (3, 1, Wish::Report(1, 500), 1020, SPENT),
];

/// One seat finishes a ticket twice.
fn finish_twice<R: Wait + Abort>(rt: &R, alloc: Global, caller: &mut Caller<'_>)
    ensures { caller.new ≡ caller.old }
{
    let acquired = succeed(rt, caller, 1000, Event::Acquire);
    same(rt, acquired, reply(Answer::Permitted(1)));
    let first = succeed(rt, caller, 1020, finish(rt, alloc, 1, 500));
    same(rt, first, reply(FAILURE));
    let second = succeed(rt, caller, 1020, finish(rt, alloc, 1, 500));
    same(rt, second, reply(SPENT));
    same(rt, caller.count(), 3);
    let reading = Reading {
        total: 1,
        failed: 1,
        entries: 3,
        ..FRESH
    };
    same(rt, caller.read(rt, "pay", 1020), reading);
    are_entries(rt, &caller.page(rt, "pay", 1), FINISHED_TWICE);
}

#[test]
fn one_seat_is_never_turned_away(rt: HostRuntime) {
    let rt = &rt;
    let alloc = rt.alloc();
    let mut desk = open_desk(rt, alloc, &["pay"]);
    let seat = seat_of(rt, alloc, &mut desk);
    let mut caller = Caller::new(&desk, seat);
    finish_twice(rt, alloc, &mut caller);
    let seats = Vec::from_array(alloc, [caller.into_seat()]).expect(rt, "ample memory");
    let book = close_one(rt, alloc, desk, seats);
    has_entries(rt, &book, FINISHED_TWICE, 3);
}

/// Moves the breaker to CLOSED until the journal is full.
fn fill_journal<R: Abort>(rt: &R, caller: &mut Caller<'_>)
    ensures { caller.new ≡ caller.old }
{
    for _ in 0..MOST_ENTRIES {
        succeed(rt, caller, 1, Event::Reset);
    }
}

#[test]
fn a_call_without_an_entry_is_not_counted(rt: HostRuntime) {
    let rt = &rt;
    let alloc = rt.alloc();
    let mut desk = open_desk(rt, alloc, &["pay"]);
    let seat = seat_of(rt, alloc, &mut desk);
    let mut caller = Caller::new(&desk, seat);
    fill_journal(rt, &mut caller);
    same(rt, caller.count(), MOST_ENTRIES);
    let waited = caller.call(rt, alloc, "pay", 1, Wish::Reset, &OpenGate);
    same(rt, waited, FULL);
    let tried = succeed(rt, &mut caller, 1, Event::Acquire);
    same(rt, tried, FULL);
    same(rt, caller.count(), MOST_ENTRIES);
    same(rt, caller.read(rt, "pay", 1).entries, MOST_ENTRIES);
}

/// A second caller, who tries two calls while the first one has the book.
#[derive(Drop)]
struct Intruder<'a> {
    caller: Caller<'a>,
    acquire_came_back: bool,
    release_came_back: bool,
}

impl Held for Intruder<'_> {
    fn held(&mut self) {
        if let Some(Err(busy)) = self.caller.try_call("pay", 2, Event::Acquire) {
            self.acquire_came_back = matches!(busy.event, Event::Acquire);
        }
        if let Some(Err(busy)) = self.caller.try_call("pay", 2, Event::Release(7)) {
            self.release_came_back = matches!(busy.event, Event::Release(7));
        }
    }
}

#[test]
fn a_book_that_is_out_is_busy(rt: HostRuntime) {
    let rt = &rt;
    let alloc = rt.alloc();
    let mut desk = open_desk(rt, alloc, &["pay"]);
    let (first, second) = two_seats(rt, alloc, &mut desk);
    let mut first = Caller::new(&desk, first);
    let mut intruder = Intruder {
        caller: Caller::new(&desk, second),
        acquire_came_back: false,
        release_came_back: false,
    };
    let tried = first.try_call_with("pay", 1, Event::Acquire, &mut intruder);
    same(rt, is_answered(rt, tried), reply(Answer::Permitted(1)));
    is_true(rt, intruder.acquire_came_back);
    is_true(rt, intruder.release_came_back);
    same(rt, intruder.caller.count(), 0);
    let acquired = succeed(rt, &mut intruder.caller, 3, Event::Acquire);
    same(rt, acquired, reply(Answer::Permitted(2)));
    same(rt, intruder.caller.count(), 1);
    same(rt, first.read(rt, "pay", 3).entries, 2);
    are_entries(
        rt,
        &first.page(rt, "pay", 0),
        &[
            (1, 1, Wish::Acquire, 1, Answer::Permitted(1)),
            (2, 2, Wish::Acquire, 3, Answer::Permitted(2)),
        ],
    );
}
