//! Seats that meet: what they have seen of a service begins one history.
ghost use Rattle.std.specs.Prelude.{◌≡◌};

use crate::callers::Caller;
use crate::checks::same;
use crate::fixtures::{are_entries, close_both, has_entries, open_desk, two_seats};
use book::{Reply, State};
use service::OpenGate;
use std::alloc::Global;
use std::process::Abort;
use std::sync::Wait;
use std::thread;
use std::thread::Threads;
use worked_histories::Answer::{Permitted, Released};
use worked_histories::Wish::{Acquire, Release};
use worked_histories::{Answer, Wish, reply};

/// Makes a call, which is answered so.
fn call<R: Wait + Abort>(
    rt: &R,
    alloc: Global,
    caller: &mut Caller<'_>,
    moment: u64,
    wish: Wish,
    answer: Answer,
)
    ensures { caller.new ≡ caller.old }
{
    let found = caller.call(rt, alloc, "pay", moment, wish, &OpenGate);
    same(rt, found, reply(answer));
}

#[test]
fn two_seats_meet(rt: HostRuntime) {
    let rt = &rt;
    let alloc = rt.alloc();
    let mut desk = open_desk(rt, alloc, &["pay"]);
    let (first, second) = two_seats(rt, alloc, &mut desk);
    let mut first = Caller::new(&desk, first);
    let mut second = Caller::new(&desk, second);
    first.meet(rt, &mut second, "pay");
    call(rt, alloc, &mut first, 1, Acquire, Permitted(1));
    call(rt, alloc, &mut second, 2, Acquire, Permitted(2));
    first.meet(rt, &mut second, "pay");
    let (first, second) = (first.into_seat(), second.into_seat());
    let book = close_both(rt, alloc, desk, first, second);
    has_entries(
        rt,
        &book,
        &[
            (1, 1, Acquire, 1, Permitted(1)),
            (2, 2, Acquire, 2, Permitted(2)),
        ],
        2,
    );
}

/// A caller, with what it was answered. Contracts see the caller.
#[derive(Drop)]
struct Acquirer<'a> {
    caller: Caller<'a>,
    answered: Option<Reply>,
}

impl<'a> Acquirer<'a> {
    /// Asks for a ticket.
    fn go<R: Wait + Abort>(&mut self, rt: &R)
        ensures { self.new.caller ≡ self.old.caller }
    {
        self.answered = Some(self.caller.acquire(rt, "pay", 3));
    }
}

/// Two threads ask for a ticket each, and then they meet.
fn acquire_and_meet<R: Threads + Wait + Abort + Sync>(
    rt: &R,
    first: &mut Acquirer<'_>,
    second: &mut Acquirer<'_>,
)
    requires { second.old.caller ≡ first.old.caller }
    ensures first { first.new.caller ≡ first.old.caller }
    ensures second { second.new.caller ≡ second.old.caller }
{
    thread::join_mut(rt, &mut || first.go(rt), &mut || second.go(rt));
    first.caller.meet(rt, &mut second.caller, "pay");
}

/// Whether the two answers are tickets 1 and 2, in whichever order.
fn has_both_tickets(first: Option<Reply>, second: Option<Reply>) -> bool {
    let one = Some(reply(Permitted(1)));
    let two = Some(reply(Permitted(2)));
    first == one && second == two || first == two && second == one
}

/// The seat that got the ticket of this number.
fn winner(first: Option<Reply>, ticket: u64) -> u32 {
    if first == Some(reply(Permitted(ticket))) {
        1
    } else {
        2
    }
}

#[test]
fn seats_meet_after_two_threads(rt: HostRuntime) {
    let rt = &rt;
    let alloc = rt.alloc();
    let mut desk = open_desk(rt, alloc, &["pay"]);
    let (first, second) = two_seats(rt, alloc, &mut desk);
    let mut first = Acquirer {
        caller: Caller::new(&desk, first),
        answered: None,
    };
    let mut second = Acquirer {
        caller: Caller::new(&desk, second),
        answered: None,
    };
    acquire_and_meet(rt, &mut first, &mut second);
    let Acquirer {
        caller: first,
        answered: one,
    } = first;
    let Acquirer {
        caller: second,
        answered: two,
    } = second;
    same(rt, has_both_tickets(one, two), true);
    let (first, second) = (first.into_seat(), second.into_seat());
    let book = close_both(rt, alloc, desk, first, second);
    has_entries(
        rt,
        &book,
        &[
            (1, winner(one, 1), Acquire, 3, Permitted(1)),
            (2, winner(one, 2), Acquire, 3, Permitted(2)),
        ],
        2,
    );
}

/// The first caller cuts the journal, which has two entries.
fn cut<R: Wait + Abort>(rt: &R, caller: &mut Caller<'_>)
    ensures { caller.new ≡ caller.old }
{
    are_entries(
        rt,
        &caller.cut(rt, "pay").expect(rt, "no open tickets"),
        &[
            (1, 1, Acquire, 1, Permitted(1)),
            (2, 2, Release(1), 2, Released(State::Closed)),
        ],
    );
}

#[test]
fn seats_meet_after_a_cut(rt: HostRuntime) {
    let rt = &rt;
    let alloc = rt.alloc();
    let mut desk = open_desk(rt, alloc, &["pay"]);
    let (first, second) = two_seats(rt, alloc, &mut desk);
    let mut first = Caller::new(&desk, first);
    let mut second = Caller::new(&desk, second);
    call(rt, alloc, &mut first, 1, Acquire, Permitted(1));
    call(
        rt,
        alloc,
        &mut second,
        2,
        Release(1),
        Released(State::Closed),
    );
    cut(rt, &mut first);
    first.meet(rt, &mut second, "pay");
    call(rt, alloc, &mut second, 3, Acquire, Permitted(2));
    first.meet(rt, &mut second, "pay");
    same(rt, first.read(rt, "pay", 3).entries, 3);
    second.meet(rt, &mut first, "pay");
    let (first, second) = (first.into_seat(), second.into_seat());
    let book = close_both(rt, alloc, desk, first, second);
    has_entries(rt, &book, &[(3, 2, Acquire, 3, Permitted(2))], 3);
}
