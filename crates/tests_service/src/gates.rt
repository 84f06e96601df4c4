//! Reports that other calls overtake between their look and their finish.
use crate::checks::{is_true, same};
use crate::desk_fixtures::{Caller, Scene, ask, close, play_at_a_desk};
use book::{Book, ConfigParts, Reply};
use desk::{Desk, Gate, Offered, Seat};
use service::OpenGate;
use std::alloc::{AllocError, Global};
use std::process::Abort;
use std::sync::Wait;
use std::sync::ledger::Ledger;
use std::thread;
use std::thread::Threads;
use worked_histories::{Answer, Entered, FAILURE, HoldingGate, SPENT, Wish, are_entries, reply};

/// A seat, with what its call was replied.
#[derive(Drop)]
struct Answered<L: Ledger, M: Ledger> {
    seat: Seat<L, M>,
    reply: Reply,
}

/// Makes a call once the gate was reached, and says that it was answered.
fn overtake<L: Ledger, M: Ledger + Offered, R: Wait + Abort>(
    rt: &R,
    alloc: Global,
    caller: Caller<'_, L, M>,
    gate: &HoldingGate,
    wish: Wish,
) -> Answered<L, M> {
    let Caller { desk, mut seat } = caller;
    gate.reached.wait();
    let reply = ask(rt, alloc, desk, &mut seat, "pay", 2, wish, &OpenGate);
    gate.answered.raise();
    Answered { seat, reply }
}

/// Makes a report that passes a gate.
fn report_at<L: Ledger, M: Ledger + Offered, R: Wait + Abort, G: Gate>(
    rt: &R,
    alloc: Global,
    caller: Caller<'_, L, M>,
    gate: &G,
    wish: Wish,
) -> Answered<L, M> {
    let Caller { desk, mut seat } = caller;
    let reply = ask(rt, alloc, desk, &mut seat, "pay", 1, wish, gate);
    Answered { seat, reply }
}

/// What two threads were answered, and their seats.
#[derive(Drop)]
struct Both<L: Ledger, M: Ledger> {
    first: Reply,
    second: Reply,
    seats: (Seat<L, M>, Seat<L, M>),
}

/// Two callers, in the order of their seats.
fn callers<'a, L: Ledger, M: Ledger + Offered>(
    alloc: Global,
    desk: &'a Desk<L, M>,
    seats: (Seat<L, M>, Seat<L, M>),
) -> Result<Vec<Caller<'a, L, M>>, AllocError> {
    let (first, second) = seats;
    let first = Caller { desk, seat: first };
    Ok(Vec::from_array(alloc, [first, Caller { desk, seat: second }])?)
}

/// What both were answered, of the answers in the order of their seats.
fn in_order<L: Ledger, M: Ledger>(rt: &impl Abort, answered: Vec<Answered<L, M>>) -> Both<L, M> {
    let mut answered = answered;
    let Answered {
        seat: second_seat,
        reply: second,
    } = answered.pop().expect(rt, "the second caller");
    let Answered {
        seat: first_seat,
        reply: first,
    } = answered.pop().expect(rt, "the first caller");
    Both {
        first,
        second,
        seats: (first_seat, second_seat),
    }
}

/// The first seat's report is held at the gate until the second seat's call was answered, each in a thread of
/// its own.
fn hold_and_overtake<
    L: Ledger + Send + Sync,
    M: Ledger + Offered + Send + Sync,
    R: Threads + Wait + Abort + Sync,
>(
    rt: &R,
    alloc: Global,
    desk: &Desk<L, M>,
    seats: (Seat<L, M>, Seat<L, M>),
    wishes: (Wish, Wish),
) -> Result<Both<L, M>, AllocError> {
    let gate = HoldingGate::new();
    let callers = callers(alloc, desk, seats)?;
    let answered = thread::map_vec(
        rt,
        callers,
        &|caller: Caller<'_, L, M>| {
            if caller.seat.number() == 1 {
                report_at(rt, alloc, caller, &gate, wishes.0)
            } else {
                overtake(rt, alloc, caller, &gate, wishes.1)
            }
        },
    )?;
    is_true(rt, gate.overtaken.is_raised());
    Ok(in_order(rt, answered))
}

/// Closes a desk of one service and two seats.
fn close_both<L: Ledger, M: Ledger + Offered>(
    rt: &impl Abort,
    alloc: Global,
    desk: Desk<L, M>,
    seats: (Seat<L, M>, Seat<L, M>),
) -> Book {
    let count = seats.0.count().saturating_add(seats.1.count());
    let seats = Vec::from_array(alloc, [seats.0, seats.1]).expect(rt, "ample memory");
    let mut books = close(rt, alloc, desk, seats);
    same(rt, books.len(), 1);
    let book = books.pop().expect(rt, "one book");
    same(rt, book.last_number(), count);
    book
}

/// A seat gets the ticket of this number.
fn get_ticket<L: Ledger, M: Ledger + Offered, R: Wait + Abort>(
    rt: &R,
    alloc: Global,
    desk: &Desk<L, M>,
    seat: &mut Seat<L, M>,
    number: u64,
) {
    let found = ask(rt, alloc, desk, seat, "pay", 0, Wish::Acquire, &OpenGate);
    same(rt, found, reply(Answer::Permitted(number)));
}

/// Two seats, of which the first has ticket 1, and the second ticket 2 where there are two tickets.
fn two_seats<L: Ledger, M: Ledger + Offered, R: Wait + Abort>(
    rt: &R,
    alloc: Global,
    desk: &mut Desk<L, M>,
    has_two_tickets: bool,
) -> (Seat<L, M>, Seat<L, M>) {
    let mut first = desk.sit().expect(rt, "a first seat");
    let mut second = desk.sit().expect(rt, "a second seat");
    get_ticket(rt, alloc, desk, &mut first, 1);
    if has_two_tickets {
        get_ticket(rt, alloc, desk, &mut second, 2);
    }
    (first, second)
}

/// The first seat's report is held while the second seat makes a call.
#[derive(Clone, Copy)]
pub(crate) struct Overtaking<'a> {
    has_two_tickets: bool,
    wishes: (Wish, Wish),
    answers: (Answer, Answer),
    /// The last entries that there are then, of which the last one is the journal's.
    entries: &'a [Entered],
    last_number: u64,
}

/// Holds a report at a gate, and compares what comes of that.
pub(crate) fn overtake_at_a_gate<
    L: Ledger + Send + Sync,
    M: Ledger + Offered + Send + Sync,
    R: Threads + Wait + Abort + Sync,
>(rt: &R, alloc: Global, desk: Desk<L, M>, wanted: &Overtaking<'_>) {
    let mut desk = desk;
    let seats = two_seats(rt, alloc, &mut desk, wanted.has_two_tickets);
    let both = hold_and_overtake(rt, alloc, &desk, seats, wanted.wishes).expect(rt, "ample memory");
    same(rt, both.first, reply(wanted.answers.0));
    same(rt, both.second, reply(wanted.answers.1));
    let book = close_both(rt, alloc, desk, both.seats);
    has_last(rt, &book, wanted.entries);
    same(rt, book.last_number(), wanted.last_number);
}

/// The last entries of a journal are these.
fn has_last(rt: &impl Abort, book: &Book, entries: &[Entered]) {
    let (from, ..) = *entries.first().expect(rt, "an entry");
    is_true(rt, are_entries(book.entries(from), entries));
}

/// Plays at a new desk with one service.
fn play<R: Threads + Wait + Abort + Sync>(rt: &R, alloc: Global, scene: Scene<'_>) {
    play_at_a_desk(rt, alloc, &["pay"], ConfigParts::DEFAULT, scene);
}

/// The report of ticket 2 is answered while that of ticket 1 is held: outcomes are judged under no lock.
#[test]
fn reports_overtake_one_another(rt: HostRuntime) {
    let overtaking = Overtaking {
        has_two_tickets: true,
        wishes: (Wish::Report(1, 500), Wish::Report(2, 500)),
        answers: (FAILURE, FAILURE),
        entries: &[
            (3, 2, Wish::Report(2, 500), 2, FAILURE),
            (4, 1, Wish::Report(1, 500), 2, FAILURE),
        ],
        last_number: 4,
    };
    play(&rt, rt.alloc(), Scene::Overtaking(&overtaking));
}

/// Two reports of ticket 1: the one that finishes first is recorded.
#[test]
fn one_of_two_reports_is_recorded(rt: HostRuntime) {
    let overtaking = Overtaking {
        has_two_tickets: false,
        wishes: (Wish::Report(1, 500), Wish::Report(1, 500)),
        answers: (SPENT, FAILURE),
        entries: &[
            (2, 2, Wish::Report(1, 500), 2, FAILURE),
            (3, 1, Wish::Report(1, 500), 2, SPENT),
        ],
        last_number: 3,
    };
    play(&rt, rt.alloc(), Scene::Overtaking(&overtaking));
}

/// A program is installed while a report is held: the report is judged by its ticket's version.
#[test]
fn tickets_keep_their_version_while_another_is_installed(rt: HostRuntime) {
    let overtaking = Overtaking {
        has_two_tickets: false,
        wishes: (Wish::Report(1, 500), Wish::InstallIgnoring),
        answers: (FAILURE, Answer::Installed(2, 2)),
        entries: &[
            (1, 1, Wish::Acquire, 0, Answer::Permitted(1)),
            (2, 2, Wish::InstallIgnoring, 2, Answer::Installed(2, 2)),
            (3, 1, Wish::Report(1, 500), 2, FAILURE),
        ],
        last_number: 3,
    };
    play(&rt, rt.alloc(), Scene::Overtaking(&overtaking));
}

/// Two threads report ticket 1.
fn report_twice<
    L: Ledger + Send + Sync,
    M: Ledger + Offered + Send + Sync,
    R: Threads + Wait + Abort + Sync,
>(
    rt: &R,
    alloc: Global,
    desk: &Desk<L, M>,
    seats: (Seat<L, M>, Seat<L, M>),
) -> Result<Both<L, M>, AllocError> {
    let callers = callers(alloc, desk, seats)?;
    let answered = thread::map_vec(
        rt,
        callers,
        &|caller: Caller<'_, L, M>| report_at(rt, alloc, caller, &OpenGate, Wish::Report(1, 500)),
    )?;
    Ok(in_order(rt, answered))
}

/// Whether one of two replies is that the report was recorded, and the other that the ticket is spent.
fn has_one_winner(first: Reply, second: Reply) -> bool {
    let (recorded, spent) = (reply(FAILURE), reply(SPENT));
    first == recorded && second == spent || first == spent && second == recorded
}

/// Two reports of ticket 1 with nothing between them.
pub(crate) fn race<
    L: Ledger + Send + Sync,
    M: Ledger + Offered + Send + Sync,
    R: Threads + Wait + Abort + Sync,
>(rt: &R, alloc: Global, desk: Desk<L, M>) {
    let mut desk = desk;
    let seats = two_seats(rt, alloc, &mut desk, false);
    let both = report_twice(rt, alloc, &desk, seats).expect(rt, "ample memory");
    is_true(rt, has_one_winner(both.first, both.second));
    let book = close_both(rt, alloc, desk, both.seats);
    is_true(rt, matches!(book.last_number(), 2 | 3));
}

#[test]
fn races_have_one_winner(rt: HostRuntime) {
    for _ in 0..1000 {
        play(&rt, rt.alloc(), Scene::Race);
    }
}
