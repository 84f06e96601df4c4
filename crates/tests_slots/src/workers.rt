//! Callers that work at once, each in a thread of its own.
ghost use Rattle.std.specs.Prelude.{◌≡◌};
ghost use Rattle.std.specs.List.{AllByRecursion};
ghost use Rattle.slot_desk.specs.Seats.{IsSeatOf};
ghost use Rattle.tests_slots.specs.Crews.{IsAtDesk};

use crate::callers::Caller;
use crate::checks::is_true;
use book::{Book, Entry, Reply};
use service::OpenGate;
use slot_desk::{Desk, Gate, Seat};
use std::alloc::Global;
use std::marker::Model;
use std::process::Abort;
use std::sync::Wait;
use std::thread;
use std::thread::Threads;
use worked_histories::{Made, Wish, are_calls};

/// What a caller did on both services, and what a cut handed out to it.
#[derive(Drop)]
pub(crate) struct Log {
    pub pay: Vec<Made>,
    pub ship: Vec<Made>,
    pub handed_out: Vec<Entry>,
}

impl Log {
    fn new(alloc: Global) -> Log {
        Log {
            pay: Vec::new(alloc),
            ship: Vec::new(alloc),
            handed_out: Vec::new(alloc),
        }
    }
}

/// What one of several callers does, in a thread of its own.
pub(crate) trait Work {
    fn work<R: Wait + Abort>(&self, rt: &R, alloc: Global, caller: &mut Caller<'_>, log: &mut Log)
        ensures { caller.new ≡ caller.old };
}

/// A caller, with what it did. Contracts see the caller.
#[derive(Drop)]
pub(crate) struct Worker<'a> {
    caller: Caller<'a>,
    log: Log,
}

impl<'a> Model for Worker<'a> {
    ghost use Rattle.std.specs.Prelude.{List};
    ghost use Rattle.atomic_table.specs.Seated.{TableId};

    ghost Value = { List TableId };

    ghost view = { λ worker. worker.caller };
}

impl<'a> Worker<'a> {
    /// A seat at its desk, which has done nothing.
    fn new(alloc: Global, desk: &'a Desk, seat: Seat) -> Worker<'a>
        requires seat { IsSeatOf desk.now seat }
        ensures { result ≡ desk.now.tables }
    {
        Worker {
            caller: Caller::new(desk, seat),
            log: Log::new(alloc),
        }
    }

    /// Does its work.
    fn go<R: Wait + Abort, W: Work>(&mut self, rt: &R, alloc: Global, work: &W)
        ensures { self.new ≡ self.old }
    {
        work.work(rt, alloc, &mut self.caller, &mut self.log);
    }
}

/// What a seat did.
#[derive(Drop)]
pub(crate) struct Done {
    pub number: u32,
    pub count: u64,
    pub log: Log,
}

/// Makes a call, and notes it.
pub(crate) fn make<R: Wait + Abort, G: Gate>(
    rt: &R,
    alloc: Global,
    caller: &mut Caller<'_>,
    name: &str,
    moment: u64,
    wish: Wish,
    gate: &G,
    made: &mut Vec<Made>,
) -> Reply
    ensures { caller.new ≡ caller.old }
{
    let reply = caller.call(rt, alloc, name, moment, wish, gate);
    let call = Made {
        wish,
        moment,
        reply,
    };
    made.push(call).expect(rt, "ample memory");
    reply
}

/// The ticket that a reply has, and else 0.
pub(crate) fn ticket_of(reply: Reply) -> u64 {
    match reply {
        Reply::Permitted { ticket, .. } => ticket,
        _ => 0,
    }
}

/// So many times a ticket and its report, by moments that differ from those of other seats.
pub(crate) fn make_calls<R: Wait + Abort>(
    rt: &R,
    alloc: Global,
    caller: &mut Caller<'_>,
    name: &str,
    times: u16,
    made: &mut Vec<Made>,
)
    ensures { caller.new ≡ caller.old }
{
    for round in 0..times {
        let moment = round as u64 * 10 + caller.number() as u64;
        let acquire = Wish::Acquire;
        let acquired = make(rt, alloc, caller, name, moment, acquire, &OpenGate, made);
        let report = Wish::Report(ticket_of(acquired), 200);
        make(rt, alloc, caller, name, moment + 5, report, &OpenGate, made);
    }
}

/// All of them work at once.
fn at_once<R: Threads + Wait + Abort + Sync, W: Work + Sync>(
    rt: &R,
    alloc: Global,
    workers: &mut [Worker<'_>],
    work: &W,
)
    ensures { workers.new ≡ workers.old }
{
    thread::for_each_mut(
        rt,
        workers,
        16,
        &|_place: usize, worker: &mut Worker<'_>|
            ensures { worker.new ≡ worker.old }
        { worker.go(rt, alloc, work) },
    );
}

/// A worker for each seat.
fn workers_of<'a, R: Abort>(
    rt: &R,
    alloc: Global,
    desk: &'a Desk,
    seats: Vec<Seat>,
) -> Vec<Worker<'a>>
    requires { AllByRecursion (IsSeatOf desk.now) seats.items }
    ensures { AllByRecursion (IsAtDesk desk.now) result.items }
{
    let mut seats = seats;
    let mut workers = Vec::new(alloc);
    while let Some(seat) = seats.pop() {
        workers
            .push(Worker::new(alloc, desk, seat))
            .expect(rt, "ample memory");
    }
    workers
}

/// What comes of work: the seats, and what each of them did.
#[derive(Drop)]
pub(crate) struct Worked {
    pub seats: Vec<Seat>,
    pub done: Vec<Done>,
}

/// The seats of workers, and what each of them did.
fn apart<R: Abort>(rt: &R, alloc: Global, desk: &Desk, workers: Vec<Worker<'_>>) -> Worked
    requires { AllByRecursion (IsAtDesk desk.now) workers.items }
    ensures { AllByRecursion (IsSeatOf desk.now) result.seats.items }
{
    let mut workers = workers;
    let mut seats = Vec::new(alloc);
    let mut done = Vec::new(alloc);
    while let Some(worker) = workers.pop() {
        let Worker { caller, log } = worker;
        done.push(Done {
            number: caller.number(),
            count: caller.count(),
            log,
        })
        .expect(rt, "ample memory");
        seats.push(caller.into_seat()).expect(rt, "ample memory");
    }
    Worked { seats, done }
}

/// Seats of a desk work at once, each in a thread of its own, and come back in the same order.
pub(crate) fn work_at_once<R: Threads + Wait + Abort + Sync, W: Work + Sync>(
    rt: &R,
    alloc: Global,
    desk: &Desk,
    seats: Vec<Seat>,
    work: &W,
) -> Worked
    requires { AllByRecursion (IsSeatOf desk.now) seats.items }
    ensures { AllByRecursion (IsSeatOf desk.now) result.seats.items }
{
    let mut workers = workers_of(rt, alloc, desk, seats);
    at_once(rt, alloc, workers.as_mut_slice(), work);
    apart(rt, alloc, desk, workers)
}

/// How many entries all of them made.
pub(crate) fn count_of(done: &[Done]) -> u64 {
    let mut count: u64 = 0;
    for one in done {
        count = count.saturating_add(one.count);
    }
    count
}

/// The entries of a seat, among those that were handed out and those of the book, are its own calls.
pub(crate) fn check_calls<R: Abort>(
    rt: &R,
    handed_out: &[Entry],
    book: &Book,
    seat: u32,
    made: &[Made],
) {
    is_true(rt, are_calls(handed_out, book.entries(0), seat, made));
}
