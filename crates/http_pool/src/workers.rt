//! Workers, which draw the numbers of connections from one count.
ghost use Rattle.std.specs.Prelude.{◌≡◌, ◌≤◌, ◌<◌, false, None, IfOk, IfErr, IfSome, OnOk, vec_len};
ghost use Rattle.event_loop.specs.Failures.{IsOfListener};
ghost use Rattle.event_loop.specs.Numbers.{is_left, ends};
ghost use Rattle.http_pool.specs.Connections.{HasServed};
ghost use Rattle.http_pool.specs.Workers.{HasWorked, HaveWorked, HaveEnded, HasEnded, FailsByListener, FailByListener, most_workers};

use event_loop::{Closing, Limits, ListenerFailed, SharedCounts};
use http_front::{Answerer, Clock, HttpResponder};
use std::alloc::{AllocError, Global};
use std::net::{Net, TcpListener, TcpStream};
use std::sync::Wait;
use std::thread::Threads;
use std::time::Duration;
use std::{thread, time};

/// Who serves connections in a thread of their own: an answerer and a clock.
#[derive(Drop)]
pub struct Worker<A, C> {
    pub answerer: A,
    pub clock: C,
    /// The failure that ended it, where the listener accepts no more connections.
    pub failure: Option<ListenerFailed>,
}

impl<A, C> Worker<A, C> {
    /// A worker that has met no failure.
    pub fn new(answerer: A, clock: C) -> Self
        ensures answerer { result.answerer ≡ answerer }
        ensures clock { result.clock ≡ clock }
        ensures failure { result.failure ≡ None }
    {
        Worker {
            answerer,
            clock,
            failure: None,
        }
    }
}

/// How many connections are open at once at most where no other limit is given.
pub const DEFAULT_OPEN: u64 = 1_024;

/// For how many milliseconds a worker waits for memory to begin.
const TO_BEGIN_AGAIN: u64 = 100;

/// What a worker answers by, beside its answerer. It waits where there is no memory for it.
fn responder<R: Wait + time::Clock>(rt: &R, alloc: Global) -> HttpResponder {
    for _ in rt.forever() {
        if let Ok(responder) = HttpResponder::new(alloc) {
            return responder;
        }
        thread::sleep(rt, Duration::from_millis(TO_BEGIN_AGAIN));
    }
    unreachable!()
}

/// Serves connections, of which each has a number that is drawn from the shared count. Answers the number that was not
/// left; the error says why the listener accepts no more.
fn work<R: Wait + Net + time::Clock, A: Answerer, C: Clock>(
    rt: &R,
    alloc: Global,
    listener: &TcpListener,
    limits: Limits,
    shared: &SharedCounts,
    answerer: &mut A,
    clock: &mut C,
) -> Result<u64, ListenerFailed>
    ensures served { HasServed A.names_of A.answers C.ticks answerer.old clock.old answerer.new clock.new }
    ensures none_left { IfOk result (λ number. is_left limits.connections number ≡ false) }
    ensures failed { IfErr result IsOfListener }
{
    let responder = responder(rt, alloc);
    event_loop::work(
        rt,
        alloc,
        listener,
        limits,
        shared,
        &mut Closing,
        &responder,
        answerer,
        clock,
    )
}

/// Serves `limits.connections` connections of a listener, side by side; with 0, without end. No more than
/// `limits.most_open` are open at once. How a connection ends ends nothing else. A connection that was given up before
/// it was accepted isn't counted, and where accepting fails for a reason that may pass, it accepts again a moment
/// later. The error says that the listener accepts no more.
pub fn serve_connections<R: Wait + Net + time::Clock, A: Answerer, C: Clock>(
    rt: &R,
    alloc: Global,
    listener: &TcpListener,
    limits: Limits,
    answerer: &mut A,
    clock: &mut C,
) -> Result<(), ListenerFailed>
    // The state after is the one that the answers to the messages of some connections leave, each connection's in order.
    ensures served { HasServed A.names_of A.answers C.ticks answerer.old clock.old answerer.new clock.new }
    // It ends by itself only where a number of connections was given.
    ensures ended { OnOk result (ends limits.connections) }
    // A failure has the number of an error that lies in the listener, so that a caller need not wait for it to pass.
    ensures failed { IfErr result IsOfListener }
{
    let shared = SharedCounts::new(1);
    work(rt, alloc, listener, limits, &shared, answerer, clock)?;
    Ok(())
}

/// The part of one worker in a pool.
fn run<R: Wait + Net + time::Clock, A: Answerer + Drop, C: Clock + Drop>(
    rt: &R,
    alloc: Global,
    listener: &TcpListener,
    limits: Limits,
    shared: &SharedCounts,
    mut worker: Worker<A, C>,
) -> Worker<A, C>
    ensures worked { HasWorked A.names_of A.answers C.ticks worker result }
    ensures ended { HasEnded limits.connections result }
    ensures failed { FailsByListener result }
{
    let Worker {
        answerer,
        clock,
        failure,
    } = &mut worker;
    let ended = work(rt, alloc, listener, limits, shared, answerer, clock);
    *failure = ended.err();
    worker
}

/// Serves `connections` connections of a listener by workers, as `pool_within` does, of which no more than 1,024 are
/// open at once. With 0, it serves without end.
pub fn pool<
    R: Threads + Wait + time::Clock + Sync + Net<Listener = TcpListener, Stream = TcpStream>,
    A: Answerer + Send + Drop,
    C: Clock + Send + Drop,
>(
    rt: &R,
    alloc: Global,
    listener: &TcpListener,
    connections: u64,
    workers: Vec<Worker<A, C>>,
) -> Result<Vec<Worker<A, C>>, AllocError>
    requires some { 0 < vec_len workers }
    requires few { vec_len workers ≤ most_workers }
    // As `pool_within` ensures it.
    ensures each { IfOk result (λ after. HaveWorked A.names_of A.answers C.ticks workers.items after.items) }
    ensures ended { IfOk result (λ after. HaveEnded connections after.items) }
    ensures failed { IfOk result (λ after. FailByListener after.items) }
{
    let limits = Limits {
        connections,
        most_open: DEFAULT_OPEN,
    };
    pool_within(rt, alloc, listener, limits, workers)
}

/// Serves `limits.connections` connections of a listener by workers, each in a thread of its own, each of which serves
/// many at once; with 0, without end. A worker draws a number from a count that all share, from 0 on, then accepts a
/// connection, and draws the next. It accepts no more where its number isn't below `limits.connections`, or where the
/// listener fails, which is then its `failure`; where accepting fails for a reason that may pass, it accepts again a
/// moment later. It ends once its connections have ended. How a connection ends ends nothing else. No more than
/// `limits.most_open` are open at once. Where a thread can't be started its workers take turns with others
/// (`threads_at_once` tells how many can). The error is want of memory: then the workers are lost.
pub fn pool_within<
    R: Threads + Wait + time::Clock + Sync + Net<Listener = TcpListener, Stream = TcpStream>,
    A: Answerer + Send + Drop,
    C: Clock + Send + Drop,
>(
    rt: &R,
    alloc: Global,
    listener: &TcpListener,
    limits: Limits,
    workers: Vec<Worker<A, C>>,
) -> Result<Vec<Worker<A, C>>, AllocError>
    requires some { 0 < vec_len workers }
    requires few { vec_len workers ≤ most_workers }
    // Each worker comes back at its place, and its answerer and its clock stand where the answers to the messages of some
    // connections leave them: all its answers are one chain, and each connection's are those to its own messages, in order.
    ensures each { IfOk result (λ after. HaveWorked A.names_of A.answers C.ticks workers.items after.items) }
    // A worker with no failure has ended by itself, which it does only where a number of connections was given.
    ensures ended { IfOk result (λ after. HaveEnded limits.connections after.items) }
    // A failure that a worker brings back has the number of an error that lies in the listener, whatever failure the
    // worker was given.
    ensures failed { IfOk result (λ after. FailByListener after.items) }
{
    let counts = SharedCounts::new(workers.len() as u64);
    let shared = &counts;
    thread::map_vec(
        rt,
        workers,
        &|worker: Worker<A, C>| -> Worker<A, C>
            ensures { HasWorked A.names_of A.answers C.ticks worker result × HasEnded limits.connections result × FailsByListener result }
        { run(rt, alloc, listener, limits, shared, worker) },
    )
}
