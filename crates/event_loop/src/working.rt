//! A worker: it waits until connections are ready, and gives each a turn.
ghost use Rattle.std.specs.Prelude.{◌≡◌, false, [], IfOk, IfErr};
ghost use Rattle.event_loop.specs.Failures.{IsOfListener};
ghost use Rattle.event_loop.specs.Hubs.{HaveLived};
ghost use Rattle.event_loop.specs.Log.{HasServed};
ghost use Rattle.event_loop.specs.Numbers.{is_left};

use crate::accepting::{Accepting, LISTENER, accept_next};
use crate::departing::Departures;
use crate::due::Due;
use crate::failure::ListenerFailed;
use crate::hub::{Hub, serve_key, sweep};
use crate::limits::{Limits, SharedCounts};
use crate::listening::{Accepted, Listener};
use http_connection::{Clock, Intake, Responder};
use mio::{Events, Poll, Token};
use std::alloc::Global;
use std::net::Net;
use std::sync::Wait;
use std::time::Duration;
use std::{io, mem, thread, time};

/// How many events one wait brings at most.
const MOST_EVENTS: usize = 256;

/// How many milliseconds lie between two looks at the deadlines of all connections.
const BETWEEN_SWEEPS: u64 = 1_000;

/// For how many milliseconds a worker waits that doesn't get what it needs to begin.
const TO_BEGIN_AGAIN: u64 = 100;

/// What a worker needs beside its connections.
#[derive(Drop)]
struct Tools {
    poll: Poll,
    events: Events,
    intake: Intake,
}

impl Tools {
    /// Makes them, sees that the clock can be read, and has the listener polled, which then waits no more where nobody
    /// comes.
    fn new<R: Net + time::Clock, T: Accepted, L: Listener<T>>(
        rt: &R,
        alloc: Global,
        listener: &L,
    ) -> io::Result<Tools> {
        let poll = Poll::new(rt)?;
        let events = Events::with_capacity(alloc, MOST_EVENTS)?;
        let intake = Intake::new(alloc)?;
        rt.monotonic()?;
        listener.watch(&poll, LISTENER)?;
        Ok(Tools {
            poll,
            events,
            intake,
        })
    }

    /// Makes them, and tries again a moment later where the system or memory gives too little.
    fn wait_for<R: Wait + Net + time::Clock, T: Accepted, L: Listener<T>>(
        rt: &R,
        alloc: Global,
        listener: &L,
    ) -> Tools {
        for _ in rt.forever() {
            if let Ok(tools) = Tools::new(rt, alloc, listener) {
                return tools;
            }
            thread::sleep(rt, Duration::from_millis(TO_BEGIN_AGAIN));
        }
        unreachable!()
    }
}

/// What the system's clock shows that never goes back, in milliseconds; where it can't be read, the moment before.
fn moment_after(time: &impl time::Clock, before: u64) -> u64 {
    match time.monotonic() {
        Ok(moment) => u64::try_from(moment.as_millis()).unwrap_or(before),
        Err(_) => before,
    }
}

/// Serves the connections of a listener, side by side, each in turns as it becomes ready. The worker draws a number
/// from a count that all workers share, accepts a connection and draws the next; it accepts no more where its number is
/// not below `limits.connections`, or where the listener fails. Then it serves those that are open until they end, and
/// answers the number that was not left; the error says why the listener accepts no more. Where accepting fails for a
/// reason that may pass, it accepts again a moment later. How a connection ends ends nothing else.
///
/// No more than `limits.most_open` connections are open at once among all workers. Where they are, the one that has
/// waited for its client for longest is closed for a new one, whichever worker serves it: it is idle since its last answer, or
/// in the middle of a message, for which nothing was done. One that is idle for 75 seconds is closed, and so is one whose
/// message isn't whole 20 seconds after its first byte, or whose answer isn't taken within 20 seconds.
pub fn work<
    R: Wait + Net + time::Clock,
    T: Accepted + Drop,
    L: Listener<T>,
    D: Departures<T>,
    S,
    P: Responder<S>,
    C: Clock,
>(
    rt: &R,
    alloc: Global,
    listener: &L,
    limits: Limits,
    shared: &SharedCounts,
    departures: &mut D,
    responder: &P,
    state: &mut S,
    clock: &mut C,
) -> Result<u64, ListenerFailed>
    // The steps that were made for the messages of all connections are one chain from the state and the clock on. All
    // sessions left by `departures`, each with its cause; and what each took off its own stream, and wrote to it, are the
    // messages of its own steps and their answers, in order.
    ensures lived { HaveLived T.remaining T.contents T.is_new P.refusal P.responds C.ticks state.old clock.old (D.departed departures.old) state.new clock.new (D.departed departures.new) }
    // The same where nothing is known of streams: the steps of each connection are those of its own messages, in order.
    ensures served { HasServed P.refusal P.responds C.ticks state.old clock.old state.new clock.new }
    // It ends by itself only where a number of connections was given that is used up.
    ensures none_left { IfOk result (λ number. is_left limits.connections number ≡ false) }
    // A failure has the number of an error that lies in the listener.
    ensures failed { IfErr result IsOfListener }
{
    let mut hub = Hub::new(alloc);
    serve_all(
        rt, alloc, listener, limits, shared, departures, &mut hub, responder, state, clock,
    )
}

/// The same with a hub that is lent: here no stream can be let go but by `departures`, since nothing says that it is `Drop`.
fn serve_all<
    R: Wait + Net + time::Clock,
    T: Accepted,
    L: Listener<T>,
    D: Departures<T>,
    S,
    P: Responder<S>,
    C: Clock,
>(
    rt: &R,
    alloc: Global,
    listener: &L,
    limits: Limits,
    shared: &SharedCounts,
    departures: &mut D,
    hub: &mut Hub<T>,
    responder: &P,
    state: &mut S,
    clock: &mut C,
) -> Result<u64, ListenerFailed>
    requires { hub.old.connections.slots ≡ [] }
    ensures lived { HaveLived T.remaining T.contents T.is_new P.refusal P.responds C.ticks state.old clock.old (D.departed departures.old) state.new clock.new (D.departed departures.new) }
    ensures none_left { IfOk result (λ number. is_left limits.connections number ≡ false) }
    ensures failed { IfErr result IsOfListener }
{
    let mut tools = Tools::wait_for(rt, alloc, listener);
    let number = shared.draw();
    let mut accepting = Accepting::new(shared.begin(rt), number);
    let mut due = Due::new(alloc);
    let mut further = Due::new(alloc);
    let mut now = moment_after(rt, 0);
    let mut swept = 0;
    'rounds: for _ in rt.forever() {
        if hub.connections.is_empty()
            && let Some(ended) = accepting.ended(limits)
        {
            shared.end();
            return ended;
        }
        let wait = if further.is_empty() {
            accepting.wait(limits, now)
        } else {
            0
        };
        if tools
            .poll
            .poll(&mut tools.events, Some(Duration::from_millis(wait)))
            .is_err()
        {
            thread::sleep(rt, Duration::from_millis(1));
        }
        now = moment_after(rt, now);
        mem::swap(&mut due, &mut further);
        further.clear();
        'events: for event in &tools.events {
            let Token(key) = event.token();
            if event.token() == LISTENER {
                accepting.wake();
            } else {
                serve_key(
                    hub,
                    shared,
                    departures,
                    key,
                    false,
                    &mut further,
                    &mut tools.intake,
                    responder,
                    state,
                    clock,
                    now,
                );
            }
        }
        'keys: for behind in 0..due.count(hub.connections.capacity()) {
            serve_key(
                hub,
                shared,
                departures,
                due.key(behind),
                true,
                &mut further,
                &mut tools.intake,
                responder,
                state,
                clock,
                now,
            );
        }
        accept_next(
            alloc,
            &tools.poll,
            listener,
            limits,
            shared,
            departures,
            &mut accepting,
            hub,
            now,
        );
        if now >= swept {
            swept = now.saturating_add(BETWEEN_SWEEPS);
            sweep(
                hub,
                shared,
                departures,
                alloc,
                now,
                accepting.failure.is_some(),
            );
        }
    }
    unreachable!()
}
