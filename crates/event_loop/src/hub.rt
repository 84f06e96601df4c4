//! The open sessions of a worker.
ghost use Rattle.std.specs.Prelude.{◌≡◌, Some};
ghost use Rattle.slab.specs.Slab.{get};
ghost use Rattle.http_connection.specs.Connections.{new_connection};
ghost use Rattle.event_loop.specs.Departures.{LeavesSo};
ghost use Rattle.event_loop.specs.Hubs.{HasLeft, HasTended, HasTurned};

use crate::departing::{Cause, Departures};
use crate::due::Due;
use crate::limits::SharedCounts;
use crate::listening::Accepted;
use crate::opened::{Opened, Served};
use http_connection::{Clock, Ended, Intake, Responder, Session};
use slab::Slab;
use std::alloc::Global;

/// The open sessions of a worker, each under a key, and the number of the next one.
#[derive(Drop)]
pub(crate) struct Hub<T> {
    pub(crate) connections: Slab<Opened<T>>,
    pub(crate) next: u64,
}

impl<T> Hub<T> {
    ghost use Rattle.std.specs.Prelude.{◌≡◌, []};

    /// No session.
    pub(crate) fn new(alloc: Global) -> Hub<T>
        ensures { result.connections.slots ≡ [] }
    {
        Hub {
            connections: Slab::new(alloc),
            next: 0,
        }
    }

    /// How many are open.
    pub(crate) fn count(&self) -> u64 {
        self.connections.len() as u64
    }
}

/// Lets the session under a key leave, as its turn ended it.
fn leave_ended<T: Accepted, D: Departures<T>>(
    hub: &mut Hub<T>,
    shared: &SharedCounts,
    departures: &mut D,
    key: usize,
    end: Ended,
)
    requires ended { (one : Opened _) → get hub.old.connections key ≡ Some one → LeavesSo (Cause.Ended end) one.session.connection }
    ensures { (one : Opened _) → get hub.old.connections key ≡ Some one → HasLeft key end one hub.old (D.departed departures.old) hub.new (D.departed departures.new) }
{
    if let Some(one) = hub.connections.try_remove(key) {
        shared.leave();
        departures.take(one.number, one.session, Cause::Ended(end));
    }
}

/// Gives the session under a key a turn, at a moment in milliseconds of the system's clock, or reads on behind its last
/// answer: where `is_due` is set, if it has more to do without an event, and else if it hasn't. One that then has more to
/// do at once is due, and one that ended leaves.
pub(crate) fn serve_key<T: Accepted, D: Departures<T>, S, P: Responder<S>, C: Clock>(
    hub: &mut Hub<T>,
    shared: &SharedCounts,
    departures: &mut D,
    key: usize,
    is_due: bool,
    due: &mut Due,
    intake: &mut Intake,
    responder: &P,
    state: &mut S,
    clock: &mut C,
    now: u64,
)
    ensures { HasTurned T.remaining T.contents T.is_new P.refusal P.responds C.ticks hub.old state.old clock.old (D.departed departures.old) hub.new state.new clock.new (D.departed departures.new) }
{
    let Some(one) = hub.connections.get_mut(key) else {
        return;
    };
    if one.goes_on != is_due {
        return;
    }
    let served = one.serve(intake, responder, state, clock, now);
    one.goes_on = served == Served::GoesOn;
    match served {
        Served::Waits => {}
        Served::GoesOn => due.add(key),
        Served::Closed(end) => leave_ended(hub, shared, departures, key, end),
    }
}

/// Takes a session in, under the key that is free next. The place that it took among those of all workers is given back
/// where there is no memory for it.
pub(crate) fn take_in<T: Accepted, D: Departures<T>>(
    hub: &mut Hub<T>,
    shared: &SharedCounts,
    departures: &mut D,
    session: Session<T>,
    now: u64,
)
    requires connection { session.connection ≡ new_connection }
    requires stream { T.is_new session.wire.inner }
    ensures { HasTended T.remaining T.contents T.is_new hub.old (D.departed departures.old) hub.new (D.departed departures.new) }
{
    let number = hub.next;
    if number == u64::MAX {
        shared.leave();
        departures.turn_away(session);
        return;
    }
    let opened = Opened::new(session, number, now);
    match hub.connections.insert(opened) {
        Ok(_) => hub.next = number + 1,
        Err(failed) => {
            shared.leave();
            departures.turn_away(failed.value.session);
        }
    }
}

/// Lets the session under a key leave, if it waits for its client. Answers whether it did.
pub(crate) fn leave_waiting<T: Accepted, D: Departures<T>>(
    hub: &mut Hub<T>,
    departures: &mut D,
    key: usize,
) -> bool
    ensures { HasTended T.remaining T.contents T.is_new hub.old (D.departed departures.old) hub.new (D.departed departures.new) }
{
    let Some(one) = hub.connections.try_remove(key) else {
        return false;
    };
    if !one.awaits_client() {
        hub.connections.insert_reserved(one);
        return false;
    }
    let cause = one.cause();
    departures.take(one.number, one.session, cause);
    true
}

/// A session that waits until its client sends, and since when.
#[derive(Clone, Copy)]
pub(crate) struct Waiting {
    pub(crate) key: usize,
    pub(crate) since: u64,
}

/// The session that has waited for its client for longest, if one waits: idle, or in the middle of a message, for which
/// nothing was done.
pub(crate) fn longest_waiting<T>(hub: &Hub<T>) -> Option<Waiting> {
    let mut found = None;
    let mut least = u64::MAX;
    for (key, one) in hub.connections.iter() {
        if let Some(since) = one.waits_since()
            && since < least
        {
            least = since;
            found = Some(Waiting { key, since });
        }
    }
    found
}

/// Lets the session under a key leave, if its time is over; an idle one gives back memory that it needs no more.
fn tend<T: Accepted, D: Departures<T>>(
    hub: &mut Hub<T>,
    shared: &SharedCounts,
    departures: &mut D,
    alloc: Global,
    key: usize,
    now: u64,
    is_ending: bool,
)
    ensures { HasTended T.remaining T.contents T.is_new hub.old (D.departed departures.old) hub.new (D.departed departures.new) }
{
    let Some(mut one) = hub.connections.try_remove(key) else {
        return;
    };
    if one.is_over(now, is_ending) {
        shared.leave();
        let cause = one.cause();
        departures.take(one.number, one.session, cause);
        return;
    }
    one.rest(alloc);
    hub.connections.insert_reserved(one);
}

/// Lets the sessions leave whose time is over; where the worker is about to end, also those that are idle.
pub(crate) fn sweep<T: Accepted, D: Departures<T>>(
    hub: &mut Hub<T>,
    shared: &SharedCounts,
    departures: &mut D,
    alloc: Global,
    now: u64,
    is_ending: bool,
)
    ensures { HasTended T.remaining T.contents T.is_new hub.old (D.departed departures.old) hub.new (D.departed departures.new) }
{
    let most = hub.connections.capacity();
    'keys: for key in 0..most {
        tend(hub, shared, departures, alloc, key, now, is_ending);
    }
}
