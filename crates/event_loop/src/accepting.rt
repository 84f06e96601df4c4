//! Accepting connections.
ghost use Rattle.std.specs.Prelude.{◌≡◌, false, IfSome, IfOk, IfErr};
ghost use Rattle.std.proofs.Props.{props};
ghost use Rattle.event_loop.specs.Failures.{IsOfListener};
ghost use Rattle.event_loop.specs.Numbers.{is_left};
ghost use Rattle.http_connection.specs.Connections.{new_connection};
ghost use Rattle.event_loop.specs.Hubs.{HasTended};

use crate::departing::Departures;
use crate::failure::ListenerFailed;
use crate::hub::{Hub, leave_waiting, longest_waiting, take_in};
use crate::limits::{Limits, SharedCounts, is_left};
use crate::listening::{Accepted, Listener};
use http_connection::Session;
use mio::{Poll, Token};
use std::alloc::Global;
use std::io::ErrorKind;
use std::{io, thread};

/// The listener among what is polled. Connections have their keys.
pub(crate) const LISTENER: Token = Token(usize::MAX);

/// How often a worker above its share lets others accept first, while connections wait, and for how many milliseconds at
/// most. Each time takes some microseconds where the worker has nothing else to do. One that is free wakes up meanwhile.
const MOST_TIMES: u32 = 256;

const TO_GIVE_WAY: u64 = 2;

/// For how many milliseconds a worker waits where as many connections are open as may be, and none of its own waits for its
/// client.
const TO_FIND_ROOM: u64 = 20;

/// How many milliseconds lie between two looks at which worker has the connection that has waited for longest, and how
/// often in a row a worker looks before it takes its own.
const TO_LOOK_AGAIN: u64 = 1;

const MOST_TRIES: u32 = 20;

/// For how many milliseconds a worker waits where accepting failed for a reason that may pass.
const TO_ACCEPT_AGAIN: u64 = 100;

/// For how many milliseconds a worker waits where it has nothing to do.
const LONGEST_WAIT: u64 = 1_000;

/// Linux's error where a process has as many file descriptors as it may have (EMFILE).
const EMFILE: i32 = 24;

/// What a worker knows of the connections that wait at the listener.
#[derive(Clone, Copy, Debug, PartialEq, Eq)]
enum Queue {
    /// None waits.
    Empty,
    /// It let others accept first, and the next poll says whether one still waits.
    Asked,
    /// One may wait.
    Waiting,
}

/// What a worker does about a connection that may wait.
#[derive(Clone, Copy)]
enum Next {
    /// Nothing for now.
    Waits,
    /// It lets others accept first.
    GivesWay,
    /// It accepts.
    Accepts,
}

/// How a worker stands to its listener.
#[derive(Drop)]
pub(crate) struct Accepting {
    /// The number of the connection that it accepts next.
    pub(crate) number: u64,
    /// The worker's own number, from 0 on.
    worker: usize,
    /// Why it accepts no more.
    pub(crate) failure: Option<ListenerFailed>,
    queue: Queue,
    /// How often it let others accept first since it last found that no connection waits, and until which moment it may.
    gave_way: u32,
    gives_way_until: u64,
    /// How often in a row it has looked in vain whether its own connection is the one that has waited for longest.
    tries: u32,
    /// Before this moment it doesn't accept, in milliseconds of the system's clock.
    not_before: u64,
    ghost sound: { IfSome failure IsOfListener } by { Prim.hlevel props },
}

impl Accepting {
    /// A worker of a number, from 0 on, that drew the number of its first connection.
    pub(crate) fn new(worker: usize, number: u64) -> Accepting {
        Accepting {
            number,
            worker,
            failure: None,
            queue: Queue::Waiting,
            gave_way: 0,
            gives_way_until: 0,
            tries: 0,
            not_before: 0,
        }
    }

    /// Says that a connection waits at the listener.
    pub(crate) fn wake(&mut self) {
        self.queue = Queue::Waiting;
    }

    /// Whether it accepts further connections.
    fn is_open(&self, limits: Limits) -> bool {
        self.failure.is_none() && is_left(limits.connections, self.number)
    }

    /// Where it accepts no further connection: the number of that which was not left, or why the listener fails.
    pub(crate) fn ended(&self, limits: Limits) -> Option<Result<u64, ListenerFailed>>
        ensures none_left { IfSome result (λ ended. IfOk ended (λ number. is_left limits.connections number ≡ false)) }
        ensures failed { IfSome result (λ ended. IfErr ended IsOfListener) }
    {
        if let Some(failure) = self.failure {
            return Some(Err(failure));
        }
        if is_left(limits.connections, self.number) {
            return None;
        }
        Some(Ok(self.number))
    }

    /// For how many milliseconds the worker may wait until it accepts, or hears whether a connection waits.
    pub(crate) fn wait(&self, limits: Limits, now: u64) -> u64 {
        if !self.is_open(limits) {
            return LONGEST_WAIT;
        }
        match self.queue {
            Queue::Empty => LONGEST_WAIT,
            Queue::Asked => 0,
            Queue::Waiting => self.not_before.saturating_sub(now).min(LONGEST_WAIT),
        }
    }

    /// Waits for so many milliseconds before it accepts again.
    fn pause(&mut self, now: u64, milliseconds: u64) {
        self.not_before = now.saturating_add(milliseconds);
    }

    /// Says that no connection waits.
    fn rest(&mut self) {
        self.queue = Queue::Empty;
        self.gave_way = 0;
        self.tries = 0;
    }

    /// Whether it lets others accept first: it is above its share, and those who are free may not have woken yet.
    fn gives_way(&mut self, shared: &SharedCounts, own: u64, now: u64) -> bool {
        if !shared.is_above_share(own) {
            return false;
        }
        if self.gave_way == 0 {
            self.gives_way_until = now.saturating_add(TO_GIVE_WAY);
        }
        if self.gave_way >= MOST_TIMES || now > self.gives_way_until {
            return false;
        }
        self.gave_way += 1;
        true
    }

    /// What it does now, where it has so many connections open. Above its share of all that are open it lets others accept
    /// first, again and again while a connection waits, and then takes what still waits.
    fn next(&mut self, shared: &SharedCounts, own: u64, now: u64) -> Next {
        if self.queue == Queue::Asked {
            // The poll behind the question has said nothing of the listener.
            self.rest();
        }
        if self.queue == Queue::Empty || now < self.not_before {
            return Next::Waits;
        }
        if self.gives_way(shared, own, now) {
            return Next::GivesWay;
        }
        Next::Accepts
    }

    /// Lets others accept first. Where the next poll says whether a connection still waits, the worker asks that, and doesn't
    /// sleep before.
    fn give_way(&mut self, asked: io::Result<()>) {
        if asked.is_ok() {
            self.queue = Queue::Asked;
        }
        thread::yield_now();
    }

    /// Takes an error of accepting. Answers whether the process has no file descriptor left.
    fn fail(&mut self, error: &io::Error, now: u64) -> bool {
        if error.kind() == ErrorKind::WouldBlock {
            self.rest();
            return false;
        }
        if error.kind() == ErrorKind::ConnectionAborted {
            return false;
        }
        if let Some(failed) = ListenerFailed::from_error(error) {
            self.failure = Some(failed);
            return false;
        }
        self.pause(now, TO_ACCEPT_AGAIN);
        error.raw_os_error() == Some(EMFILE)
    }
}

/// Takes in a session that was accepted. One that can't be polled is turned away.
fn admit<T: Accepted, D: Departures<T>>(
    poll: &Poll,
    shared: &SharedCounts,
    departures: &mut D,
    hub: &mut Hub<T>,
    session: Session<T>,
    now: u64,
)
    requires connection { session.connection ≡ new_connection }
    requires stream { T.is_new session.wire.inner }
    ensures { HasTended T.remaining T.contents T.is_new hub.old (D.departed departures.old) hub.new (D.departed departures.new) }
{
    let key = hub.connections.vacant_key();
    if session.stream().prepare(poll, key).is_err() {
        shared.leave();
        departures.turn_away(session);
        return;
    }
    take_in(hub, shared, departures, session, now);
}

/// Finds the connection that is to be closed for another one, if it is the worker's: the one among all that has waited for
/// its client for longest. Where another worker may have that one, this worker looks again a moment later, and after some
/// milliseconds takes its own.
fn find_spare<T>(
    hub: &Hub<T>,
    shared: &SharedCounts,
    accepting: &mut Accepting,
    now: u64,
) -> Option<usize> {
    let Some(waiting) = longest_waiting(hub) else {
        shared.waits.tell(accepting.worker, now);
        accepting.pause(now, TO_FIND_ROOM);
        return None;
    };
    shared.waits.tell(accepting.worker, waiting.since);
    if accepting.tries < MOST_TRIES && !shared.waits.is_earliest(waiting.since) {
        accepting.tries += 1;
        accepting.pause(now, TO_LOOK_AGAIN);
        return None;
    }
    accepting.tries = 0;
    Some(waiting.key)
}

/// The place of a connection among those that may be open.
#[derive(Clone, Copy)]
enum Room {
    /// One more may be open.
    Free,
    /// It takes the place of the worker's connection under this key, which is closed for it.
    Of(usize),
    /// There is none.
    None,
}

/// Looks for room for a connection, where so many may be open. A place that is free is taken.
fn find_room<T>(
    hub: &Hub<T>,
    shared: &SharedCounts,
    most: u64,
    accepting: &mut Accepting,
    now: u64,
) -> Room {
    if shared.enter(most) {
        return Room::Free;
    }
    match find_spare(hub, shared, accepting, now) {
        Some(key) => Room::Of(key),
        None => Room::None,
    }
}

/// Takes a place for a connection that was accepted: a free one, or that of a session which leaves for it.
fn take_place<T: Accepted, D: Departures<T>>(
    hub: &mut Hub<T>,
    shared: &SharedCounts,
    departures: &mut D,
    room: Room,
)
    ensures { HasTended T.remaining T.contents T.is_new hub.old (D.departed departures.old) hub.new (D.departed departures.new) }
{
    match room {
        Room::Free => shared.come(),
        Room::Of(key) => {
            leave_waiting(hub, departures, key);
        }
        Room::None => {}
    }
}

/// What follows where a connection can't be accepted: its place is free again. Without a file descriptor for it, another one
/// is closed, if one waits for its client.
fn refuse<T: Accepted, D: Departures<T>>(
    hub: &mut Hub<T>,
    shared: &SharedCounts,
    departures: &mut D,
    accepting: &mut Accepting,
    room: Room,
    error: &io::Error,
    now: u64,
)
    ensures { HasTended T.remaining T.contents T.is_new hub.old (D.departed departures.old) hub.new (D.departed departures.new) }
{
    if let Room::Free = room {
        shared.give_back();
    }
    if !accepting.fail(error, now) {
        return;
    }
    if let Some(key) = find_spare(hub, shared, accepting, now) {
        if leave_waiting(hub, departures, key) {
            shared.leave();
        }
        accepting.pause(now, 0);
    }
}

/// Accepts a connection, if one waits, and there is room for it or room is made.
pub(crate) fn accept_next<T: Accepted, L: Listener<T>, D: Departures<T>>(
    alloc: Global,
    poll: &Poll,
    listener: &L,
    limits: Limits,
    shared: &SharedCounts,
    departures: &mut D,
    accepting: &mut Accepting,
    hub: &mut Hub<T>,
    now: u64,
)
    ensures { HasTended T.remaining T.contents T.is_new hub.old (D.departed departures.old) hub.new (D.departed departures.new) }
{
    if !accepting.is_open(limits) {
        shared.waits.leave(accepting.worker);
        return;
    }
    match accepting.next(shared, hub.count(), now) {
        Next::Waits => return,
        Next::GivesWay => {
            accepting.give_way(listener.ask(poll, LISTENER));
            return;
        }
        Next::Accepts => {}
    }
    let room = find_room(hub, shared, limits.most_open, accepting, now);
    if let Room::None = room {
        return;
    }
    match listener.accept() {
        Ok(stream) => {
            accepting.number = shared.draw();
            take_place(hub, shared, departures, room);
            admit(
                poll,
                shared,
                departures,
                hub,
                Session::new(alloc, stream),
                now,
            );
        }
        Err(error) => refuse(hub, shared, departures, accepting, room, &error, now),
    }
}
