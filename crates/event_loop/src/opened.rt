//! A connection that is open.
ghost use Rattle.std.specs.Prelude.{◌≡◌};
ghost use Rattle.event_loop.specs.Departures.{LeavesSo, ClosesAs};
ghost use Rattle.event_loop.specs.Lives.{Lingers, LivesOn};

use crate::departing::Cause;
use crate::linger::{Lingering, MOST_PIECES, read_on};
use crate::listening::Accepted;
use crate::patience::{MOST_LINGERING, idle_deadline, patience};
use counted_io::Stream;
use http_connection::{Clock, Ended, Intake, Phase, Responder, Session, Turned};
use std::alloc::Global;

/// A connection that is open.
#[derive(Drop)]
pub(crate) struct Opened<T> {
    pub(crate) session: Session<T>,
    /// No other connection of the worker has this number, or had it.
    pub(crate) number: u64,
    /// When it is closed, in milliseconds of the system's clock.
    pub(crate) deadline: u64,
    /// What it was about when the deadline was set, and how many messages were answered then.
    pub(crate) phase: Phase,
    pub(crate) answers: u64,
    /// Behind its last answer: how many pieces of what the other side sends may still be read and dropped.
    pub(crate) lingering: Option<u32>,
    /// Whether it is to be given a further turn without waiting.
    pub(crate) goes_on: bool,
    /// Whether it was given no turn yet.
    pub(crate) is_new: bool,
}

/// What becomes of a connection behind a turn.
#[derive(Clone, Copy, Debug, PartialEq, Eq)]
pub(crate) enum Served {
    /// It waits until it is ready.
    Waits,
    /// It has more to do at once.
    GoesOn,
    /// It is closed, since its last turn ended it so.
    Closed(Ended),
}

impl<T> Opened<T> {
    /// A connection of a number, of which nothing was read, at a moment in milliseconds of the system's clock.
    pub(crate) fn new(session: Session<T>, number: u64, now: u64) -> Opened<T>
        ensures number { result.number ≡ number }
        ensures session { result.session ≡ session }
    {
        Opened {
            session,
            number,
            deadline: idle_deadline(now),
            phase: Phase::Idle,
            answers: 0,
            lingering: None,
            goes_on: false,
            is_new: true,
        }
    }

    /// Sets the deadline anew, where the connection is about something else than when it was set.
    fn renew(&mut self, now: u64)
        ensures number { self.new.number ≡ self.old.number }
        ensures session { self.new.session ≡ self.old.session }
    {
        let phase = self.session.phase();
        let answers = self.session.answers();
        if phase == self.phase && answers == self.answers {
            return;
        }
        self.phase = phase;
        self.answers = answers;
        self.deadline = now.saturating_add(patience(phase));
    }

    /// Whether it waits until its client sends: it was given a turn, it has no more to do, and all that was whole is answered
    /// and sent.
    pub(crate) fn awaits_client(&self) -> bool {
        !self.is_new
            && !self.goes_on
            && self.lingering.is_none()
            && self.session.phase() != Phase::Answer
    }

    /// Since when it waits until its client sends, if it does: since its last answer where it is idle, and since the first
    /// byte of a message which isn't whole.
    pub(crate) fn waits_since(&self) -> Option<u64> {
        if self.awaits_client() {
            Some(self.deadline.saturating_sub(patience(self.phase)))
        } else {
            None
        }
    }

    /// Whether it is idle: it waits until its client sends, and nothing of a message is there.
    pub(crate) fn is_idle(&self) -> bool {
        self.awaits_client() && self.session.phase() == Phase::Idle
    }

    /// Whether its deadline is over; where the worker is about to end, also whether it is idle.
    pub(crate) fn is_over(&self, now: u64, is_ending: bool) -> bool {
        self.deadline < now || (is_ending && self.is_idle())
    }

    /// Why it leaves, where no turn ended it now: its last answer is sent, or the worker closes it.
    pub(crate) fn cause(&self) -> Cause
        ensures { LeavesSo result self.now.session.connection }
    {
        if self.session.is_finished() {
            return Cause::Ended(Ended::Finished);
        }
        Cause::Closed(self.session.phase())
    }

    /// Gives back the memory that an idle connection needs no more.
    pub(crate) fn rest(&mut self, alloc: Global)
        ensures number { self.new.number ≡ self.old.number }
        ensures session { self.new.session ≡ self.old.session }
    {
        if self.is_idle() {
            self.session.rest(alloc);
        }
    }
}

impl<T: Stream> Opened<T> {
    /// Reads on behind the last answer, where so many pieces may still come.
    pub(crate) fn linger(&mut self, pieces: u32) -> Served
        ensures number { self.new.number ≡ self.old.number }
        ensures session { Lingers T.remaining T.contents self.old.session self.new.session }
        ensures closed { ClosesAs result (λ end. end ≡ Ended.Finished) }
    {
        match read_on(&mut self.session, pieces) {
            Lingering::Over => Served::Closed(Ended::Finished),
            Lingering::Waits(left) => {
                self.lingering = Some(left);
                Served::Waits
            }
            Lingering::GoesOn(left) => {
                self.lingering = Some(left);
                Served::GoesOn
            }
        }
    }

    /// Tells the other side that no more is sent, and begins to read on.
    fn begin_to_linger(&mut self, now: u64) -> Served
        ensures number { self.new.number ≡ self.old.number }
        ensures session { Lingers T.remaining T.contents self.old.session self.new.session }
        ensures closed { ClosesAs result (λ end. end ≡ Ended.Finished) }
    {
        if !self.session.end_sending() {
            return Served::Closed(Ended::Finished);
        }
        self.deadline = now.saturating_add(MOST_LINGERING);
        self.linger(MOST_PIECES)
    }

    /// What becomes of the connection behind a turn that ended so, at a moment in milliseconds of the system's clock: it is
    /// closed only where the turn says that the connection ended, and as it says.
    pub(crate) fn settle(&mut self, turned: Turned, now: u64) -> Served
        ensures number { self.new.number ≡ self.old.number }
        ensures session { Lingers T.remaining T.contents self.old.session self.new.session }
        ensures closed { ClosesAs result (λ end. turned ≡ Turned.Ended end) }
    {
        self.is_new = false;
        match turned {
            Turned::GoesOn => {
                self.renew(now);
                Served::GoesOn
            }
            Turned::Waits(_) => {
                self.renew(now);
                Served::Waits
            }
            Turned::Ended(Ended::Finished) => self.begin_to_linger(now),
            Turned::Ended(end) => Served::Closed(end),
        }
    }
}

impl<T: Accepted> Opened<T> {
    /// Gives it a turn, at a moment in milliseconds of the system's clock, or reads on behind its last answer. Answers what
    /// becomes of it.
    pub(crate) fn serve<S, P: Responder<S>, C: Clock>(
        &mut self,
        intake: &mut Intake,
        responder: &P,
        state: &mut S,
        clock: &mut C,
        now: u64,
    ) -> Served
        ensures number { self.new.number ≡ self.old.number }
        ensures session { LivesOn T.remaining T.contents T.is_new P.refusal P.responds C.ticks self.old.session state.old clock.old self.new.session state.new clock.new }
        ensures closed { ClosesAs result (λ end. LeavesSo (Cause.Ended end) self.new.session.connection) }
    {
        if let Some(pieces) = self.lingering
            && self.session.is_finished()
        {
            return self.linger(pieces);
        }
        let turned = self.session.turn(intake, responder, state, clock);
        self.settle(turned, now)
    }
}
