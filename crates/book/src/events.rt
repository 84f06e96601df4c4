//! Events, and the entries of the journal.
ghost use Rattle.std.specs.Prelude.{◌≡◌, IfOk};
ghost use Rattle.service_profile.specs.Events.{line};
ghost use Rattle.book.specs.Accepted.{seen};

use bpf_run::Judged;
use service_profile::{Reply, State};
use std::alloc::AllocError;
use std::marker::Model;
use std::sync::Arc;
use verifier::Verified;

/// What happens on a service.
#[derive(Drop)]
pub enum Event {
    /// A call asks whether it may be made.
    Acquire,
    /// The outcome of the call under a ticket, as it was judged.
    Finish(Judged, u64),
    /// The call under a ticket ends with no outcome.
    Release(u64),
    /// A program is to judge under new tickets.
    Install(Arc<Verified>),
    /// The breaker is moved to a state.
    Move(State),
    /// The breaker is moved to CLOSED.
    Reset,
}

impl Event {
    /// The same event once more, under one more owner of the program that it brings. The error comes where there is no
    /// memory for the outcome that it brings, or where that program can have no more owners.
    pub fn try_clone(&self) -> Result<Event, AllocError>
        ensures { IfOk result (λ copy. seen copy ≡ seen self.now) }
    {
        match self {
            Event::Acquire => Ok(Event::Acquire),
            Event::Finish(judged, ticket) => Ok(Event::Finish(judged.try_clone()?, *ticket)),
            Event::Release(ticket) => Ok(Event::Release(*ticket)),
            Event::Install(program) => Ok(Event::Install(Arc::try_clone(program)?)),
            Event::Move(state) => Ok(Event::Move(*state)),
            Event::Reset => Ok(Event::Reset),
        }
    }
}

/// A line of the journal: what happened, who made it, at which moment, and what was answered.
#[derive(Drop)]
pub struct Entry {
    number: u64,
    seat: u32,
    event: Event,
    moment: u64,
    reply: Reply,
}

impl Model for Entry {
    ghost use Rattle.service_profile.specs.Events.{EntryData};

    ghost Value = { EntryData };

    ghost use Rattle.service_profile.specs.Events.{line};
    ghost use Rattle.book.specs.Accepted.{seen};

    ghost view = { λ e. line e.number e.seat (seen e.event) e.moment e.reply };
}

impl Entry {
    pub(crate) fn new(number: u64, seat: u32, event: Event, moment: u64, reply: Reply) -> Entry
        ensures { result ≡ line number seat (seen event) moment reply }
    {
        Entry {
            number,
            seat,
            event,
            moment,
            reply,
        }
    }

    /// The same entry once more. The error comes where there is no memory for an outcome, or where a program can have no
    /// more owners.
    pub fn try_clone(&self) -> Result<Entry, AllocError>
        ensures { IfOk result (λ copy. copy ≡ self.now) }
    {
        Ok(Entry {
            number: self.number,
            seat: self.seat,
            event: self.event.try_clone()?,
            moment: self.moment,
            reply: self.reply,
        })
    }

    /// From 1 on, one more for each entry, also over cuts.
    pub fn number(&self) -> u64
        ensures { result ≡ self.now.number }
    {
        self.number
    }

    /// Who made it.
    pub fn seat(&self) -> u32
        ensures { result ≡ self.now.seat }
    {
        self.seat
    }

    /// What happened.
    pub fn event(&self) -> &Event
        ensures { seen result.now ≡ self.now.event }
    {
        &self.event
    }

    /// When, in milliseconds: the moment that was given, raised to that of the entry before.
    pub fn moment(&self) -> u64
        ensures { result ≡ self.now.moment }
    {
        self.moment
    }

    /// What was answered.
    pub fn reply(&self) -> Reply
        ensures { result ≡ self.now.reply }
    {
        self.reply
    }
}
