//! A connection between its turns.
use crate::phase::Phase;
use crate::stage::Stage;
use std::alloc::Global;
use std::marker::Model;

/// A connection between its turns: how it stands, the bytes that were read and are not answered, and the rest of one
/// answer, which isn't written. Contracts see these, and how many answers were begun.
#[derive(Drop)]
pub struct Connection {
    pub(crate) stage: Stage,
    pub(crate) unread: Vec<u8>,
    /// How many bytes the message at the front of `unread` has, where its head was found and its body isn't whole; else 0. It is
    /// not looked for again before so many are there.
    pub(crate) awaited: usize,
    /// The last answer, of which `sent` bytes are written.
    pub(crate) text: Vec<u8>,
    pub(crate) sent: usize,
    pub(crate) answers: u64,
}

impl Model for Connection {
    ghost use Rattle.std.specs.Prelude.{◌≤◌, drop, length};
    ghost use Rattle.http_connection.specs.Connections.{ConnectionData};
    ghost use Rattle.http_connection.specs.Reading.{IsAwaited};

    ghost Value = { ConnectionData };

    ghost view = { λ c. record { stage = c.stage; unread = c.unread.items; pending = drop c.sent c.text.items; answers = c.answers } };

    ghost invariant = { λ c. (c.sent ≤ length c.text.items) × IsAwaited c.unread.items c.awaited };
}

impl Connection {
    ghost use Rattle.std.specs.Prelude.{◌≡◌, []};
    ghost use Rattle.http_connection.specs.Connections.{new_connection};
    ghost use Rattle.std.specs.Prelude.{◌↔◌, IsTrue};
    ghost use Rattle.http_connection.specs.Phases.{IsPhase};
    ghost use Rattle.http_connection.specs.Sessions.{IsFinished};

    /// A connection of which nothing was read. It takes no memory.
    pub fn new(alloc: Global) -> Self
        ensures { result ≡ new_connection }
    {
        Connection {
            stage: Stage::Open,
            unread: Vec::new(alloc),
            awaited: 0,
            text: Vec::new(alloc),
            sent: 0,
            answers: 0,
        }
    }

    /// Whether the connection is idle, a part of a message has come, or the rest of an answer is to be written.
    pub fn phase(&self) -> Phase
        ensures { IsPhase result self.now }
    {
        if self.sent < self.text.len() {
            return Phase::Answer;
        }
        if self.unread.is_empty() {
            return Phase::Idle;
        }
        Phase::Message
    }

    /// Whether the last message was answered, and all of that is written.
    pub fn is_finished(&self) -> bool
        ensures { IsTrue result ↔ IsFinished self.now }
    {
        matches!(self.stage, Stage::Last) && self.sent == self.text.len()
    }

    /// How many messages the responder was given. Behind 2^64 - 1 it goes on at 0, so that it is another one after each
    /// turn that answers one.
    pub fn answers(&self) -> u64
        ensures { result ≡ self.now.answers }
    {
        self.answers
    }

    /// Gives back the memory of the bytes that were read and of the last answer, where none of them is left: an idle
    /// connection is then as small as a new one.
    pub fn rest(&mut self, alloc: Global)
        ensures { self.new ≡ self.old }
    {
        let is_all_answered = self.unread.is_empty();
        if is_all_answered {
            self.unread = Vec::new(alloc);
        }
        if self.sent == self.text.len() {
            self.sent = 0;
            self.text = Vec::new(alloc);
        }
    }
}
