//! Open tickets.
ghost use Rattle.std.specs.Prelude.{◌≡◌, ◌==◌, ◌<◌, not, length, slice_get, [], ◌∷◌, ◌++◌, OnOk, OnErr};
ghost use Rattle.std.specs.List.{AllByRecursion, filter};
ghost use Rattle.service_profile.specs.Answers.{least_version};
ghost use Rattle.service_profile.specs.Machine.{open_ticket, is_open};
ghost use Rattle.registry.specs.Registries.{Ascend};
ghost use Rattle.registry.specs.Newest.{has_number};

use crate::ticket_map::TicketMap;
use service_profile::OpenTicket;
use std::alloc::{AllocError, Global};
use std::marker::Model;

/// The tickets that are open. Contracts see their list, in the order of their numbers. The one that was issued last lies
/// beside the others, so that a call which ends before the next one begins asks no map. Each call takes time that grows with
/// the logarithm of their number.
#[derive(Drop)]
pub(crate) struct OpenTickets {
    older: TicketMap,
    /// The ticket that was issued last, while it is open; its number is above all others.
    newest: Option<OpenTicket>,
}

impl Model for OpenTickets {
    ghost use Rattle.std.specs.Prelude.{List};
    ghost use Rattle.service_profile.specs.declared.tickets.OpenTicket.{OpenTicket};
    ghost use Rattle.registry.specs.Newest.{with_newest, IsNewest};

    ghost Value = { List OpenTicket };

    ghost view = { λ t. with_newest t.older t.newest };

    ghost invariant = { λ t. IsNewest t.older t.newest };
}

/// Whether the newest ticket has a number.
fn has_number(newest: Option<OpenTicket>, number: u64) -> bool
    ensures { result ≡ has_number newest number }
{
    match newest {
        Some(ticket) => ticket.number == number,
        None => false,
    }
}

impl OpenTickets {
    /// No ticket.
    pub(crate) fn new(alloc: Global) -> OpenTickets
        ensures { result ≡ [] }
    {
        OpenTickets {
            older: TicketMap::new(alloc),
            newest: None,
        }
    }

    /// How many tickets are open. Their numbers ascend.
    pub(crate) fn len(&self) -> usize
        ensures len { result ≡ length self.now }
        ensures ascending { Ascend self.now }
    {
        let older = self.older.len();
        match self.newest {
            Some(_) => older + 1,
            None => older,
        }
    }

    /// The ticket that was issued first, where any is open.
    pub(crate) fn oldest(&self) -> Option<OpenTicket>
        ensures { result ≡ slice_get self.now 0 }
    {
        match self.older.oldest() {
            Some(oldest) => Some(oldest),
            None => self.newest,
        }
    }

    /// The open ticket of a number.
    pub(crate) fn get(&self, number: u64) -> Option<OpenTicket>
        ensures { result ≡ open_ticket self.now number }
    {
        if has_number(self.newest, number) {
            return self.newest;
        }
        self.older.get(number)
    }

    /// Whether the ticket of a number is open.
    pub(crate) fn contains(&self, number: u64) -> bool
        ensures { result ≡ is_open self.now number }
    {
        has_number(self.newest, number) || self.older.contains(number)
    }

    /// The least version of an open ticket, or else this one, that of new tickets. It goes over all tickets.
    pub(crate) fn least_version(&self, current: u64) -> u64
        ensures { result ≡ least_version current self.now }
    {
        let least = self.older.least_version(current);
        match self.newest {
            Some(ticket) => least.min(ticket.version),
            None => least,
        }
    }

    /// Opens a ticket with a number above all others. Without memory nothing changes.
    pub(crate) fn insert(&mut self, ticket: OpenTicket) -> Result<(), AllocError>
        requires { AllByRecursion (λ other. other.number < ticket.number) self.old }
        ensures ok { OnOk result (self.new ≡ self.old ++ ticket ∷ []) }
        ensures err { OnErr result (self.new ≡ self.old) }
    {
        if let Some(previous) = self.newest {
            self.older.insert(previous)?;
        }
        self.newest = Some(ticket);
        Ok(())
    }

    /// Ends the ticket of a number, and answers it where it was open. It takes no memory.
    pub(crate) fn remove(&mut self, number: u64) -> Option<OpenTicket>
        ensures ticket { result ≡ open_ticket self.old number }
        ensures others { self.new ≡ filter (λ ticket. not (ticket.number == number)) self.old }
    {
        if has_number(self.newest, number) {
            let ended = self.newest;
            self.newest = None;
            return ended;
        }
        self.older.remove(number)
    }
}
