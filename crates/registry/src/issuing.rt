//! Tickets: how they are issued and end, and which program judges under them.
ghost use Rattle.std.specs.Prelude.{◌≡◌, ◌<◌, ◌≤◌, ◌+◌, ◌^◌, length, Some, None, Err, IsOk, IsTrue, OnOk, OnErr, IfOk};
ghost use Rattle.std.specs.Arc.{arc_value};
ghost use Rattle.service_profile.specs.Answers.{map_ok};
ghost use Rattle.service_profile.specs.Machine.{is_open, open_ticket};
ghost use Rattle.registry.specs.Registries.{next_open, with_ticket, without_ticket, ticket_in, looked_in, looked_with, IsShared, IsTicketOf};

use crate::holdings::Registry;
use refusals::RefusalNumber;
use service_profile::OpenTicket;
use std::alloc::AllocError;
use std::sync::Arc;
use verifier::Verified;

impl Registry {
    /// Issues a ticket of a period at a moment, with the next number and the current version. Without memory nothing
    /// changes.
    pub fn issue(&mut self, period: u64, moment: u64) -> Result<OpenTicket, AllocError>
        requires { self.old.next_ticket + 1 < 2 ^ 64 }
        ensures ticket { IfOk result (λ ticket. ticket ≡ next_open self.old period moment) }
        ensures ok { OnOk result (self.new ≡ with_ticket self.old period moment) }
        ensures err { OnErr result (self.new ≡ self.old) }
    {
        let ticket = OpenTicket {
            number: self.next_ticket,
            version: self.current_version(),
            period,
            moment,
        };
        self.open_tickets.insert(ticket)?;
        self.next_ticket += 1;
        Ok(ticket)
    }

    /// Ends a ticket, and answers it with its version and its period. The refusal is `NoTicket` where it was never
    /// issued, `TicketSpent` where it has ended; it changes nothing. It takes no memory.
    pub fn end(&mut self, ticket: u64) -> Result<OpenTicket, RefusalNumber>
        ensures ticket { result ≡ ticket_in self.old ticket }
        ensures others { self.new ≡ without_ticket self.old ticket }
        ensures err { OnErr result (self.new ≡ self.old) }
    {
        let Some(ended) = self.open_tickets.remove(ticket) else {
            return Err(self.why_not_open(ticket));
        };
        Ok(ended)
    }

    /// Why the ticket of a number is not open: it was never issued, or it has ended.
    fn why_not_open(&self, number: u64) -> RefusalNumber
        requires closed { open_ticket self.now.open_tickets number ≡ None }
        ensures { Err result ≡ ticket_in self.now number }
    {
        if self.is_issued(number) {
            RefusalNumber::TicketSpent
        } else {
            RefusalNumber::NoTicket
        }
    }

    /// The open ticket of a number. The refusal is `NoTicket` where it was never issued, `TicketSpent` where it has ended.
    pub fn ticket(&self, number: u64) -> Result<OpenTicket, RefusalNumber>
        ensures ticket { result ≡ ticket_in self.now number }
        ensures open { IsTrue (is_open self.now.open_tickets number) → IsOk result }
        ensures held { IfOk result (IsTicketOf self.now.first_version (length self.now.programs) self.now.next_ticket) }
    {
        match self.open_ticket(number) {
            Some(open) => Ok(open),
            None => Err(self.why_not_open(number)),
        }
    }

    /// The program that judges under an open ticket.
    fn looked_with(&self, ticket: OpenTicket) -> Result<&Arc<Verified>, RefusalNumber>
        ensures program { map_ok (λ p. arc_value p.now) result ≡ looked_with self.now (Some ticket) }
        ensures held { IsTicketOf self.now.first_version (length self.now.programs) self.now.next_ticket ticket → IsOk result }
    {
        match self.program(ticket.version) {
            Some(program) => Ok(program),
            None => Err(RefusalNumber::TicketSpent),
        }
    }

    /// The program that judges under an open ticket: that of the ticket's version. The refusal is `NoTicket` where
    /// the ticket was never issued, `TicketSpent` where it has ended.
    pub fn look(&self, ticket: u64) -> Result<&Arc<Verified>, RefusalNumber>
        ensures program { map_ok (λ p. arc_value p.now) result ≡ looked_in self.now ticket }
        ensures held { IsTrue (is_open self.now.open_tickets ticket) → IsOk result }
    {
        self.looked_with(self.ticket(ticket)?)
    }

    /// One more owner of the program that judges under an open ticket. The refusal is that of `look`, or
    /// `ServiceOutOfMemory` where the program can have no more owners. A book takes that owner by itself, and doesn't call
    /// this.
    pub fn program_of(&self, ticket: u64) -> Result<Arc<Verified>, RefusalNumber>
        ensures { IsShared (looked_in self.now ticket) (map_ok arc_value result) }
    {
        let program = self.look(ticket)?;
        match Arc::try_clone(program) {
            Ok(owner) => Ok(owner),
            Err(_) => Err(RefusalNumber::ServiceOutOfMemory),
        }
    }
}
