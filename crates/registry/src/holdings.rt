//! What a registry holds.
ghost use Rattle.std.specs.Prelude.{◌≡◌, ◌<◌, ◌≤◌, ◌+◌, ◌^◌, nat_le, nat_lt, ◌&&◌, length, slice_get, Some, IsTrue, IfSome, IfOk};
ghost use Rattle.std.specs.Arc.{arc_value};
ghost use Rattle.std.specs.Option.{option_map};
ghost use Rattle.service_profile.specs.Limits.{most_versions};
ghost use Rattle.service_profile.specs.Machine.{open_ticket, is_open, program_from};
ghost use Rattle.registry.specs.Registries.{opened, current_version, next_version, is_issued, Ascend, IsTicketOf, AreTicketsOf};

use crate::programs::{last, program_from};
use crate::tickets::OpenTickets;
use service_profile::OpenTicket;
use std::alloc::{AllocError, Global};
use std::marker::Model;
use std::sync::Arc;
use verifier::Verified;

/// The programs of the versions that are held, from 1 to 256 of them with consecutive numbers, and the tickets
/// that are open, with ascending numbers. Contracts see both as lists, with the numbers that they go on from, and
/// for how many more programs there is room.
#[derive(Drop)]
pub struct Registry {
    pub(crate) first_version: u64,
    pub(crate) programs: Vec<Arc<Verified>>,
    pub(crate) open_tickets: OpenTickets,
    pub(crate) next_ticket: u64,
}

impl Model for Registry {
    ghost use Rattle.std.specs.Prelude.{map, ◌-◌};
    ghost use Rattle.std.specs.Arc.{arc_value};
    ghost use Rattle.std.specs.Vec.{vec_len, vec_capacity};
    ghost use Rattle.registry.specs.Registries.{RegistryData, IsRegistry, registry_of};

    ghost Value = { RegistryData };

    ghost view = { λ r. registry_of r.first_version (map arc_value r.programs.items) r.open_tickets r.next_ticket (vec_capacity r.programs - vec_len r.programs) };

    ghost invariant = { λ r. IsRegistry (registry_of r.first_version (map arc_value r.programs.items) r.open_tickets r.next_ticket (vec_capacity r.programs - vec_len r.programs)) };
}

/// Whether a number comes before the next one.
fn was_given(number: u64, next: u64) -> bool
    ensures { result ≡ (nat_le 1 number && nat_lt number next) }
{
    1 <= number && number < next
}

impl Registry {
    /// Makes a registry that holds one program, under this version, and no open ticket. The next ticket gets the
    /// number `next_ticket`, which is at least 1. The error is want of memory.
    pub fn new(
        alloc: Global,
        program: Arc<Verified>,
        version: u64,
        next_ticket: u64,
    ) -> Result<Registry, AllocError>
        requires version { version + 1 < 2 ^ 64 }
        requires ticket { 1 ≤ next_ticket }
        ensures { IfOk result (λ r. r ≡ opened (arc_value program) version next_ticket r.program_room) }
    {
        let mut programs = Vec::new(alloc);
        programs.push(program)?;
        Ok(Registry {
            first_version: version,
            programs,
            open_tickets: OpenTickets::new(alloc),
            next_ticket,
        })
    }

    /// How many versions are held, from 1 to 256.
    pub fn version_count(&self) -> usize
        ensures count { result ≡ length self.now.programs }
        ensures some { 1 ≤ result }
        ensures few { result ≤ most_versions }
    {
        self.programs.len()
    }

    /// The version of new tickets.
    pub fn current_version(&self) -> u64
        ensures { result ≡ current_version self.now }
    {
        self.first_version + (self.version_count() as u64 - 1)
    }

    /// The version of the next program that is installed.
    pub fn next_version(&self) -> u64
        ensures { result ≡ next_version self.now }
    {
        self.first_version + self.version_count() as u64
    }

    /// The program of a version, where it is held.
    pub fn program(&self, version: u64) -> Option<&Arc<Verified>>
        ensures { option_map (λ p. arc_value p.now) result ≡ program_from self.now.first_version self.now.programs version }
    {
        program_from(self.first_version, self.programs.as_slice(), version)
    }

    /// The program of new tickets.
    pub fn current_program(&self) -> &Arc<Verified>
        ensures { program_from self.now.first_version self.now.programs (current_version self.now) ≡ Some (arc_value result.now) }
    {
        last(self.programs.as_slice())
    }

    /// The number of the next ticket.
    pub fn next_ticket(&self) -> u64
        ensures { result ≡ self.now.next_ticket }
    {
        self.next_ticket
    }

    /// How many tickets are open. Their numbers ascend, and each was given; their versions are held.
    pub fn open_count(&self) -> usize
        ensures count { result ≡ length self.now.open_tickets }
        ensures ascending { Ascend self.now.open_tickets }
        ensures held { AreTicketsOf self.now self.now.open_tickets }
    {
        self.open_tickets.len()
    }

    /// The open ticket that was issued first, where any is open. Its number is the least.
    pub fn oldest_ticket(&self) -> Option<OpenTicket>
        ensures { result ≡ slice_get self.now.open_tickets 0 }
    {
        self.open_tickets.oldest()
    }

    /// The open ticket of a number. Its version is held.
    pub fn open_ticket(&self, number: u64) -> Option<OpenTicket>
        ensures ticket { result ≡ open_ticket self.now.open_tickets number }
        ensures held { IfSome result (IsTicketOf self.now.first_version (length self.now.programs) self.now.next_ticket) }
    {
        self.open_tickets.get(number)
    }

    /// Whether the ticket of a number is open.
    pub fn is_open(&self, number: u64) -> bool
        ensures { result ≡ is_open self.now.open_tickets number }
    {
        self.open_tickets.contains(number)
    }

    /// Whether a ticket of this number was ever issued. Each open ticket was.
    pub fn is_issued(&self, number: u64) -> bool
        ensures issued { result ≡ is_issued self.now number }
        ensures open { IsTrue (is_open self.now.open_tickets number) → IsTrue result }
    {
        was_given(number, self.next_ticket)
    }
}
