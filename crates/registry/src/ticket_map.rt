//! Tickets in a map, by their numbers.
ghost use Rattle.std.specs.Prelude.{◌≡◌, ◌==◌, ◌<◌, ◌^◌, not, length, slice_get, [], ◌∷◌, ◌++◌, OnOk, OnErr};
ghost use Rattle.std.specs.BTreeMap.{values};
ghost use Rattle.std.specs.List.{AllByRecursion, filter};
ghost use Rattle.std.specs.Option.{option_map};
ghost use Rattle.service_profile.specs.Answers.{least_version};
ghost use Rattle.service_profile.specs.Machine.{open_ticket, is_open};
ghost use Rattle.registry.specs.Registries.{Ascend};
ghost use Rattle.registry.specs.Terms.{least_of, ticket_of};

use service_profile::OpenTicket;
use std::alloc::{AllocError, Global};
use std::cmp::Reverse;
use std::collections::BTreeMap;
use std::marker::Model;

/// What a ticket was issued with.
#[derive(Clone, Copy)]
pub(crate) struct Terms {
    pub version: u64,
    pub period: u64,
    pub moment: u64,
}

/// Tickets in a map. Contracts see their list, in the order of their numbers. Each call takes time
/// that grows with the logarithm of their number. The map has the greatest number first, since the newest
/// tickets are asked for most, and a search in a node of the map begins at its first key.
#[derive(Drop)]
pub(crate) struct TicketMap {
    terms: BTreeMap<Reverse<u64>, Terms>,
}

impl Model for TicketMap {
    ghost use Rattle.std.specs.Prelude.{List};
    ghost use Rattle.service_profile.specs.declared.tickets.OpenTicket.{OpenTicket};

    ghost Value = { List OpenTicket };

    ghost use Rattle.std.specs.BTreeMap.{IsOrdered};
    ghost use Rattle.std.specs.Ordering.{nat_cmp};
    ghost use Rattle.registry.specs.Terms.{tickets_of};

    ghost view = { λ t. tickets_of t.terms.entries };

    ghost invariant = { λ t. IsOrdered (λ x y. nat_cmp y.0 x.0) t.terms };
}

/// The ticket of a number, where there are terms for it.
fn ticket_of(number: u64, terms: Option<Terms>) -> Option<OpenTicket>
    ensures { result ≡ option_map (ticket_of number) terms }
{
    match terms {
        Some(terms) => Some(OpenTicket {
            number,
            version: terms.version,
            period: terms.period,
            moment: terms.moment,
        }),
        None => None,
    }
}

/// The least version of some terms, or else this one.
fn least_of(terms: &BTreeMap<Reverse<u64>, Terms>, current: u64) -> u64
    ensures { result ≡ least_of current (values terms.now) }
{
    let mut least = current;
    for one in terms.values() {
        least = least.min(one.version);
    }
    least
}

impl TicketMap {
    /// No ticket.
    pub(crate) fn new(alloc: Global) -> TicketMap
        ensures { result ≡ [] }
    {
        TicketMap {
            terms: BTreeMap::new(alloc),
        }
    }

    /// How many tickets are open. Their numbers ascend.
    pub(crate) fn len(&self) -> usize
        ensures len { result ≡ length self.now }
        ensures small { result < 2 ^ 63 }
        ensures ascending { Ascend self.now }
    {
        self.terms.len()
    }

    /// The ticket that was issued first, where any is open: that of the least number, the last one of the map.
    pub(crate) fn oldest(&self) -> Option<OpenTicket>
        ensures { result ≡ slice_get self.now 0 }
    {
        match self.terms.last_key_value() {
            Some((Reverse(number), terms)) => ticket_of(*number, Some(*terms)),
            None => None,
        }
    }

    /// The open ticket of a number.
    pub(crate) fn get(&self, number: u64) -> Option<OpenTicket>
        ensures { result ≡ open_ticket self.now number }
    {
        ticket_of(number, self.terms.get(&Reverse(number)).copied())
    }

    /// Whether the ticket of a number is open.
    pub(crate) fn contains(&self, number: u64) -> bool
        ensures { result ≡ is_open self.now number }
    {
        self.terms.contains_key(&Reverse(number))
    }

    /// The least version of an open ticket, or else this one, that of new tickets. It goes over all tickets.
    pub(crate) fn least_version(&self, current: u64) -> u64
        ensures { result ≡ least_version current self.now }
    {
        least_of(&self.terms, current)
    }

    /// Opens a ticket with a number above all others. Without memory nothing changes.
    pub(crate) fn insert(&mut self, ticket: OpenTicket) -> Result<(), AllocError>
        requires { AllByRecursion (λ other. other.number < ticket.number) self.old }
        ensures ok { OnOk result (self.new ≡ self.old ++ ticket ∷ []) }
        ensures err { OnErr result (self.new ≡ self.old) }
    {
        let terms = Terms {
            version: ticket.version,
            period: ticket.period,
            moment: ticket.moment,
        };
        self.terms.insert(Reverse(ticket.number), terms)?;
        Ok(())
    }

    /// Ends the ticket of a number, and answers it where it was open. It takes no memory.
    pub(crate) fn remove(&mut self, number: u64) -> Option<OpenTicket>
        ensures ticket { result ≡ open_ticket self.old number }
        ensures others { self.new ≡ filter (λ ticket. not (ticket.number == number)) self.old }
    {
        ticket_of(number, self.terms.remove(&Reverse(number)))
    }
}
