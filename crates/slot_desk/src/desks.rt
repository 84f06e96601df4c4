//! Desks: services, each with its book in a slot.
ghost use Rattle.std.specs.Prelude.{◌≡◌, ◌≤◌, ◌<◌, [], length, map, position, replicate, slice_get, bytes_eq, string_bytes, vec_len, Some, IfOk, IfSome};
ghost use Rattle.slot_desk.specs.Desks.{IsServiceOf};
ghost use Rattle.service_profile.specs.Limits.{greatest_number};
ghost use Rattle.slot_desk.specs.Dealing.{name_of, first_of, first_from};
ghost use Rattle.service.specs.Desks.{most_services};
ghost use Rattle.slot_desk.specs.Slots.{origin_of, dealt_of, back_of, known_of};

use crate::services::ServiceId;
use book::Config;
use book_slot::Slot;
use std::alloc::{AllocError, Global};
use std::marker::Model;
use verifier::Verified;

/// Services that many threads ask at once, each with its book in a slot of its own. Contracts see the services' names, the tables
/// that their books lie in, these books as they opened, and how many seats were given: the books are in the hands of whoever takes them.
#[derive(Drop)]
pub struct Desk {
    pub(crate) names: Vec<String>,
    pub(crate) slots: Vec<Slot>,
    pub(crate) given: u32,
}

impl Model for Desk {
    ghost use Rattle.std.specs.Prelude.{◌≡◌, ◌≤◌, [], map, replicate, string_bytes, vec_len};
    ghost use Rattle.slot_desk.specs.Desks.{DeskData, desk_of};
    ghost use Rattle.slot_desk.specs.Slots.{table_of, origin_of, dealt_of, back_of, known_of};

    ghost Value = { DeskData };

    ghost view = { λ desk. desk_of (map string_bytes desk.names.items) (map table_of desk.slots.items) (map origin_of desk.slots.items) desk.given };

    // Each slot has dealt a place to each seat, and none has come back.
    ghost invariant = { λ desk.
        (map dealt_of desk.slots.items ≡ replicate (vec_len desk.slots) desk.given)
        × (map back_of desk.slots.items ≡ replicate (vec_len desk.slots) 0)
        × (vec_len desk.names ≡ vec_len desk.slots) × (desk.given ≤ 128)
        × (map known_of desk.slots.items ≡ replicate (vec_len desk.slots) []) };
}

impl Desk {
    /// Opens a desk with no seats, and a book for each service by its name, its configuration and its first
    /// program. The error is want of memory.
    pub fn open(
        alloc: Global,
        services: Vec<(String, Config, Verified)>,
    ) -> Result<Desk, AllocError>
        requires few { vec_len services ≤ most_services }
        ensures names { IfOk result (λ desk. desk.names ≡ map name_of services.items) }
        ensures tables { IfOk result (λ desk. length desk.tables ≡ vec_len services) }
        // Each book has its service's configuration and first program, and no entry.
        ensures opened { IfOk result (λ desk. desk.origins ≡ map first_of services.items) }
        ensures no_seats { IfOk result (λ desk. desk.seats ≡ 0) }
    {
        Desk::open_from(alloc, services, 1)
    }

    /// The same, where each service's first ticket has this number, from 1 to 2^63.
    pub fn open_from(
        alloc: Global,
        services: Vec<(String, Config, Verified)>,
        first_ticket: u64,
    ) -> Result<Desk, AllocError>
        requires few { vec_len services ≤ most_services }
        requires least { 1 ≤ first_ticket }
        requires most { first_ticket ≤ greatest_number }
        ensures names { IfOk result (λ desk. desk.names ≡ map name_of services.items) }
        ensures tables { IfOk result (λ desk. length desk.tables ≡ vec_len services) }
        ensures opened { IfOk result (λ desk. desk.origins ≡ map (first_from first_ticket) services.items) }
        ensures no_seats { IfOk result (λ desk. desk.seats ≡ 0) }
    {
        let (names, slots) = opened(alloc, services, first_ticket)?;
        Ok(Desk {
            names,
            slots,
            given: 0,
        })
    }

    /// How many services the desk has.
    pub fn count(&self) -> usize
        ensures names { result ≡ length self.now.names }
        ensures tables { result ≡ length self.now.tables }
    {
        self.names.len()
    }

    /// The name of a service.
    pub fn name(&self, service: ServiceId) -> &str
        requires within { service < length self.now.names }
        ensures { slice_get self.now.names service ≡ Some result.now }
    {
        self.names[service.place()].as_str()
    }

    /// The service of a name. Of two of one name the first is found. It takes no memory.
    pub fn find(&self, name: &str) -> Option<ServiceId>
        ensures found { result ≡ position (λ other. bytes_eq other name.now) self.now.names }
        ensures held { IfSome result (λ service. IsServiceOf self.now service) }
    {
        match place_of(&self.names, name) {
            Some(place) => Some(ServiceId::at(place)),
            None => None,
        }
    }
}

/// Where the first service of a name stands.
fn place_of(names: &[String], name: &str) -> Option<usize>
    ensures { result ≡ position (λ other. bytes_eq (string_bytes other) name.now) names.now }
{
    names.iter().position(|other| other.as_str() == name)
}

/// The names of the services, and a slot for each, which has dealt no places.
fn opened(
    alloc: Global,
    services: Vec<(String, Config, Verified)>,
    first_ticket: u64,
) -> Result<(Vec<String>, Vec<Slot>), AllocError>
    requires least { 1 ≤ first_ticket }
    requires most { first_ticket ≤ greatest_number }
    ensures names { IfOk result (λ opened. map string_bytes opened.0.items ≡ map name_of services.items) }
    ensures origins { IfOk result (λ opened. map origin_of opened.1.items ≡ map (first_from first_ticket) services.items) }
    ensures dealt { IfOk result (λ opened. map dealt_of opened.1.items ≡ replicate (vec_len services) 0) }
    ensures back { IfOk result (λ opened. map back_of opened.1.items ≡ replicate (vec_len services) 0) }
    ensures known { IfOk result (λ opened. map known_of opened.1.items ≡ replicate (vec_len services) []) }
{
    let mut names = Vec::new(alloc);
    let mut slots = Vec::new(alloc);
    for (name, config, program) in services {
        slots.push(Slot::open_from(alloc, config, program, first_ticket)?)?;
        names.push(name)?;
    }
    Ok((names, slots))
}
