//! Desks: services behind their locks, and the seats that ask them.
ghost use Rattle.std.specs.Prelude.{◌≡◌, ◌<◌, ◌≤◌, ◌+◌, ◌*◌, [], length, map, position, slice_get, bytes_eq, string_bytes, vec_len, Some, IfOk, IfErr, IfSome};
ghost use Rattle.desk.specs.Desks.{desk_of, IsServiceOf};
ghost use Rattle.service.specs.Desks.{most_seats, most_services};
ghost use Rattle.service_profile.specs.Events.{history_of};
ghost use Rattle.service_profile.specs.FirstOpening.{first_opening_from};
ghost use Rattle.service_profile.specs.Limits.{greatest_number};
ghost use Rattle.desk.specs.Kept.{IsOfOne, most_numbers, most_cuts};
ghost use Rattle.desk.specs.Seats.{seat_of};
ghost use Rattle.desk.specs.Services.{service_of, service_from};
ghost use Rattle.refusals.specs.declared.RefusalNumber.TheVariants.{SeatsFull};

use crate::kept::Kept;
use crate::offered::Offered;
use crate::seats::Seat;
use crate::tokens::Tokens;
use book::{Book, Config};
use refusals::RefusalNumber;
use std::alloc::{AllocError, Global};
use std::marker::Model;
use std::sync::Mutex;
use std::sync::ledger::{Blank, Ledger};
use verifier::Verified;

/// How many tokens a service opens with, for its entries and for its cuts: a number of an entry, and one of a period,
/// can't be greater.
const MOST_NUMBERS: u64 = u64::MAX;

const MOST_CUTS: u64 = 1 << 63;

/// Which of a desk's services is asked. Contracts see its place.
#[derive(Clone, Copy, Debug, PartialEq, Eq)]
pub struct ServiceId {
    place: usize,
}

impl Model for ServiceId {
    ghost use Rattle.std.specs.Prelude.{ℕ};

    ghost Value = { ℕ };

    ghost view = { λ service. service.place };

    ghost inverse = { λ place. record { place = place } };
}

impl ServiceId {
    /// The service at a place, from 0 on, in the order in which the desk opened them.
    pub fn at(place: usize) -> ServiceId
        ensures { result ≡ place }
    {
        ServiceId { place }
    }

    /// Where the service stands.
    pub fn place(self) -> usize
        ensures { result ≡ self }
    {
        self.place
    }
}

/// A service: its name, and what lies under its lock.
#[derive(Drop)]
pub(crate) struct LockedService<L: Ledger, M: Ledger + Offered> {
    pub name: String,
    pub kept: Mutex<Kept<L, M>>,
}

/// Services that many threads ask at once, each behind a lock of its own. Contracts see the services that were opened,
/// by their names, configurations and first programs, and how many seats were given: what lies under the locks other
/// threads may change at any time.
#[derive(Drop)]
pub struct Desk<L: Ledger, M: Ledger + Offered> {
    pub(crate) services: Vec<LockedService<L, M>>,
    pub(crate) given: u32,
    pub(crate) entries: Tokens<L>,
    pub(crate) cuts: Tokens<M>,
}

impl<L: Ledger, M: Ledger + Offered> Model for Desk<L, M> {
    ghost use Rattle.std.specs.Prelude.{◌≡◌, ◌+◌, ◌*◌, ◌≤◌, map, length, string_bytes, vec_len};
    ghost use Rattle.desk.specs.Desks.{DeskData, desk_of};
    ghost use Rattle.desk.specs.Kept.{most_numbers, most_cuts};

    ghost Value = { DeskData };

    ghost view = { λ desk. desk_of M.services desk.given };

    // Each seat and each service has one part of both ledgers. The others lie here, with nothing counted: all tokens are
    // those that services have opened with.
    ghost invariant = { λ desk.
        (desk.given ≤ 128) × (vec_len desk.services ≤ 64)
        × (L.parts ≡ 193) × (desk.entries.left.parts + (desk.given + vec_len desk.services) ≡ 193) × (desk.entries.left.amount ≡ 0) × (desk.entries.book.total ≡ vec_len desk.services * most_numbers)
        × (M.parts ≡ 193) × (desk.cuts.left.parts + (desk.given + vec_len desk.services) ≡ 193) × (desk.cuts.left.amount ≡ 0) × (desk.cuts.book.total ≡ vec_len desk.services * most_cuts)
        × (map (λ service. service.name) M.services ≡ map (λ service. string_bytes service.name) desk.services.items) × (length M.services ≡ vec_len desk.services) };
}

impl<L: Ledger, M: Ledger + Offered> Desk<L, M> {
    /// Opens a desk with no seats, and a book for each service by its name, its configuration and its first
    /// program. The error is want of memory.
    pub fn open(
        alloc: Global,
        entries: Blank,
        cuts: Blank,
        services: Vec<(String, Config, Verified)>,
    ) -> Result<Desk<L, M>, AllocError>
        // Both ledgers have 193 parts: one for each of at most 128 seats and of at most 64 services, and one for the
        // desk.
        requires entries_name { entries.name ≡ L.name }
        requires entries_parts { (entries.parts ≡ L.parts) × (L.parts ≡ 193) }
        requires cuts_name { cuts.name ≡ M.name }
        requires cuts_parts { (cuts.parts ≡ M.parts) × (M.parts ≡ 193) }
        requires few { vec_len services ≤ most_services }
        // `M` names the services that are opened. It is the caller's to pick, and restricts nobody.
        requires offered { M.services ≡ map service_of services.items }
        ensures opened { IfOk result (λ desk. desk ≡ desk_of (map service_of services.items) 0) }
    {
        Desk::open_from(alloc, entries, cuts, services, 1)
    }

    /// The same, where each service's first ticket has this number, from 1 to 2^63.
    pub fn open_from(
        alloc: Global,
        entries: Blank,
        cuts: Blank,
        services: Vec<(String, Config, Verified)>,
        first_ticket: u64,
    ) -> Result<Desk<L, M>, AllocError>
        requires entries_name { entries.name ≡ L.name }
        requires entries_parts { (entries.parts ≡ L.parts) × (L.parts ≡ 193) }
        requires cuts_name { cuts.name ≡ M.name }
        requires cuts_parts { (cuts.parts ≡ M.parts) × (M.parts ≡ 193) }
        requires few { vec_len services ≤ most_services }
        requires least { 1 ≤ first_ticket }
        requires most { first_ticket ≤ greatest_number }
        requires offered { M.services ≡ map (service_from first_ticket) services.items }
        ensures opened { IfOk result (λ desk. desk ≡ desk_of (map (service_from first_ticket) services.items) 0) }
    {
        let mut entries = Tokens::new(entries);
        let mut cuts = Tokens::new(cuts);
        let services = behind_locks(alloc, &mut entries, &mut cuts, services, first_ticket)?;
        Ok(Desk {
            services,
            given: 0,
            entries,
            cuts,
        })
    }

    /// A new seat, which has made no calls. The refusal is `SeatsFull`, for the 129th.
    pub fn sit(&mut self) -> Result<Seat<L, M>, RefusalNumber>
        ensures given { IfOk result (λ seat. (seat ≡ seat_of (self.old.seats + 1) 0 0) × (self.new ≡ desk_of self.old.services (self.old.seats + 1))) }
        ensures full { IfErr result (λ number. (number ≡ SeatsFull) × (self.old.seats ≡ most_seats) × (self.new ≡ self.old)) }
    {
        if self.given >= 128 {
            return Err(RefusalNumber::SeatsFull);
        }
        let entries = self.entries.part(0);
        let cuts = self.cuts.part(0);
        self.given += 1;
        Ok(Seat::new(self.given, entries, cuts))
    }

    /// How many services the desk has.
    pub fn count(&self) -> usize
        ensures { result ≡ length self.now.services }
    {
        self.services.len()
    }

    /// The name of a service.
    pub fn name(&self, service: ServiceId) -> &str
        requires held { IsServiceOf self.now service }
        ensures { slice_get (map (λ service. service.name) self.now.services) service ≡ Some result.now }
    {
        self.services[service.place()].name.as_str()
    }

    /// The service of a name. Of two of one name the first is found. It takes no memory.
    pub fn find(&self, name: &str) -> Option<ServiceId>
        ensures found { result ≡ position (λ service. bytes_eq service.name name.now) self.now.services }
        ensures held { IfSome result (λ service. IsServiceOf self.now service) }
    {
        match place_of(&self.services, name) {
            Some(place) => Some(ServiceId { place }),
            None => None,
        }
    }
}

/// Where the first service of a name stands.
fn place_of<L: Ledger, M: Ledger + Offered>(
    services: &[LockedService<L, M>],
    name: &str,
) -> Option<usize>
    ensures { result ≡ position (λ service. bytes_eq (string_bytes service.name) name.now) services.now }
{
    services
        .iter()
        .position(|service| service.name.as_str() == name)
}

/// What lies under the lock of a service that opens: its book, with all tokens.
fn opened<L: Ledger, M: Ledger + Offered>(
    alloc: Global,
    entries: &mut Tokens<L>,
    cuts: &mut Tokens<M>,
    config: Config,
    program: Verified,
    first_ticket: u64,
) -> Result<Kept<L, M>, AllocError>
    requires entry_parts { 1 ≤ entries.old.left.parts }
    requires no_entry { entries.old.left.amount ≡ 0 }
    requires cut_parts { 1 ≤ cuts.old.left.parts }
    requires no_cut { cuts.old.left.amount ≡ 0 }
    requires least { 1 ≤ first_ticket }
    requires most { first_ticket ≤ greatest_number }
    requires of_service { IsOfOne M.services 0 (history_of (first_opening_from first_ticket config program) []) }
    ensures entry_parts { IfOk result (λ kept. entries.new.left.parts + 1 ≡ entries.old.left.parts) }
    ensures no_entry { IfOk result (λ kept. entries.new.left.amount ≡ 0) }
    ensures entries { IfOk result (λ kept. entries.new.book.total ≡ entries.old.book.total + most_numbers) }
    ensures cut_parts { IfOk result (λ kept. cuts.new.left.parts + 1 ≡ cuts.old.left.parts) }
    ensures no_cut { IfOk result (λ kept. cuts.new.left.amount ≡ 0) }
    ensures cuts { IfOk result (λ kept. cuts.new.book.total ≡ cuts.old.book.total + most_cuts) }
{
    let book = Book::open_from(alloc, config, program, first_ticket)?;
    let entries = entries.part(MOST_NUMBERS);
    let cuts = cuts.part(MOST_CUTS);
    Ok(Kept::new(book, entries, cuts))
}

/// What lies behind the lock of each service.
fn behind_locks<L: Ledger, M: Ledger + Offered>(
    alloc: Global,
    entries: &mut Tokens<L>,
    cuts: &mut Tokens<M>,
    services: Vec<(String, Config, Verified)>,
    first_ticket: u64,
) -> Result<Vec<LockedService<L, M>>, AllocError>
    requires entry_parts { vec_len services < entries.old.left.parts }
    requires no_entry { entries.old.left.amount ≡ 0 }
    requires cut_parts { vec_len services < cuts.old.left.parts }
    requires no_cut { cuts.old.left.amount ≡ 0 }
    requires least { 1 ≤ first_ticket }
    requires most { first_ticket ≤ greatest_number }
    requires offered { M.services ≡ map (service_from first_ticket) services.items }
    ensures names { IfOk result (λ opened. map (λ service. string_bytes service.name) opened.items ≡ map (λ service. string_bytes service.0) services.items) }
    ensures entry_parts { IfOk result (λ opened. entries.new.left.parts + vec_len opened ≡ entries.old.left.parts) }
    ensures no_entry { IfOk result (λ opened. entries.new.left.amount ≡ 0) }
    ensures entries { IfOk result (λ opened. entries.new.book.total ≡ entries.old.book.total + vec_len opened * most_numbers) }
    ensures cut_parts { IfOk result (λ opened. cuts.new.left.parts + vec_len opened ≡ cuts.old.left.parts) }
    ensures no_cut { IfOk result (λ opened. cuts.new.left.amount ≡ 0) }
    ensures cuts { IfOk result (λ opened. cuts.new.book.total ≡ cuts.old.book.total + vec_len opened * most_cuts) }
{
    let mut behind = Vec::new(alloc);
    for (name, config, program) in services {
        let kept = Mutex::new(opened(alloc, entries, cuts, config, program, first_ticket)?);
        behind.push(LockedService { name, kept })?;
    }
    Ok(behind)
}
