//! What the tests of a desk share: a desk, callers with a seat of it, and how they ask.
ghost use Rattle.std.specs.Prelude.{◌≡◌, ◌≤◌, map};
ghost use Rattle.desk.specs.Services.{service_from};
ghost use Rattle.service_profile.specs.Limits.{greatest_number};

use crate::checks::same;
use crate::desk_calls::make_each_call;
use crate::desk_histories::go_through;
use crate::gates::{Overtaking, overtake_at_a_gate, race};
use crate::seats::{take_all_seats, use_four_seats};
use crate::threads::call_from_four_threads;
use crate::upkeep::{keep_last_entries, release_old_tickets};
use book::{Book, Config, ConfigParts, Reply};
use desk::{Desk, Gate, Offered, Seat, Unclosed};
use refusals::RefusalNumber;
use std::alloc::Global;
use std::marker::Brand;
use std::process::Abort;
use std::sync::Wait;
use std::sync::ledger::{Blank, Ledger};
use std::thread::Threads;
use verifier::Verified;
use worked_histories::{History, Wish, outcome_of, program, shared_program};

/// One seat, at its desk: what a thread takes along.
#[derive(Drop)]
pub(crate) struct Caller<'a, L: Ledger, M: Ledger + Offered> {
    pub desk: &'a Desk<L, M>,
    pub seat: Seat<L, M>,
}

/// Asks the service of a name; a report passes the gate.
pub(crate) fn ask<L: Ledger, M: Ledger + Offered, R: Wait + Abort, G: Gate>(
    rt: &R,
    alloc: Global,
    desk: &Desk<L, M>,
    seat: &mut Seat<L, M>,
    name: &str,
    moment: u64,
    wish: Wish,
    gate: &G,
) -> Reply {
    let service = desk.find(name).expect(rt, "a service of the desk");
    assert!(rt; seat.count() < 1_000_000);
    match wish {
        Wish::Acquire => desk.acquire(rt, seat, service, moment),
        Wish::Report(ticket, status) => {
            let outcome = outcome_of(alloc, status).expect(rt, "ample memory");
            desk.report(rt, seat, service, moment, ticket, outcome, gate)
        }
        Wish::Release(ticket) => desk.release(rt, seat, service, moment, ticket),
        Wish::InstallIgnoring => {
            let program = shared_program(alloc, true).expect(rt, "ample memory");
            desk.install(rt, seat, service, moment, program)
        }
        Wish::InstallDefault => {
            let program = shared_program(alloc, false).expect(rt, "ample memory");
            desk.install(rt, seat, service, moment, program)
        }
        Wish::Move(state) => desk.move_to(rt, seat, service, moment, state),
        Wish::Reset => desk.reset(rt, seat, service, moment),
    }
}

/// What a test plays at a new desk.
#[derive(Clone, Copy)]
pub(crate) enum Scene<'a> {
    /// The only seat goes through a history.
    Alone(&'a History<'a>),
    /// One seat makes each call by its name.
    EachCall,
    AllSeats,
    FourSeats,
    FourThreads,
    Overtaking(&'a Overtaking<'a>),
    Race,
    /// The only seat makes more entries than a journal holds.
    LastEntries,
    /// Tickets of the only seat get at most a second old.
    OldTickets,
}

/// Plays at a desk.
fn play<
    L: Ledger + Send + Sync,
    M: Ledger + Offered + Send + Sync,
    R: Threads + Wait + Abort + Sync,
>(rt: &R, alloc: Global, desk: Desk<L, M>, scene: Scene<'_>) {
    match scene {
        Scene::Alone(history) => go_through(rt, alloc, desk, history),
        Scene::EachCall => make_each_call(rt, alloc, desk),
        Scene::AllSeats => take_all_seats(rt, alloc, desk),
        Scene::FourSeats => use_four_seats(rt, alloc, desk),
        Scene::FourThreads => call_from_four_threads(rt, alloc, desk),
        Scene::Overtaking(overtaking) => overtake_at_a_gate(rt, alloc, desk, overtaking),
        Scene::Race => race(rt, alloc, desk),
        Scene::LastEntries => keep_last_entries(rt, alloc, desk),
        Scene::OldTickets => release_old_tickets(rt, alloc, desk),
    }
}

/// Plays at a new desk with services of these names, of one configuration, with the default classifier.
pub(crate) fn play_at_a_desk<R: Threads + Wait + Abort + Sync>(
    rt: &R,
    alloc: Global,
    names: &[&str],
    parts: ConfigParts,
    scene: Scene<'_>,
) {
    play_from(rt, alloc, names, parts, 1, scene);
}

/// The same, at a desk whose services' tickets begin at this number.
pub(crate) fn play_from<R: Threads + Wait + Abort + Sync>(
    rt: &R,
    alloc: Global,
    names: &[&str],
    parts: ConfigParts,
    first_ticket: u64,
    scene: Scene<'_>,
)
    requires least { 1 ≤ first_ticket }
    requires most { first_ticket ≤ greatest_number }
{
    play_at::<Brand, Brand, R>(
        rt,
        alloc,
        Blank::new(193),
        Blank::new(193),
        services(rt, alloc, names, parts),
        first_ticket,
        scene,
    );
}

/// Services of these names, of one configuration, with the default classifier.
fn services(
    rt: &impl Abort,
    alloc: Global,
    names: &[&str],
    parts: ConfigParts,
) -> Vec<(String, Config, Verified)> {
    let mut services = Vec::new(alloc);
    for name in names {
        let service = service(rt, alloc, name, parts);
        services.push(service).expect(rt, "ample memory");
    }
    services
}

/// A service of this name and configuration, with the default classifier.
fn service(
    rt: &impl Abort,
    alloc: Global,
    name: &str,
    parts: ConfigParts,
) -> (String, Config, Verified) {
    let config = Config::new(parts).expect(rt, "parts in their ranges");
    let name = String::from_str(alloc, name).expect(rt, "ample memory");
    let classifier = program(alloc, false).expect(rt, "the default classifier");
    (name, config, classifier)
}

/// Closes a desk, for which all its seats are given.
pub(crate) fn close<L: Ledger, M: Ledger + Offered>(
    rt: &impl Abort,
    alloc: Global,
    desk: Desk<L, M>,
    seats: Vec<Seat<L, M>>,
) -> Vec<Book> {
    desk.close(alloc, seats)
        .ok()
        .expect(rt, "all seats are given")
}

/// Tries to close a desk for which a seat is missing.
fn stays_open<L: Ledger, M: Ledger + Offered>(
    rt: &impl Abort,
    alloc: Global,
    desk: Desk<L, M>,
    seats: Vec<Seat<L, M>>,
) -> Unclosed<L, M> {
    desk.close(alloc, seats)
        .err()
        .expect(rt, "a seat is missing")
}

/// Closes a desk without the last of its four seats, which is refused, and then with it.
pub(crate) fn close_late<L: Ledger, M: Ledger + Offered>(
    rt: &impl Abort,
    alloc: Global,
    desk: Desk<L, M>,
    seats: Vec<Seat<L, M>>,
) -> Vec<Book> {
    let mut seats = seats;
    let last = seats.pop().expect(rt, "a last seat");
    let Unclosed {
        desk,
        mut seats,
        number,
    } = stays_open(rt, alloc, desk, seats);
    same(rt, number, RefusalNumber::SeatsMissing);
    same(rt, seats.len(), 3);
    seats.push(last).expect(rt, "ample memory");
    close(rt, alloc, desk, seats)
}

fn play_at<
    L: Ledger + Send + Sync,
    M: Ledger + Offered + Send + Sync,
    R: Threads + Wait + Abort + Sync,
>(
    rt: &R,
    alloc: Global,
    entries: Blank,
    cuts: Blank,
    services: Vec<(String, Config, Verified)>,
    first_ticket: u64,
    scene: Scene<'_>,
)
    requires least { 1 ≤ first_ticket }
    requires most { first_ticket ≤ greatest_number }
    requires entries_name { entries.name ≡ L.name }
    requires entries_parts { (entries.parts ≡ L.parts) × (L.parts ≡ 193) }
    requires cuts_name { cuts.name ≡ M.name }
    requires cuts_parts { (cuts.parts ≡ M.parts) × (M.parts ≡ 193) }
    requires offered { M.services ≡ map (service_from first_ticket) services.items }
{
    assert!(rt; services.len() <= 64);
    let opened = Desk::<L, M>::open_from(alloc, entries, cuts, services, first_ticket);
    play(rt, alloc, opened.expect(rt, "ample memory"), scene);
}
