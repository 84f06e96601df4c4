//! Asks a service whose book lies in a slot, by a seat, and closes a desk. What is refused for want of memory changes
//! nothing, and hands back all that it was given.
ghost use Rattle.std.specs.Prelude.{IfOk};
ghost use Rattle.std.specs.List.{AllByRecursion};
ghost use Rattle.slot_desk.specs.Seats.{IsSeatOf};

use crate::counting::{Refusals, TRIES, wrong};
use book::{Config, ConfigParts, Reading, Reply};
use bpf_profile::Layout;
use helpers::Record;
use http_front::Answerer;
use http_seats::SeatedAnswerer;
use packed_outcomes::PackedOutcome;
use refusals::RefusalNumber;
use service::{OpenGate, Report, Request, Response};
use slot_desk::{Desk, Seat};
use std::alloc::Global;
use std::io;
use std::io::Write;
use std::sync::Wait;
use verifier::default_classifier;

/// Each outcome is ignored.
const IGNORING: [u8; 16] = [0xb7, 0, 0, 0, 2, 0, 0, 0, 0x95, 0, 0, 0, 0, 0, 0, 0];

/// A request, before it has memory of its own.
#[derive(Clone, Copy, Debug)]
enum Wish {
    Acquire,
    Report,
    Install,
    Page,
    Roll,
    Cut,
}

const WISHES: [Wish; 6] = [
    Wish::Acquire,
    Wish::Report,
    Wish::Install,
    Wish::Page,
    Wish::Roll,
    Wish::Cut,
];

/// What a response says; of entries, how many they are.
#[derive(Clone, Copy, Debug)]
enum Told {
    Reply(Reply),
    ProgramRefused(RefusalNumber),
    Reading,
    Entries(usize),
}

/// A desk with a service of the defaults under the name `pay`, or nothing without memory.
fn opening(alloc: Global, config: Config) -> Option<Desk> {
    let classifier = default_classifier(alloc).ok()?;
    let name = String::from_str(alloc, "pay").ok()?;
    let mut services = Vec::new(alloc);
    services.push((name, config, classifier)).ok()?;
    Desk::open(alloc, services).ok()
}

fn opened(refusals: &mut Refusals, alloc: Global) -> io::Result<Desk> {
    if let Ok(config) = Config::new(ConfigParts::DEFAULT) {
        for _ in 0..TRIES {
            if let Some(desk) = opening(alloc, config) {
                return Ok(desk);
            }
            refusals.count();
        }
    }
    Err(wrong())
}

/// A seat of the desk; one that wants memory is asked for again.
fn seated(refusals: &mut Refusals, alloc: Global, desk: &mut Desk) -> io::Result<Seat>
    ensures { IfOk result (IsSeatOf desk.new) }
{
    if let Ok(seat) = desk.sit(alloc) {
        return Ok(seat);
    }
    refusals.count();
    match desk.sit(alloc) {
        Ok(seat) => Ok(seat),
        Err(_) => Err(wrong()),
    }
}

/// The request of a wish, or nothing without memory.
fn request(alloc: Global, wish: Wish) -> Option<Request> {
    Some(match wish {
        Wish::Acquire => Request::Acquire,
        Wish::Report => Request::Report(Report {
            ticket: 1,
            outcome: PackedOutcome::pack(
                alloc,
                &Record::from_parts([0; 192], [7; 16], b"tag")?,
            ).ok()?,
        }),
        Wish::Install => {
            let mut program = Vec::new(alloc);
            program.extend_from_slice(&IGNORING).ok()?;
            Request::Install {
                program,
                layout: Layout::One,
            }
        }
        Wish::Page => Request::Page(1),
        Wish::Roll => Request::Roll(1),
        Wish::Cut => Request::Cut,
    })
}

/// What the service of the name `pay` says to a request at the moment 7.
fn asked(answerer: &mut impl Answerer, request: Request) -> Option<Told> {
    let place = answerer.find("pay")?;
    Some(match answerer.ask(place, 7, request) {
        Response::Reply(reply) => Told::Reply(reply),
        Response::ProgramRefused(refusal) => Told::ProgramRefused(refusal.number),
        Response::Reading(_) => Told::Reading,
        Response::Page { entries, .. } => Told::Entries(entries.len()),
        Response::HandedOut(entries) => Told::Entries(entries.len()),
    })
}

/// How the service stands.
fn standing(answerer: &mut impl Answerer) -> Option<Reading> {
    let place = answerer.find("pay")?;
    match answerer.ask(place, 7, Request::Read) {
        Response::Reading(reading) => Some(reading),
        _ => None,
    }
}

/// Whether memory was wanting.
fn is_wanting(told: Told) -> bool {
    matches!(
        told,
        Told::Reply(Reply::Refused(RefusalNumber::ServiceOutOfMemory))
            | Told::ProgramRefused(RefusalNumber::ProgramOutOfMemory)
    )
}

/// What is said to a wish. Where memory is wanting, the service stands as before, and it is asked again.
fn answer(
    refusals: &mut Refusals,
    alloc: Global,
    answerer: &mut impl Answerer,
    wish: Wish,
) -> io::Result<Told> {
    for _ in 0..TRIES {
        let before = standing(answerer);
        let told = match request(alloc, wish) {
            Some(request) => asked(answerer, request),
            None => Some(Told::Reply(Reply::Refused(RefusalNumber::ServiceOutOfMemory))),
        };
        match told {
            Some(told) if !is_wanting(told) => return Ok(told),
            _ => refusals.count(),
        }
        if standing(answerer) != before {
            return Err(wrong());
        }
    }
    Err(wrong())
}

/// How many entries the one book has that is handed out when the desk is closed.
fn closed(refusals: &mut Refusals, alloc: Global, desk: Desk, seats: Vec<Seat>) -> io::Result<u64>
    requires { AllByRecursion (IsSeatOf desk) seats.items }
{
    let books = match desk.close(alloc, seats) {
        Ok(books) => books,
        Err(unclosed) => {
            refusals.count();
            match unclosed.desk.close(alloc, unclosed.seats) {
                Ok(books) => books,
                Err(_) => return Err(wrong()),
            }
        }
    };
    match books.as_slice() {
        [book] => Ok(book.last_number()),
        _ => Err(wrong()),
    }
}

/// Closes a desk to which no seat has to come back. Where memory is wanting, the desk comes back.
fn close_a_desk(refusals: &mut Refusals, alloc: Global) -> io::Result<u64> {
    let desk = opened(refusals, alloc)?;
    closed(refusals, alloc, desk, Vec::new(alloc))
}

/// Prints what a seat is told, and whether a desk is closed.
pub(crate) fn ask_by_a_seat(
    rt: &impl Wait,
    refusals: &mut Refusals,
    alloc: Global,
    out: &mut impl Write,
) -> io::Result<()> {
    let mut desk = opened(refusals, alloc)?;
    let seat = seated(refusals, alloc, &mut desk)?;
    let gate = OpenGate;
    let mut answerer = SeatedAnswerer::new(rt, alloc, &desk, &[], seat, &gate);
    for wish in &WISHES {
        let told = answer(refusals, alloc, &mut answerer, *wish)?;
        writeln!(out, "seat {wish:?} {told:?}")?;
    }
    let entries = close_a_desk(refusals, alloc)?;
    writeln!(out, "entries of a desk that is closed: {entries}")
}
