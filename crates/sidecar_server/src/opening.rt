//! Opening the services, and taking their books.
ghost use Rattle.std.specs.Prelude.{◌≡◌, ◌≤◌, map, IfOk};
ghost use Rattle.service_profile.specs.Limits.{greatest_number};
ghost use Rattle.sidecar_server.specs.Opened.{IsOpened, AreOpened};
ghost use Rattle.sidecar_server.specs.Opened.{logged_by, upkeeps_of};
ghost use Rattle.sidecar_server.specs.Served.{books_of, opening_of};

use book::{Book, Config};
use http_front::{Books, NamedBook};
use service::{Log, Upkeep};
use service_file::{Logging, ServiceSettings, Settings};
use service_log::{LogLines, ServiceLog};
use std::alloc::{AllocError, Global};
use std::sync::Wait;
use verifier::Verified;

/// Opens a service, whose first ticket has a number of its own.
fn opened(
    alloc: Global,
    service: ServiceSettings,
    first_ticket: u64,
) -> Result<NamedBook, AllocError>
    requires least { 1 ≤ first_ticket }
    requires most { first_ticket ≤ greatest_number }
    ensures { IfOk result (IsOpened first_ticket service) }
{
    let book = Book::open_from(alloc, service.config, service.program, first_ticket)?;
    Ok(NamedBook {
        name: service.name,
        book,
        upkeep: service.upkeep,
    })
}

/// Opens services, each in CLOSED and with no entry, and with the same number of its first ticket. The error is want of
/// memory.
pub(crate) fn open(
    alloc: Global,
    services: Vec<ServiceSettings>,
    first_ticket: u64,
) -> Result<Books, AllocError>
    requires least { 1 ≤ first_ticket }
    requires most { first_ticket ≤ greatest_number }
    ensures { IfOk result (λ books. AreOpened first_ticket services.items books.services.items) }
{
    let mut named = Vec::new(alloc);
    for service in services {
        named.push(opened(alloc, service, first_ticket)?)?;
    }
    Ok(Books::new(alloc, named))
}

/// What a desk opens its services by: the name, the configuration and the first program of each.
pub(crate) fn opened_by(
    alloc: Global,
    services: Vec<ServiceSettings>,
) -> Result<Vec<(String, Config, Verified)>, AllocError>
    ensures { IfOk result (λ opened. opened.items ≡ map opening_of services.items) }
{
    services
        .into_iter()
        .map(|service| (service.name, service.config, service.program))
        .collect(alloc)
}

/// What a service does for its own upkeep, of which a log is told by this number, where there is one.
fn logged(upkeep: Upkeep, logging: Logging, place: usize) -> Upkeep
    ensures { result ≡ logged_by logging place upkeep }
{
    let mut logged = upkeep;
    if let Logging::Changes = logging {
        logged.log = Log::Changes(place);
    }
    logged
}

/// What the services of a file do for their own upkeep, in their order, of which a log is told, where the file says so, by their
/// places. The error is want of memory.
pub(crate) fn upkeeps_of(alloc: Global, settings: &Settings) -> Result<Vec<Upkeep>, AllocError>
    ensures { IfOk result (λ upkeeps. upkeeps.items ≡ upkeeps_of settings.now.logging settings.now.services.items) }
{
    let mut upkeeps = Vec::new(alloc);
    for place in 0..settings.services.len() {
        let upkeep = settings.services[place].upkeep;
        upkeeps.push(logged(upkeep, settings.logging, place))?;
    }
    Ok(upkeeps)
}

/// The log of the services of a file, which is told of none where the file has none. The error is want of memory.
pub(crate) fn log_of<'a, R: Wait + LogLines>(
    rt: &'a R,
    alloc: Global,
    settings: &Settings,
) -> Result<ServiceLog<'a, R, R>, AllocError> {
    let mut names = Vec::new(alloc);
    if let Logging::Changes = settings.logging {
        for service in settings.services.iter() {
            names.push(String::from_str(alloc, &service.name)?)?;
        }
    }
    ServiceLog::new(rt, alloc, rt, names)
}

/// The books of services, in their order. The error is want of memory.
pub(crate) fn books_of(alloc: Global, services: Vec<NamedBook>) -> Result<Vec<Book>, AllocError>
    ensures { IfOk result (λ books. books.items ≡ books_of services.items) }
{
    services
        .into_iter()
        .map(|service| service.book)
        .collect(alloc)
}
