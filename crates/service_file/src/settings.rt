//! The settings that the file gives: the address, and services whose programs are verified.
ghost use Rattle.std.specs.Prelude.{◌≡◌, map, ◌∷◌, [], option_map, ◌⊎◌, IfOk, IfErr};
ghost use Rattle.std.specs.Result.{result_ok};
ghost use Rattle.verifier.specs.DefaultClassifier.{default_classifier_bytes};
ghost use Rattle.verifier.specs.Verifying.{IsVerification, IsRefused, fault_of, out_of_memory};
ghost use Rattle.service_file.specs.Parts.{service_data, file_data};
ghost use Rattle.service_file.specs.Settled.{bytes_of, IsService, AreServices, HasRefusal, AreSettings, CannotSettle, IsRead, HasCounts};

use crate::file::{FilePart, file_in};
use crate::keepers::Keeper;
use crate::logging::Logging;
use crate::mistakes::{FileMistake, Parsed, ServiceMistake};
use crate::numbering::Tickets;
use crate::services::ServicePart;
use book::Config;
use bpf_profile::Layout;
use refusals::RefusalNumber;
use service::{Log, Upkeep};
use std::alloc::{AllocError, Global};
use std::net::SocketAddr;
use verifier::{Refusal, Verified, default_classifier, verify};

/// A service that is ready to open.
#[derive(Drop)]
pub struct ServiceSettings {
    /// 1 to 64 small letters, digits, hyphens and underscores.
    pub name: String,
    pub config: Config,
    /// Its first program, verified on records of the layout that it is for.
    pub program: Verified,
    /// What it does for its own upkeep. No log is told of it: by which number a log knows it, whoever opens it says.
    pub upkeep: Upkeep,
}

/// What a server needs to know.
#[derive(Drop)]
pub struct Settings {
    /// The address to listen on.
    pub listen: SocketAddr,
    /// How many threads serve connections, 1 to 64.
    pub workers: u64,
    /// How the books are kept between the workers' calls.
    pub keeper: Keeper,
    /// After how many connections serving ends; 0 for never.
    pub connections: u64,
    /// How many connections are open at once at most, 1 to 65,536.
    pub most_open: u64,
    /// From which number on the tickets of each service are numbered.
    pub tickets: Tickets,
    /// What is told of the services on standard error while they are served.
    pub logging: Logging,
    /// 1 to 64 services, no two of one name.
    pub services: Vec<ServiceSettings>,
}

/// The default classifier, verified on records of this layout.
fn default_program(alloc: Global, layout: Layout) -> Result<Verified, Refusal>
    ensures verified { IfOk result (IsVerification default_classifier_bytes) }
    ensures layout { IfOk result (λ program. program.layout ≡ layout) }
    ensures refused { IfErr result (λ e. (e ≡ out_of_memory) ⊎ IsRefused layout default_classifier_bytes (fault_of e)) }
{
    let program = default_classifier(alloc)?;
    match layout {
        Layout::One => Ok(program),
        Layout::Two => verify(alloc, program.bytes(), Layout::Two),
    }
}

/// The program of these bytes, or the default classifier, verified on records of this layout.
fn verified(alloc: Global, bytes: &Option<Vec<u8>>, layout: Layout) -> Result<Verified, Refusal>
    ensures verified { IfOk result (IsVerification (bytes_of (option_map (λ b. b.items) bytes.now))) }
    ensures layout { IfOk result (λ program. program.layout ≡ layout) }
    ensures refused { IfErr result (λ e. (e ≡ out_of_memory) ⊎ IsRefused layout (bytes_of (option_map (λ b. b.items) bytes.now)) (fault_of e)) }
{
    match bytes {
        Some(bytes) => verify(alloc, bytes, layout),
        None => default_program(alloc, layout),
    }
}

/// The same; the outer error is want of memory.
fn program(alloc: Global, bytes: &Option<Vec<u8>>, layout: Layout) -> Parsed<Verified, Refusal>
    ensures verified { IfOk result (λ found. IfOk found (IsVerification (bytes_of (option_map (λ b. b.items) bytes.now)))) }
    ensures layout { IfOk result (λ found. IfOk found (λ program. program.layout ≡ layout)) }
    ensures refused { IfOk result (λ found. IfErr found (λ refusal. IsRefused layout (bytes_of (option_map (λ b. b.items) bytes.now)) (fault_of refusal))) }
{
    match verified(alloc, bytes, layout) {
        Ok(program) => Ok(Ok(program)),
        Err(refusal) => match refusal.number {
            RefusalNumber::ProgramOutOfMemory => Err(AllocError),
            _ => Ok(Err(refusal)),
        },
    }
}

/// The settings of a service, or how its program is refused. The outer error is want of memory.
fn service(alloc: Global, part: ServicePart) -> Parsed<ServiceSettings, Refusal>
    ensures settled { IfOk result (λ found. IfOk found (λ service. IsService service (service_data part))) }
    ensures refused { IfOk result (λ found. IfErr found (λ refusal. HasRefusal (service_data part ∷ []))) }
{
    let program = match program(alloc, &part.program, part.layout)? {
        Ok(program) => program,
        Err(refusal) => return Ok(Err(refusal)),
    };
    Ok(Ok(ServiceSettings {
        name: part.name,
        config: part.config,
        program,
        upkeep: Upkeep {
            journal: part.journal,
            max_ticket_age: part.max_ticket_age,
            log: Log::Silent,
        },
    }))
}

/// The settings of services, or the first program that is refused. The outer error is want of memory.
fn services(alloc: Global, parts: Vec<ServicePart>) -> Parsed<Vec<ServiceSettings>>
    ensures settled { IfOk result (λ found. IfOk found (λ services. AreServices services.items (map service_data parts.items))) }
    ensures refused { IfOk result (λ found. IfErr found (λ mistake. HasRefusal (map service_data parts.items))) }
{
    let mut services = Vec::new(alloc);
    for part in parts {
        match service(alloc, part)? {
            Ok(service) => services.push(service)?,
            Err(refusal) => {
                let mistake = ServiceMistake::Refused(refusal);
                return Ok(Err(FileMistake::Service(services.len(), mistake)));
            }
        }
    }
    Ok(Ok(services))
}

/// The settings of what the file has, or what is wrong with it. The outer error is want of memory.
fn settled(alloc: Global, part: FilePart) -> Parsed<Settings>
    ensures settled { IfOk result (λ found. IfOk found (λ settings. AreSettings settings (file_data part))) }
    ensures refused { IfOk result (λ found. IfErr found (λ mistake. CannotSettle (file_data part))) }
{
    let Ok(listen) = SocketAddr::parse_ascii(part.listen.as_bytes()) else {
        return Ok(Err(FileMistake::Listen));
    };
    let services = match services(alloc, part.services)? {
        Ok(services) => services,
        Err(mistake) => return Ok(Err(mistake)),
    };
    Ok(Ok(Settings {
        listen,
        workers: part.workers,
        keeper: part.keeper,
        connections: part.connections,
        most_open: part.most_open,
        tickets: part.tickets,
        logging: part.logging,
        services,
    }))
}

/// The settings that a file's text gives.
///
/// The text is a JSON object: `listen` is an IP address with its port, as text; `workers`, 1 to 64; `keeper`, `lock` or
/// `slot`, the lock where it is missing; `connections`, below 2^64, after how many connections serving ends, or 0 for never; `open`, 1 to 65,536,
/// how many connections are open at once at most, 1,024 where it is missing; `tickets`, `from 1` or `by the clock`, from
/// which number on the tickets of each service are numbered, from 1 where it is missing; `log`, `silent` or `changes`, what is
/// told of the services on standard error, nothing where it is missing; and `services`, an
/// array of 1 to 64 objects with `name` (1 to 64 small letters, digits, hyphens and underscores, each name
/// once), `config` (as `requests::config` reads it; the defaults where it is missing), `program`
/// (hexadecimal, in which blanks don't count; the default classifier where it is missing), `layout` (the
/// layout of records that the program is verified for, 1 or 2; layout 1 where it is missing), `journal` (`keep` or
/// `last`, what becomes of a full journal; `keep` where it is missing) and `maxTicketAge` (below 2^64, how old tickets may
/// get, in milliseconds, or 0 for any age; 0 where it is missing). The inner error is what is wrong with another
/// text, which is the refusal `BadConfig`; the outer one is want of memory.
pub fn read_settings(
    alloc: Global,
    text: &[u8],
) -> Result<Result<Settings, FileMistake>, AllocError>
    // The settings are those of the file that the text is. A mistake comes only where the text is no such file, its
    // address is none, or a program in it is refused.
    ensures read { IfOk result (λ found. IsRead text.now (result_ok found)) }
    // There are 1 to 64 workers, and 1 to 64 services.
    ensures counts { IfOk result (λ found. IfOk found HasCounts) }
{
    match file_in(alloc, text)? {
        Ok(part) => settled(alloc, part),
        Err(mistake) => Ok(Err(mistake)),
    }
}
