//! The services of the file, as the JSON gives them.
ghost use Rattle.std.specs.Prelude.{◌≡◌, map, [], Ok, Some, None, IfOk, option_map, option_and_then, codes, string_bytes, if◌then◌else◌};
ghost use Rattle.std.specs.List.{list_any};
ghost use Rattle.std.specs.Option.{is_none};
ghost use Rattle.std.specs.Result.{result_ok};
ghost use Rattle.std.specs.Str.{bytes_eq};
ghost use Rattle.serde_json.specs.Find.{get, as_array};
ghost use Rattle.serde_json.specs.View.{view, items_view};
ghost use Rattle.service_profile.specs.Configured.{default_parts};
ghost use Rattle.service_file.specs.Files.{is_named, name_at, config_at, program_at, service_of, with_service, services_after, services_of, services_at};
ghost use Rattle.service_file.specs.Parts.{service_data};

use crate::journals::journal_at;
use crate::limits::max_ticket_age_at;
use crate::mistakes::{FileMistake, Parsed, ServiceMistake};
use crate::names::{is_count, is_name};
use book::{Config, ConfigParts};
use bpf_profile::Layout;
use requests::{ConfigMistake, config, has_known_keys, layout, program, text_at};
use serde_json::Value;
use service::Journal;
use std::alloc::{AllocError, Global};

/// The keys that a service may have.
pub const SERVICE_KEYS: &[&str] = &[
    "name",
    "config",
    "program",
    "layout",
    "journal",
    "maxTicketAge",
];

/// A service as the file has it.
#[derive(Drop)]
pub(crate) struct ServicePart {
    pub name: String,
    pub config: Config,
    /// The bytes of the program, where the file has one.
    pub program: Option<Vec<u8>>,
    /// The layout that the program is for.
    pub layout: Layout,
    /// What becomes of its journal where it is full.
    pub journal: Journal,
    /// How old its tickets may get, in milliseconds; 0 for any age.
    pub max_ticket_age: u64,
}

/// The name, where a service may have it.
fn name_at(value: &Value) -> Option<&str>
    ensures { option_map (λ name. name.now) result ≡ name_at (view value.now) }
{
    let name = text_at(value, "name")?;
    if is_name(name) { Some(name) } else { None }
}

/// The defaults.
fn default_config() -> Result<Config, ConfigMistake>
    ensures { result ≡ Ok default_parts }
{
    match Config::new(ConfigParts::DEFAULT) {
        Ok(config) => Ok(config),
        Err(bad) => Err(ConfigMistake::BadValue(bad.field)),
    }
}

/// The configuration; the defaults where the key is missing.
fn config_at(value: &Value) -> Result<Config, ConfigMistake>
    ensures { result_ok result ≡ config_at (view value.now) }
{
    match value.get("config") {
        None => default_config(),
        Some(found) => config(found),
    }
}

/// The bytes of the program, if the key is there; None where they can't be used.
fn program_at(alloc: Global, value: &Value) -> Result<Option<Option<Vec<u8>>>, AllocError>
    ensures { IfOk result (λ found. option_map (λ bytes. option_map (λ b. b.items) bytes) found ≡ program_at (view value.now)) }
{
    if value.get("program").is_none() {
        return Ok(Some(None));
    }
    match program(alloc, value)? {
        Some(bytes) => Ok(Some(Some(bytes))),
        None => Ok(None),
    }
}

/// A service, or what is wrong with it. The outer error is want of memory.
#[tactic(auto, unfolding(crate::specs::Files::service_of))]
fn service(alloc: Global, value: &Value) -> Parsed<ServicePart, ServiceMistake>
    ensures { IfOk result (λ part. option_map service_data (result_ok part) ≡ service_of (view value.now)) }
{
    if !has_known_keys(SERVICE_KEYS, value) {
        return Ok(Err(ServiceMistake::Keys));
    }
    let Some(name) = name_at(value) else {
        return Ok(Err(ServiceMistake::Name));
    };
    let config = match config_at(value) {
        Ok(config) => config,
        Err(mistake) => return Ok(Err(ServiceMistake::Config(mistake))),
    };
    let Some(layout) = layout(value) else {
        return Ok(Err(ServiceMistake::Layout));
    };
    let Some(journal) = journal_at(value) else {
        return Ok(Err(ServiceMistake::Journal));
    };
    let Some(max_ticket_age) = max_ticket_age_at(value) else {
        return Ok(Err(ServiceMistake::MaxTicketAge));
    };
    let Some(program) = program_at(alloc, value)? else {
        return Ok(Err(ServiceMistake::NoProgram));
    };
    let name = String::from_str(alloc, name)?;
    Ok(Ok(ServicePart {
        name,
        config,
        program,
        layout,
        journal,
        max_ticket_age,
    }))
}

/// Whether a service of this name is among them.
fn is_there(services: &[ServicePart], name: &str) -> bool
    ensures { result ≡ list_any (λ service. bytes_eq (string_bytes service.name) name.now) services.now }
{
    services.iter().any(|service| service.name.as_str() == name)
}

/// The same, by what the definitions see of the services.
#[tactic(auto, using(crate::proofs::Named::any_of_map))]
fn has_name(services: &[ServicePart], name: &str) -> bool
    ensures { result ≡ list_any (is_named name.now) (map service_data services.now) }
{
    is_there(services, name)
}

/// Adds a service, or answers what is wrong with it. The error is want of memory.
#[tactic(auto, unfolding(crate::specs::Files::with_service))]
fn add_service(
    alloc: Global,
    services: &mut Vec<ServicePart>,
    value: &Value,
) -> Result<Option<ServiceMistake>, AllocError>
    ensures { IfOk result (λ mistake. with_service (map service_data services.old.items) (view value.now) ≡ (if is_none mistake then Some (map service_data services.new.items) else None)) }
{
    let service = match service(alloc, value)? {
        Ok(service) => service,
        Err(mistake) => return Ok(Some(mistake)),
    };
    if has_name(services, &service.name) {
        return Ok(Some(ServiceMistake::NameTaken));
    }
    services.push(service)?;
    Ok(None)
}

/// The services, or what is wrong with the first that can't be used. The outer error is want of memory.
fn services(alloc: Global, values: &[Value]) -> Parsed<Vec<ServicePart>>
    ensures { IfOk result (λ found. option_map (λ services. map service_data services.items) (result_ok found) ≡ services_after [] (items_view values.now)) }
{
    let mut services = Vec::new(alloc);
    for value in values {
        if let Some(mistake) = add_service(alloc, &mut services, value)? {
            return Ok(Err(FileMistake::Service(services.len(), mistake)));
        }
    }
    Ok(Ok(services))
}

/// The services, 1 to 64.
fn counted_services(alloc: Global, values: &[Value]) -> Parsed<Vec<ServicePart>>
    ensures { IfOk result (λ found. option_map (λ services. map service_data services.items) (result_ok found) ≡ services_of (items_view values.now)) }
{
    if !is_count(values.len() as u64) {
        return Ok(Err(FileMistake::Services));
    }
    services(alloc, values)
}

/// The array of the file's services.
fn values_at(value: &Value) -> Option<&Vec<Value>>
    ensures { option_map (λ values. items_view values.now.items) result ≡ option_and_then as_array (get (codes "services") (view value.now)) }
{
    value.get("services")?.as_array()
}

/// The services of the file, or what is wrong with them. The outer error is want of memory.
pub(crate) fn services_at(alloc: Global, value: &Value) -> Parsed<Vec<ServicePart>>
    ensures { IfOk result (λ found. option_map (λ services. map service_data services.items) (result_ok found) ≡ services_at (view value.now)) }
{
    match values_at(value) {
        Some(values) => counted_services(alloc, values),
        None => Ok(Err(FileMistake::Services)),
    }
}
