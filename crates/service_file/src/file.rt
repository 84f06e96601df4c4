//! The whole file, as the JSON gives it.
ghost use Rattle.std.specs.Prelude.{◌≡◌, IfOk, option_map};
ghost use Rattle.std.specs.Result.{result_ok};
ghost use Rattle.serde_json.specs.View.{view};
ghost use Rattle.service_file.specs.Files.{file_of, file_in};
ghost use Rattle.service_file.specs.Parts.{file_data};

use crate::keepers::{Keeper, keeper_at};
use crate::limits::{open_at, workers_at};
use crate::logging::{Logging, logging_at};
use crate::mistakes::{FileMistake, Parsed};
use crate::numbering::{Tickets, tickets_at};
use crate::services::{ServicePart, services_at};
use requests::{has_known_keys, number_at, text_at};
use serde_json::Value;
use std::alloc::{AllocError, Global};
use texts::json;

/// The keys that the file may have.
pub const FILE_KEYS: &[&str] = &[
    "listen",
    "workers",
    "keeper",
    "connections",
    "open",
    "tickets",
    "log",
    "services",
];

/// What the file has.
#[derive(Drop)]
pub(crate) struct FilePart {
    /// The text of the address.
    pub listen: String,
    pub workers: u64,
    pub keeper: Keeper,
    pub connections: u64,
    pub most_open: u64,
    pub tickets: Tickets,
    pub logging: Logging,
    pub services: Vec<ServicePart>,
}

/// What a JSON value has, or what is wrong with it. The outer error is want of memory.
#[tactic(auto, unfolding(crate::specs::Files::file_of))]
fn file(alloc: Global, value: &Value) -> Parsed<FilePart>
    ensures { IfOk result (λ part. option_map file_data (result_ok part) ≡ file_of (view value.now)) }
{
    if !has_known_keys(FILE_KEYS, value) {
        return Ok(Err(FileMistake::Keys));
    }
    let Some(listen) = text_at(value, "listen") else {
        return Ok(Err(FileMistake::Listen));
    };
    let Some(workers) = workers_at(value) else {
        return Ok(Err(FileMistake::Workers));
    };
    let Some(keeper) = keeper_at(value) else {
        return Ok(Err(FileMistake::Keeper));
    };
    let Some(connections) = number_at(value, "connections") else {
        return Ok(Err(FileMistake::Connections));
    };
    let Some(most_open) = open_at(value) else {
        return Ok(Err(FileMistake::Open));
    };
    let Some(tickets) = tickets_at(value) else {
        return Ok(Err(FileMistake::Tickets));
    };
    let Some(logging) = logging_at(value) else {
        return Ok(Err(FileMistake::Log));
    };
    let services = match services_at(alloc, value)? {
        Ok(services) => services,
        Err(mistake) => return Ok(Err(mistake)),
    };
    let listen = String::from_str(alloc, listen)?;
    Ok(Ok(FilePart {
        listen,
        workers,
        keeper,
        connections,
        most_open,
        tickets,
        logging,
        services,
    }))
}

/// What a text has, or what is wrong with it. The outer error is want of memory.
pub(crate) fn file_in(alloc: Global, text: &[u8]) -> Parsed<FilePart>
    ensures { IfOk result (λ part. option_map file_data (result_ok part) ≡ file_in text.now) }
{
    match json(alloc, text)? {
        Some(value) => file(alloc, &value),
        None => Ok(Err(FileMistake::NoJson)),
    }
}
