//! What is wrong with a file that can't be used.
use requests::ConfigMistake;
use std::alloc::AllocError;
use verifier::Refusal;

/// What is read, or what is wrong with it. The outer error is want of memory.
pub(crate) type Parsed<T, M = FileMistake> = Result<Result<T, M>, AllocError>;

/// What is wrong with the file, the first of what is looked for: the keys, their values in the order below, and then
/// whether the address is one, and each program is accepted.
#[derive(Clone, Copy)]
pub enum FileMistake {
    /// The text is no JSON.
    NoJson,
    /// The JSON is no object, or has a key that no file has.
    Keys,
    /// `listen` is missing, or no address.
    Listen,
    /// `workers` is missing, or not 1 to 64.
    Workers,
    /// `keeper` is no keeper's name.
    Keeper,
    /// `connections` is missing, or no number.
    Connections,
    /// `open` isn't 1 to 65,536.
    Open,
    /// `tickets` is neither `from 1` nor `by the clock`.
    Tickets,
    /// `log` is neither `silent` nor `changes`.
    Log,
    /// `services` is missing, or no array of 1 to 64 services.
    Services,
    /// What is wrong with the service of this number, from 0 on.
    Service(usize, ServiceMistake),
}

/// What is wrong with a service.
#[derive(Clone, Copy)]
pub enum ServiceMistake {
    /// It is no object, or has a key that no service has.
    Keys,
    /// `name` is missing, or no name.
    Name,
    /// A service before it has its name.
    NameTaken,
    /// What is wrong with `config`.
    Config(ConfigMistake),
    /// `layout` is neither 1 nor 2.
    Layout,
    /// `journal` is neither `keep` nor `last`.
    Journal,
    /// `maxTicketAge` is no whole number below 2^64.
    MaxTicketAge,
    /// `program` is no hexadecimal text.
    NoProgram,
    /// `program` isn't accepted.
    Refused(Refusal),
}
