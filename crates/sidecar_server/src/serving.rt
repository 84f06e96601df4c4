//! The command `serve`.
ghost use Rattle.std.specs.Prelude.{◌≡◌, ◌≤◌, ◌⊎◌, ℕ, List, [], true, false, None, IfOk, IfErr, IsSome, ⊤};
ghost use Rattle.std.specs.Io.KnownBytes.{Appends};
ghost use Rattle.refusals.specs.declared.RefusalNumber.TheVariants.{BadConfig};
ghost use Rattle.service_file.specs.Settled.{HasCounts};
ghost use Rattle.service_profile.specs.Limits.{greatest_number};
ghost use Rattle.server_output.specs.Lines.{refused_line, IsCutShort, IsRefused, IsServerCause, IsQuiet};
ghost use Rattle.sidecar_server.specs.Server.{IsAddressOf, IsFileRefused, IsServerRefusal, IsServerOutput, IsServing, IsOver, HasServedFile, ended_by, end_of};
ghost use Rattle.sidecar_server.specs.Served.{HasServedAlone, HasServedBy};

use crate::at_seats::{serve_at_desk, serve_at_slots};
use crate::notices::notify_mistake;
use crate::numbering::first_ticket;
use crate::opening::{books_of, open};
use book::Book;
use counted_io::Counted;
use http_front::Clock;
use http_pool::{Limits, ListenerFailed, serve_connections};
use refusals::RefusalNumber;
use server_output::{ServerStatus, listen, refuse, refuse_for};
use service_file::{FileMistake, Keeper, Logging, Settings, read_settings};
use service_log::LogLines;
use std::alloc::Global;
use std::fs::{File, Files};
use std::io::{ErrorKind, Read, Write};
use std::marker::Brand;
use std::net::{Net, TcpListener, TcpStream};
use std::sync::Wait;
use std::sync::ledger::Blank;
use std::thread::Threads;
use std::{io, time};

/// How a server ended, and what it leaves.
#[derive(Drop)]
pub struct ServerEnd {
    pub status: ServerStatus,
    /// Why the listener accepts no more connections, where it failed.
    pub failure: Option<ListenerFailed>,
    /// Where connections were served, the books of the services, in the order of the file; else none.
    pub books: Vec<Book>,
    /// Where many workers served them, how many entries the calls of each one's seat made; else none.
    pub counts: Vec<u64>,
}

impl ServerEnd {
    /// The end of a server that has served no connection.
    pub(crate) fn without(alloc: Global, status: ServerStatus) -> ServerEnd
        ensures { result.status ≡ status }
    {
        ServerEnd {
            status,
            failure: None,
            books: Vec::new(alloc),
            counts: Vec::new(alloc),
        }
    }

    /// The end of a server that has served connections, and what it leaves. Where its listener failed, it writes why.
    pub(crate) fn served<E: Write>(
        alloc: Global,
        books: Vec<Book>,
        counts: Vec<u64>,
        failure: Option<ListenerFailed>,
        err: &mut Counted<E>,
    ) -> ServerEnd
        ensures status { result.status ≡ ended_by failure }
        ensures failure { result.failure ≡ failure }
        ensures left { (result.books ≡ books) × (result.counts ≡ counts) }
        ensures quiet { failure ≡ None → err.new ≡ err.old }
    {
        let mut status = ServerStatus::Done;
        if let Some(failure) = failure {
            if let Ok(line) = format!(in alloc; "{failure}\n") {
                let _sent = err.send(line.as_bytes());
            }
            status = ServerStatus::ListenerFailed;
        }
        ServerEnd {
            status,
            failure,
            books,
            counts,
        }
    }
}

/// How many connections a server serves, and how many it has open at once at most.
pub(crate) fn limits_of(settings: &Settings) -> Limits
    ensures { (result.connections ≡ settings.now.connections) × (result.most_open ≡ settings.now.most_open) }
{
    Limits {
        connections: settings.connections,
        most_open: settings.most_open,
    }
}

/// Opens the services, from a number of their first tickets on, listens and serves by one worker, who has the books to
/// itself.
#[tactic(auto, using(server_output::proofs::Silence::quiet_kept))]
fn serve_alone<R, O: Write, E: Write, C: Clock>(
    rt: &R,
    alloc: Global,
    settings: Settings,
    first_ticket: u64,
    out: &mut Counted<O>,
    err: &mut Counted<E>,
    clock: &mut C,
) -> Result<ServerEnd, ServerStatus>
where
    R: Wait + time::Clock + Net<Listener = TcpListener, Stream = TcpStream>,
    requires least { 1 ≤ first_ticket }
    requires most { first_ticket ≤ greatest_number }
    ensures served { IfOk result (λ end. HasServedAlone C.ticks settings first_ticket clock.old clock.new end.books.items × (end.counts.items ≡ [])) }
    ensures unserved { IfErr result (λ status. IsServing status → ⊥) }
    ensures over { IsOver (end_of result) settings.connections }
    ensures failed { IfOk result (λ end. end.status ≡ ended_by end.failure) }
    ensures ended { IsServerOutput settings.listen (end_of result) (O.contents out.old.inner) (O.contents out.new.inner) }
    ensures quiet { IsQuiet (end_of result) (E.contents err.old.inner) (E.contents err.new.inner) }
    ensures cause { IsServerCause (end_of result) out.old.failures out.new.failures }
{
    let limits = limits_of(&settings);
    let mut books = open(alloc, settings.services, first_ticket)?;
    let listener = listen(rt, alloc, settings.listen, out, err)?;
    let ended = serve_connections(rt, alloc, &listener, limits, &mut books, clock);
    let books = books_of(alloc, books.services)?;
    let counts = Vec::new(alloc);
    Ok(ServerEnd::served(alloc, books, counts, ended.err(), err))
}

/// Whether one worker has the books to itself: there is no other, and no log is told of the services.
fn is_alone(settings: &Settings) -> bool
    ensures alone { result ≡ true → (settings.now.workers ≡ 1) × (settings.now.logging ≡ Logging.Silent) }
    ensures shared { result ≡ false → (settings.now.workers ≡ 1 → ⊥) ⊎ (settings.now.logging ≡ Logging.Changes) }
{
    match settings.logging {
        Logging::Silent => settings.workers == 1,
        Logging::Changes => false,
    }
}

/// Opens the services, from the number of their first tickets on that the settings and the clock give, listens and
/// serves, by one worker or by many, who keep the books as the settings say. With a log, one worker has a seat, too.
fn serve_settings<R, O: Write, E: Write, C: Clock + Copy + Send>(
    rt: &R,
    alloc: Global,
    settings: Settings,
    out: &mut Counted<O>,
    err: &mut Counted<E>,
    clock: &mut C,
) -> Result<ServerEnd, ServerStatus>
where
    R: Threads
        + Wait
        + time::Clock
        + Sync
        + LogLines
        + Net<Listener = TcpListener, Stream = TcpStream>,
    requires counts { HasCounts settings }
    ensures served { IfOk result (λ end. HasServedBy C.ticks settings clock.old clock.new end.books.items end.counts.items) }
    ensures unserved { IfErr result (λ status. IsServing status → ⊥) }
    ensures over { IsOver (end_of result) settings.connections }
    ensures failed { IfOk result (λ end. end.status ≡ ended_by end.failure) }
    ensures ended { IsServerOutput settings.listen (end_of result) (O.contents out.old.inner) (O.contents out.new.inner) }
    ensures quiet { IsQuiet (end_of result) (E.contents err.old.inner) (E.contents err.new.inner) }
    ensures cause { IsServerCause (end_of result) out.old.failures out.new.failures }
{
    let first = first_ticket(settings.tickets, clock);
    if is_alone(&settings) {
        return serve_alone(rt, alloc, settings, first, out, err, clock);
    }
    match settings.keeper {
        Keeper::Lock => serve_at_desk::<Brand, Brand, R, O, E, C>(
            rt,
            alloc,
            Blank::new(193),
            Blank::new(193),
            settings,
            first,
            out,
            err,
            *clock,
        ),
        Keeper::Slot => serve_at_slots(rt, alloc, settings, first, out, err, *clock),
    }
}

/// Prints that a file's text can't be used, and then what is wrong with it on `err`.
#[tactic(auto, using(server_output::proofs::Silence::quiet_kept))]
fn refuse_text<O: Write, E: Write>(
    alloc: Global,
    text: &[u8],
    mistake: FileMistake,
    out: &mut Counted<O>,
    err: &mut Counted<E>,
) -> ServerStatus
    ensures refused { IsRefused result BadConfig (O.contents out.old.inner) (O.contents out.new.inner) }
    ensures quiet { IsQuiet result (E.contents err.old.inner) (E.contents err.new.inner) }
    ensures cause { IsServerCause result out.old.failures out.new.failures }
{
    let status = refuse(alloc, RefusalNumber::BadConfig, out);
    if let ServerStatus::Refused(_) = status {
        notify_mistake(alloc, text, mistake, err);
    }
    status
}

/// Serves as the text of a file says, which `service_file::read_settings` reads: it opens the services, listens,
/// prints the line `listening ADDRESS`, which it flushes, and serves connections side by side, by one worker, or by as
/// many as the file has, each with a copy of the clock and a thread of its own. Where the file numbers tickets by the
/// clock, that is read once before the services open. Where the text can't be used or the address can't be bound it prints the refusal as a line, and a line on `err` that says why, for
/// people. There is also a line on `err` where the system runs fewer workers at once than the file says, and where the
/// listener accepts no more connections.
#[tactic(auto, using(server_output::proofs::Silence::quiet_kept))]
pub fn serve_file<R, O: Write, E: Write, C: Clock + Copy + Send>(
    rt: &R,
    alloc: Global,
    text: &[u8],
    out: &mut Counted<O>,
    err: &mut Counted<E>,
    clock: &mut C,
) -> ServerEnd
where
    R: Threads
        + Wait
        + time::Clock
        + Sync
        + LogLines
        + Net<Listener = TcpListener, Stream = TcpStream>,
    // Where it is done, the file's services opened, the line of its address was printed, and connections were served from
    // there on, by as many workers as the file says. The same holds where the listener accepts no more. The books that come
    // back are those that were served. By one worker they stand where its connections left them. By many, a caller can
    // rest on this: each has a legal and sound history of one of the file's services, with its configuration and its
    // first program, after some cuts. With locks, entries and cuts are just those that the workers' seats count, so
    // that none is missing but what rolls handed out, and none was made that no worker's call made. With slots, the
    // books stand in the order of the services, and every answer of every worker was given within the histories of
    // these books. It is done only where the file says after how many connections. That a connection was served at
    // all no clause can say.
    ensures done { IsServing result.status → HasServedFile C.ticks text.now result.status clock.old clock.new (O.contents out.old.inner) (O.contents out.new.inner) result.books.items result.counts.items }
    // Where it ends since the listener accepts no more, it says by which failure, which the event loop alone can make.
    ensures failed { result.status ≡ ServerStatus.ListenerFailed → IsSome result.failure }
    // Where it is refused, the refusal was printed: the text can't be used, or it can and the address can't be bound.
    ensures refused { (number : RefusalNumber) → result.status ≡ ServerStatus.Refused number → IsFileRefused text.now number × Appends (O.contents out.old.inner) (O.contents out.new.inner) (refused_line number) }
    // Where a write failed, all that was added on `out` is a beginning of one line, and not all of it: of the listening
    // line of the file's address, or of the line of a refusal of this text. Where it couldn't be flushed, it is the whole
    // of such a line. Where memory ran out, nothing was added, or the whole listening line.
    ensures part { IsCutShort (IsAddressOf text.now) (IsFileRefused text.now) result.status (O.contents out.old.inner) (O.contents out.new.inner) }
    // On `err` stands at most the line on too few workers, but where a refusal was printed or the listener failed. The
    // lines of a log, where the file has one, are written by `rt`, and no part of it.
    ensures quiet { IsQuiet result.status (E.contents err.old.inner) (E.contents err.new.inner) }
    // A failed write and a failed flush are answered where that count went up by one, and in no other case.
    ensures cause { IsServerCause result.status out.old.failures out.new.failures }
{
    match read_settings(alloc, text) {
        Ok(Ok(settings)) => match serve_settings(rt, alloc, settings, out, err, clock) {
            Ok(end) => end,
            Err(status) => ServerEnd::without(alloc, status),
        },
        Ok(Err(mistake)) => {
            ServerEnd::without(alloc, refuse_text(alloc, text, mistake, out, err))
        }
        Err(_) => ServerEnd::without(alloc, ServerStatus::OutOfMemory),
    }
}

/// The bytes of a file.
fn read<R: Files>(rt: &R, alloc: Global, path: &str) -> io::Result<Vec<u8>> {
    let mut file = File::open(rt, path)?;
    let mut text = Vec::new(alloc);
    file.read_to_end(&mut text)?;
    Ok(text)
}

/// Serves as the file at a path says. One that can't be read is refused as one that can't be used.
#[tactic(auto, using(server_output::proofs::Silence::quiet_kept))]
pub fn serve_path<R, O: Write, E: Write, C: Clock + Copy + Send>(
    rt: &R,
    alloc: Global,
    path: &str,
    out: &mut Counted<O>,
    err: &mut Counted<E>,
    clock: &mut C,
) -> ServerEnd
where
    R: Threads
        + Wait
        + time::Clock
        + Sync
        + Files
        + LogLines
        + Net<Listener = TcpListener, Stream = TcpStream>,
    // Where it is done, it served as some text says, in the way of `serve_file`: no clause knows a file's text.
    ensures done { IsServing result.status → (text : List ℕ) × HasServedFile C.ticks text result.status clock.old clock.new (O.contents out.old.inner) (O.contents out.new.inner) result.books.items result.counts.items }
    // Where it ends since the listener accepts no more, it says by which failure, which the event loop alone can make.
    ensures failed { result.status ≡ ServerStatus.ListenerFailed → IsSome result.failure }
    // Where it is refused, the refusal was printed: of the file, or of its address, and no other.
    ensures refused { (number : RefusalNumber) → result.status ≡ ServerStatus.Refused number → IsServerRefusal number × Appends (O.contents out.old.inner) (O.contents out.new.inner) (refused_line number) }
    // Where a write failed, all that was added on `out` is a beginning of one line, and not all of it: of the listening
    // line of some address, or of the line of one of these refusals. Where it couldn't be flushed, it is the whole of
    // such a line. Where memory ran out, nothing was added, or the whole listening line.
    ensures part { IsCutShort (λ _. ⊤) IsServerRefusal result.status (O.contents out.old.inner) (O.contents out.new.inner) }
    // On `err` stands at most the line on too few workers, but where a refusal was printed or the listener failed. The
    // lines of a log, where the file has one, are written by `rt`, and no part of it.
    ensures quiet { IsQuiet result.status (E.contents err.old.inner) (E.contents err.new.inner) }
    // A failed write and a failed flush are answered where that count went up by one, and in no other case.
    ensures cause { IsServerCause result.status out.old.failures out.new.failures }
{
    match read(rt, alloc, path) {
        Ok(text) => serve_file(rt, alloc, &text, out, err, clock),
        Err(error) if error.kind() == ErrorKind::OutOfMemory => {
            ServerEnd::without(alloc, ServerStatus::OutOfMemory)
        }
        Err(error) => {
            let number = RefusalNumber::BadConfig;
            ServerEnd::without(alloc, refuse_for(alloc, number, path, &error, out, err))
        }
    }
}
