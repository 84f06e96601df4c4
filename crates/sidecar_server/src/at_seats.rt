//! Serving by many workers, each with a seat of one desk, which keeps the books behind locks or in slots.
ghost use Rattle.std.specs.Prelude.{◌≡◌, ◌≤◌, map, IfOk, IfErr};
ghost use Rattle.std.specs.List.{AllByRecursion};
ghost use Rattle.service_file.specs.Settled.{HasCounts};
ghost use Rattle.service_profile.specs.Limits.{greatest_number};
ghost use Rattle.server_output.specs.Lines.{IsServerCause, IsQuiet};
ghost use Rattle.http_seats.specs.Seated.{seated};
ghost use Rattle.sidecar_server.specs.Seats.{workers_of, seats_with, HasServedAt};
ghost use Rattle.sidecar_server.specs.Served.{services_of, HasServedAtDesk};
ghost use Rattle.sidecar_server.specs.Server.{IsServerOutput, IsServing, IsOver, ended_by, end_of};
ghost use Rattle.sidecar_server.specs.Slotted.{HasServedAtSlots};

use crate::opening::{log_of, opened_by, upkeeps_of};
use crate::pooling::serve_by_pool;
use crate::serving::{ServerEnd, limits_of};
use counted_io::Counted;
use desk::Offered;
use http_front::Clock;
use http_pool::{Limits, Worker};
use http_seats::{DeskSeat, SeatedAnswerer};
use server_output::ServerStatus;
use service::{Gate, Upkeep};
use service_file::Settings;
use service_log::{LogLines, ServiceLog};
use std::alloc::{AllocError, Global};
use std::io::Write;
use std::net::{Net, SocketAddr, TcpListener, TcpStream};
use std::sync::Wait;
use std::sync::ledger::{Blank, Ledger};
use std::thread::Threads;
use std::time;

/// Workers, each with a seat and a clock of its own.
fn workers<'a, D, S: DeskSeat<D>, G: Gate, R: Wait, C: Clock + Copy>(
    rt: &'a R,
    alloc: Global,
    desk: &'a D,
    upkeeps: &'a [Upkeep],
    seats: Vec<S>,
    gate: &'a G,
    clock: C,
) -> Result<Vec<Worker<SeatedAnswerer<'a, D, S, G, R>, C>>, AllocError>
    requires here { AllByRecursion (S.sits_at desk.now) seats.items }
    ensures { IfOk result (λ workers. workers.items ≡ workers_of clock (map (seated desk.now upkeeps.now) seats.items)) }
{
    let mut workers = Vec::new(alloc);
    for seat in seats {
        let answerer = SeatedAnswerer::new(rt, alloc, desk, upkeeps, seat, gate);
        workers.push(Worker::new(answerer, clock))?;
    }
    Ok(workers)
}

/// The seats that workers bring back, each still one of its desk's. The error is want of memory.
fn seats_back<'a, D, S: DeskSeat<D>, G: Gate, R: Wait, C: Clock + Copy>(
    alloc: Global,
    workers: Vec<Worker<SeatedAnswerer<'a, D, S, G, R>, C>>,
) -> Result<Vec<S>, AllocError>
    ensures seats { IfOk result (λ seats. seats.items ≡ seats_with workers.entry.items) }
    ensures held { IfOk result (λ seats. AllByRecursion (λ worker. S.sits_at worker.answerer.desk worker.answerer.seat) workers.entry.items) }
{
    let mut seats = Vec::new(alloc);
    for worker in workers {
        seats.push(worker.answerer.into_seat())?;
    }
    Ok(seats)
}

/// Listens, and serves by so many workers, each with a seat of a desk that has dealt none, who share a gate. Once they have
/// ended it closes the desk.
#[tactic(auto, using(server_output::proofs::Silence::quiet_kept))]
fn serve_at<
    D: Drop + Sync,
    S: DeskSeat<D> + Send,
    G: Gate + Sync,
    R: Threads + Wait + time::Clock + Sync + Net<Listener = TcpListener, Stream = TcpStream>,
    O: Write,
    E: Write,
    C: Clock + Copy + Send,
>(
    rt: &R,
    alloc: Global,
    mut desk: D,
    upkeeps: &[Upkeep],
    gate: &G,
    address: SocketAddr,
    limits: Limits,
    count: u64,
    out: &mut Counted<O>,
    err: &mut Counted<E>,
    clock: C,
) -> Result<ServerEnd, ServerStatus>
    requires fresh { S.dealt desk ≡ 0 }
    requires some { 1 ≤ count }
    requires few { count ≤ 64 }
    ensures served { IfOk result (λ end. HasServedAt S.names_of S.asks S.deals S.closes C.ticks desk upkeeps.now count clock end.books.items end.counts.items) }
    ensures unserved { IfErr result (λ status. IsServing status → ⊥) }
    ensures over { IsOver (end_of result) limits.connections }
    ensures failed { IfOk result (λ end. end.status ≡ ended_by end.failure) }
    ensures ended { IsServerOutput address (end_of result) (O.contents out.old.inner) (O.contents out.new.inner) }
    ensures quiet { IsQuiet (end_of result) (E.contents err.old.inner) (E.contents err.new.inner) }
    ensures cause { IsServerCause (end_of result) out.old.failures out.new.failures }
{
    let seats = S::deal(alloc, &mut desk, count)?;
    let workers = workers(rt, alloc, &desk, upkeeps, seats, gate, clock)?;
    let (workers, failure) = serve_by_pool(rt, alloc, address, limits, workers, out, err)?;
    let seats = seats_back(alloc, workers)?;
    let (books, counts) = S::close(alloc, desk, seats)?;
    Ok(ServerEnd::served(alloc, books, counts, failure, err))
}

/// Opens a desk whose books lie behind locks, from a number of the first tickets on, and serves by as many workers as the settings say.
#[tactic(auto, using(server_output::proofs::Silence::quiet_kept))]
pub(crate) fn serve_at_desk<
    L: Ledger + Send + Sync,
    M: Ledger + Offered + Send + Sync,
    R: Threads
        + Wait
        + time::Clock
        + Sync
        + LogLines
        + Net<Listener = TcpListener, Stream = TcpStream>,
    O: Write,
    E: Write,
    C: Clock + Copy + Send,
>(
    rt: &R,
    alloc: Global,
    entry_parts: Blank,
    cut_parts: Blank,
    settings: Settings,
    first_ticket: u64,
    out: &mut Counted<O>,
    err: &mut Counted<E>,
    clock: C,
) -> Result<ServerEnd, ServerStatus>
    requires entries_name { entry_parts.name ≡ L.name }
    requires entries_parts { (entry_parts.parts ≡ L.parts) × (L.parts ≡ 193) }
    requires cuts_name { cut_parts.name ≡ M.name }
    requires cuts_parts { (cut_parts.parts ≡ M.parts) × (M.parts ≡ 193) }
    requires offered { M.services ≡ services_of first_ticket settings.services.items }
    requires counts { HasCounts settings }
    requires least { 1 ≤ first_ticket }
    requires most { first_ticket ≤ greatest_number }
    ensures served { IfOk result (λ end. HasServedAtDesk C.ticks settings first_ticket clock end.books.items end.counts.items) }
    ensures unserved { IfErr result (λ status. IsServing status → ⊥) }
    ensures over { IsOver (end_of result) settings.connections }
    ensures failed { IfOk result (λ end. end.status ≡ ended_by end.failure) }
    ensures ended { IsServerOutput settings.listen (end_of result) (O.contents out.old.inner) (O.contents out.new.inner) }
    ensures quiet { IsQuiet (end_of result) (E.contents err.old.inner) (E.contents err.new.inner) }
    ensures cause { IsServerCause (end_of result) out.old.failures out.new.failures }
{
    let limits = limits_of(&settings);
    let upkeeps = upkeeps_of(alloc, &settings)?;
    let log = log_of(rt, alloc, &settings)?;
    let opened = opened_by(alloc, settings.services)?;
    let desk = desk::Desk::<L, M>::open_from(alloc, entry_parts, cut_parts, opened, first_ticket)?;
    serve_at::<desk::Desk<L, M>, desk::Seat<L, M>, ServiceLog<'_, R, R>, R, O, E, C>(
        rt,
        alloc,
        desk,
        &upkeeps,
        &log,
        settings.listen,
        limits,
        settings.workers,
        out,
        err,
        clock,
    )
}

/// Opens a desk whose books lie in slots, from a number of the first tickets on, and serves by as many workers as the settings say.
#[tactic(auto, using(server_output::proofs::Silence::quiet_kept))]
pub(crate) fn serve_at_slots<
    R: Threads
        + Wait
        + time::Clock
        + Sync
        + LogLines
        + Net<Listener = TcpListener, Stream = TcpStream>,
    O: Write,
    E: Write,
    C: Clock + Copy + Send,
>(
    rt: &R,
    alloc: Global,
    settings: Settings,
    first_ticket: u64,
    out: &mut Counted<O>,
    err: &mut Counted<E>,
    clock: C,
) -> Result<ServerEnd, ServerStatus>
    requires counts { HasCounts settings }
    requires least { 1 ≤ first_ticket }
    requires most { first_ticket ≤ greatest_number }
    ensures served { IfOk result (λ end. HasServedAtSlots C.ticks settings first_ticket clock end.books.items end.counts.items) }
    ensures unserved { IfErr result (λ status. IsServing status → ⊥) }
    ensures over { IsOver (end_of result) settings.connections }
    ensures failed { IfOk result (λ end. end.status ≡ ended_by end.failure) }
    ensures ended { IsServerOutput settings.listen (end_of result) (O.contents out.old.inner) (O.contents out.new.inner) }
    ensures quiet { IsQuiet (end_of result) (E.contents err.old.inner) (E.contents err.new.inner) }
    ensures cause { IsServerCause (end_of result) out.old.failures out.new.failures }
{
    let limits = limits_of(&settings);
    let upkeeps = upkeeps_of(alloc, &settings)?;
    let log = log_of(rt, alloc, &settings)?;
    let opened = opened_by(alloc, settings.services)?;
    let desk = slot_desk::Desk::open_from(alloc, opened, first_ticket)?;
    serve_at::<slot_desk::Desk, slot_desk::Seat, ServiceLog<'_, R, R>, R, O, E, C>(
        rt,
        alloc,
        desk,
        &upkeeps,
        &log,
        settings.listen,
        limits,
        settings.workers,
        out,
        err,
        clock,
    )
}
