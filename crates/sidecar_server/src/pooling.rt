//! Serving by many workers, wherever the desk keeps its books.
ghost use Rattle.std.specs.Prelude.{◌≡◌, ◌≤◌, ◌<◌, None, vec_len, IfOk, IfErr};
ghost use Rattle.std.specs.List.{All};
ghost use Rattle.event_loop.specs.Numbers.{ends};
ghost use Rattle.http_pool.specs.Workers.{HaveWorked, most_workers};
ghost use Rattle.server_output.specs.Lines.{IsServerCause, IsQuiet, status_of};
ghost use Rattle.sidecar_server.specs.Server.{IsServerOutput, IsServing};

use crate::notices::notify_workers;
use counted_io::Counted;
use http_front::{Answerer, Clock};
use http_pool::{Limits, ListenerFailed, Worker, pool_within};
use server_output::{ServerStatus, listen};
use std::alloc::Global;
use std::io::Write;
use std::net::{Net, SocketAddr, TcpListener, TcpStream};
use std::sync::Wait;
use std::thread::Threads;
use std::time;

/// The first failure of the listener that one of these workers met.
fn failure_of<A, C>(workers: &[Worker<A, C>]) -> Option<ListenerFailed>
    ensures { result ≡ None → All (λ worker. worker.failure ≡ None) workers.now }
{
    workers.iter().find_map(|worker| worker.failure)
}

/// Listens on an address, and serves its connections by workers, who come back with the first failure of the listener
/// that one of them met. Where the system runs fewer workers at once, it says so first.
pub(crate) fn serve_by_pool<
    R: Threads + Wait + time::Clock + Sync + Net<Listener = TcpListener, Stream = TcpStream>,
    A: Answerer + Send + Drop,
    C: Clock + Send + Drop,
    O: Write,
    E: Write,
>(
    rt: &R,
    alloc: Global,
    address: SocketAddr,
    limits: Limits,
    workers: Vec<Worker<A, C>>,
    out: &mut Counted<O>,
    err: &mut Counted<E>,
) -> Result<(Vec<Worker<A, C>>, Option<ListenerFailed>), ServerStatus>
    requires some { 0 < vec_len workers }
    requires few { vec_len workers ≤ most_workers }
    ensures worked { IfOk result (λ back. HaveWorked A.names_of A.answers C.ticks workers.items back.0.items) }
    ensures over { IfOk result (λ back. back.1 ≡ None → ends limits.connections) }
    ensures unserved { IfErr result (λ status. IsServing status → ⊥) }
    ensures ended { IsServerOutput address (status_of result) (O.contents out.old.inner) (O.contents out.new.inner) }
    ensures quiet { IsQuiet (status_of result) (E.contents err.old.inner) (E.contents err.new.inner) }
    ensures cause { IsServerCause (status_of result) out.old.failures out.new.failures }
{
    let listener = listen(rt, alloc, address, out, err)?;
    notify_workers(rt, alloc, workers.len() as u64, err)?;
    let workers = pool_within(rt, alloc, &listener, limits, workers)?;
    let failure = failure_of(&workers);
    Ok((workers, failure))
}
