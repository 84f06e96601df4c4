//! Listening on an address.
ghost use Rattle.std.specs.Prelude.{◌≡◌, IfErr, OnOk};
ghost use Rattle.refusals.specs.declared.RefusalNumber.TheVariants.{Listen};
ghost use Rattle.server_output.specs.Lines.{IsAddressFor, IsListeningAt, IsUnheard, IsRefused, IsQuiet, IsServerCause, status_of};

use crate::lines::{print, refuse, refuse_for};
use crate::status::ServerStatus;
use counted_io::Counted;
use mio::net;
use refusals::RefusalNumber;
use std::alloc::Global;
use std::io;
use std::io::Write;
use std::net::{Net, SocketAddr, TcpListener, TcpStream};

/// Listens on an address, where as many connections may wait to be accepted as the system allows. Answers the port that
/// is bound, which the system chose where the address has port 0.
fn bound<R>(rt: &R, address: SocketAddr) -> io::Result<(TcpListener, u16)>
where
    R: Net<Listener = TcpListener, Stream = TcpStream>,
{
    let listener = TcpListener::from(net::TcpListener::bind(rt, address)?);
    let port = listener.local_addr()?.port();
    Ok((listener, port))
}

/// The address to print: the one that was to be bound, and in place of a port of 0 the one that is bound.
fn with_bound_port(address: SocketAddr, port: u16) -> SocketAddr
    ensures { IsAddressFor address result }
{
    let mut printed = address;
    if address.port() == 0 {
        printed.set_port(port);
    }
    printed
}

/// Prints that an address can't be bound, and then why on `err`.
#[tactic(auto, using(crate::proofs::Silence::quiet_kept))]
fn refuse_address<O: Write, E: Write>(
    alloc: Global,
    address: SocketAddr,
    error: &io::Error,
    out: &mut Counted<O>,
    err: &mut Counted<E>,
) -> ServerStatus
    ensures refused { IsRefused result Listen (O.contents out.old.inner) (O.contents out.new.inner) }
    ensures quiet { IsQuiet result (E.contents err.old.inner) (E.contents err.new.inner) }
    ensures cause { IsServerCause result out.old.failures out.new.failures }
{
    match format!(in alloc; "{address}") {
        Ok(name) => refuse_for(alloc, RefusalNumber::Listen, &name, error, out, err),
        Err(_) => refuse(alloc, RefusalNumber::Listen, out),
    }
}

/// Listens on an address, and prints the line `listening ADDRESS`, which it flushes. Where the address can't be bound
/// it prints the refusal `Listen`, and why on `err`. The error is how the server ends then.
#[tactic(auto, using(crate::proofs::Silence::quiet_kept))]
pub fn listen<R, O: Write, E: Write>(
    rt: &R,
    alloc: Global,
    address: SocketAddr,
    out: &mut Counted<O>,
    err: &mut Counted<E>,
) -> Result<TcpListener, ServerStatus>
where
    R: Net<Listener = TcpListener, Stream = TcpStream>,
    // Where it listens, the line of the address that was given was printed, with the port that the system chose where
    // that has port 0; and nothing on `err`.
    ensures listening { OnOk result (IsListeningAt address (O.contents out.old.inner) (O.contents out.new.inner)) }
    ensures heard { OnOk result (err.new ≡ err.old) }
    // Where it doesn't, the refusal of the address was printed, or a part of its line or of the other one, or nothing.
    ensures unheard { IfErr result (λ status. IsUnheard address status (O.contents out.old.inner) (O.contents out.new.inner)) }
    ensures quiet { IsQuiet (status_of result) (E.contents err.old.inner) (E.contents err.new.inner) }
    // A failed write and a failed flush are answered where that count went up by one, and in no other case.
    ensures cause { IsServerCause (status_of result) out.old.failures out.new.failures }
{
    let (listener, port) = match bound(rt, address) {
        Ok(bound) => bound,
        Err(error) => return Err(refuse_address(alloc, address, &error, out, err)),
    };
    let address = with_bound_port(address, port);
    let Ok(line) = format!(in alloc; "listening {address}\n") else {
        return Err(ServerStatus::OutOfMemory);
    };
    print(&line, out)?;
    Ok(listener)
}
