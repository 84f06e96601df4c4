//! Where connections come from.
ghost use Rattle.std.specs.Prelude.{IfOk, ⊤};

use counted_io::Stream;
use mio::unix::SourceFd;
use mio::{Interest, Poll, Token};
use std::io;
use std::net::{TcpListener, TcpStream};
use std::os::fd::AsRawFd;
use std::os::unix::net::{UnixListener, UnixStream};

/// A stream that a listener accepts, and that can be polled.
pub trait Accepted: Stream {
    // Whether it stands as it was accepted.
    ghost is_new: { Self → Type 0 } = { λ _. ⊤ };

    /// Makes it ready to be polled under a key.
    fn prepare(&self, poll: &Poll, key: usize) -> io::Result<()>;
}

/// Where connections come from.
pub trait Listener<T: Accepted> {
    /// Has the listener polled, which then waits no more where nobody comes.
    fn watch(&self, poll: &Poll, token: Token) -> io::Result<()>;

    /// Has the next poll say whether a connection waits, also where an earlier one has said so.
    fn ask(&self, poll: &Poll, token: Token) -> io::Result<()>;

    /// The next connection.
    fn accept(&self) -> io::Result<T>
        ensures { IfOk result T.is_new };
}

/// Has a stream polled under a key.
fn register(poll: &Poll, fd: i32, key: usize) -> io::Result<()> {
    poll.registry().register(
        &mut SourceFd(&fd),
        Token(key),
        Interest::READABLE | Interest::WRITABLE,
    )
}

/// Has a listener polled.
fn watch(poll: &Poll, fd: i32, token: Token) -> io::Result<()> {
    poll.registry()
        .register(&mut SourceFd(&fd), token, Interest::READABLE)
}

/// Has a listener that is polled polled anew, which says once more what is ready.
fn ask(poll: &Poll, fd: i32, token: Token) -> io::Result<()> {
    poll.registry()
        .reregister(&mut SourceFd(&fd), token, Interest::READABLE)
}

impl Accepted for TcpStream {
    /// Answers are sent at once (TCP_NODELAY).
    fn prepare(&self, poll: &Poll, key: usize) -> io::Result<()> {
        self.set_nonblocking(true)?;
        self.set_nodelay(true)?;
        register(poll, self.as_raw_fd(), key)
    }
}

impl Listener<TcpStream> for TcpListener {
    fn watch(&self, poll: &Poll, token: Token) -> io::Result<()> {
        self.set_nonblocking(true)?;
        watch(poll, self.as_raw_fd(), token)
    }

    fn ask(&self, poll: &Poll, token: Token) -> io::Result<()> {
        ask(poll, self.as_raw_fd(), token)
    }

    fn accept(&self) -> io::Result<TcpStream> {
        let (stream, _) = self.accept()?;
        Ok(stream)
    }
}

impl Accepted for UnixStream {
    fn prepare(&self, poll: &Poll, key: usize) -> io::Result<()> {
        self.set_nonblocking(true)?;
        register(poll, self.as_raw_fd(), key)
    }
}

impl Listener<UnixStream> for UnixListener {
    fn watch(&self, poll: &Poll, token: Token) -> io::Result<()> {
        self.set_nonblocking(true)?;
        watch(poll, self.as_raw_fd(), token)
    }

    fn ask(&self, poll: &Poll, token: Token) -> io::Result<()> {
        ask(poll, self.as_raw_fd(), token)
    }

    fn accept(&self) -> io::Result<UnixStream> {
        let (stream, _) = self.accept()?;
        Ok(stream)
    }
}
