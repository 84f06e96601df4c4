//! Streams that have nothing to give, or no room, and streams that fail.
use std::io;
use std::io::{ErrorKind, Read, Write};

/// Would have to wait at each call but every second one, where it gives or takes at most so many bytes; and fails where
/// no call is left.
#[derive(Drop)]
pub(crate) struct Slow<T> {
    pub(crate) inner: T,
    pub(crate) piece: usize,
    pub(crate) is_ready: bool,
    pub(crate) calls_left: u64,
}

impl<T> Slow<T> {
    /// Waits first, and never fails.
    pub(crate) fn new(inner: T, piece: usize) -> Slow<T> {
        Slow {
            inner,
            piece,
            is_ready: false,
            calls_left: u64::MAX,
        }
    }

    /// Counts a call, and answers how it goes before a byte is given or taken.
    fn count(&mut self) -> io::Result<()> {
        if self.calls_left == 0 {
            return Err(io::Error::from(ErrorKind::ConnectionReset));
        }
        self.calls_left -= 1;
        self.is_ready = !self.is_ready;
        if self.is_ready {
            return Err(io::Error::from(ErrorKind::WouldBlock));
        }
        Ok(())
    }
}

impl<R: Read> Read for Slow<R> {
    fn read(&mut self, buf: &mut [u8]) -> io::Result<usize> {
        self.count()?;
        let count = buf.len().min(self.piece);
        self.inner.read(&mut buf[..count])
    }
}

impl<W: Write> Write for Slow<W> {
    fn write(&mut self, buf: &[u8]) -> io::Result<usize> {
        self.count()?;
        self.inner.write(&buf[..buf.len().min(self.piece)])
    }

    fn flush(&mut self) -> io::Result<()> {
        self.inner.flush()
    }
}

/// Gives the first bytes, would have to wait once, and gives the rest.
#[derive(Drop)]
pub(crate) struct Cut<'a> {
    pub(crate) first: &'a [u8],
    pub(crate) rest: &'a [u8],
    pub(crate) has_waited: bool,
}

impl<'a> Read for Cut<'a> {
    fn read(&mut self, buf: &mut [u8]) -> io::Result<usize> {
        if !self.first.is_empty() {
            return self.first.read(buf);
        }
        if !self.has_waited {
            self.has_waited = true;
            return Err(io::Error::from(ErrorKind::WouldBlock));
        }
        self.rest.read(buf)
    }
}

/// Is interrupted so many times, and then goes on.
#[derive(Drop)]
pub(crate) struct Interrupted<T> {
    pub(crate) inner: T,
    pub(crate) times: u64,
}

impl<T> Interrupted<T> {
    fn count(&mut self) -> io::Result<()> {
        if self.times > 0 {
            self.times -= 1;
            return Err(io::Error::from(ErrorKind::Interrupted));
        }
        Ok(())
    }
}

impl<R: Read> Read for Interrupted<R> {
    fn read(&mut self, buf: &mut [u8]) -> io::Result<usize> {
        self.count()?;
        self.inner.read(buf)
    }
}

impl<W: Write> Write for Interrupted<W> {
    fn write(&mut self, buf: &[u8]) -> io::Result<usize> {
        self.count()?;
        self.inner.write(buf)
    }

    fn flush(&mut self) -> io::Result<()> {
        self.inner.flush()
    }
}
