//! The two directions of one connection.
ghost use Rattle.std.specs.Prelude.{◌≡◌, ℕ, List, [], ◌∷◌, Option, None, Result};
ghost use Rattle.std.specs.declared.io.Error.{Error};
ghost use Rattle.std.specs.Io.{ReadsAtMost, WritesAtMost};
ghost use Rattle.std.specs.Io.KnownBytes.{ReadConsumes, WriteAppends};
ghost use Rattle.counted_io.specs.Calls.{Hears};

use std::io;
use std::io::{Read, Write};
use std::net::{Shutdown, TcpStream};
use std::os::unix::net::UnixStream;

/// The two directions of one connection. A read leaves what was written as it is, and a write leaves what is to be read.
///
/// Whoever is generic over a stream knows of its bytes, and of the answers to its calls, only what these clauses say, and can
/// make no other stream of it: so what is proved there of them is proved of this very stream.
pub trait Stream {
    // The bytes that reads will give from here on, where they are known.
    ghost remaining: { Self → Option (List ℕ) } = { λ _. None };

    // The bytes that were written, where they are known.
    ghost contents: { Self → Option (List ℕ) } = { λ _. None };

    // What each read answered, in order, where that is known.
    ghost read_answers: { Self → Option (List (Result ℕ Error)) } = { λ _. None };

    // What each write answered, in order, where that is known.
    ghost write_answers: { Self → Option (List (Result ℕ Error)) } = { λ _. None };

    /// Reads once, as `Read::read` does.
    fn receive(&mut self, buf: &mut [u8]) -> io::Result<usize>
        ensures bound { ReadsAtMost result buf.new }
        ensures bytes { ReadConsumes (remaining self.old) (remaining self.new) result buf.new }
        ensures apart { contents self.new ≡ contents self.old }
        ensures heard { Hears (read_answers self.old) (read_answers self.new) (result ∷ []) }
        ensures unwritten { write_answers self.new ≡ write_answers self.old };

    /// Writes once, as `Write::write` does.
    fn send(&mut self, buf: &[u8]) -> io::Result<usize>
        ensures bound { WritesAtMost result buf.now }
        ensures bytes { WriteAppends (contents self.old) (contents self.new) result buf.now }
        ensures apart { remaining self.new ≡ remaining self.old }
        ensures heard { Hears (write_answers self.old) (write_answers self.new) (result ∷ []) }
        ensures unread { read_answers self.new ≡ read_answers self.old };

    /// Tells the other side that no more is sent.
    fn end_sending(&mut self) -> io::Result<()>
        ensures read { remaining self.new ≡ remaining self.old }
        ensures written { contents self.new ≡ contents self.old }
        ensures unheard { (read_answers self.new ≡ read_answers self.old) × (write_answers self.new ≡ write_answers self.old) };
}

impl Stream for TcpStream {
    fn receive(&mut self, buf: &mut [u8]) -> io::Result<usize> {
        self.read(buf)
    }

    fn send(&mut self, buf: &[u8]) -> io::Result<usize> {
        self.write(buf)
    }

    fn end_sending(&mut self) -> io::Result<()> {
        self.shutdown(Shutdown::Write)
    }
}

impl Stream for UnixStream {
    fn receive(&mut self, buf: &mut [u8]) -> io::Result<usize> {
        self.read(buf)
    }

    fn send(&mut self, buf: &[u8]) -> io::Result<usize> {
        self.write(buf)
    }

    fn end_sending(&mut self) -> io::Result<()> {
        self.shutdown(Shutdown::Write)
    }
}

/// A reader and a writer as one stream, as a test has them.
#[derive(Drop)]
pub struct Halves<R, W> {
    pub reader: R,
    pub writer: W,
}

impl<R: Read, W: Write> Stream for Halves<R, W> {
    ghost remaining = { λ halves. R.remaining halves.reader };

    ghost contents = { λ halves. W.contents halves.writer };

    fn receive(&mut self, buf: &mut [u8]) -> io::Result<usize> {
        self.reader.read(buf)
    }

    fn send(&mut self, buf: &[u8]) -> io::Result<usize> {
        self.writer.write(buf)
    }

    fn end_sending(&mut self) -> io::Result<()> {
        Ok(())
    }
}
