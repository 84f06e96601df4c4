//! What the tests serve: a service under the name `pay`, messages with their answers, and readers and
//! writers that fail.
ghost use Rattle.std.specs.Prelude.{◌≡◌, map};
ghost use Rattle.desk.specs.Services.{service_of};

use crate::checks::same_at;
use book::{Book, Config, ConfigParts};
use counted_io::Counted;
use desk::{Desk, Offered};
use http_front::{Books, Clock, Ended, NamedBook, serve};
use service::Upkeep;
use std::alloc::Global;
use std::io;
use std::io::{Read, Write};
use std::net::TcpStream;
use std::process::Abort;
use std::sync::Wait;
use std::sync::ledger::{Blank, Ledger};
use verifier::{Verified, default_classifier};

/// The answer to row after row is at this moment.
pub(crate) const MOMENT: u64 = 7;

/// A clock that stands at 7.
#[derive(Drop)]
pub(crate) struct Still;

impl Clock for Still {
    ghost ticks = { λ old moment new. moment ≡ 7 };

    fn now_ms(&mut self) -> u64 {
        7
    }
}

/// A clock that stands at a moment.
#[derive(Drop)]
pub(crate) struct StandsAt {
    pub(crate) moment: u64,
}

impl Clock for StandsAt {
    ghost ticks = { λ old moment new. moment ≡ old.moment };

    fn now_ms(&mut self) -> u64 {
        self.moment
    }
}

/// A service of the defaults with the default classifier.
pub(crate) fn pay(rt: &impl Abort, alloc: Global) -> Books {
    pay_with(rt, alloc, ConfigParts::DEFAULT)
}

/// A service with the default classifier, whose configuration has these parts.
pub(crate) fn pay_with(rt: &impl Abort, alloc: Global, parts: ConfigParts) -> Books {
    let mut services = Vec::new(alloc);
    services
        .push(named_book(rt, alloc, "pay", parts))
        .expect(rt, "ample memory");
    Books::new(alloc, services)
}

/// A service of this name with the default classifier, whose configuration has these parts.
pub(crate) fn named_book(
    rt: &impl Abort,
    alloc: Global,
    name: &str,
    parts: ConfigParts,
) -> NamedBook {
    let config = Config::new(parts).expect(rt, "each part in its range");
    let classifier = default_classifier(alloc).expect(rt, "the default classifier");
    let book = Book::open(alloc, config, classifier).expect(rt, "ample memory");
    let name = String::from_str(alloc, name).expect(rt, "ample memory");
    NamedBook {
        name,
        book,
        upkeep: Upkeep::NONE,
    }
}

/// A service of the defaults, as a desk opens it.
pub(crate) fn pay_to_open(rt: &impl Abort, alloc: Global) -> Vec<(String, Config, Verified)> {
    pay_to_open_with(rt, alloc, ConfigParts::DEFAULT)
}

/// A service whose configuration has these parts, as a desk opens it.
pub(crate) fn pay_to_open_with(
    rt: &impl Abort,
    alloc: Global,
    parts: ConfigParts,
) -> Vec<(String, Config, Verified)> {
    let config = Config::new(parts).expect(rt, "each part in its range");
    let classifier = default_classifier(alloc).expect(rt, "the default classifier");
    let name = String::from_str(alloc, "pay").expect(rt, "ample memory");
    let mut services = Vec::new(alloc);
    services
        .push((name, config, classifier))
        .expect(rt, "ample memory");
    services
}

/// A new desk with these services.
pub(crate) fn open_desk<L: Ledger, M: Ledger + Offered, R: Abort>(
    rt: &R,
    alloc: Global,
    entries: Blank,
    cuts: Blank,
    services: Vec<(String, Config, Verified)>,
) -> Desk<L, M>
    requires entries_name { entries.name ≡ L.name }
    requires entries_parts { (entries.parts ≡ L.parts) × (L.parts ≡ 193) }
    requires cuts_name { cuts.name ≡ M.name }
    requires cuts_parts { (cuts.parts ≡ M.parts) × (M.parts ≡ 193) }
    requires offered { M.services ≡ map service_of services.items }
{
    assert!(rt; services.len() <= 64);
    Desk::<L, M>::open(alloc, entries, cuts, services).expect(rt, "ample memory")
}

/// How many entries the journal of the first service has.
pub(crate) fn entries(books: &Books) -> u64 {
    match books.services.first() {
        Some(named) => named.book.last_number(),
        None => u64::MAX,
    }
}

/// The version of new tickets of the first service.
pub(crate) fn version(books: &Books) -> u64 {
    match books.services.first() {
        Some(named) => named.book.read(MOMENT).version,
        None => u64::MAX,
    }
}

/// What is written for an input, and how it ended.
pub(crate) fn served(
    rt: &(impl Wait + Abort),
    alloc: Global,
    books: &mut Books,
    input: &[u8],
) -> (Ended, Vec<u8>) {
    let mut reader = Counted::new(input);
    let mut writer = Counted::new(Vec::new(alloc));
    let ended = serve(rt, alloc, &mut reader, &mut writer, books, &mut Still);
    (ended, writer.into_inner())
}

/// An input is answered so, and serving it ends so.
pub(crate) fn is_answered(
    rt: &(impl Wait + Abort),
    alloc: Global,
    books: &mut Books,
    input: &[u8],
    text: &str,
    end: Ended,
) {
    let (ended, written) = served(rt, alloc, books, input);
    same_at(rt, written.as_slice(), text.as_bytes(), input);
    same_at(rt, ended, end, input);
}

/// Texts, one behind another.
pub(crate) fn joined(rt: &impl Abort, alloc: Global, texts: &[&str]) -> String {
    let mut all = String::new(alloc);
    for text in texts {
        all.push_str(text).expect(rt, "ample memory");
    }
    all
}

/// Gives at most so many bytes a call, but one at least, or takes at most so many; and fails at each call
/// from the k-th on.
#[derive(Drop)]
pub(crate) struct FailsAt<T> {
    pub(crate) inner: T,
    pub(crate) calls_left: u64,
    pub(crate) piece: usize,
}

impl<R: Read> Read for FailsAt<R> {
    ghost remaining = { λ reader. R.remaining reader.inner };

    fn read(&mut self, buf: &mut [u8]) -> io::Result<usize> {
        if self.calls_left == 0 {
            return Err(io::Error::from(io::ErrorKind::ConnectionReset));
        }
        self.calls_left -= 1;
        let count = buf.len().min(self.piece.max(1));
        self.inner.read(&mut buf[..count])
    }
}

impl<W: Write> Write for FailsAt<W> {
    ghost contents = { λ writer. W.contents writer.inner };

    fn write(&mut self, buf: &[u8]) -> io::Result<usize> {
        if self.calls_left == 0 {
            return Err(io::Error::from(io::ErrorKind::ConnectionReset));
        }
        self.calls_left -= 1;
        self.inner.write(&buf[..buf.len().min(self.piece)])
    }

    fn flush(&mut self) -> io::Result<()> {
        self.inner.flush()
    }
}

/// Whether the other side of a connection has sent nothing and ended it, or reset it, as the system does where a
/// listener is closed that didn't accept it.
pub(crate) fn is_unanswered(alloc: Global, stream: &TcpStream) -> bool {
    let mut text = Vec::new(alloc);
    match (&mut &*stream).read_to_end(&mut text) {
        Ok(_) => text.is_empty(),
        Err(error) => text.is_empty() && error.kind() == io::ErrorKind::ConnectionReset,
    }
}

/// A call that asks for a ticket.
pub(crate) const ACQUIRE: &str = "POST /v1/services/pay/acquire HTTP/1.1\r\nHost: a\r\n\r\n";

/// The answer to the first such call.
pub(crate) const ACQUIRED: &str =
    "HTTP/1.1 200 OK\r\nContent-Type: application/json\r\nContent-Length: 41\r\n\r\n{\"state\":\"CLOSED\",\"ticket\":1,\"version\":1}";

/// A page of the journal.
pub(crate) const JOURNAL: &str = "GET /v1/services/pay/journal/1 HTTP/1.1\r\n\r\n";

/// The journal behind the first call for a ticket, at 7.
pub(crate) const ONE_ENTRY: &str =
    "HTTP/1.1 200 OK\r\nContent-Type: application/json\r\nContent-Length: 123\r\n\r\n{\"entries\":[{\"event\":\"acquire\",\"moment\":7,\"number\":1,\"reply\":{\"state\":\"CLOSED\",\"ticket\":1,\"version\":1},\"seat\":1}],\"next\":2}";

/// `mov r0, 2` and `exit`: every outcome is ignored.
pub(crate) const INSTALL: &[u8] =
    b"PUT /v1/services/pay/program HTTP/1.1\r\nContent-Length: 16\r\n\r\n\xb7\x00\x00\x00\x02\x00\x00\x00\x95\x00\x00\x00\x00\x00\x00\x00";

/// The answer to the first program that is installed.
pub(crate) const INSTALLED: &str =
    "HTTP/1.1 200 OK\r\nContent-Type: application/json\r\nContent-Length: 24\r\n\r\n{\"budget\":2,\"version\":2}";
