//! Asks a service over HTTP with messages that may want memory, each on a connection of its own, and all of
//! them on one. Where a request for memory is refused, the answer is a whole one that memory is wanting, and
//! nothing has changed; or serving ends for it with the answers before it, and then nothing has changed, or
//! what was asked stands in the journal.
use crate::counting::{Refusals, TRIES, wrong};
use book::{Book, Config, ConfigParts, Reading};
use counted_io::Counted;
use http_front::{Books, Clock, Ended, NamedBook, serve};
use service::Upkeep;
use std::alloc::Global;
use std::io;
use std::io::Write;
use std::sync::Wait;
use verifier::default_classifier;

/// More bytes than all messages have, and more than all answers.
pub(crate) const ROOM: usize = 4_096;

/// A message, its answer where memory is ample, and how many entries the journal has then.
#[derive(Clone, Copy, Debug)]
struct Message {
    request: &'static [u8],
    answer: &'static [u8],
    entries: u64,
}

/// A ticket, a report, a program (`mov r0, 2` and `exit`), how the service stands, and the journal.
const MESSAGES: [Message; 5] = [
    Message {
        request: b"POST /v1/services/pay/acquire HTTP/1.1\r\n\r\n",
        answer: b"HTTP/1.1 200 OK\r\nContent-Type: application/json\r\nContent-Length: 41\r\n\r\n{\"state\":\"CLOSED\",\"ticket\":1,\"version\":1}",
        entries: 1,
    },
    Message {
        request: b"POST /v1/services/pay/report HTTP/1.1\r\nContent-Length: 52\r\n\r\n{\"ticket\":1,\"outcome\":{\"status\":500,\"tag\":\"706179\"}}",
        answer: b"HTTP/1.1 200 OK\r\nContent-Type: application/json\r\nContent-Length: 78\r\n\r\n{\"fate\":\"recorded\",\"state\":\"CLOSED\",\"steps\":6,\"verdict\":\"failure\",\"version\":1}",
        entries: 2,
    },
    Message {
        request: b"PUT /v1/services/pay/program HTTP/1.1\r\nContent-Length: 16\r\n\r\n\xb7\x00\x00\x00\x02\x00\x00\x00\x95\x00\x00\x00\x00\x00\x00\x00",
        answer: b"HTTP/1.1 200 OK\r\nContent-Type: application/json\r\nContent-Length: 24\r\n\r\n{\"budget\":2,\"version\":2}",
        entries: 3,
    },
    Message {
        request: b"GET /v1/services/pay/state HTTP/1.1\r\n\r\n",
        answer: b"HTTP/1.1 200 OK\r\nContent-Type: application/json\r\nContent-Length: 161\r\n\r\n{\"budget\":2,\"entries\":3,\"failed\":1,\"failureRate\":-1,\"free\":25,\"notPermitted\":0,\"open\":0,\"period\":1,\"slow\":0,\"slowRate\":-1,\"state\":\"CLOSED\",\"total\":1,\"version\":2}",
        entries: 3,
    },
    Message {
        request: b"GET /v1/services/pay/journal/1 HTTP/1.1\r\n\r\n",
        answer: b"HTTP/1.1 200 OK\r\nContent-Type: application/json\r\nContent-Length: 355\r\n\r\n{\"entries\":[{\"event\":\"acquire\",\"moment\":7,\"number\":1,\"reply\":{\"state\":\"CLOSED\",\"ticket\":1,\"version\":1},\"seat\":1},{\"event\":\"report\",\"moment\":7,\"number\":2,\"reply\":{\"fate\":\"recorded\",\"state\":\"CLOSED\",\"steps\":6,\"verdict\":\"failure\",\"version\":1},\"seat\":1,\"ticket\":1},{\"event\":\"install\",\"moment\":7,\"number\":3,\"reply\":{\"budget\":2,\"version\":2},\"seat\":1}],\"next\":4}",
        entries: 3,
    },
];

/// Memory is wanting for a program.
const NO_MEMORY_FOR_A_PROGRAM: &[u8] =
    b"HTTP/1.1 503 Service Unavailable\r\nContent-Type: application/json\r\nContent-Length: 42\r\n\r\n{\"error\":23,\"name\":\"OutOfMemory\",\"slot\":0}";

/// Memory is wanting for a service.
const NO_MEMORY_FOR_A_SERVICE: &[u8] =
    b"HTTP/1.1 503 Service Unavailable\r\nContent-Type: application/json\r\nContent-Length: 33\r\n\r\n{\"error\":38,\"name\":\"OutOfMemory\"}";

/// A clock that stands at 7.
#[derive(Drop)]
pub(crate) struct Still;

impl Clock for Still {
    ghost use Rattle.std.specs.Prelude.{◌≡◌};

    ghost ticks = { λ old moment new. moment ≡ 7 };

    fn now_ms(&mut self) -> u64 {
        7
    }
}

/// A service of the defaults under the name `pay`, or nothing without memory.
fn opening(alloc: Global, config: Config) -> Option<Books> {
    let classifier = default_classifier(alloc).ok()?;
    let book = Book::open(alloc, config, classifier).ok()?;
    let name = String::from_str(alloc, "pay").ok()?;
    let mut services = Vec::new(alloc);
    services
        .push(NamedBook {
            name,
            book,
            upkeep: Upkeep::NONE,
        })
        .ok()?;
    Some(Books::new(alloc, services))
}

pub(crate) fn opened(refusals: &mut Refusals, alloc: Global) -> io::Result<Books> {
    if let Ok(config) = Config::new(ConfigParts::DEFAULT) {
        for _ in 0..TRIES {
            if let Some(books) = opening(alloc, config) {
                return Ok(books);
            }
            refusals.count();
        }
    }
    Err(wrong())
}

/// How the service stands, with how many entries there are.
fn standing(books: &Books) -> Option<(Reading, u64)> {
    let service = books.services.first()?;
    Some((service.book.read(7), service.book.last_number()))
}

fn entries(books: &Books) -> u64 {
    match standing(books) {
        Some((_, entries)) => entries,
        None => u64::MAX,
    }
}

/// Serves an input into a room: how it ended, and how many bytes were written.
fn served(
    rt: &impl Wait,
    alloc: Global,
    books: &mut Books,
    input: &[u8],
    room: &mut [u8],
) -> (Ended, usize) {
    let size = room.len();
    let mut reader = Counted::new(input);
    let mut writer = Counted::new(room);
    let ended = serve(rt, alloc, &mut reader, &mut writer, books, &mut Still);
    (ended, size.saturating_sub(writer.inner().len()))
}

pub(crate) fn begins_with_refusal(text: &[u8]) -> bool {
    text.starts_with(NO_MEMORY_FOR_A_PROGRAM) || text.starts_with(NO_MEMORY_FOR_A_SERVICE)
}

/// Whether nothing but a refusal was answered, or serving ended for want of memory with no answer.
fn is_wanting(ended: Ended, text: &[u8]) -> bool {
    match ended {
        Ended::Closed => text == NO_MEMORY_FOR_A_PROGRAM || text == NO_MEMORY_FOR_A_SERVICE,
        Ended::OutOfMemory => text.is_empty(),
        _ => false,
    }
}

/// Sends a message on a connection of its own, and once more where memory was wanting and nothing was
/// done. Whether all was as it should be.
fn is_answered(
    rt: &impl Wait,
    refusals: &mut Refusals,
    alloc: Global,
    books: &mut Books,
    message: &Message,
) -> bool {
    for _ in 0..TRIES {
        let before = standing(books);
        let mut room = [0; ROOM];
        let (ended, size) = served(rt, alloc, books, message.request, &mut room);
        let text = room.get(..size).unwrap_or(&[]);
        if ended == Ended::Closed && text == message.answer {
            return entries(books) == message.entries;
        }
        if !is_wanting(ended, text) {
            return false;
        }
        refusals.count();
        if standing(books) != before {
            return ended == Ended::OutOfMemory && entries(books) == message.entries;
        }
    }
    false
}

/// Whether all messages are answered, each on a connection of its own.
fn are_answered_apart(rt: &impl Wait, refusals: &mut Refusals, alloc: Global) -> io::Result<bool> {
    let mut books = opened(refusals, alloc)?;
    for message in &MESSAGES {
        if !is_answered(rt, refusals, alloc, &mut books, message) {
            return Ok(false);
        }
    }
    Ok(true)
}

/// Whether a text is all answers; or the first ones, and then a refusal in place of the next one, or the
/// end for want of memory.
pub(crate) fn are_answers(refusals: &mut Refusals, ended: Ended, text: &[u8]) -> bool {
    let mut rest = text;
    for message in &MESSAGES {
        match rest.strip_prefix(message.answer) {
            Some(more) => rest = more,
            None => {
                refusals.count();
                return match ended {
                    Ended::Closed => begins_with_refusal(rest),
                    Ended::OutOfMemory => rest.is_empty(),
                    _ => false,
                };
            }
        }
    }
    ended == Ended::Closed && rest.is_empty()
}

/// Writes all messages one behind another, and answers how many bytes they have.
pub(crate) fn all_requests(input: &mut [u8]) -> io::Result<usize> {
    let room = input.len();
    let mut left = input;
    for message in &MESSAGES {
        left.write_all(message.request)?;
    }
    Ok(room.saturating_sub(left.len()))
}

/// Whether all messages are answered on one connection.
fn are_answered_together(
    rt: &impl Wait,
    refusals: &mut Refusals,
    alloc: Global,
) -> io::Result<bool> {
    let mut books = opened(refusals, alloc)?;
    let mut input = [0; ROOM];
    let size = all_requests(&mut input)?;
    let mut room = [0; ROOM];
    let input = input.get(..size).unwrap_or(&[]);
    let (ended, written) = served(rt, alloc, &mut books, input, &mut room);
    let text = room.get(..written).unwrap_or(&[]);
    Ok(are_answers(refusals, ended, text))
}

pub(crate) fn right(is: bool) -> &'static str {
    if is { "right" } else { "wrong" }
}

/// Prints whether messages are answered as they should be.
pub(crate) fn ask_over_http(
    rt: &impl Wait,
    refusals: &mut Refusals,
    alloc: Global,
    out: &mut impl Write,
) -> io::Result<()> {
    let apart = are_answered_apart(rt, refusals, alloc)?;
    let together = are_answered_together(rt, refusals, alloc)?;
    writeln!(
        out,
        "messages on connections of their own: {}",
        right(apart)
    )?;
    writeln!(out, "messages on one connection: {}", right(together))
}
