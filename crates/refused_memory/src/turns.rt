//! Asks a service by two connections that are served in turns, with messages that may want memory. Where a request for
//! memory is refused, the answer is a whole one that memory is wanting, or that connection ends for it with the answers
//! before it; and the other one is answered all the same.
use crate::counting::Refusals;
use crate::messages::{ROOM, Still, all_requests, are_answers, begins_with_refusal, opened, right};
use counted_io::{Halves, Wire};
use http_connection::{Connection, Intake, Turned, turn};
use http_front::{Books, Ended, HttpResponder};
use std::alloc::{AllocError, Global};
use std::io;
use std::io::Write;

/// More turns than a connection takes.
const MOST_TURNS: u32 = 100;

/// A message that asks for nothing that there is, and its answer.
const NO_ROUTE: &[u8] = b"GET / HTTP/1.1\r\n\r\n";

const NOT_FOUND: &[u8] =
    b"HTTP/1.1 404 Not Found\r\nContent-Type: application/json\r\nContent-Length: 29\r\n\r\n{\"error\":56,\"name\":\"NoRoute\"}";

/// What serving in turns needs beside a connection.
#[derive(Drop)]
struct Tools {
    responder: HttpResponder,
    intake: Intake,
}

impl Tools {
    fn new(alloc: Global) -> Result<Tools, AllocError> {
        let responder = HttpResponder::new(alloc)?;
        let intake = Intake::new(alloc)?;
        Ok(Tools { responder, intake })
    }
}

/// Makes them, and once more where memory is refused.
fn made_tools(refusals: &mut Refusals, alloc: Global) -> Result<Tools, AllocError> {
    if let Ok(tools) = Tools::new(alloc) {
        return Ok(tools);
    }
    refusals.count();
    Tools::new(alloc)
}

/// Gives a connection turns until it ends: how it ended, and how many bytes were written.
fn served(
    alloc: Global,
    tools: &mut Tools,
    books: &mut Books,
    input: &[u8],
    room: &mut [u8],
) -> (Option<Ended>, usize) {
    let size = room.len();
    let mut connection = Connection::new(alloc);
    let mut wire = Wire::new(Halves {
        reader: input,
        writer: room,
    });
    for _ in 0..MOST_TURNS {
        let Tools { responder, intake } = &mut *tools;
        let turned = turn(
            &mut connection,
            intake,
            &mut wire,
            &*responder,
            books,
            &mut Still,
        );
        connection.rest(alloc);
        if let Turned::Ended(ended) = turned {
            return (Some(ended), size.saturating_sub(wire.inner().writer.len()));
        }
    }
    (None, 0)
}

/// Whether all messages are answered, or a first part of them.
fn are_answered(
    refusals: &mut Refusals,
    alloc: Global,
    tools: &mut Tools,
    books: &mut Books,
) -> io::Result<bool> {
    let mut input = [0; ROOM];
    let size = all_requests(&mut input)?;
    let mut room = [0; ROOM];
    let (ended, written) = served(
        alloc,
        tools,
        books,
        input.get(..size).unwrap_or(&[]),
        &mut room,
    );
    match ended {
        Some(ended) => Ok(are_answers(refusals, ended, room.get(..written).unwrap_or(&[]))),
        None => Ok(false),
    }
}

/// Whether another connection is answered. It finds no memory only where none was refused before.
fn is_answered_beside(
    refusals: &mut Refusals,
    alloc: Global,
    tools: &mut Tools,
    books: &mut Books,
) -> bool {
    let mut room = [0; ROOM];
    let (ended, written) = served(alloc, tools, books, NO_ROUTE, &mut room);
    let text = room.get(..written).unwrap_or(&[]);
    if ended == Some(Ended::Closed) && text == NOT_FOUND {
        return true;
    }
    let is_first = refusals.0 == 0;
    refusals.count();
    match ended {
        Some(Ended::Closed) => is_first && begins_with_refusal(text),
        Some(Ended::OutOfMemory) => is_first && text.is_empty(),
        _ => false,
    }
}

/// Prints whether messages are answered as they should be.
pub(crate) fn ask_in_turns(
    refusals: &mut Refusals,
    alloc: Global,
    out: &mut impl Write,
) -> io::Result<()> {
    let mut books = opened(refusals, alloc)?;
    let Ok(mut tools) = made_tools(refusals, alloc) else {
        return writeln!(out, "messages in turns: there is no memory");
    };
    let first = are_answered(refusals, alloc, &mut tools, &mut books)?;
    let beside = is_answered_beside(refusals, alloc, &mut tools, &mut books);
    writeln!(out, "messages in turns: {}", right(first && beside))
}
