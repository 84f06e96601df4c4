//! Inputs in pieces and inputs that end early, and readers and writers that fail at each of their calls.
use crate::checks::{same, same_at};
use crate::fixtures::{
    ACQUIRE, ACQUIRED, FailsAt, INSTALL, INSTALLED, JOURNAL, MOMENT, ONE_ENTRY, Still, entries,
    is_answered, pay, version,
};
use book::Reading;
use counted_io::Counted;
use http_front::{Books, Ended, serve};
use std::alloc::Global;
use std::io::Read;
use std::process::Abort;
use std::sync::Wait;

/// An input of one or two messages, with the answers.
#[derive(Drop)]
struct Conversation {
    input: Vec<u8>,
    text: Vec<u8>,
    /// Where the first message ends in the input, and its answer in the text.
    first: (usize, usize),
    /// The version of new tickets afterwards.
    version: u64,
}

impl Conversation {
    fn new(
        rt: &impl Abort,
        alloc: Global,
        messages: &[&[u8]],
        answers: &[&str],
        version: u64,
    ) -> Conversation {
        let mut input = Vec::new(alloc);
        for message in messages {
            let added = input.extend_from_slice(message);
            added.expect(rt, "ample memory");
        }
        let mut text = Vec::new(alloc);
        for answer in answers {
            let added = text.extend_from_slice(answer.as_bytes());
            added.expect(rt, "ample memory");
        }
        let message = messages.first().map_or(0, |first| first.len());
        let answer = answers.first().map_or(0, |first| first.len());
        Conversation {
            input,
            text,
            first: (message, answer),
            version,
        }
    }
}

/// A ticket; a program; and a ticket with the journal behind it. Each makes one entry.
fn conversations(rt: &impl Abort, alloc: Global) -> Vec<Conversation> {
    let rows: &[(&[&[u8]], &[&str], u64)] = &[
        (&[ACQUIRE.as_bytes()], &[ACQUIRED], 1),
        (&[INSTALL], &[INSTALLED], 2),
        (
            &[ACQUIRE.as_bytes(), JOURNAL.as_bytes()],
            &[ACQUIRED, ONE_ENTRY],
            1,
        ),
    ];
    let mut all = Vec::new(alloc);
    for row in rows {
        let (messages, answers, version) = *row;
        let added = all.push(Conversation::new(rt, alloc, messages, answers, version));
        added.expect(rt, "ample memory");
    }
    all
}

/// What an input leaves behind: what is written, how serving ends, how many reads and writes failed, and
/// whether the first message made its entry.
#[derive(Clone, Copy)]
struct Left<'a> {
    text: &'a [u8],
    end: Ended,
    failures: (u64, u64),
    is_applied: bool,
}

/// A service and what was written leave behind what is wanted.
fn leaves(
    rt: &impl Abort,
    said: &Conversation,
    books: &Books,
    text: &[u8],
    ended: (Ended, (u64, u64)),
    wanted: Left<'_>,
    at: u64,
) {
    let (count, number) = if wanted.is_applied {
        (1, said.version)
    } else {
        (0, 1)
    };
    same_at(rt, text, wanted.text, at);
    same_at(rt, ended, (wanted.end, wanted.failures), at);
    same_at(rt, (entries(books), version(books)), (count, number), at);
}

/// Serves a conversation in two pieces.
fn is_cut(rt: &(impl Wait + Abort), alloc: Global, said: &Conversation, cut: usize) {
    assert!(rt; cut <= said.input.len());
    let (front, rest) = said.input.split_at(cut);
    let mut books = pay(rt, alloc);
    let mut reader = Counted::new(front.chain(rest));
    let mut writer = Counted::new(Vec::new(alloc));
    let end = serve(rt, alloc, &mut reader, &mut writer, &mut books, &mut Still);
    let wanted = Left {
        text: &said.text,
        end: Ended::Closed,
        failures: (0, 0),
        is_applied: true,
    };
    let ended = (end, (reader.failures(), writer.failures()));
    leaves(rt, said, &books, writer.inner(), ended, wanted, cut as u64);
}

/// Serves a conversation in two pieces of each size.
fn are_cut(rt: &(impl Wait + Abort), alloc: Global, said: &Conversation) {
    for cut in 0..=said.input.len() {
        is_cut(rt, alloc, said, cut);
    }
}

#[test]
fn cuts_of_the_input_change_nothing(rt: HostRuntime) {
    for said in &conversations(&rt, rt.alloc()) {
        are_cut(&rt, rt.alloc(), said);
    }
}

/// How the first service stands.
fn stands(books: &Books) -> Option<Reading> {
    books.services.first().map(|named| named.book.read(MOMENT))
}

/// A message that ends early does nothing, wherever that is.
fn ends_early(rt: &(impl Wait + Abort), alloc: Global, message: &[u8]) {
    let mut books = pay(rt, alloc);
    let before = stands(&books);
    for size in 0..message.len() {
        let end = match size {
            0 => Ended::Closed,
            _ => Ended::Truncated,
        };
        is_answered(rt, alloc, &mut books, &message[..size], "", end);
        same_at(rt, stands(&books), before, size);
    }
    same(rt, entries(&books), 0);
}

#[test]
fn inputs_that_end_early_do_nothing(rt: HostRuntime) {
    ends_early(&rt, rt.alloc(), ACQUIRE.as_bytes());
    ends_early(&rt, rt.alloc(), INSTALL);
}

/// Serves a conversation; reads and writes give and take at most so many bytes, and fail at these calls.
fn fails(
    rt: &(impl Wait + Abort),
    alloc: Global,
    said: &Conversation,
    piece: usize,
    calls: (u64, u64),
    wanted: Left<'_>,
) {
    let mut books = pay(rt, alloc);
    let mut reader = Counted::new(FailsAt {
        inner: said.input.as_slice(),
        calls_left: calls.0,
        piece,
    });
    let mut writer = Counted::new(FailsAt {
        inner: Vec::new(alloc),
        calls_left: calls.1,
        piece,
    });
    let end = serve(rt, alloc, &mut reader, &mut writer, &mut books, &mut Still);
    let ended = (end, (reader.failures(), writer.failures()));
    let text = writer.inner().inner.as_slice();
    leaves(rt, said, &books, text, ended, wanted, calls.0.min(calls.1));
}

/// A byte a read, and one read more that finds the end.
fn read_fails(rt: &(impl Wait + Abort), alloc: Global, said: &Conversation, reads: usize) {
    let all = said.input.len();
    let (length, is_applied) = if reads >= all {
        (said.text.len(), true)
    } else if reads >= said.first.0 {
        (said.first.1, true)
    } else {
        (0, false)
    };
    let (end, failures) = if reads > all {
        (Ended::Closed, (0, 0))
    } else {
        (Ended::ReadFailed, (1, 0))
    };
    let wanted = Left {
        text: said.text.get(..length).expect(rt, "a beginning"),
        end,
        failures,
        is_applied,
    };
    fails(rt, alloc, said, 1, (reads as u64, u64::MAX), wanted);
}

/// In one piece: the first read fails, or the one behind all messages.
fn read_of_all_fails(
    rt: &(impl Wait + Abort),
    alloc: Global,
    said: &Conversation,
    is_applied: bool,
) {
    let wanted = Left {
        text: if is_applied { &said.text } else { b"" },
        end: Ended::ReadFailed,
        failures: (1, 0),
        is_applied,
    };
    let calls = (u64::from(is_applied), u64::MAX);
    fails(rt, alloc, said, 4_096, calls, wanted);
}

/// Each read of a conversation fails in turn.
fn reads_fail(rt: &(impl Wait + Abort), alloc: Global, said: &Conversation) {
    for reads in 0..=said.input.len().saturating_add(1) {
        read_fails(rt, alloc, said, reads);
    }
    read_of_all_fails(rt, alloc, said, false);
    read_of_all_fails(rt, alloc, said, true);
}

#[test]
fn failed_reads_leave_the_whole_messages(rt: HostRuntime) {
    for said in &conversations(&rt, rt.alloc()) {
        reads_fail(&rt, rt.alloc(), said);
    }
}

/// A byte a write: what is asked is done, and the text is cut.
fn write_fails(rt: &(impl Wait + Abort), alloc: Global, said: &Conversation, writes: usize) {
    let (end, failures) = if writes < said.text.len() {
        (Ended::WriteFailed, (0, 1))
    } else {
        (Ended::Closed, (0, 0))
    };
    let wanted = Left {
        text: said.text.get(..writes).expect(rt, "a beginning"),
        end,
        failures,
        is_applied: true,
    };
    fails(rt, alloc, said, 1, (u64::MAX, writes as u64), wanted);
}

/// What is left where no byte is written.
const UNWRITTEN: Left<'static> = Left {
    text: b"",
    end: Ended::WriteFailed,
    failures: (0, 1),
    is_applied: true,
};

/// Each write of a conversation fails in turn, and then that of a whole answer.
fn writes_fail(rt: &(impl Wait + Abort), alloc: Global, said: &Conversation) {
    for writes in 0..=said.text.len() {
        write_fails(rt, alloc, said, writes);
    }
    fails(rt, alloc, said, 4_096, (u64::MAX, 0), UNWRITTEN);
}

#[test]
fn failed_writes_leave_a_beginning(rt: HostRuntime) {
    for said in &conversations(&rt, rt.alloc()) {
        writes_fail(&rt, rt.alloc(), said);
    }
}

#[test]
fn writes_that_take_nothing_fail(rt: HostRuntime) {
    for said in &conversations(&rt, rt.alloc()) {
        fails(&rt, rt.alloc(), said, 0, (u64::MAX, u64::MAX), UNWRITTEN);
    }
}
